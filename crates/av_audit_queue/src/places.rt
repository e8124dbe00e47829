//! Names, and the ranks at which they stand.

ghost use Rattle.std.specs.Prelude.{◌≡◌, ◌+◌, [], OnErr, OnOk, false, true};
ghost use Rattle.av_audit_queue.specs.Places.{IsLeastFrom, Sets};

use std::alloc::{AllocError, Global};
use std::collections::BTreeSet;
use std::marker::Model;
use std::ops::Bound;

/// Each name with its ranks. A name may stand at several, and a rank have several.
#[derive(Drop)]
pub struct Places {
    places: BTreeSet<((u8, u32), u64)>,
}

impl Model for Places {
    ghost use Rattle.std.specs.Prelude.{List};
    ghost use Rattle.av_audit_queue.specs.Places.{Place};

    ghost Value = { List Place };

    ghost view = { λ a. a.places.keys };
}

impl Places {
    /// No name stands anywhere.
    pub fn new(alloc: Global) -> Places
        ensures { result ≡ [] }
    {
        Places {
            places: BTreeSet::new(alloc),
        }
    }

    /// The least rank at which the name stands.
    pub fn first(&self, name: (u8, u32)) -> Option<u64>
        ensures { IsLeastFrom self.now name 0 result }
    {
        let (least, rank) = self.places.range((name, 0)..).next()?;
        if *least != name {
            return None;
        }
        Some(*rank)
    }

    /// The least rank behind this one at which the name stands.
    pub fn next(&self, name: (u8, u32), rank: u64) -> Option<u64>
        ensures { IsLeastFrom self.now name (rank + 1) result }
    {
        let behind = (Bound::Excluded((name, rank)), Bound::Unbounded);
        let (least, rank) = self.places.range(behind).next()?;
        if *least != name {
            return None;
        }
        Some(*rank)
    }

    /// The name stands at the rank. Without memory all stays.
    pub fn add(&mut self, name: (u8, u32), rank: u64) -> Result<(), AllocError>
        ensures ok { OnOk result (Sets name rank true self.old self.new) }
        ensures err { OnErr result (self.new ≡ self.old) }
    {
        self.places.insert((name, rank))?;
        Ok(())
    }

    /// The name doesn't stand at the rank.
    pub fn take(&mut self, name: (u8, u32), rank: u64)
        ensures { Sets name rank false self.old self.new }
    {
        self.places.remove(&(name, rank));
    }
}
