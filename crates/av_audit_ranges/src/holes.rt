//! An index of the holes between what is mapped.

ghost use Rattle.std.specs.Prelude.{◌≡◌, ℕ, ◌+◌, ◌<◌, ◌≤◌, true, false, if◌then◌else◌};
ghost use Rattle.std.specs.Prelude.{MatchOption, OnErr, OnOk};
ghost use Rattle.av_base.specs.Keys.{same_key};
ghost use Rattle.av_base.specs.Limits.{top_page};
ghost use Rattle.av_audit_ranges.specs.Holes.{AllShorter, AreShorter, Hole, IsHighest, IsLongest};
ghost use Rattle.av_audit_ranges.specs.Holes.{is_noted};

use std::alloc::{AllocError, Global};
use std::collections::BTreeSet;
use std::marker::Model;

/// The holes, each by its length and its first page, in pages.
#[derive(Drop)]
pub struct Holes {
    pairs: BTreeSet<(u64, u64)>,
}

impl Model for Holes {
    ghost use Rattle.std.specs.Prelude.{List};
    ghost use Rattle.av_audit_ranges.specs.Holes.{AreWithin, Hole};

    ghost Value = { List Hole };

    ghost view = { λ a. a.pairs.keys };

    ghost invariant = { λ a. AreWithin a.pairs.keys };
}

impl Holes {
    /// There is no hole.
    pub fn new(alloc: Global) -> Holes
        ensures { (hole : Hole) → is_noted result hole ≡ false }
    {
        Holes {
            pairs: BTreeSet::new(alloc),
        }
    }

    /// There is a hole. Without memory all stays.
    pub fn put(&mut self, length: u64, start: u64) -> Result<(), AllocError>
        requires some { 0 < length }
        requires fits { start + length ≤ top_page }
        ensures ok { OnOk result ((hole : Hole) → is_noted self.new hole
            ≡ (if same_key (length, start) hole then true else is_noted self.old hole)) }
        ensures err { OnErr result (self.new ≡ self.old) }
    {
        self.pairs.insert((length, start))?;
        Ok(())
    }

    /// There is a hole no longer.
    pub fn take(&mut self, length: u64, start: u64)
        ensures { (hole : Hole) → is_noted self.new hole
            ≡ (if same_key (length, start) hole then false else is_noted self.old hole) }
    {
        self.pairs.remove(&(length, start));
    }

    /// The last of the longest holes of fewer than so many pages, if it has `n`.
    fn longest(&self, n: u64, fewer: u64) -> Option<(u64, u64)>
        ensures { MatchOption result (AreShorter self.now n fewer)
            (λ hole. IsLongest self.now n fewer hole) }
    {
        let (length, start) = *self.pairs.range(..(fewer, 0)).next_back()?;
        if length < n {
            return None;
        }
        Some((length, start))
    }

    /// The greatest page from which on n pages lie in a hole.
    pub fn highest(&self, n: u64) -> Option<u64>
        requires { 0 < n }
        ensures { MatchOption result (AllShorter self.now n) (λ page. IsHighest self.now n page) }
    {
        // By what holds of all holes, none has as many pages as a number can say.
        let _ = &self.pairs;
        let mut end: u64 = 0;
        let mut fewer = u64::MAX;
        while let Some((length, start)) = self.longest(n, fewer) {
            end = end.max(start + length);
            fewer = length;
        }
        end.checked_sub(n)
    }
}
