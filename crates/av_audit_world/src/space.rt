//! What a process has mapped, as data.

ghost use Rattle.std.specs.Prelude.{◌≡◌};
ghost use Rattle.std.specs.BTreeMap.{get};
ghost use Rattle.std.specs.Ordering.{nat_cmp};
ghost use Rattle.av_plain.specs.World.{no_pages};
ghost use Rattle.av_audit_ranges.specs.Ranges.{marks_at};
ghost use Rattle.av_audit_world.specs.Space.{IsSpace, bytes_in};

use crate::kept::Kept;
use av_audit_ranges::{Marks, Ranges};
use std::alloc::Global;
use std::collections::BTreeMap;

/// What a process has mapped, and the bytes of the pages that were written. A byte past those that
/// are kept is 0.
#[derive(Drop)]
pub struct Space {
    pub(crate) alloc: Global,
    pub(crate) ranges: Ranges,
    pub(crate) bytes: Kept,
}

impl Space {
    /// Nothing is mapped.
    pub fn new(alloc: Global) -> Space
        ensures { IsSpace result no_pages }
    {
        Space {
            alloc,
            ranges: Ranges::new(alloc),
            bytes: BTreeMap::new(alloc),
        }
    }

    /// What is said of each page.
    pub fn ranges(&self) -> &Ranges
        ensures { result.now ≡ self.now.ranges }
    {
        &self.ranges
    }

    /// What is said of a page, if it is mapped.
    pub fn marks(&self, page: u64) -> Option<Marks>
        ensures { result ≡ marks_at self.now.ranges page }
    {
        self.ranges.marks(page)
    }

    /// The bytes that are kept of a page. Those past their end are 0.
    pub fn bytes_of(&self, page: u64) -> &[u8]
        ensures { result.now ≡ bytes_in (get nat_cmp self.now.bytes page) }
    {
        match self.bytes.get(&page) {
            None => &[],
            Some(kept) => kept.as_ref().as_slice(),
        }
    }
}
