//! Entries of pages, and cached pairs.

use av_base::Slot;

/// What a page's entry is.
#[derive(Clone, Copy, Drop)]
pub enum Entry {
    Zero,
    InFrame { frame: u32, seen: bool },
    InSlot(Slot),
}

/// A slot, the frame that caches it, and whether the page changed since its last write began.
#[derive(Clone, Copy, Drop)]
pub struct Cached {
    pub slot: Slot,
    pub frame: u32,
    pub stale: bool,
}
