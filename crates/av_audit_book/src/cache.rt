//! Slots that are cached, and those in flight.

ghost use Rattle.std.specs.Prelude.{◌≡◌, IfOk, OnOk, map};
ghost use Rattle.av_plain.specs.Event.{into_cache, off_cache, off_flight, settle};
ghost use Rattle.av_plain.specs.Event.{with_stale as with_stale_of};
ghost use Rattle.av_plain.specs.Ledger.{frame_at, in_flight, is_cached, is_free, is_orphan};
ghost use Rattle.av_plain.specs.Ledger.{is_stale, slot_of};
ghost use Rattle.av_audit_pages.specs.Entries.{cached_of, stale_at};
ghost use Rattle.av_audit_book.specs.Book.{ledger_of};

use crate::book::Book;
use av_audit_pages::{Cached, PairChange};
use av_base::Slot;
use std::alloc::{AllocError, Global};

impl Book {
    /// The slot at which the frame is cached, if it is.
    pub fn slot_of(&self, frame: u32) -> Option<Slot>
        ensures { result ≡ slot_of (ledger_of self.now) frame }
    {
        self.pages.slot_of(frame)
    }

    /// The frame that caches the slot, if one does.
    pub fn frame_at(&self, slot: Slot) -> Option<u32>
        ensures { result ≡ frame_at (ledger_of self.now) slot }
    {
        self.pages.frame_at(slot)
    }

    /// Whether the slot is cached.
    pub fn is_cached(&self, slot: Slot) -> bool
        ensures { result ≡ is_cached (ledger_of self.now) slot }
    {
        self.pages.slot_pairs(slot) > 0
    }

    /// Whether its page changed since its last write began.
    pub fn is_stale(&self, slot: Slot) -> bool
        ensures { result ≡ is_stale (ledger_of self.now) slot }
    {
        self.pages.is_stale(slot)
    }

    /// Whether a write of the slot is in flight.
    pub fn is_flying(&self, slot: Slot) -> bool
        ensures { result ≡ in_flight (ledger_of self.now) slot }
    {
        self.flight.contains(slot)
    }

    /// The slots in flight, those whose writes began first in front.
    pub fn slots_in_flight(&self, alloc: Global) -> Result<Vec<Slot>, AllocError>
        ensures { IfOk result (λ slots. slots.items ≡ (ledger_of self.now).flight) }
    {
        self.flight.iter().copied().collect(alloc)
    }

    /// Whether nothing names the frame.
    pub fn is_free(&self, frame: u32) -> bool
        ensures { result ≡ is_free (ledger_of self.now) frame }
    {
        !self.pages.is_frame_used(frame)
    }

    /// Whether the slot is cached in vain.
    pub fn is_orphan(&self, slot: Slot) -> bool
        ensures { result ≡ is_orphan (ledger_of self.now) slot }
    {
        match self.frame_at(slot) {
            None => false,
            Some(frame) => {
                self.maps(frame) == 0 && !self.is_flying(slot) && self.names(slot) == 0
            }
        }
    }

    /// A frame that is free leaves its list.
    pub fn settle(&mut self, frame: u32)
        ensures { ledger_of self.new ≡ settle frame (ledger_of self.old) }
    {
        if self.is_free(frame) {
            self.off_lists(frame);
        }
    }

    /// The cached slot is stale, or is not. Without memory a part may be done.
    pub fn set_stale(&mut self, stale: bool, slot: Slot) -> Result<(), AllocError>
        ensures { OnOk result (ledger_of self.new ≡ with_stale_of stale slot (ledger_of self.old)) }
    {
        self.pages.change_pairs(PairChange::Stale { slot, stale })
    }

    /// The slot is cached at the frame. Without memory all stays.
    pub fn into_cache(&mut self, slot: Slot, frame: u32, stale: bool) -> Result<(), AllocError>
        ensures { OnOk result (ledger_of self.new
            ≡ into_cache slot frame stale (ledger_of self.old)) }
    {
        self.pages.into_cache(Cached { slot, frame, stale })
    }

    /// The slot is cached no longer.
    pub fn off_cache(&mut self, slot: Slot)
        ensures { ledger_of self.new ≡ off_cache slot (ledger_of self.old) }
    {
        self.pages.off_cache(slot);
    }

    /// The slot is in flight no longer.
    pub fn off_flight(&mut self, slot: Slot)
        ensures { ledger_of self.new ≡ off_flight slot (ledger_of self.old) }
    {
        self.flight.remove(slot);
    }
}
