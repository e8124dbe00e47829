//! The entries of a book.

ghost use Rattle.std.specs.Prelude.{◌≡◌, ◌^◌, ◌<◌, IfOk, OnOk, option_map};
ghost use Rattle.av_base.specs.Words.{how_many};
ghost use Rattle.av_plain.specs.Event.{change_entries, set_entry, without_seen};
ghost use Rattle.av_plain.specs.Ledger.{InSlot as NamesSlot, entry, map_count, slot_entries};
ghost use Rattle.av_plain.specs.Ledger.{keys_of_slot, walk};
ghost use Rattle.av_plain.specs.Reclaim.{is_referenced};
ghost use Rattle.av_audit_pages.specs.Entries.{entry_of};
ghost use Rattle.av_audit_book.specs.Book.{ledger_of, without_entry};

use crate::book::Book;
use av_audit_pages::{Change, Entry};
use av_base::Slot;
use std::alloc::{AllocError, Global};
use std::collections::BTreeMap;

impl Book {
    /// The entry of a page, if it has one.
    pub fn entry(&self, process: u16, page: u64) -> Option<Entry>
        ensures { option_map entry_of result ≡ entry (ledger_of self.now) (process, page) }
    {
        self.pages.entries().get(&(process, page)).copied()
    }

    /// The page has this entry now. Without memory it may have lost the one that it had.
    pub fn set(&mut self, process: u16, page: u64, entry: Entry) -> Result<(), AllocError>
        ensures { OnOk result (ledger_of self.new
            ≡ set_entry (process, page) (entry_of entry) (ledger_of self.old)) }
    {
        self.pages.set(process, page, entry)
    }

    /// The entries, by process and page.
    pub fn entries(&self) -> &BTreeMap<(u16, u64), Entry>
        ensures { result.now.entries ≡ self.now.pages.entries }
    {
        self.pages.entries()
    }

    /// The entry of a page goes, if it has one.
    pub fn remove(&mut self, process: u16, page: u64) -> Option<Entry>
        ensures entry { option_map entry_of result ≡ entry (ledger_of self.old) (process, page) }
        ensures others { ledger_of self.new
            ≡ without_entry (process, page) (ledger_of self.old) }
    {
        self.pages.remove(process, page)
    }

    /// The keys of the entries that name a frame, by process and page.
    pub fn keys_of_frame(&self, alloc: Global, frame: u32) -> Result<Vec<(u16, u64)>, AllocError>
        ensures { IfOk result (λ keys. keys.items ≡ walk (ledger_of self.now) frame) }
    {
        self.pages.keys_of_frame(alloc, frame)
    }

    /// The keys of the entries that name a slot, by process and page.
    pub fn keys_of_slot(&self, alloc: Global, slot: Slot) -> Result<Vec<(u16, u64)>, AllocError>
        ensures { IfOk result (λ keys. keys.items ≡ keys_of_slot (ledger_of self.now) slot) }
    {
        self.pages.keys_of_slot(alloc, slot)
    }

    /// How many entries name the frame.
    pub fn maps(&self, frame: u32) -> u64
        ensures { result ≡ map_count (ledger_of self.now) frame }
    {
        self.pages.frame_names(frame)
    }

    /// How many entries name the slot.
    pub fn names(&self, slot: Slot) -> u64
        ensures names { result ≡ slot_entries (ledger_of self.now) slot }
        ensures fits { result < 2 ^ 63 }
    {
        self.pages.slot_names(slot)
    }

    /// Whether an entry of the frame is seen.
    pub fn is_referenced(&self, frame: u32) -> bool
        ensures { result ≡ is_referenced (ledger_of self.now) frame }
    {
        self.pages.is_seen(frame)
    }

    /// The frame's entries are unseen. Without memory a part may be done.
    pub fn unsee(&mut self, frame: u32) -> Result<(), AllocError>
        ensures { OnOk result (ledger_of self.new
            ≡ change_entries frame without_seen (ledger_of self.old)) }
    {
        self.pages.unsee(self.alloc, frame)
    }

    /// The frame's entries name the slot. Without memory a part may be done.
    pub fn unmap(&mut self, frame: u32, slot: Slot) -> Result<(), AllocError>
        ensures { OnOk result (ledger_of self.new
            ≡ change_entries frame (λ _. NamesSlot slot) (ledger_of self.old)) }
    {
        self.pages.change(self.alloc, frame, Change::ToSlot(slot))
    }
}
