//! The ledger after a note.

ghost use Rattle.std.specs.Prelude.{◌≡◌, OnOk, false, option_map, true};
ghost use Rattle.av_plain.specs.Event.{after_note, change_frame, set_entry, settle_entry};
ghost use Rattle.av_plain.specs.Event.{to_inactive_head};
ghost use Rattle.av_plain.specs.Ledger.{InFrame as NamesFrame};
ghost use Rattle.av_trace.specs.declared.note.Note.TheVariants as notes;
ghost use Rattle.av_audit_pages.specs.Entries.{entry_of};
ghost use Rattle.av_audit_book.specs.Book.{ledger_of};
ghost use Rattle.av_audit_book.specs.Follow.{tells_page};

use crate::book::Book;
use av_audit_pages::Entry;
use av_base::Slot;
use av_trace::{Cause, Note};
use std::alloc::AllocError;

impl Book {
    /// A page's entry is a frame. Without memory it may have none.
    fn map(&mut self, process: u16, page: u64, frame: u32) -> Result<(), AllocError>
        ensures { OnOk result (ledger_of self.new
            ≡ set_entry (process, page) (NamesFrame frame false) (ledger_of self.old)) }
    {
        self.set(process, page, Entry::InFrame { frame, seen: false })
    }

    /// A page gets a frame. Without memory a part may be done.
    fn frame_up(&mut self, process: u16, page: u64, frame: u32) -> Result<(), AllocError>
        ensures { OnOk result (ledger_of self.new ≡ to_inactive_head frame
            (set_entry (process, page) (NamesFrame frame false) (ledger_of self.old))) }
    {
        self.map(process, page, frame)?;
        self.to_inactive_head(frame)
    }

    /// A page's entry names another frame. Without memory a part may be done.
    fn change_frame(&mut self, process: u16, page: u64, frame: u32) -> Result<(), AllocError>
        ensures { OnOk result (ledger_of self.new
            ≡ change_frame (process, page) frame (ledger_of self.old)) }
    {
        let entry = self.entry(process, page);
        self.map(process, page, frame)?;
        self.settle_entry(entry);
        Ok(())
    }

    /// The frame of an entry that has gone leaves its list where it is free now.
    pub fn settle_entry(&mut self, entry: Option<Entry>)
        ensures { ledger_of self.new
            ≡ settle_entry (option_map entry_of entry) (ledger_of self.old) }
    {
        if let Some(Entry::InFrame { frame, .. }) = entry {
            self.settle(frame);
        }
    }

    /// A page gets a copy. Without memory a part may be done.
    fn follow_copy(&mut self, process: u16, page: u64, frame: u32) -> Result<(), AllocError>
        ensures { OnOk result (ledger_of self.new ≡ to_inactive_head frame
            (change_frame (process, page) frame (ledger_of self.old))) }
    {
        self.change_frame(process, page, frame)?;
        self.to_inactive_head(frame)
    }

    /// A frame takes a slot's page. Without memory a part may be done.
    fn follow_load(&mut self, slot: Slot, frame: u32) -> Result<(), AllocError>
        ensures { OnOk result (ledger_of self.new
            ≡ after_note (notes.Loaded slot frame) (ledger_of self.old)) }
    {
        self.into_cache(slot, frame, false)?;
        self.to_inactive_head(frame)
    }

    /// A frame has no entry any more. Without memory a part may be done.
    fn follow_unmap(&mut self, frame: u32) -> Result<(), AllocError>
        ensures { OnOk result (ledger_of self.new
            ≡ after_note (notes.Unmapped frame) (ledger_of self.old)) }
    {
        match self.slot_of(frame) {
            None => Ok(()),
            Some(slot) => self.unmap(frame, slot),
        }
    }

    /// A write begins. Without memory a part may be done.
    fn follow_start(&mut self, slot: Slot) -> Result<(), AllocError>
        ensures { OnOk result (ledger_of self.new
            ≡ after_note (notes.Started slot) (ledger_of self.old)) }
    {
        self.flight.push_back(slot)?;
        self.set_stale(false, slot)
    }

    /// A write ends well. Without memory a part may be done.
    fn follow_write(&mut self, slot: Slot) -> Result<(), AllocError>
        ensures { OnOk result (ledger_of self.new
            ≡ after_note (notes.Written slot) (ledger_of self.old)) }
    {
        self.off_flight(slot);
        match self.frame_at(slot) {
            None => Ok(()),
            Some(frame) => self.to_inactive_tail(frame),
        }
    }

    /// A write fails. Without memory a part may be done.
    fn follow_failure(&mut self, slot: Slot) -> Result<(), AllocError>
        ensures { OnOk result (ledger_of self.new
            ≡ after_note (notes.Failed slot) (ledger_of self.old)) }
    {
        self.off_flight(slot);
        self.set_stale(true, slot)
    }

    /// A slot is cached no longer.
    fn follow_drop(&mut self, slot: Slot)
        ensures { ledger_of self.new ≡ after_note (notes.Dropped slot) (ledger_of self.old) }
    {
        let frame = self.frame_at(slot);
        self.off_cache(slot);
        if let Some(frame) = frame {
            self.settle(frame);
        }
    }

    /// A frame is kept. Without memory a part may be done.
    fn follow_keep(&mut self, frame: u32, cause: Cause) -> Result<(), AllocError>
        ensures { OnOk result (ledger_of self.new
            ≡ after_note (notes.Kept frame cause) (ledger_of self.old)) }
    {
        match cause {
            Cause::Writeback | Cause::WriteStarted => self.to_inactive_head(frame),
            Cause::Referenced => {
                self.unsee(frame)?;
                self.to_active(frame)
            }
            Cause::NoSlot | Cause::Locked | Cause::Ksm => self.to_active(frame),
        }
    }

    /// A frame is aged. Without memory a part may be done.
    fn follow_age(&mut self, frame: u32) -> Result<(), AllocError>
        ensures { OnOk result (ledger_of self.new
            ≡ after_note (notes.Aged frame) (ledger_of self.old)) }
    {
        self.unsee(frame)?;
        self.to_inactive_head(frame)
    }

    /// A frame is merged. Without memory all stays.
    fn follow_share(&mut self, frame: u32) -> Result<(), AllocError>
        ensures { OnOk result (ledger_of self.new
            ≡ after_note (notes.Shared frame) (ledger_of self.old)) }
    {
        self.merged.push_back(frame)
    }

    /// A page gets the entry that its note tells. Without memory a part may be done.
    fn follow_page(&mut self, note: Note) -> Result<(), AllocError>
        requires { tells_page note ≡ true }
        ensures { OnOk result (ledger_of self.new ≡ after_note note (ledger_of self.old)) }
    {
        match note {
            Note::Zeroed { process, address } => self.set(process, address / 4096, Entry::Zero),
            Note::New {
                process,
                address,
                frame,
            } => self.frame_up(process, address / 4096, frame),
            Note::Copied {
                process,
                address,
                frame,
            } => self.follow_copy(process, address / 4096, frame),
            Note::Mapped {
                process,
                address,
                frame,
            } => self.map(process, address / 4096, frame),
            Note::Joined {
                process,
                address,
                frame,
            } => self.change_frame(process, address / 4096, frame),
            _ => Ok(()),
        }
    }

    /// What a note tells happens. Without memory a part may be done.
    pub fn follow(&mut self, note: Note) -> Result<(), AllocError>
        ensures { OnOk result (ledger_of self.new ≡ after_note note (ledger_of self.old)) }
    {
        match note {
            Note::Zeroed { .. }
            | Note::New { .. }
            | Note::Copied { .. }
            | Note::Mapped { .. }
            | Note::Joined { .. } => self.follow_page(note),
            Note::Loaded { slot, frame } => self.follow_load(slot, frame),
            Note::Put { frame, slot } => self.into_cache(slot, frame, true),
            Note::Unmapped(frame) => self.follow_unmap(frame),
            Note::Started(slot) => self.follow_start(slot),
            Note::Written(slot) => self.follow_write(slot),
            Note::Failed(slot) => self.follow_failure(slot),
            Note::Dropped(slot) => {
                self.follow_drop(slot);
                Ok(())
            }
            Note::Kept { frame, cause } => self.follow_keep(frame, cause),
            Note::Aged(frame) => self.follow_age(frame),
            Note::Shared(frame) => self.follow_share(frame),
            Note::Moved { from, to } => self.replace(from, to),
        }
    }
}
