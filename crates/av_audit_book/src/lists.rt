//! The two lists of frames, and those that are merged.

ghost use Rattle.std.specs.Prelude.{◌≡◌, OnOk};
ghost use Rattle.av_plain.specs.Event.{off_lists, to_active, to_inactive_head, to_inactive_tail};
ghost use Rattle.av_plain.specs.Ledger.{is_merged};
ghost use Rattle.av_audit_book.specs.Book.{in_neither, ledger_of};

use crate::book::Book;
use std::alloc::AllocError;

impl Book {
    /// The frame leaves its list.
    fn unlist(&mut self, frame: u32)
        ensures { ledger_of self.new ≡ in_neither frame (ledger_of self.old) }
    {
        self.active.remove(frame);
        self.inactive.remove(frame);
    }

    /// The frame leaves its list, and is merged no longer.
    pub fn off_lists(&mut self, frame: u32)
        ensures { ledger_of self.new ≡ off_lists frame (ledger_of self.old) }
    {
        self.unlist(frame);
        self.merged.remove(frame);
    }

    /// Whether the frame is merged.
    pub fn is_merged(&self, frame: u32) -> bool
        ensures { result ≡ is_merged (ledger_of self.now) frame }
    {
        self.merged.contains(frame)
    }

    /// The frame goes to the head of inactive. Without memory it is in no list.
    pub fn to_inactive_head(&mut self, frame: u32) -> Result<(), AllocError>
        ensures { OnOk result (ledger_of self.new ≡ to_inactive_head frame (ledger_of self.old)) }
    {
        self.unlist(frame);
        self.inactive.push_front(frame)
    }

    /// Or to its tail. Without memory it is in no list.
    pub fn to_inactive_tail(&mut self, frame: u32) -> Result<(), AllocError>
        ensures { OnOk result (ledger_of self.new ≡ to_inactive_tail frame (ledger_of self.old)) }
    {
        self.unlist(frame);
        self.inactive.push_back(frame)
    }

    /// Or to the head of active. Without memory it is in no list.
    pub fn to_active(&mut self, frame: u32) -> Result<(), AllocError>
        ensures { OnOk result (ledger_of self.new ≡ to_active frame (ledger_of self.old)) }
    {
        self.unlist(frame);
        self.active.push_front(frame)
    }
}
