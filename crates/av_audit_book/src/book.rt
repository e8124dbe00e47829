//! A ledger, as data.

ghost use Rattle.std.specs.Prelude.{◌≡◌};
ghost use Rattle.av_plain.specs.Ledger.{first_ledger};
ghost use Rattle.av_audit_book.specs.Book.{ledger_of};

use crate::merged::MergedFrames;
use av_audit_pages::Pages;
use av_audit_queue::Queue;
use av_base::Slot;
use std::alloc::Global;
use std::collections::BTreeMap;

/// A swap area that is on: its usable slots and bad pages, and the priority that was asked for.
#[derive(Clone, Copy, Drop)]
pub struct Area {
    pub slots: u32,
    pub bad: u32,
    pub priority: Option<u16>,
}

/// What is kept of frames and slots.
#[derive(Drop)]
pub struct Book {
    pub alloc: Global,
    pub pages: Pages,
    pub flight: Queue<Slot>,
    pub active: Queue<u32>,
    pub inactive: Queue<u32>,
    pub merged: MergedFrames,
    pub on: BTreeMap<u8, Area>,
}

impl Book {
    /// Nothing.
    pub fn new(alloc: Global) -> Book
        ensures { ledger_of result ≡ first_ledger }
    {
        Book {
            alloc,
            pages: Pages::new(alloc),
            flight: Queue::new(alloc),
            active: Queue::new(alloc),
            inactive: Queue::new(alloc),
            merged: MergedFrames::new(alloc),
            on: BTreeMap::new(alloc),
        }
    }
}
