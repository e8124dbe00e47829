//! What a page needs before it can be read or written.

ghost use Rattle.std.specs.Prelude.{◌≡◌};
ghost use Rattle.av_plain.specs.Fault.{asks_copy, is_named, need};
ghost use Rattle.av_plain.specs.Ledger.{entry};
ghost use Rattle.av_audit_book.specs.Book.{ledger_of};
ghost use Rattle.av_audit_book.specs.Need.{need_of};

use crate::book::Book;
use av_audit_pages::Entry;
use av_base::Slot;

/// What a page needs.
#[derive(Clone, Copy, Drop)]
pub enum Need {
    Ready,
    ZeroPage,
    NewPage,
    Copy(u32),
    SwapIn(Slot),
    MapCached(u32),
}

impl Book {
    /// Whether a write to the frame has to copy it.
    fn asks_copy(&self, frame: u32) -> bool
        ensures { result ≡ asks_copy (ledger_of self.now) frame }
    {
        self.maps(frame) > 1 || self.is_named(self.slot_of(frame)) || self.is_merged(frame)
    }

    /// Whether an entry names the slot, if there is one.
    fn is_named(&self, slot: Option<Slot>) -> bool
        ensures { result ≡ is_named (ledger_of self.now) slot }
    {
        match slot {
            None => false,
            Some(slot) => self.names(slot) > 0,
        }
    }

    /// What a page needs.
    pub fn needs(&self, write: bool, process: u16, page: u64) -> Need
        ensures { need_of result
            ≡ need write (ledger_of self.now) (entry (ledger_of self.now) (process, page)) }
    {
        match self.entry(process, page) {
            None => { if write { Need::NewPage } else { Need::ZeroPage } }
            Some(Entry::Zero) => { if write { Need::NewPage } else { Need::Ready } }
            Some(Entry::InFrame { frame, .. }) => {
                if write && self.asks_copy(frame) {
                    Need::Copy(frame)
                } else {
                    Need::Ready
                }
            }
            Some(Entry::InSlot(slot)) => match self.frame_at(slot) {
                None => Need::SwapIn(slot),
                Some(frame) => Need::MapCached(frame),
            },
        }
    }
}
