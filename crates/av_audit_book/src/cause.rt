//! Why a frame is kept.

ghost use Rattle.std.specs.Prelude.{◌≡◌};
ghost use Rattle.av_plain.specs.Reclaim.{cause_of, is_in_writeback as is_in_writeback_of};
ghost use Rattle.av_audit_book.specs.Book.{ledger_of};
ghost use Rattle.av_audit_book.specs.Machine.{setting_of};
ghost use Rattle.av_audit_book.specs.Spared.{spared_of};

use crate::book::Book;
use crate::machine::Machine;
use crate::spared::Spared;
use av_base::Slot;
use av_trace::Cause;

impl Book {
    /// Whether there is a slot, and its write is in flight.
    fn is_in_writeback(&self, slot: Option<Slot>) -> bool
        ensures { result ≡ is_in_writeback_of (ledger_of self.now) slot }
    {
        match slot {
            None => false,
            Some(slot) => self.is_flying(slot),
        }
    }

    /// Why a frame is kept before it is touched.
    pub fn cause(&self, machine: &Machine, spared: &Spared<'_>, frame: u32) -> Option<Cause>
        ensures { result ≡ cause_of (setting_of machine.now)
            (spared_of spared.now (ledger_of self.now)) (ledger_of self.now) frame }
    {
        if self.is_locked(spared.memories, frame) {
            Some(Cause::Locked)
        } else if self.is_merged(frame) {
            Some(Cause::Ksm)
        } else if self.is_in_writeback(self.slot_of(frame)) {
            Some(Cause::Writeback)
        } else if self.is_referenced(frame) {
            Some(Cause::Referenced)
        } else if self.is_stuck(machine, spared, frame) {
            Some(Cause::NoSlot)
        } else {
            None
        }
    }
}
