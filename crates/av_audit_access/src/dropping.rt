//! A slot that is needed no more once its page is served.

ghost use Rattle.std.specs.Prelude.{◌≡◌, IfOk};
ghost use Rattle.av_plain.specs.Fault.{drop_at, is_unneeded as is_unneeded_in};
ghost use Rattle.av_audit_book.specs.Book.{ledger_of};
ghost use Rattle.av_audit_book.specs.Machine.{setting_of};
ghost use Rattle.av_audit_judge.specs.Finds.{Reads};
ghost use Rattle.av_audit_access.specs.Drop.{drop_notes};

use av_audit_book::{Book, Entry, Machine};
use av_audit_judge::{Unit, reads};
use av_base::Slot;
use av_trace::Note;
use std::alloc::AllocError;

/// Whether a slot is needed no more.
fn is_unneeded(book: &Book, machine: &Machine, write: bool, came: bool, slot: Slot) -> bool
    ensures { result ≡ is_unneeded_in (setting_of machine.now) write came (ledger_of book.now)
        slot }
{
    !book.is_flying(slot) && book.names(slot) == 0 && (write || came && book.is_full(machine))
}

/// The slot of a page's frame, if that is needed no more.
pub fn unneeded(
    book: &Book,
    machine: &Machine,
    write: bool,
    came: bool,
    process: u16,
    page: u64,
) -> Option<Slot>
    ensures { drop_notes result ≡ drop_at (setting_of machine.now) write came
        (ledger_of book.now) (process, page) }
{
    match book.entry(process, page) {
        Some(Entry::InFrame { frame, .. }) => match book.slot_of(frame) {
            None => None,
            Some(slot) => {
                if is_unneeded(book, machine, write, came, slot) {
                    Some(slot)
                } else {
                    None
                }
            }
        },
        _ => None,
    }
}

/// A slot is dropped, if there is one.
pub fn drops(book: &mut Book, unit: &mut Unit<'_>, slot: Option<Slot>) -> Result<bool, AllocError>
    ensures { IfOk result (λ read. Reads (λ notes. notes ≡ drop_notes slot) (ledger_of book.old)
        unit.old.rest.now read (ledger_of book.new) unit.new.rest.now) }
{
    match slot {
        None => Ok(true),
        Some(slot) => reads(book, unit, Note::Dropped(slot)),
    }
}
