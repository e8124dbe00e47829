//! Writes in flight that end, as notes tell.

ghost use Rattle.std.specs.Prelude.{◌≡◌, IfOk};
ghost use Rattle.av_plain.specs.Pass.{Completes};
ghost use Rattle.av_audit_book.specs.Book.{ledger_of};
ghost use Rattle.av_audit_judge.specs.Finds.{Gets, Reads};
ghost use Rattle.av_audit_judge.specs.Flight.{IsEnd, AreEndNotes};

use crate::unit::{Unit, reads, reads_when};
use av_audit_book::Book;
use av_base::Slot;
use av_trace::Note;
use std::alloc::AllocError;

/// A write ends: whether it failed.
pub fn ending(book: &mut Book, unit: &mut Unit<'_>, slot: Slot) -> Result<Option<bool>, AllocError>
    ensures { IfOk result (λ value. Gets (IsEnd slot) (ledger_of book.old)
        unit.old.rest.now value (ledger_of book.new) unit.new.rest.now) }
{
    if reads(book, unit, Note::Written(slot))? {
        return Ok(Some(false));
    }
    if reads(book, unit, Note::Failed(slot))? {
        return Ok(Some(true));
    }
    Ok(None)
}

/// A write ends, and a slot that it leaves as an orphan is dropped.
pub fn ends(book: &mut Book, unit: &mut Unit<'_>, slot: Slot) -> Result<bool, AllocError>
    ensures { IfOk result (λ read. Reads (AreEndNotes (ledger_of book.old) slot)
        (ledger_of book.old) unit.old.rest.now read (ledger_of book.new) unit.new.rest.now) }
{
    match ending(book, unit, slot)? {
        None => Ok(false),
        Some(_) => {
            let due = book.is_orphan(slot);
            reads_when(book, unit, due, Note::Dropped(slot))
        }
    }
}

/// The writes of these slots end, in order.
pub fn completes(book: &mut Book, unit: &mut Unit<'_>, slots: &[Slot]) -> Result<bool, AllocError>
    ensures { IfOk result (λ read. Reads (Completes (ledger_of book.old) slots.now)
        (ledger_of book.old) unit.old.rest.now read (ledger_of book.new) unit.new.rest.now) }
{
    let mut rest = slots;
    while let [first, others @ ..] = rest {
        if !ends(book, unit, *first)? {
            return Ok(false);
        }
        rest = others;
    }
    Ok(true)
}
