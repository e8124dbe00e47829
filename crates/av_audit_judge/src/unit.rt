//! What is left of a unit, and notes that are read from it.

ghost use Rattle.std.specs.Prelude.{◌≡◌, ℕ, List, ◌∷◌, [], IfOk, false};
ghost use Rattle.av_trace.specs.declared.note.Note.{Note as AnyNote};
ghost use Rattle.av_plain.specs.Event.{when};
ghost use Rattle.av_audit_book.specs.Book.{ledger_of};
ghost use Rattle.av_audit_judge.specs.Finds.{Reads};
ghost use Rattle.av_audit_judge.specs.Notes.{IsOff};

use crate::notes::{fits, take_note};
use av_audit_book::Book;
use av_trace::Note;
use std::alloc::{AllocError, Global};

/// The bytes that are left of a unit.
#[derive(Drop)]
pub struct Unit<'a> {
    pub alloc: Global,
    pub rest: &'a [u8],
}

impl<'a> Unit<'a> {
    /// Takes a note off, where it stands in front.
    fn take(&mut self, note: Note) -> Result<bool, AllocError>
        ensures { IfOk result (λ taken. IsOff self.old.rest.now note taken self.new.rest.now) }
    {
        match take_note(self.alloc, self.rest, note)? {
            None => Ok(false),
            Some(rest) => {
                self.rest = rest;
                Ok(true)
            }
        }
    }
}

/// Whether a note stands in front; then it is read, and the book follows it.
pub fn reads(book: &mut Book, unit: &mut Unit<'_>, note: Note) -> Result<bool, AllocError>
    ensures kept { IfOk result (λ read. read ≡ false
        → (ledger_of book.new ≡ ledger_of book.old) × (unit.new.rest.now ≡ unit.old.rest.now)) }
    ensures reads { IfOk result (λ read. Reads (λ notes. notes ≡ note ∷ []) (ledger_of book.old)
        unit.old.rest.now read (ledger_of book.new) unit.new.rest.now) }
{
    if !unit.take(note)? {
        return Ok(false);
    }
    fits(note);
    book.follow(note)?;
    Ok(true)
}

/// Whether a note stands in front that is due under a condition.
pub fn reads_when(
    book: &mut Book,
    unit: &mut Unit<'_>,
    due: bool,
    note: Note,
) -> Result<bool, AllocError>
    ensures { IfOk result (λ read. Reads (λ notes. notes ≡ when due note) (ledger_of book.old)
        unit.old.rest.now read (ledger_of book.new) unit.new.rest.now) }
{
    if due {
        reads(book, unit, note)
    } else {
        Ok(true)
    }
}
