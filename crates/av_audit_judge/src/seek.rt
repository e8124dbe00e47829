//! A frame is sought, behind a pass where none is free, and taken.

ghost use Rattle.std.specs.Prelude.{◌≡◌, ◌<◌, IfOk};
ghost use Rattle.av_plain.specs.Pass.{IsPass, Seeks};
ghost use Rattle.av_audit_book.specs.Book.{ledger_of};
ghost use Rattle.av_audit_judge.specs.Finds.{Gets, Reads};
ghost use Rattle.av_audit_book.specs.Machine.{AreNamed, setting_of};
ghost use Rattle.av_audit_book.specs.Spared.{spared_of};
ghost use Rattle.av_audit_judge.specs.Pass.{IsTakenFree};

use crate::flight::completes;
use crate::notes::{Taking, fits, take_frame};
use crate::pass::turns;
use crate::unit::Unit;
use av_audit_book::{Book, Machine, Spared};
use std::alloc::AllocError;

/// A direct pass.
fn passes(
    book: &mut Book,
    unit: &mut Unit<'_>,
    machine: &Machine,
    spared: &Spared<'_>,
) -> Result<bool, AllocError>
    requires fits { AreNamed (setting_of machine.now) }
    ensures { let l = ledger_of book.old in IfOk result (λ read. Reads
        (IsPass (setting_of machine.now) (spared_of spared.now l) l) l unit.old.rest.now read
        (ledger_of book.new) unit.new.rest.now) }
{
    let slots = book.slots_in_flight(unit.alloc)?;
    if !completes(book, unit, slots.as_slice())? {
        return Ok(false);
    }
    if book.has_free(machine) {
        return Ok(true);
    }
    turns(book, unit, machine, spared)
}

/// What comes before a frame is taken: a pass exactly where none is free.
pub fn seeks(
    book: &mut Book,
    unit: &mut Unit<'_>,
    machine: &Machine,
    spared: &Spared<'_>,
) -> Result<bool, AllocError>
    requires fits { AreNamed (setting_of machine.now) }
    ensures { let l = ledger_of book.old in IfOk result (λ read. Reads
        (Seeks (setting_of machine.now) (spared_of spared.now l) l) l unit.old.rest.now read
        (ledger_of book.new) unit.new.rest.now) }
{
    if book.has_free(machine) {
        return Ok(true);
    }
    passes(book, unit, machine, spared)
}

/// A free frame is taken.
pub fn takes(
    book: &mut Book,
    unit: &mut Unit<'_>,
    machine: &Machine,
    taking: Taking,
) -> Result<Option<u32>, AllocError>
    requires { 0 < machine.now.frames }
    ensures { IfOk result (λ value. Gets (IsTakenFree (setting_of machine.now)
        (ledger_of book.old) taking) (ledger_of book.old) unit.old.rest.now value
        (ledger_of book.new) unit.new.rest.now) }
{
    match take_frame(unit.alloc, unit.rest, taking, machine.frames)? {
        None => Ok(None),
        Some((frame, rest)) => {
            let note = taking.note(frame);
            fits(note);
            if !book.is_free(frame) {
                return Ok(None);
            }
            unit.rest = rest;
            book.follow(note)?;
            Ok(Some(frame))
        }
    }
}
