//! Frames that are reclaimed or aged, as notes tell.

ghost use Rattle.std.specs.Prelude.{◌≡◌, IfOk, map};
ghost use Rattle.av_trace.specs.declared.note.Note.TheVariants as notes;
ghost use Rattle.av_plain.specs.Reclaim.{Outcome, Outcomes};
ghost use Rattle.av_audit_book.specs.Book.{ledger_of};
ghost use Rattle.av_audit_judge.specs.Finds.{Reads};
ghost use Rattle.av_audit_book.specs.Machine.{AreNamed, setting_of};
ghost use Rattle.av_audit_book.specs.Spared.{spared_of};
ghost use Rattle.av_audit_judge.specs.Pass.{Leaves, behind_of};

use crate::pass::unmaps;
use crate::unit::{Unit, reads};
use av_audit_book::{Book, Machine, Spared};
use av_base::Slot;
use av_trace::{Cause, Note};
use std::alloc::AllocError;

/// A write of a frame begins, for which the frame is kept; or its slot is dropped.
fn starts(
    book: &mut Book,
    unit: &mut Unit<'_>,
    frame: u32,
    slot: Slot,
    dirty: bool,
) -> Result<bool, AllocError>
    ensures { IfOk result (λ read. Reads (λ ns. ns ≡ behind_of frame slot dirty)
        (ledger_of book.old) unit.old.rest.now read (ledger_of book.new) unit.new.rest.now) }
{
    if !dirty {
        return reads(book, unit, Note::Dropped(slot));
    }
    if !reads(book, unit, Note::Started(slot))? {
        return Ok(false);
    }
    let cause = Cause::WriteStarted;
    reads(book, unit, Note::Kept { frame, cause })
}

/// A frame goes to its slot.
fn leaves(
    book: &mut Book,
    unit: &mut Unit<'_>,
    machine: &Machine,
    spared: &Spared<'_>,
    frame: u32,
) -> Result<bool, AllocError>
    requires fits { AreNamed (setting_of machine.now) }
    ensures { let l = ledger_of book.old in IfOk result (λ read. Reads
        (Leaves (setting_of machine.now) (spared_of spared.now l) l frame) l unit.old.rest.now read
        (ledger_of book.new) unit.new.rest.now) }
{
    match unmaps(book, unit, machine, spared, frame)? {
        None => Ok(false),
        Some((slot, dirty)) => starts(book, unit, frame, slot, dirty),
    }
}

/// What becomes of a frame.
fn outcome(
    book: &mut Book,
    unit: &mut Unit<'_>,
    machine: &Machine,
    spared: &Spared<'_>,
    frame: u32,
) -> Result<bool, AllocError>
    requires fits { AreNamed (setting_of machine.now) }
    ensures { let l = ledger_of book.old in IfOk result (λ read. Reads
        (Outcome (setting_of machine.now) (spared_of spared.now l) l frame) l unit.old.rest.now read
        (ledger_of book.new) unit.new.rest.now) }
{
    match book.cause(machine, spared, frame) {
        None => leaves(book, unit, machine, spared, frame),
        Some(cause) => reads(book, unit, Note::Kept { frame, cause }),
    }
}

/// What becomes of some frames, in turn.
pub fn outcomes(
    book: &mut Book,
    unit: &mut Unit<'_>,
    machine: &Machine,
    spared: &Spared<'_>,
    frames: &[u32],
) -> Result<bool, AllocError>
    requires fits { AreNamed (setting_of machine.now) }
    ensures { let l = ledger_of book.old in IfOk result (λ read. Reads
        (Outcomes (setting_of machine.now) (spared_of spared.now l) l frames.now) l
        unit.old.rest.now read (ledger_of book.new) unit.new.rest.now) }
{
    let mut rest = frames;
    while let [first, others @ ..] = rest {
        if !outcome(book, unit, machine, spared, *first)? {
            return Ok(false);
        }
        rest = others;
    }
    Ok(true)
}

/// Some frames are aged, in turn.
pub fn ages(book: &mut Book, unit: &mut Unit<'_>, frames: &[u32]) -> Result<bool, AllocError>
    ensures { IfOk result (λ read. Reads (λ ns. ns ≡ map notes.Aged frames.now)
        (ledger_of book.old) unit.old.rest.now read (ledger_of book.new) unit.new.rest.now) }
{
    let mut rest = frames;
    while let [first, others @ ..] = rest {
        if !reads(book, unit, Note::Aged(*first))? {
            return Ok(false);
        }
        rest = others;
    }
    Ok(true)
}
