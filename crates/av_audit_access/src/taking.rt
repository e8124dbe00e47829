//! A frame is taken for a page, behind a pass where none is free.

ghost use Rattle.std.specs.Prelude.{◌≡◌, ◌<◌, IfOk};
ghost use Rattle.av_audit_book.specs.Book.{ledger_of};
ghost use Rattle.av_audit_book.specs.Machine.{AreNamed, setting_of};
ghost use Rattle.av_audit_book.specs.Spared.{spared_of};
ghost use Rattle.av_audit_judge.specs.Pass.{IsTakenFree};
ghost use Rattle.av_audit_judge.specs.Stage.{Meets};
ghost use Rattle.av_audit_access.specs.Take.{AreTaken, IsNoneFree, IsStarved, take_of};

use av_audit_book::{Book, Machine, Spared};
use av_audit_judge::{Taking, Unit, seeks, takes};
use std::alloc::AllocError;

/// Whether a frame is taken; or none is free, and the unit ends there.
#[derive(Clone, Copy, Drop)]
pub enum Take {
    Taken(u32),
    Starved,
}

/// A frame that is free is taken; or none is, and the unit ends there.
fn takes_left(
    book: &mut Book,
    unit: &mut Unit<'_>,
    machine: &Machine,
    taking: Taking,
) -> Result<Option<Take>, AllocError>
    requires { 0 < machine.now.frames }
    ensures { IfOk result (λ found. Meets
        (IsTakenFree (setting_of machine.now) (ledger_of book.old) taking)
        (IsNoneFree (setting_of machine.now) (ledger_of book.old)) (ledger_of book.old)
        unit.old.rest.now (take_of found) (ledger_of book.new) unit.new.rest.now) }
{
    if unit.rest.is_empty() && !book.has_free(machine) {
        return Ok(Some(Take::Starved));
    }
    match takes(book, unit, machine, taking)? {
        None => Ok(None),
        Some(frame) => Ok(Some(Take::Taken(frame))),
    }
}

/// A frame is taken, behind a pass where none is free; or the pass frees none, and the unit ends
/// there.
pub fn takes_behind(
    book: &mut Book,
    unit: &mut Unit<'_>,
    machine: &Machine,
    spared: &Spared<'_>,
    taking: Taking,
) -> Result<Option<Take>, AllocError>
    requires some { 0 < machine.now.frames }
    requires fits { AreNamed (setting_of machine.now) }
    ensures { let l = ledger_of book.old in IfOk result (λ found. Meets
        (AreTaken (setting_of machine.now) (spared_of spared.now l) l taking)
        (IsStarved (setting_of machine.now) (spared_of spared.now l) l) l unit.old.rest.now
        (take_of found) (ledger_of book.new) unit.new.rest.now) }
{
    if !seeks(book, unit, machine, spared)? {
        return Ok(None);
    }
    takes_left(book, unit, machine, taking)
}
