//! The page of a slot is fetched from the device, as its notes tell.

ghost use Rattle.std.specs.Prelude.{◌≡◌, ◌<◌, IfOk};
ghost use Rattle.av_audit_book.specs.Book.{ledger_of};
ghost use Rattle.av_audit_judge.specs.Fetch.{AreFetched, IsLoaded, IsUnfetched, IsUnloaded};
ghost use Rattle.av_audit_judge.specs.Fetch.{fetched_of};
ghost use Rattle.av_audit_book.specs.Machine.{AreNamed, setting_of};
ghost use Rattle.av_audit_book.specs.Spared.{spared_of};
ghost use Rattle.av_audit_judge.specs.Stage.{Meets};

use crate::notes::Taking;
use crate::seek::{seeks, takes};
use crate::unit::Unit;
use av_audit_book::{Book, Machine, Spared};
use av_base::Slot;
use std::alloc::AllocError;

/// How a fetch goes: the frame that takes the page; or none is free, or one is and the page doesn't
/// come.
#[derive(Clone, Copy, Drop)]
pub enum Fetch {
    Loaded(u32),
    Starved,
    Lost,
}

/// Where a frame is free and notes are left, one of them loads the page. Else it isn't fetched.
fn loads(
    book: &mut Book,
    unit: &mut Unit<'_>,
    machine: &Machine,
    slot: Slot,
) -> Result<Option<Fetch>, AllocError>
    requires { 0 < machine.now.frames }
    ensures { IfOk result (λ value. Meets
        (IsLoaded (setting_of machine.now) (ledger_of book.old) slot)
        (IsUnloaded (setting_of machine.now) (ledger_of book.old)) (ledger_of book.old)
        unit.old.rest.now (fetched_of value) (ledger_of book.new) unit.new.rest.now) }
{
    let free = book.has_free(machine);
    if unit.rest.is_empty() {
        return Ok(Some(if free { Fetch::Lost } else { Fetch::Starved }));
    }
    if !free {
        return Ok(None);
    }
    match takes(book, unit, machine, Taking::Loaded(slot))? {
        None => Ok(None),
        Some(frame) => Ok(Some(Fetch::Loaded(frame))),
    }
}

/// The page of a slot is fetched, behind a pass where no frame is free.
pub fn fetches(
    book: &mut Book,
    unit: &mut Unit<'_>,
    machine: &Machine,
    spared: &Spared<'_>,
    slot: Slot,
) -> Result<Option<Fetch>, AllocError>
    requires some { 0 < machine.now.frames }
    requires fits { AreNamed (setting_of machine.now) }
    ensures { let l = ledger_of book.old in IfOk result (λ value. Meets
        (AreFetched (setting_of machine.now) (spared_of spared.now l) l slot)
        (IsUnfetched (setting_of machine.now) (spared_of spared.now l) l) l unit.old.rest.now
        (fetched_of value) (ledger_of book.new) unit.new.rest.now) }
{
    if !seeks(book, unit, machine, spared)? {
        return Ok(None);
    }
    loads(book, unit, machine, slot)
}
