//! A slot is emptied, as its notes tell.

ghost use Rattle.std.specs.Prelude.{◌≡◌, ◌<◌, IfOk};
ghost use Rattle.av_plain.specs.Swapoff.{IsFetched};
ghost use Rattle.av_audit_book.specs.Book.{ledger_of};
ghost use Rattle.av_audit_book.specs.Machine.{AreNamed, setting_of};
ghost use Rattle.av_audit_book.specs.Spared.{spared_of};
ghost use Rattle.av_audit_judge.specs.Fetch.{fetched_of};
ghost use Rattle.av_audit_judge.specs.Stage.{Meets};
ghost use Rattle.av_audit_swapoff.specs.Empty.{Empties, IsStuck, emptied_of};

use crate::users::frees;
use av_audit_book::{Book, Machine, Spared};
use av_audit_judge::{Fetch, Unit, fetches};
use av_base::Slot;
use std::alloc::AllocError;

/// Whether a slot is emptied; or no frame is free for its page, or one is and the device didn't
/// give it, and the unit ends there.
#[derive(Clone, Copy, Drop)]
pub enum Emptying {
    Emptied,
    Starved,
    Lost,
}

/// A slot's page is in the frame that caches it; else it is fetched from the device.
fn brings(
    book: &mut Book,
    unit: &mut Unit<'_>,
    machine: &Machine,
    spared: &Spared<'_>,
    slot: Slot,
) -> Result<Option<Fetch>, AllocError>
    requires some { 0 < machine.now.frames }
    requires fits { AreNamed (setting_of machine.now) }
    ensures { let l = ledger_of book.old in IfOk result (λ found. Meets
        (IsFetched (setting_of machine.now) (spared_of spared.now l) l slot)
        (IsStuck (setting_of machine.now) (spared_of spared.now l) l slot) l unit.old.rest.now
        (fetched_of found) (ledger_of book.new) unit.new.rest.now) }
{
    match book.frame_at(slot) {
        Some(frame) => Ok(Some(Fetch::Loaded(frame))),
        None => fetches(book, unit, machine, spared, slot),
    }
}

/// A slot is emptied.
pub fn empties(
    book: &mut Book,
    unit: &mut Unit<'_>,
    machine: &Machine,
    spared: &Spared<'_>,
    slot: Slot,
) -> Result<Option<Emptying>, AllocError>
    requires some { 0 < machine.now.frames }
    requires fits { AreNamed (setting_of machine.now) }
    ensures { let l = ledger_of book.old in IfOk result (λ found. Meets
        (Empties (setting_of machine.now) (spared_of spared.now l) l slot)
        (IsStuck (setting_of machine.now) (spared_of spared.now l) l slot) l unit.old.rest.now
        (emptied_of found) (ledger_of book.new) unit.new.rest.now) }
{
    match brings(book, unit, machine, spared, slot)? {
        None => Ok(None),
        Some(Fetch::Starved) => Ok(Some(Emptying::Starved)),
        Some(Fetch::Lost) => Ok(Some(Emptying::Lost)),
        Some(Fetch::Loaded(frame)) => {
            if !frees(book, unit, slot, frame)? {
                return Ok(None);
            }
            Ok(Some(Emptying::Emptied))
        }
    }
}
