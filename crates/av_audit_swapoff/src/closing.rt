//! The slots of an area that is turned off are emptied, as notes tell.

ghost use Rattle.std.specs.Prelude.{◌<◌, IfOk, option_map};
ghost use Rattle.av_plain.specs.World.{World};
ghost use Rattle.av_audit_book.specs.Book.{ledger_of};
ghost use Rattle.av_audit_book.specs.Machine.{AreNamed, setting_of};
ghost use Rattle.av_audit_world.specs.Memories.{IsWorld};
ghost use Rattle.av_audit_swapoff.specs.Close.{AreEmptied, Closes, IsWhole, close_of};

use crate::emptying::{Emptying, empties};
use av_audit_book::{Book, Machine, Spared};
use av_audit_judge::{Unit, completes};
use av_audit_world::Memories;
use av_trace::OutOf;
use std::alloc::{AllocError, Global};

/// How a swapoff ends: no slot of the area is in use any more; or there is no frame for the next
/// one, or the device didn't give its page.
#[derive(Clone, Copy, Drop)]
pub enum Close {
    Closed,
    NoRoom(OutOf),
    Unread,
}

/// The slots of an area in use are emptied, each the least in its turn.
fn empties_all(
    book: &mut Book,
    unit: &mut Unit<'_>,
    machine: &Machine,
    memories: &Memories,
    area: u8,
) -> Result<Option<Close>, AllocError>
    requires some { 0 < machine.now.frames }
    requires fits { AreNamed (setting_of machine.now) }
    ensures { IfOk result (λ found. (w : World) → IsWorld memories.now w
        → IsWhole (AreEmptied (setting_of machine.now) w area (ledger_of book.old))
        (ledger_of book.old) unit.old.rest.now (option_map close_of found)
        (ledger_of book.new)) }
{
    let spared = Spared {
        pinned: None,
        memories,
        closing: Some(area),
    };
    while let Some(slot) = book.least_in_use(machine, area) {
        match empties(book, unit, machine, &spared, slot)? {
            None => return Ok(None),
            Some(Emptying::Starved) => {
                return Ok(Some(Close::NoRoom(book.out_of(machine, &spared)?)));
            }
            Some(Emptying::Lost) => return Ok(Some(Close::Unread)),
            Some(Emptying::Emptied) => {}
        }
    }
    if unit.rest.is_empty() {
        Ok(Some(Close::Closed))
    } else {
        Ok(None)
    }
}

/// All of flight completes, and the slots of an area in use are emptied, up to an end. None where
/// the notes tell nothing of that kind. Without memory a part may be done.
pub fn closes(
    book: &mut Book,
    alloc: Global,
    machine: &Machine,
    memories: &Memories,
    area: u8,
    notes: &[u8],
) -> Result<Option<Close>, AllocError>
    requires some { 0 < machine.now.frames }
    requires fits { AreNamed (setting_of machine.now) }
    ensures { IfOk result (λ found. (w : World) → IsWorld memories.now w
        → IsWhole (Closes (setting_of machine.now) w area (ledger_of book.old))
        (ledger_of book.old) notes.now (option_map close_of found) (ledger_of book.new)) }
{
    let slots = book.slots_in_flight(alloc)?;
    let mut unit = Unit { alloc, rest: notes };
    if !completes(book, &mut unit, slots.as_slice())? {
        return Ok(None);
    }
    empties_all(book, &mut unit, machine, memories, area)
}
