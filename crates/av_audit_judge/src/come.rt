//! A page whose entry is a slot comes in for an access, as its notes tell.

ghost use Rattle.std.specs.Prelude.{◌≡◌, ◌<◌, ◌*◌, ◌^◌, IfOk};
ghost use Rattle.av_audit_book.specs.Spared.{spared_of};
ghost use Rattle.av_audit_book.specs.Book.{ledger_of};
ghost use Rattle.av_audit_judge.specs.Come.{ComesFrom, IsKeptOut, came_of};
ghost use Rattle.av_audit_book.specs.Machine.{AreNamed, setting_of};
ghost use Rattle.av_audit_judge.specs.Stage.{Meets};

use crate::fetch::{Fetch, fetches};
use crate::unit::{Unit, reads};
use av_audit_book::{Book, Machine, Spared};
use av_base::Slot;
use av_trace::Note;
use std::alloc::AllocError;

/// Whether a page came in; or no frame is free for it, or one is and the device didn't give it.
#[derive(Clone, Copy, Drop)]
pub enum Come {
    In,
    Starved,
    Lost,
}

/// A page comes in from its slot on the device.
pub fn swaps_in(
    book: &mut Book,
    unit: &mut Unit<'_>,
    machine: &Machine,
    spared: &Spared<'_>,
    slot: Slot,
    process: u16,
    page: u64,
) -> Result<Option<Come>, AllocError>
    requires some { 0 < machine.now.frames }
    requires fits { AreNamed (setting_of machine.now) }
    requires page { page < 2 ^ 52 }
    ensures { let l = ledger_of book.old in IfOk result (λ value. Meets
        (ComesFrom (setting_of machine.now) (spared_of spared.now l) l (process, page) slot)
        (IsKeptOut (setting_of machine.now) (spared_of spared.now l) l) l unit.old.rest.now
        (came_of value) (ledger_of book.new) unit.new.rest.now) }
{
    match fetches(book, unit, machine, spared, slot)? {
        None => Ok(None),
        Some(Fetch::Starved) => Ok(Some(Come::Starved)),
        Some(Fetch::Lost) => Ok(Some(Come::Lost)),
        Some(Fetch::Loaded(frame)) => {
            let address = page * 4096;
            let note = Note::Mapped {
                process,
                address,
                frame,
            };
            if !reads(book, unit, note)? {
                return Ok(None);
            }
            Ok(Some(Come::In))
        }
    }
}
