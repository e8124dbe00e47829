//! A page whose entry is a slot comes in.

ghost use Rattle.std.specs.Prelude.{◌≡◌, ◌<◌, ◌^◌, Bool, IfOk};
ghost use Rattle.av_plain.specs.Fault.{ComesIn, need as need_in, sparing};
ghost use Rattle.av_plain.specs.Ledger.{entry};
ghost use Rattle.av_plain.specs.World.{World};
ghost use Rattle.av_audit_book.specs.Book.{ledger_of};
ghost use Rattle.av_audit_book.specs.Machine.{AreNamed, setting_of};
ghost use Rattle.av_audit_book.specs.Need.{need_of};
ghost use Rattle.av_audit_judge.specs.Stage.{Meets};
ghost use Rattle.av_audit_world.specs.Memories.{IsWorld};
ghost use Rattle.av_audit_access.specs.Come.{HasNoSlot, IsKept, coming_of};

use av_audit_book::{Book, Machine, Need, Spared};
use av_audit_judge::{Come, Unit, reads, swaps_in};
use av_audit_world::Memories;
use av_base::Slot;
use av_trace::{Note, OutOf};
use std::alloc::AllocError;

/// Why a page isn't served: it may not be accessed; there is no frame for it; or the device didn't
/// give it.
#[derive(Clone, Copy, Drop)]
pub enum Stop {
    Denied,
    Starved(OutOf),
    Lost,
}

/// Whether a page is here, or why it isn't.
#[derive(Clone, Copy, Drop)]
pub enum Coming {
    Here,
    Kept(Stop),
}

/// A page comes in from its slot on the device.
fn comes_from(
    book: &mut Book,
    unit: &mut Unit<'_>,
    machine: &Machine,
    memories: &Memories,
    slot: Slot,
    process: u16,
    page: u64,
) -> Result<Option<Coming>, AllocError>
    requires some { 0 < machine.now.frames }
    requires fits { AreNamed (setting_of machine.now) }
    requires page { page < 2 ^ 52 }
    ensures comes { IfOk result (λ found. (w : World) → IsWorld memories.now w → Meets
        (λ u. ComesIn (setting_of machine.now) (sparing w) (ledger_of book.old) (process, page)
        (need_of (Need.SwapIn slot)))
        (IsKept (setting_of machine.now) (sparing w) (ledger_of book.old)
        (need_of (Need.SwapIn slot))) (ledger_of book.old) unit.old.rest.now (coming_of found)
        (ledger_of book.new) unit.new.rest.now) }
    ensures here { IfOk result (λ found. (write : Bool)
        → HasNoSlot write (ledger_of book.new) (process, page) found) }
{
    let spared = Spared {
        pinned: None,
        memories,
        closing: None,
    };
    match swaps_in(book, unit, machine, &spared, slot, process, page)? {
        None => Ok(None),
        Some(Come::In) => Ok(Some(Coming::Here)),
        Some(Come::Lost) => Ok(Some(Coming::Kept(Stop::Lost))),
        Some(Come::Starved) => {
            let out = book.out_of(machine, &spared)?;
            Ok(Some(Coming::Kept(Stop::Starved(out))))
        }
    }
}

/// A page comes in, if its entry is a slot. Then it isn't one any more.
pub fn comes(
    book: &mut Book,
    unit: &mut Unit<'_>,
    machine: &Machine,
    memories: &Memories,
    need: Need,
    process: u16,
    page: u64,
) -> Result<Option<Coming>, AllocError>
    requires some { 0 < machine.now.frames }
    requires fits { AreNamed (setting_of machine.now) }
    requires page { page < 2 ^ 52 }
    ensures comes { IfOk result (λ found. (w : World) → IsWorld memories.now w → Meets
        (λ u. ComesIn (setting_of machine.now) (sparing w) (ledger_of book.old) (process, page)
        (need_of need))
        (IsKept (setting_of machine.now) (sparing w) (ledger_of book.old) (need_of need))
        (ledger_of book.old) unit.old.rest.now (coming_of found) (ledger_of book.new)
        unit.new.rest.now) }
    ensures here { IfOk result (λ found. (write : Bool)
        → need_of need ≡ need_in write (ledger_of book.old)
        (entry (ledger_of book.old) (process, page))
        → HasNoSlot write (ledger_of book.new) (process, page) found) }
{
    match need {
        Need::SwapIn(slot) => comes_from(book, unit, machine, memories, slot, process, page),
        Need::MapCached(frame) => {
            let address = page * 4096;
            let note = Note::Mapped {
                process,
                address,
                frame,
            };
            if !reads(book, unit, note)? {
                return Ok(None);
            }
            Ok(Some(Coming::Here))
        }
        _ => Ok(Some(Coming::Here)),
    }
}
