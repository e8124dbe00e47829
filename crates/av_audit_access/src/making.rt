//! A page gets what it needs, once it is here.

ghost use Rattle.std.specs.Prelude.{◌≡◌, ◌<◌, ◌^◌, IfOk, false};
ghost use Rattle.av_plain.specs.Fault.{FindsNone, IsMade, need, sparing, was_slot};
ghost use Rattle.av_plain.specs.Ledger.{entry};
ghost use Rattle.av_plain.specs.World.{World};
ghost use Rattle.av_audit_book.specs.Book.{ledger_of};
ghost use Rattle.av_audit_book.specs.Machine.{AreNamed, setting_of};
ghost use Rattle.av_audit_book.specs.Need.{need_of};
ghost use Rattle.av_audit_judge.specs.Stage.{Meets};
ghost use Rattle.av_audit_world.specs.Memories.{IsWorld};
ghost use Rattle.av_audit_access.specs.Take.{HasNoFrame, MakesFrame, making_of};

use crate::taking::{Take, takes_behind};
use av_audit_book::{Book, Machine, Need, Spared};
use av_audit_judge::{Taking, Unit, reads};
use av_audit_world::Memories;
use av_trace::{Note, OutOf};
use std::alloc::AllocError;

/// Whether a page has what it needs; or no frame could be had for it.
#[derive(Clone, Copy, Drop)]
pub enum Making {
    Made,
    Starved(OutOf),
}

/// A page gets a frame, but not that which is pinned.
fn makes_frame(
    book: &mut Book,
    unit: &mut Unit<'_>,
    machine: &Machine,
    memories: &Memories,
    pinned: Option<u32>,
    taking: Taking,
) -> Result<Option<Making>, AllocError>
    requires some { 0 < machine.now.frames }
    requires fits { AreNamed (setting_of machine.now) }
    ensures { let l = ledger_of book.old in IfOk result (λ found. (w : World)
        → IsWorld memories.now w → Meets
        (MakesFrame (setting_of machine.now) (sparing w l pinned) l taking)
        (HasNoFrame (setting_of machine.now) (sparing w l pinned) l) l unit.old.rest.now
        (making_of found) (ledger_of book.new) unit.new.rest.now) }
{
    let spared = Spared {
        pinned,
        memories,
        closing: None,
    };
    match takes_behind(book, unit, machine, &spared, taking)? {
        None => Ok(None),
        Some(Take::Taken(_)) => Ok(Some(Making::Made)),
        Some(Take::Starved) => Ok(Some(Making::Starved(book.out_of(machine, &spared)?))),
    }
}

/// A page gets what it needs, where its entry is no slot.
pub fn makes(
    book: &mut Book,
    unit: &mut Unit<'_>,
    machine: &Machine,
    memories: &Memories,
    need: Need,
    process: u16,
    page: u64,
) -> Result<Option<Making>, AllocError>
    requires some { 0 < machine.now.frames }
    requires fits { AreNamed (setting_of machine.now) }
    requires page { page < 2 ^ 52 }
    requires here { was_slot (need_of need) ≡ false }
    ensures { IfOk result (λ found. (w : World) → IsWorld memories.now w → Meets
        (λ u. IsMade (setting_of machine.now) (sparing w) (ledger_of book.old) (process, page)
        (need_of need))
        (λ out notes. FindsNone (setting_of machine.now) (sparing w) (ledger_of book.old)
        (need_of need) notes out) (ledger_of book.old) unit.old.rest.now (making_of found)
        (ledger_of book.new) unit.new.rest.now) }
{
    let address = page * 4096;
    match need {
        Need::Ready => Ok(Some(Making::Made)),
        Need::ZeroPage => {
            if !reads(book, unit, Note::Zeroed { process, address })? {
                return Ok(None);
            }
            Ok(Some(Making::Made))
        }
        Need::NewPage => {
            let taking = Taking::New { process, address };
            makes_frame(book, unit, machine, memories, None, taking)
        }
        Need::Copy(frame) => {
            let taking = Taking::Copied { process, address };
            makes_frame(book, unit, machine, memories, Some(frame), taking)
        }
        Need::SwapIn(_) | Need::MapCached(_) => unreachable!(),
    }
}
