//! A page is read or written.

ghost use Rattle.std.specs.Prelude.{◌≡◌, ◌<◌, ◌^◌, IfOk, None, Some, false};
ghost use Rattle.av_plain.specs.Fault.{Serves, Touches, need as need_in, sparing};
ghost use Rattle.av_plain.specs.Fault.{was_slot};
ghost use Rattle.av_plain.specs.Ledger.{entry};
ghost use Rattle.av_plain.specs.World.{World};
ghost use Rattle.av_audit_book.specs.Book.{ledger_of};
ghost use Rattle.av_audit_book.specs.Machine.{AreNamed, setting_of};
ghost use Rattle.av_audit_book.specs.Need.{need_of};
ghost use Rattle.av_audit_judge.specs.Stage.{Meets};
ghost use Rattle.av_audit_world.specs.Memories.{IsWorld};
ghost use Rattle.av_audit_access.specs.Come.{coming_of};
ghost use Rattle.av_audit_access.specs.Touch.{IsMadeReady, IsUnready, IsUnserved};

use crate::coming::{Coming, Stop, comes};
use crate::dropping::{drops, unneeded};
use crate::making::{Making, makes};
use av_audit_book::{Book, Machine, Need};
use av_audit_judge::Unit;
use av_audit_world::Memories;
use std::alloc::AllocError;

/// A page that is here gets what it needs, and its slot is dropped if that is needed no more.
fn makes_ready(
    book: &mut Book,
    unit: &mut Unit<'_>,
    machine: &Machine,
    memories: &Memories,
    write: bool,
    came: bool,
    process: u16,
    page: u64,
) -> Result<Option<Coming>, AllocError>
    requires some { 0 < machine.now.frames }
    requires fits { AreNamed (setting_of machine.now) }
    requires page { page < 2 ^ 52 }
    requires here { was_slot (need_in write (ledger_of book.now)
        (entry (ledger_of book.now) (process, page))) ≡ false }
    ensures { IfOk result (λ found. (w : World) → IsWorld memories.now w → Meets
        (λ u. IsMadeReady (setting_of machine.now) (sparing w) (ledger_of book.old) write came
        (process, page))
        (IsUnready (setting_of machine.now) (sparing w) (ledger_of book.old) write
        (process, page)) (ledger_of book.old) unit.old.rest.now (coming_of found)
        (ledger_of book.new) unit.new.rest.now) }
{
    let need = book.needs(write, process, page);
    match makes(book, unit, machine, memories, need, process, page)? {
        None => Ok(None),
        Some(Making::Starved(out)) => Ok(Some(Coming::Kept(Stop::Starved(out)))),
        Some(Making::Made) => {
            let slot = unneeded(book, machine, write, came, process, page);
            if !drops(book, unit, slot)? {
                return Ok(None);
            }
            Ok(Some(Coming::Here))
        }
    }
}

/// Whether the entry of a page that needs this is a slot.
fn is_slot(need: Need) -> bool
    ensures { result ≡ was_slot (need_of need) }
{
    matches!(need, Need::SwapIn(_) | Need::MapCached(_))
}

/// A page that may be read or written is served.
fn serves(
    book: &mut Book,
    unit: &mut Unit<'_>,
    machine: &Machine,
    memories: &Memories,
    write: bool,
    process: u16,
    page: u64,
) -> Result<Option<Coming>, AllocError>
    requires some { 0 < machine.now.frames }
    requires fits { AreNamed (setting_of machine.now) }
    requires page { page < 2 ^ 52 }
    ensures { IfOk result (λ found. (w : World) → IsWorld memories.now w → Meets
        (λ u. Serves (setting_of machine.now) (sparing w) (ledger_of book.old) write
        (process, page))
        (IsUnserved (setting_of machine.now) (sparing w) (ledger_of book.old) write
        (process, page)) (ledger_of book.old) unit.old.rest.now (coming_of found)
        (ledger_of book.new) unit.new.rest.now) }
{
    let need = book.needs(write, process, page);
    let came = is_slot(need);
    match comes(book, unit, machine, memories, need, process, page)? {
        None => Ok(None),
        Some(Coming::Kept(stop)) => Ok(Some(Coming::Kept(stop))),
        Some(Coming::Here) => {
            makes_ready(book, unit, machine, memories, write, came, process, page)
        }
    }
}

/// A page is read or written: it is served, or it isn't and the notes end.
pub fn touches(
    book: &mut Book,
    unit: &mut Unit<'_>,
    machine: &Machine,
    memories: &Memories,
    write: bool,
    process: u16,
    page: u64,
) -> Result<Option<Coming>, AllocError>
    requires some { 0 < machine.now.frames }
    requires fits { AreNamed (setting_of machine.now) }
    requires page { page < 2 ^ 52 }
    ensures { IfOk result (λ found. (w : World) → IsWorld memories.now w → Meets
        (λ u notes. Touches (setting_of machine.now) w (ledger_of book.old) write (process, page)
        notes None)
        (λ stop notes. Touches (setting_of machine.now) w (ledger_of book.old) write
        (process, page) notes (Some stop)) (ledger_of book.old) unit.old.rest.now
        (coming_of found) (ledger_of book.new) unit.new.rest.now) }
{
    if memories.allows(write, process, page) {
        serves(book, unit, machine, memories, write, process, page)
    } else if unit.rest.is_empty() {
        Ok(Some(Coming::Kept(Stop::Denied)))
    } else {
        Ok(None)
    }
}
