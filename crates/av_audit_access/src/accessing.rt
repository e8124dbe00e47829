//! The pages of an access in turn.

ghost use Rattle.std.specs.Prelude.{◌≡◌, ◌<◌, ◌^◌, IfOk, option_map};
ghost use Rattle.std.specs.List.{AllByRecursion};
ghost use Rattle.av_plain.specs.Access.{Accesses};
ghost use Rattle.av_plain.specs.World.{World};
ghost use Rattle.av_audit_book.specs.Book.{ledger_of};
ghost use Rattle.av_audit_book.specs.Machine.{AreNamed, setting_of};
ghost use Rattle.av_audit_world.specs.Memories.{IsWorld};
ghost use Rattle.av_audit_access.specs.Access.{Ends, end_of};

use crate::coming::{Coming, Stop};
use crate::touching::touches;
use av_audit_book::{Book, Machine};
use av_audit_events::touch;
use av_audit_judge::Unit;
use av_audit_world::Memories;
use std::alloc::{AllocError, Global};

/// Where an access ends: each page is served; or the page with this number isn't.
#[derive(Clone, Copy, Drop)]
pub enum End {
    Whole,
    Stopped { page: u64, stop: Stop },
}

/// The pages of a process in turn, each read or written, as a unit's notes tell: where that ends.
/// None where the notes tell no access of these pages. Without memory a part may be done.
pub fn accesses(
    book: &mut Book,
    alloc: Global,
    machine: &Machine,
    memories: &Memories,
    process: u16,
    pages: &[(bool, u64)],
    notes: &[u8],
) -> Result<Option<End>, AllocError>
    requires some { 0 < machine.now.frames }
    requires fits { AreNamed (setting_of machine.now) }
    requires pages { AllByRecursion (λ page. page.1 < 2 ^ 52) pages.now }
    ensures { IfOk result (λ found. (w : World) → IsWorld memories.now w
        → Ends (λ end events. Accesses (setting_of machine.now) w (ledger_of book.old) process
        pages.now events end) (ledger_of book.old) notes.now (option_map end_of found)
        (ledger_of book.new)) }
{
    let mut unit = Unit { alloc, rest: notes };
    let mut rest = pages;
    while let [first, others @ ..] = rest {
        let (write, page) = *first;
        match touches(book, &mut unit, machine, memories, write, process, page)? {
            None => return Ok(None),
            Some(Coming::Kept(stop)) => return Ok(Some(End::Stopped { page, stop })),
            Some(Coming::Here) => touch(book, write, process, page)?,
        }
        rest = others;
    }
    if unit.rest.is_empty() {
        Ok(Some(End::Whole))
    } else {
        Ok(None)
    }
}
