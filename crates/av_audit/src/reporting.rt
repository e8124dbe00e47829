//! Units of reports. They change nothing.

ghost use Rattle.std.specs.Prelude.{◌≡◌, [], ◌∷◌, IfOk, is_some, true};
ghost use Rattle.av_trace.specs.declared.command.Command.TheVariants as commands;
ghost use Rattle.av_plain.specs.Ledger.{Setting};
ghost use Rattle.av_plain.specs.Refusal.{no_page, no_process, refusal};
ghost use Rattle.av_plain.specs.World.{World};
ghost use Rattle.av_audit_book.specs.Book.{ledger_of};
ghost use Rattle.av_audit_book.specs.Machine.{setting_of};
ghost use Rattle.av_audit_world.specs.Memories.{IsWorld};
ghost use Rattle.av_audit.specs.Judge.{IsLeft};

use av_audit_area::judges_areas;
use av_audit_book::{Book, Machine};
use av_audit_judge::is_answer;
use av_audit_report::{
    judges_entry, judges_maps, judges_rmap, judges_slot, judges_stat, refuses_slot,
};
use av_audit_world::Memories;
use av_base::{PAGE_SIZE, Slot};
use av_trace::{Answer, Errno};
use std::alloc::{AllocError, Global};

/// Why a report of a page is refused, if it is.
fn refuses_page(memories: &Memories, process: u16, address: u64) -> Option<Errno>
    ensures { (w : World) → IsWorld memories.now w
        → result ≡ refusal (no_process w process ∷ no_page w process address ∷ []) }
{
    match memories.get(process) {
        None => Some(Errno::Esrch),
        Some(space) => {
            if space.meets(address / PAGE_SIZE, 1) {
                None
            } else {
                Some(Errno::Efault)
            }
        }
    }
}

/// Whether a unit is legal for `entry`.
pub fn audits_entry(
    alloc: Global,
    memories: &Memories,
    book: &Book,
    process: u16,
    address: u64,
    unit: &[u8],
) -> Result<bool, AllocError>
    ensures { IfOk result (λ legal. (m : Setting) (w : World) → IsWorld memories.now w
        → is_some m.headers ≡ true → IsLeft m w (ledger_of book.now)
        (commands.Entry process address) unit.now legal memories.now book.now) }
{
    match refuses_page(memories, process, address) {
        Some(error) => is_answer(alloc, &Answer::Refused(error), unit),
        None => judges_entry(book, alloc, process, address, unit),
    }
}

/// Whether a unit is legal for `rmap`.
pub fn audits_rmap(
    alloc: Global,
    memories: &Memories,
    book: &Book,
    process: u16,
    address: u64,
    unit: &[u8],
) -> Result<bool, AllocError>
    ensures { IfOk result (λ legal. (m : Setting) (w : World) → IsWorld memories.now w
        → is_some m.headers ≡ true → IsLeft m w (ledger_of book.now)
        (commands.Rmap process address) unit.now legal memories.now book.now) }
{
    match refuses_page(memories, process, address) {
        Some(error) => is_answer(alloc, &Answer::Refused(error), unit),
        None => judges_rmap(book, alloc, process, address, unit),
    }
}

/// Whether a unit is legal for `slot`.
pub fn audits_slot(
    alloc: Global,
    machine: &Machine,
    memories: &Memories,
    book: &Book,
    area: u8,
    page: u32,
    unit: &[u8],
) -> Result<bool, AllocError>
    ensures { IfOk result (λ legal. (w : World) → IsWorld memories.now w
        → IsLeft (setting_of machine.now) w (ledger_of book.now) (commands.Slot area page)
        unit.now legal memories.now book.now) }
{
    let slot = Slot { area, page };
    match refuses_slot(book, machine, slot) {
        Some(error) => is_answer(alloc, &Answer::Refused(error), unit),
        None => judges_slot(book, machine, alloc, slot, unit),
    }
}

/// Whether a unit is legal for `stat`.
pub fn audits_stat(
    alloc: Global,
    machine: &Machine,
    memories: &Memories,
    book: &Book,
    unit: &[u8],
) -> Result<bool, AllocError>
    ensures { IfOk result (λ legal. (w : World) → IsWorld memories.now w
        → IsLeft (setting_of machine.now) w (ledger_of book.now) commands.Stat unit.now legal
        memories.now book.now) }
{
    judges_stat(book, machine, alloc, memories.count(), unit)
}

/// Whether a unit is legal for `maps`.
pub fn audits_maps(
    alloc: Global,
    memories: &Memories,
    book: &Book,
    process: u16,
    unit: &[u8],
) -> Result<bool, AllocError>
    ensures { IfOk result (λ legal. (m : Setting) (w : World) → IsWorld memories.now w
        → is_some m.headers ≡ true → IsLeft m w (ledger_of book.now) (commands.Maps process)
        unit.now legal memories.now book.now) }
{
    match memories.get(process) {
        None => is_answer(alloc, &Answer::Refused(Errno::Esrch), unit),
        Some(space) => judges_maps(space, alloc, process, unit),
    }
}

/// Whether a unit is legal for `areas`.
pub fn audits_areas(
    alloc: Global,
    memories: &Memories,
    book: &Book,
    process: u16,
    unit: &[u8],
) -> Result<bool, AllocError>
    ensures { IfOk result (λ legal. (m : Setting) (w : World) → IsWorld memories.now w
        → is_some m.headers ≡ true → IsLeft m w (ledger_of book.now) (commands.Areas process)
        unit.now legal memories.now book.now) }
{
    match memories.get(process) {
        None => is_answer(alloc, &Answer::Refused(Errno::Esrch), unit),
        Some(space) => judges_areas(space, alloc, process, unit),
    }
}
