//! Whether a unit is legal, by the command that it answers.

ghost use Rattle.std.specs.Prelude.{◌≡◌, IfOk};
ghost use Rattle.av_plain.specs.Sound.{AllSound};
ghost use Rattle.av_plain.specs.World.{World};
ghost use Rattle.av_audit_book.specs.Book.{ledger_of};
ghost use Rattle.av_audit_book.specs.Machine.{setting_of};
ghost use Rattle.av_audit_world.specs.Memories.{IsWorld};
ghost use Rattle.av_audit.specs.Judge.{IsLeft};
ghost use Rattle.av_audit.specs.Kind.{OfAreas, OfFrames, OfMarks, OfPages, OfProcesses, Reports};
ghost use Rattle.av_audit.specs.Kind.{kind_of};
ghost use Rattle.av_audit.specs.Swap.{FitsWords};

use crate::accessing::{audits_read, audits_write};
use crate::advising::{audits_madvise, audits_munlock};
use crate::forking::audits_fork;
use crate::leaving::{audits_exit, audits_munmap};
use crate::locking::audits_mlock;
use crate::mapping::{audits_mmap, audits_mprotect};
use crate::remapping::audits_mremap;
use crate::reporting::{
    audits_areas, audits_entry, audits_maps, audits_rmap, audits_slot, audits_stat,
};
use crate::spawn::audits_spawn;
use crate::swapping::{audits_reclaim, audits_swapoff, audits_swapon};
use av_audit_book::{Book, Machine};
use av_audit_judge::{judges_age, judges_complete};
use av_audit_neighbour::{judges_compact, judges_merge};
use av_audit_world::Memories;
use av_trace::Command;
use std::alloc::{AllocError, Global};

/// Whether a unit is legal. Memories and book are then as it leaves them.
pub fn is_legal(
    alloc: Global,
    machine: &Machine,
    memories: &mut Memories,
    book: &mut Book,
    command: &Command,
    unit: &[u8],
) -> Result<bool, AllocError>
    requires machine { FitsWords machine.now }
    ensures { IfOk result (λ legal. (w : World) → IsWorld memories.old w
        → AllSound (setting_of machine.now) w (ledger_of book.old)
        → IsLeft (setting_of machine.now) w (ledger_of book.old) command.now unit.now legal
        memories.new book.new) }
{
    match command {
        Command::Spawn { .. } | Command::Fork { .. } | Command::Exit { .. } => {
            is_legal_for_process(alloc, memories, book, command, unit)
        }
        Command::Mmap { .. } | Command::Munmap { .. } | Command::Mremap { .. } => {
            is_legal_for_areas(alloc, memories, book, command, unit)
        }
        Command::Mprotect { .. } | Command::Madvise { .. } | Command::Munlock { .. } => {
            is_legal_for_marks(alloc, memories, book, command, unit)
        }
        Command::Mlock { .. } | Command::Read { .. } | Command::Write { .. } => {
            is_legal_for_pages(alloc, machine, memories, book, command, unit)
        }
        Command::Reclaim { .. }
        | Command::Age { .. }
        | Command::Complete { .. }
        | Command::Swapon { .. }
        | Command::Swapoff { .. }
        | Command::Merge
        | Command::Compact => is_legal_for_frames(alloc, machine, memories, book, command, unit),
        Command::Maps { .. }
        | Command::Areas { .. }
        | Command::Rmap { .. }
        | Command::Entry { .. }
        | Command::Slot { .. }
        | Command::Stat => is_legal_report(alloc, machine, memories, book, command, unit),
    }
}

/// Processes come and go.
fn is_legal_for_process(
    alloc: Global,
    memories: &mut Memories,
    book: &mut Book,
    command: &Command,
    unit: &[u8],
) -> Result<bool, AllocError>
    requires kind { kind_of command.now ≡ OfProcesses }
    ensures { IfOk result (λ legal. (machine : Machine) (w : World) → IsWorld memories.old w
        → IsLeft (setting_of machine) w (ledger_of book.old) command.now unit.now legal
        memories.new book.new) }
{
    match command {
        Command::Spawn { process } => audits_spawn(alloc, memories, *process, unit),
        Command::Fork { parent, child } => {
            audits_fork(alloc, memories, book, *parent, *child, unit)
        }
        Command::Exit { process } => audits_exit(alloc, memories, book, *process, unit),
        _ => unreachable!(),
    }
}

/// Areas come, go, grow and go to another place.
fn is_legal_for_areas(
    alloc: Global,
    memories: &mut Memories,
    book: &mut Book,
    command: &Command,
    unit: &[u8],
) -> Result<bool, AllocError>
    requires kind { kind_of command.now ≡ OfAreas }
    ensures { IfOk result (λ legal. (machine : Machine) (w : World) → IsWorld memories.old w
        → IsLeft (setting_of machine) w (ledger_of book.old) command.now unit.now legal
        memories.new book.new) }
{
    match command {
        Command::Mmap {
            process,
            len,
            prot,
            place,
        } => audits_mmap(alloc, memories, book, *process, *len, *prot, *place, unit),
        Command::Munmap {
            process,
            address,
            len,
        } => audits_munmap(alloc, memories, book, *process, *address, *len, unit),
        Command::Mremap {
            process,
            address,
            old_len,
            new_len,
            mode,
        } => audits_mremap(
            alloc, memories, book, *process, *address, *old_len, *new_len, *mode, unit,
        ),
        _ => unreachable!(),
    }
}

/// What is said of pages changes.
fn is_legal_for_marks(
    alloc: Global,
    memories: &mut Memories,
    book: &mut Book,
    command: &Command,
    unit: &[u8],
) -> Result<bool, AllocError>
    requires kind { kind_of command.now ≡ OfMarks }
    ensures { IfOk result (λ legal. (machine : Machine) (w : World) → IsWorld memories.old w
        → IsLeft (setting_of machine) w (ledger_of book.old) command.now unit.now legal
        memories.new book.new) }
{
    match command {
        Command::Mprotect {
            process,
            address,
            len,
            prot,
        } => audits_mprotect(alloc, memories, *process, *address, *len, *prot, unit),
        Command::Madvise {
            process,
            address,
            len,
            advice,
        } => audits_madvise(
            alloc, memories, book, *process, *address, *len, *advice, unit,
        ),
        Command::Munlock {
            process,
            address,
            len,
        } => audits_munlock(alloc, memories, *process, *address, *len, unit),
        _ => unreachable!(),
    }
}

/// Pages are accessed, or brought in.
fn is_legal_for_pages(
    alloc: Global,
    machine: &Machine,
    memories: &mut Memories,
    book: &mut Book,
    command: &Command,
    unit: &[u8],
) -> Result<bool, AllocError>
    requires machine { FitsWords machine.now }
    requires kind { kind_of command.now ≡ OfPages }
    ensures { IfOk result (λ legal. (w : World) → IsWorld memories.old w
        → IsLeft (setting_of machine.now) w (ledger_of book.old) command.now unit.now legal
        memories.new book.new) }
{
    match command {
        Command::Mlock {
            process,
            address,
            len,
        } => audits_mlock(
            alloc, machine, memories, book, *process, *address, *len, unit,
        ),
        Command::Read {
            process,
            address,
            len,
        } => audits_read(
            alloc, machine, memories, book, *process, *address, *len, unit,
        ),
        Command::Write {
            process,
            address,
            bytes,
        } => {
            let bytes = bytes.as_slice();
            audits_write(
                alloc, machine, memories, book, *process, *address, bytes, unit,
            )
        }
        _ => unreachable!(),
    }
}

/// Frames are reclaimed, merged or moved, and swap areas go on and off.
fn is_legal_for_frames(
    alloc: Global,
    machine: &Machine,
    memories: &mut Memories,
    book: &mut Book,
    command: &Command,
    unit: &[u8],
) -> Result<bool, AllocError>
    requires machine { FitsWords machine.now }
    requires kind { kind_of command.now ≡ OfFrames }
    ensures { IfOk result (λ legal. (w : World) → IsWorld memories.old w
        → AllSound (setting_of machine.now) w (ledger_of book.old)
        → IsLeft (setting_of machine.now) w (ledger_of book.old) command.now unit.now legal
        memories.new book.new) }
{
    match command {
        Command::Reclaim { frames } => {
            audits_reclaim(alloc, machine, memories, book, *frames, unit)
        }
        Command::Age { frames } => judges_age(book, alloc, *frames, unit),
        Command::Complete { slots } => judges_complete(book, alloc, *slots, unit),
        Command::Swapon { area, priority } => {
            audits_swapon(alloc, machine, memories, book, *area, *priority, unit)
        }
        Command::Swapoff { area } => audits_swapoff(alloc, machine, memories, book, *area, unit),
        Command::Merge => judges_merge(book, machine, memories, alloc, unit),
        Command::Compact => judges_compact(book, machine, alloc, unit),
        _ => unreachable!(),
    }
}

/// A report shows what there is.
fn is_legal_report(
    alloc: Global,
    machine: &Machine,
    memories: &Memories,
    book: &Book,
    command: &Command,
    unit: &[u8],
) -> Result<bool, AllocError>
    requires kind { kind_of command.now ≡ Reports }
    ensures { IfOk result (λ legal. (w : World) → IsWorld memories.now w
        → IsLeft (setting_of machine.now) w (ledger_of book.now) command.now unit.now legal
        memories.now book.now) }
{
    match command {
        Command::Maps { process } => audits_maps(alloc, memories, book, *process, unit),
        Command::Areas { process } => audits_areas(alloc, memories, book, *process, unit),
        Command::Rmap { process, address } => {
            audits_rmap(alloc, memories, book, *process, *address, unit)
        }
        Command::Entry { process, address } => {
            audits_entry(alloc, memories, book, *process, *address, unit)
        }
        Command::Slot { area, page } => {
            audits_slot(alloc, machine, memories, book, *area, *page, unit)
        }
        Command::Stat => audits_stat(alloc, machine, memories, book, unit),
        _ => unreachable!(),
    }
}
