//! Units of `exit` and `munmap`.

ghost use Rattle.std.specs.Prelude.{◌≡◌, ◌+◌, ◌<◌, IfOk, is_some, nat_lt, true};
ghost use Rattle.av_trace.specs.declared.command.Command.TheVariants as commands;
ghost use Rattle.av_plain.specs.Ledger.{Ledger, Setting};
ghost use Rattle.av_plain.specs.Refusal.{refusal, tests, top};
ghost use Rattle.av_plain.specs.World.{World};
ghost use Rattle.av_audit_book.specs.Book.{ledger_of};
ghost use Rattle.av_audit_world.specs.Memories.{IsWorld};
ghost use Rattle.av_audit.specs.Judge.{IsLeft};

use av_audit_book::Book;
use av_audit_judge::{is_answer, judges_exit, judges_munmap};
use av_audit_world::{Edit, Memories};
use av_base::{PAGE_SIZE, TOP_PAGE};
use av_trace::{Answer, Errno};
use std::alloc::{AllocError, Global};

/// Why an exit is refused, if it is.
fn refuses_exit(memories: &Memories, process: u16) -> Option<Errno>
    ensures { (m : Setting) (w : World) (l : Ledger) → IsWorld memories.now w
        → result ≡ refusal (tests m w l (commands.Exit process)) }
{
    if memories.lives(process) {
        None
    } else {
        Some(Errno::Esrch)
    }
}

/// Whether a unit is legal for `exit`.
pub fn audits_exit(
    alloc: Global,
    memories: &mut Memories,
    book: &mut Book,
    process: u16,
    unit: &[u8],
) -> Result<bool, AllocError>
    ensures { IfOk result (λ legal. (m : Setting) (w : World) → IsWorld memories.old w
        → is_some m.headers ≡ true → IsLeft m w (ledger_of book.old) (commands.Exit process)
        unit.now legal memories.new book.new) }
{
    match refuses_exit(memories, process) {
        Some(error) => is_answer(alloc, &Answer::Refused(error), unit),
        None => {
            if !judges_exit(book, alloc, process, unit)? {
                return Ok(false);
            }
            memories.remove(process);
            Ok(true)
        }
    }
}

/// Whether bytes from an address on end past the top.
fn ends_above(address: u64, length: u64) -> bool
    ensures { result ≡ nat_lt top (address + length) }
{
    let above = TOP_PAGE * PAGE_SIZE;
    address > above || length > above - address
}

/// Why a munmap is refused, if it is.
fn refuses_munmap(memories: &Memories, process: u16, address: u64, length: u64) -> Option<Errno>
    ensures { (m : Setting) (w : World) (l : Ledger) → IsWorld memories.now w
        → result ≡ refusal (tests m w l (commands.Munmap process address length)) }
{
    if !memories.lives(process) {
        Some(Errno::Esrch)
    } else if address % PAGE_SIZE != 0 || length == 0 || ends_above(address, length) {
        Some(Errno::Einval)
    } else {
        None
    }
}

/// Whether a unit is legal for `munmap`.
pub fn audits_munmap(
    alloc: Global,
    memories: &mut Memories,
    book: &mut Book,
    process: u16,
    address: u64,
    length: u64,
    unit: &[u8],
) -> Result<bool, AllocError>
    ensures { IfOk result (λ legal. (m : Setting) (w : World) → IsWorld memories.old w
        → is_some m.headers ≡ true → IsLeft m w (ledger_of book.old)
        (commands.Munmap process address length) unit.now legal memories.new book.new) }
{
    match refuses_munmap(memories, process, address, length) {
        Some(error) => is_answer(alloc, &Answer::Refused(error), unit),
        None => {
            if !judges_munmap(book, alloc, process, address, length, unit)? {
                return Ok(false);
            }
            let from = address / PAGE_SIZE;
            let n = length.div_ceil(PAGE_SIZE);
            memories.edit(process, Edit::Unmap { from, n })?;
            Ok(true)
        }
    }
}
