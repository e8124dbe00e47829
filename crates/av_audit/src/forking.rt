//! Units of `fork`.

ghost use Rattle.std.specs.Prelude.{◌≡◌, IfOk, OnOk, is_some, true};
ghost use Rattle.av_trace.specs.declared.command.Command.TheVariants as commands;
ghost use Rattle.av_plain.specs.Fork.{inheritance as inheritance_of};
ghost use Rattle.av_plain.specs.Ledger.{Ledger, Setting};
ghost use Rattle.av_plain.specs.Refusal.{refusal, tests};
ghost use Rattle.av_plain.specs.World.{World, pages};
ghost use Rattle.av_audit_book.specs.Book.{ledger_of};
ghost use Rattle.av_audit_world.specs.Memories.{IsWorld};
ghost use Rattle.av_audit.specs.Judge.{IsLeft};
ghost use Rattle.av_plain.specs.Event.{after_fork};

use av_audit_book::Book;
use av_audit_events::{fork, keys_of};
use av_audit_judge::is_answer;
use av_audit_world::Memories;
use av_base::MOST_PROCESSES;
use av_trace::{Answer, Errno};
use std::alloc::{AllocError, Global};

/// Why a fork is refused, if it is.
fn refuses_fork(memories: &Memories, parent: u16, child: u16) -> Option<Errno>
    ensures { (m : Setting) (w : World) (l : Ledger) → IsWorld memories.now w
        → result ≡ refusal (tests m w l (commands.Fork parent child)) }
{
    if !memories.lives(parent) {
        Some(Errno::Esrch)
    } else if memories.lives(child) {
        Some(Errno::Eexist)
    } else if memories.count() >= MOST_PROCESSES {
        Some(Errno::Eagain)
    } else {
        None
    }
}

/// The pages of a process whose entries go over to a child.
fn inheritance(
    alloc: Global,
    memories: &Memories,
    book: &Book,
    parent: u16,
) -> Result<Vec<u64>, AllocError>
    ensures { IfOk result (λ made. (w : World) → IsWorld memories.now w
        → made.items ≡ inheritance_of (pages w parent) (ledger_of book.now) parent) }
{
    let keys = keys_of(book, alloc, parent)?;
    let mut made = Vec::new(alloc);
    let mut rest = keys.as_slice();
    while let [first, others @ ..] = rest {
        if memories.goes_over(parent, first.1) {
            made.push(first.1)?;
        }
        rest = others;
    }
    Ok(made)
}

/// The entries go over to a child that do so. Without memory a part may be done.
fn follow_fork(
    alloc: Global,
    memories: &Memories,
    book: &mut Book,
    parent: u16,
    child: u16,
) -> Result<(), AllocError>
    ensures { OnOk result ((w : World) → IsWorld memories.now w → ledger_of book.new
        ≡ after_fork parent child (inheritance_of (pages w parent) (ledger_of book.old) parent)
        (ledger_of book.old)) }
{
    let pages = inheritance(alloc, memories, book, parent)?;
    fork(book, alloc, parent, child, pages.as_slice())
}

/// Whether a unit is legal for `fork`.
pub fn audits_fork(
    alloc: Global,
    memories: &mut Memories,
    book: &mut Book,
    parent: u16,
    child: u16,
    unit: &[u8],
) -> Result<bool, AllocError>
    ensures { IfOk result (λ legal. (m : Setting) (w : World) → IsWorld memories.old w
        → is_some m.headers ≡ true → IsLeft m w (ledger_of book.old)
        (commands.Fork parent child) unit.now legal memories.new book.new) }
{
    match refuses_fork(memories, parent, child) {
        Some(error) => is_answer(alloc, &Answer::Refused(error), unit),
        None => {
            if !is_answer(alloc, &Answer::Done, unit)? {
                return Ok(false);
            }
            follow_fork(alloc, memories, book, parent, child)?;
            memories.fork(parent, child)?;
            Ok(true)
        }
    }
}
