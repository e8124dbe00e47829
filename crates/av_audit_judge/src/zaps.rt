//! Units for commands that take entries away, and tell the slots that are dropped for it.

ghost use Rattle.std.specs.Prelude.{◌≡◌, IfOk, None};
ghost use Rattle.av_trace.specs.declared.command.Command.TheVariants as commands;
ghost use Rattle.av_plain.specs.Ledger.{Setting};
ghost use Rattle.av_plain.specs.Refusal.{refusal, tests};
ghost use Rattle.av_plain.specs.World.{World};
ghost use Rattle.av_audit_book.specs.Book.{ledger_of};
ghost use Rattle.av_audit_judge.specs.Verdict.{IsVerdict};

use crate::text::{all_fit, tells};
use av_audit_book::Book;
use av_audit_events::{zap_process, zap_range};
use av_trace::Notes;
use std::alloc::{AllocError, Global};

/// Whether a unit is legal for `exit`, where nothing refuses that.
pub fn judges_exit(
    book: &mut Book,
    alloc: Global,
    process: u16,
    text: &[u8],
) -> Result<bool, AllocError>
    ensures { IfOk result (λ legal. (m : Setting) (w : World)
        → refusal (tests m w (ledger_of book.old) (commands.Exit process)) ≡ None
        → IsVerdict m w (ledger_of book.old) (commands.Exit process) text.now legal
        (ledger_of book.new)) }
{
    let mut notes = Notes::new(alloc);
    zap_process(book, alloc, process, &mut notes)?;
    all_fit(notes.as_slice());
    tells(alloc, notes, text)
}

/// Whether a unit is legal for `munmap`, where nothing refuses that.
pub fn judges_munmap(
    book: &mut Book,
    alloc: Global,
    process: u16,
    address: u64,
    length: u64,
    text: &[u8],
) -> Result<bool, AllocError>
    ensures { IfOk result (λ legal. (m : Setting) (w : World)
        → refusal (tests m w (ledger_of book.old) (commands.Munmap process address length)) ≡ None
        → IsVerdict m w (ledger_of book.old) (commands.Munmap process address length) text.now
        legal (ledger_of book.new)) }
{
    let mut notes = Notes::new(alloc);
    let pages = length.div_ceil(4096);
    zap_range(book, alloc, process, address / 4096, pages, &mut notes)?;
    all_fit(notes.as_slice());
    tells(alloc, notes, text)
}
