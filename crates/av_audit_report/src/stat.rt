//! Units for `stat`.

ghost use Rattle.std.specs.Prelude.{◌≡◌, IfNone, IfOk, IfSome, length};
ghost use Rattle.av_text.specs.Number.{IsWide};
ghost use Rattle.av_trace.specs.Reply.{AreTotals};
ghost use Rattle.av_trace.specs.declared.command.Command.TheVariants as commands;
ghost use Rattle.av_plain.specs.Report.{totals as totals_of};
ghost use Rattle.av_plain.specs.World.{World};
ghost use Rattle.av_audit_book.specs.Book.{ledger_of};
ghost use Rattle.av_audit_book.specs.Machine.{setting_of};
ghost use Rattle.av_audit_judge.specs.Verdict.{IsVerdict};

use av_audit_book::{Book, Machine};
use av_audit_judge::is_answer;
use av_trace::{Answer, Totals};
use std::alloc::{AllocError, Global};

/// Whether a unit is legal for `stat`, where so many processes live.
pub fn judges_stat(
    book: &Book,
    machine: &Machine,
    alloc: Global,
    processes: usize,
    text: &[u8],
) -> Result<bool, AllocError>
    ensures { IfOk result (λ legal. (w : World) → processes ≡ length w
        → IsVerdict (setting_of machine.now) w (ledger_of book.now) commands.Stat text.now legal
        (ledger_of book.now)) }
{
    match totals(book, machine, processes) {
        None => Ok(false),
        Some(totals) => is_answer(alloc, &Answer::Counted(totals), text),
    }
}

/// The numbers of `stat`; none where one is of more than 64 bits.
fn totals(book: &Book, machine: &Machine, processes: usize) -> Option<Totals>
    ensures is { IfSome result (λ totals. (w : World) → processes ≡ length w
        → totals ≡ totals_of (setting_of machine.now) w (ledger_of book.now)) }
    ensures fits { IfSome result AreTotals }
    ensures none { IfNone result ((w : World)
        → AreTotals (totals_of (setting_of machine.now) w (ledger_of book.now)) → ⊥) }
{
    Some(Totals {
        frames: u64::from(machine.frames),
        free: u64::from(book.count_free(machine)),
        active: book.active.len() as u64,
        inactive: book.inactive.len() as u64,
        flight: book.flight.len() as u64,
        slots: narrow(book.all_slots())?,
        free_slots: narrow(book.all_free_slots(machine))?,
        processes: processes as u64,
    })
}

/// A number, if it is of 64 bits.
fn narrow(n: u128) -> Option<u64>
    ensures is { IfSome result (λ same. same ≡ n) }
    ensures none { IfNone result (IsWide n → ⊥) }
{
    if n <= u128::from(u64::MAX) {
        Some(n as u64)
    } else {
        None
    }
}
