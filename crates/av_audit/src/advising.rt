//! Units of `madvise` and `munlock`.

ghost use Rattle.std.specs.Prelude.{◌≡◌, ℕ, IfOk, None, Some, is_some, true};
ghost use Rattle.av_trace.specs.declared.advice.Advice.{Advice as AnyAdvice};
ghost use Rattle.av_trace.specs.declared.command.Command.TheVariants as commands;
ghost use Rattle.av_plain.specs.Advice.{advice_answer as advice_answer_of, flag_of_advice};
ghost use Rattle.av_plain.specs.Ledger.{Ledger, Setting};
ghost use Rattle.av_plain.specs.Refusal.{refusal, tests};
ghost use Rattle.av_plain.specs.World.{Process, World, pages_to_hole, pages_to_locked};
ghost use Rattle.av_audit_book.specs.Book.{ledger_of};
ghost use Rattle.av_audit_world.specs.Memories.{IsWorld};
ghost use Rattle.av_audit.specs.Judge.{IsLeft, LeavesLedger};

use crate::known::{hole_answer, says_zaps};
use crate::lengths::{ends_too_high, is_bad_range, pages_met, pages_of};
use av_audit_book::Book;
use av_audit_judge::is_answer;
use av_audit_world::{Edit, Memories};
use av_base::{Flag, PAGE_SIZE};
use av_trace::{Advice, Answer, Errno};
use std::alloc::{AllocError, Global};

/// Why a madvise is refused before it looks at its pages, if it is.
fn refuses_madvise(memories: &Memories, process: u16, address: u64, length: u64) -> Option<Errno>
    ensures { (m : Setting) (w : World) (l : Ledger) (advice : AnyAdvice) → IsWorld memories.now w
        → result ≡ refusal (tests m w l (commands.Madvise process address length advice)) }
{
    if !memories.lives(process) {
        Some(Errno::Esrch)
    } else if is_bad_range(address, length) {
        Some(Errno::Einval)
    } else {
        None
    }
}

/// The flag that an advice is about, and whether it sets it; `dontneed` is about none.
fn flag_of(advice: Advice) -> Option<(Flag, bool)>
    ensures { result ≡ flag_of_advice advice }
{
    match advice {
        Advice::DontNeed => None,
        Advice::DontFork => Some((Flag::DontFork, true)),
        Advice::DoFork => Some((Flag::DontFork, false)),
        Advice::WipeOnFork => Some((Flag::WipeOnFork, true)),
        Advice::KeepOnFork => Some((Flag::WipeOnFork, false)),
        Advice::Mergeable => Some((Flag::Mergeable, true)),
        Advice::Unmergeable => Some((Flag::Mergeable, false)),
    }
}

/// The answer of a `dontneed` for n pages, where so many of them come before the first that is
/// locked, and so many before the first that isn't mapped.
fn advice_answer(unlocked: u64, mapped: u64, n: u64) -> Answer
    ensures { (q : Process) (from : ℕ) → unlocked ≡ pages_to_locked q from n
        → mapped ≡ pages_to_hole q from n → result ≡ advice_answer_of q from n None }
{
    if unlocked < n {
        Answer::Refused(Errno::Einval)
    } else {
        hole_answer(mapped, n)
    }
}

/// Whether a unit is legal for a `dontneed` that isn't refused.
fn audits_dontneed(
    alloc: Global,
    memories: &mut Memories,
    book: &mut Book,
    process: u16,
    address: u64,
    length: u64,
    unit: &[u8],
) -> Result<bool, AllocError>
    ensures { IfOk result (λ legal. (m : Setting) (w : World) (advice : AnyAdvice)
        → IsWorld memories.old w → is_some m.headers ≡ true → flag_of_advice advice ≡ None
        → refusal (tests m w (ledger_of book.old) (commands.Madvise process address length advice))
        ≡ None → IsLeft m w (ledger_of book.old) (commands.Madvise process address length advice)
        unit.now legal memories.new book.new) }
{
    let from = address / PAGE_SIZE;
    let n = pages_of(length);
    let unlocked = memories.before_locked(process, from, n);
    let answer = advice_answer(unlocked, memories.before_hole(process, from, n), n);
    if !says_zaps(alloc, book, process, from, unlocked, answer, unit)? {
        return Ok(false);
    }
    memories.edit(process, Edit::Wipe { from, n: unlocked })?;
    Ok(true)
}

/// Whether a unit is legal for a madvise that sets or clears a flag, and isn't refused.
fn audits_flag(
    alloc: Global,
    memories: &mut Memories,
    process: u16,
    address: u64,
    length: u64,
    flag: Flag,
    set: bool,
    unit: &[u8],
) -> Result<bool, AllocError>
    ensures { IfOk result (λ legal. (m : Setting) (w : World) (l : Ledger) (advice : AnyAdvice)
        → IsWorld memories.old w → is_some m.headers ≡ true
        → flag_of_advice advice ≡ Some (flag, set)
        → refusal (tests m w l (commands.Madvise process address length advice)) ≡ None
        → LeavesLedger m w l (commands.Madvise process address length advice) unit.now legal
        memories.new) }
{
    let from = address / PAGE_SIZE;
    let n = pages_of(length);
    let mapped = memories.before_hole(process, from, n);
    if !is_answer(alloc, &hole_answer(mapped, n), unit)? {
        return Ok(false);
    }
    let edit = Edit::Mark { from, n, flag, set };
    memories.edit(process, edit)?;
    Ok(true)
}

/// Whether a unit is legal for `madvise`.
pub fn audits_madvise(
    alloc: Global,
    memories: &mut Memories,
    book: &mut Book,
    process: u16,
    address: u64,
    length: u64,
    advice: Advice,
    unit: &[u8],
) -> Result<bool, AllocError>
    ensures { IfOk result (λ legal. (m : Setting) (w : World) → IsWorld memories.old w
        → is_some m.headers ≡ true → IsLeft m w (ledger_of book.old)
        (commands.Madvise process address length advice) unit.now legal memories.new book.new) }
{
    match refuses_madvise(memories, process, address, length) {
        Some(error) => is_answer(alloc, &Answer::Refused(error), unit),
        None => match flag_of(advice) {
            None => audits_dontneed(alloc, memories, book, process, address, length, unit),
            Some((flag, set)) => {
                audits_flag(alloc, memories, process, address, length, flag, set, unit)
            }
        },
    }
}

/// Why a munlock is refused before it looks at its pages, if it is.
fn refuses_munlock(memories: &Memories, process: u16, address: u64, length: u64) -> Option<Errno>
    ensures { (m : Setting) (w : World) (l : Ledger) → IsWorld memories.now w
        → result ≡ refusal (tests m w l (commands.Munlock process address length)) }
{
    if !memories.lives(process) {
        Some(Errno::Esrch)
    } else if ends_too_high(address, length) {
        Some(Errno::Einval)
    } else {
        None
    }
}

/// Whether a unit is legal for `munlock`.
pub fn audits_munlock(
    alloc: Global,
    memories: &mut Memories,
    process: u16,
    address: u64,
    length: u64,
    unit: &[u8],
) -> Result<bool, AllocError>
    ensures { IfOk result (λ legal. (m : Setting) (w : World) (l : Ledger)
        → IsWorld memories.old w → is_some m.headers ≡ true
        → LeavesLedger m w l (commands.Munlock process address length) unit.now legal
        memories.new) }
{
    match refuses_munlock(memories, process, address, length) {
        Some(error) => is_answer(alloc, &Answer::Refused(error), unit),
        None => {
            let from = address / PAGE_SIZE;
            let n = pages_met(address, length);
            let mapped = memories.before_hole(process, from, n);
            if !is_answer(alloc, &hole_answer(mapped, n), unit)? {
                return Ok(false);
            }
            let edit = Edit::Mark {
                from,
                n: mapped,
                flag: Flag::Locked,
                set: false,
            };
            memories.edit(process, edit)?;
            Ok(true)
        }
    }
}
