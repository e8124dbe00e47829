//! Units of `mlock`.

ghost use Rattle.std.specs.Prelude.{◌≡◌, ◌+◌, ◌<◌, ◌≤◌, ◌^◌, ◌++◌, ℕ, IfNone, IfOk, OnOk};
ghost use Rattle.std.specs.List.{AllByRecursion};
ghost use Rattle.av_base.specs.Page.{address_of, page_of, pages_met as pages_met_by};
ghost use Rattle.av_trace.specs.declared.command.Command.TheVariants as commands;
ghost use Rattle.av_plain.specs.Access.{Accesses, write_answer as write_answer_by};
ghost use Rattle.av_plain.specs.Ledger.{Ledger, Setting};
ghost use Rattle.av_plain.specs.Lock.{access_of, accesses_of as accesses_by};
ghost use Rattle.av_plain.specs.Refusal.{refusal, tests};
ghost use Rattle.av_plain.specs.World.{World, pages};
ghost use Rattle.av_audit_book.specs.Book.{ledger_of};
ghost use Rattle.av_audit_book.specs.Machine.{AreNamed, setting_of};
ghost use Rattle.av_audit_world.specs.Memories.{IsWorld};
ghost use Rattle.av_audit.specs.Judge.{IsLeft};
ghost use Rattle.av_audit.specs.Access.{Tells};

use crate::accessing::{bytes_before, first_line, says, write_answer};
use crate::lengths::{ends_too_high, pages_met};
use av_audit_access::accesses;
use av_audit_book::{Book, Machine};
use av_audit_judge::is_answer;
use av_audit_world::{Edit, Memories};
use av_base::{Flag, PAGE_SIZE};
use av_trace::{Answer, Errno};
use std::alloc::{AllocError, Global};

/// One command locks at most so many pages.
const MOST_LOCKED: u64 = 16384;

/// Why an mlock is refused before it looks at its pages, if it is.
fn refuses_mlock(memories: &Memories, process: u16, address: u64, length: u64) -> Option<Errno>
    ensures tests { (m : Setting) (w : World) (l : Ledger) → IsWorld memories.now w
        → result ≡ refusal (tests m w l (commands.Mlock process address length)) }
    ensures low { IfNone result (page_of address + pages_met_by address length < 2 ^ 52) }
{
    if !memories.lives(process) {
        Some(Errno::Esrch)
    } else if ends_too_high(address, length) {
        Some(Errno::Einval)
    } else if pages_met(address, length) > MOST_LOCKED {
        Some(Errno::Enomem)
    } else {
        None
    }
}

/// Adds how a page comes in that is locked: it is written, else read, as it may be, else not
/// accessed.
fn add_access(
    made: &mut Vec<(bool, u64)>,
    memories: &Memories,
    process: u16,
    page: u64,
) -> Result<(), AllocError>
    ensures pages { OnOk result ((w : World) → IsWorld memories.now w
        → made.new.items ≡ made.old.items ++ access_of page (pages w process page)) }
    ensures below { OnOk result ((most : ℕ) → page < most
        → AllByRecursion (λ page. page.1 < most) made.old.items
        → AllByRecursion (λ page. page.1 < most) made.new.items) }
{
    if memories.allows(true, process, page) {
        made.push((true, page))?;
    } else if memories.allows(false, process, page) {
        made.push((false, page))?;
    }
    Ok(())
}

/// How n pages from one on come in.
fn accesses_of(
    alloc: Global,
    memories: &Memories,
    process: u16,
    from: u64,
    n: u64,
) -> Result<Vec<(bool, u64)>, AllocError>
    requires { from + n < 2 ^ 52 }
    ensures pages { IfOk result (λ made. (w : World) → IsWorld memories.now w
        → made.items ≡ accesses_by (pages w process) from n) }
    ensures below { IfOk result (λ made. AllByRecursion (λ page. page.1 < from + n) made.items) }
{
    let mut made = Vec::new(alloc);
    for page in from..from + n {
        add_access(&mut made, memories, process, page)?;
    }
    Ok(made)
}

/// Whether a unit tells that pages come in by these accesses, each of one of n pages from one on.
/// Without memory a part may be done.
fn comes_in(
    alloc: Global,
    machine: &Machine,
    memories: &Memories,
    book: &mut Book,
    process: u16,
    from: u64,
    n: u64,
    pages: &[(bool, u64)],
    unit: &[u8],
) -> Result<bool, AllocError>
    requires some { 0 < machine.now.frames }
    requires fits { AreNamed (setting_of machine.now) }
    requires low { from + n < 2 ^ 52 }
    requires pages { AllByRecursion (λ page. page.1 < from + n) pages.now }
    ensures { IfOk result (λ legal. (w : World) → IsWorld memories.now w
        → Tells (λ end events. Accesses (setting_of machine.now) w (ledger_of book.old) process
        pages.now events end) (λ end answer. answer ≡ write_answer_by (address_of from) end)
        (ledger_of book.old) unit.now legal (ledger_of book.new)) }
{
    let Some((line, notes)) = first_line(unit) else {
        return Ok(false);
    };
    match accesses(book, alloc, machine, memories, process, pages, notes)? {
        None => Ok(false),
        Some(end) => {
            let k = bytes_before(from * PAGE_SIZE, n * PAGE_SIZE, end);
            says(alloc, write_answer(alloc, end, k), line)
        }
    }
}

/// Whether a unit is legal for `mlock`.
pub fn audits_mlock(
    alloc: Global,
    machine: &Machine,
    memories: &mut Memories,
    book: &mut Book,
    process: u16,
    address: u64,
    length: u64,
    unit: &[u8],
) -> Result<bool, AllocError>
    requires some { 0 < machine.now.frames }
    requires fits { AreNamed (setting_of machine.now) }
    ensures { IfOk result (λ legal. (w : World) → IsWorld memories.old w
        → IsLeft (setting_of machine.now) w (ledger_of book.old)
        (commands.Mlock process address length) unit.now legal memories.new book.new) }
{
    if let Some(error) = refuses_mlock(memories, process, address, length) {
        return is_answer(alloc, &Answer::Refused(error), unit);
    }
    let from = address / PAGE_SIZE;
    let n = pages_met(address, length);
    let mapped = memories.before_hole(process, from, n);
    let edit = Edit::Mark {
        from,
        n: mapped,
        flag: Flag::Locked,
        set: true,
    };
    if mapped < n {
        memories.edit(process, edit)?;
        return is_answer(alloc, &Answer::Refused(Errno::Enomem), unit);
    }
    let pages = accesses_of(alloc, memories, process, from, n)?;
    memories.edit(process, edit)?;
    comes_in(
        alloc,
        machine,
        memories,
        book,
        process,
        from,
        n,
        pages.as_slice(),
        unit,
    )
}
