//! Units of `read` and `write`.

ghost use Rattle.std.specs.Prelude.{◌≡◌, ◌+◌, ◌-◌, ◌<◌, ◌≤◌, ◌^◌, ℕ, [], IfNone, IfOk, IfSome};
ghost use Rattle.std.specs.Prelude.{length, min, option_map, true};
ghost use Rattle.std.specs.List.{AllByRecursion};
ghost use Rattle.av_base.specs.Page.{page_of, pages_met as pages_met_by};
ghost use Rattle.av_text.specs.Hex.{AreBytes};
ghost use Rattle.av_trace.specs.Reply.{IsAnswer};
ghost use Rattle.av_trace.specs.declared.command.Command.TheVariants as commands;
ghost use Rattle.av_plain.specs.Access as plain;
ghost use Rattle.av_plain.specs.World.{World};
ghost use Rattle.av_audit_book.specs.Book.{ledger_of};
ghost use Rattle.av_audit_book.specs.Machine.{AreNamed, setting_of};
ghost use Rattle.av_audit_judge.specs.Notes.{lacks};
ghost use Rattle.av_audit_judge.specs.Says.{SaysOnly};
ghost use Rattle.av_audit_world.specs.Memories.{IsWorld};
ghost use Rattle.av_audit_access.specs.Access.{Ends, end_of};
ghost use Rattle.av_audit_access.specs.Come.{stop_of};
ghost use Rattle.av_audit.specs.Access.{IsFirstLine, end_below, turns_of};
ghost use Rattle.av_audit.specs.Judge.{IsLeft};

use crate::lengths::pages_met;
use av_audit_access::{End, Stop, accesses};
use av_audit_book::{Book, Machine};
use av_audit_judge::{ADDRESS_PAGES, cut, is_answer};
use av_audit_world::Memories;
use av_base::PAGE_SIZE;
use av_text::Bytes;
use av_trace::{Answer, Errno};
use std::alloc::{AllocError, Global};

/// The first line of a unit, with its newline, and what is behind it.
pub fn first_line(unit: &[u8]) -> Option<(&[u8], &[u8])>
    ensures some { IfSome result (λ x. IsFirstLine unit.now x.0.now x.1.now) }
    ensures none { IfNone result (lacks 10 unit.now ≡ true) }
{
    match cut(b'\n', unit) {
        None => None,
        Some((line, rest)) => Some((&unit[..line.len() + 1], rest)),
    }
}

/// Those of n pages from one on that have addresses of 64 bits, each read or each written.
fn turns(alloc: Global, write: bool, from: u64, n: u64) -> Result<Vec<(bool, u64)>, AllocError>
    requires { (from ≤ 2 ^ 52) × (n ≤ 2 ^ 53) }
    ensures pages { IfOk result (λ made. made.items
        ≡ turns_of write from (min (from + n) (2 ^ 52) - from)) }
    ensures below { IfOk result (λ made. AllByRecursion (λ page. page.1 < 2 ^ 52) made.items) }
{
    let mut made = Vec::new(alloc);
    for page in from..(from + n).min(ADDRESS_PAGES) {
        made.push((write, page))?;
    }
    Ok(made)
}

/// No page without an address of 64 bits is mapped: an access that goes up to below `end` stops at
/// the first, if it comes so far.
fn stops_below(reach: Option<End>, end: u64) -> Option<End>
    ensures { option_map end_of result ≡ option_map (end_below end) (option_map end_of reach) }
{
    match reach {
        Some(End::Whole) => {
            if end > ADDRESS_PAGES {
                Some(End::Stopped {
                    page: ADDRESS_PAGES,
                    stop: Stop::Denied,
                })
            } else {
                Some(End::Whole)
            }
        }
        other => other,
    }
}

/// Where an access of n bytes from an address on ends, as a unit's notes tell. None where they tell
/// no such access. Without memory a part may be done.
fn ends_at(
    alloc: Global,
    machine: &Machine,
    memories: &Memories,
    book: &mut Book,
    process: u16,
    write: bool,
    address: u64,
    n: u64,
    notes: &[u8],
) -> Result<Option<End>, AllocError>
    requires some { 0 < machine.now.frames }
    requires fits { AreNamed (setting_of machine.now) }
    ensures { IfOk result (λ reach. (w : World) → IsWorld memories.now w
        → Ends (λ end events. plain.Accesses (setting_of machine.now) w (ledger_of book.old)
        process (plain.pages_of_access write address n) events end) (ledger_of book.old)
        notes.now (option_map end_of reach) (ledger_of book.new)) }
{
    let from = address / PAGE_SIZE;
    let count = pages_met(address, n);
    let pages = turns(alloc, write, from, count)?;
    let reach = accesses(
        book,
        alloc,
        machine,
        memories,
        process,
        pages.as_slice(),
        notes,
    )?;
    Ok(stops_below(reach, from + count))
}

/// How many of n bytes from an address on come before where an access ends.
pub fn bytes_before(address: u64, n: u64, end: End) -> u64
    ensures { result ≡ min n (plain.bytes_served address n (end_of end)) }
{
    match end {
        End::Whole => n,
        End::Stopped { page, .. } => {
            let start = u128::from(page) * u128::from(PAGE_SIZE);
            start.saturating_sub(u128::from(address)).min(u128::from(n)) as u64
        }
    }
}

/// The answer of an access that stopped behind so many bytes, of which a read shows these.
fn stop_answer(stop: Stop, count: u64, bytes: Bytes) -> Answer
    ensures answer { result ≡ plain.stop_answer (stop_of stop) count bytes }
    ensures fits { AreBytes bytes → IsAnswer result }
{
    match stop {
        Stop::Denied => Answer::Segv {
            served: count,
            shown: bytes,
        },
        Stop::Lost => Answer::Bus {
            served: count,
            shown: bytes,
        },
        Stop::Starved(out) => Answer::Oom {
            served: count,
            out,
            shown: bytes,
        },
    }
}

/// The answer of a read from an address on, of which so many bytes were served: these.
fn read_answer(end: End, count: u64, bytes: Bytes) -> Answer
    ensures answer { (a n : ℕ) → count ≡ plain.bytes_served a n (end_of end)
        → result ≡ plain.read_answer a (end_of end) bytes }
    ensures fits { AreBytes bytes → IsAnswer result }
{
    match end {
        End::Whole => Answer::Data(bytes),
        End::Stopped { stop, .. } => stop_answer(stop, count, bytes),
    }
}

/// And that of a write.
pub fn write_answer(alloc: Global, end: End, count: u64) -> Answer
    ensures answer { (a n : ℕ) → count ≡ plain.bytes_served a n (end_of end)
        → result ≡ plain.write_answer a (end_of end) }
    ensures fits { IsAnswer result }
{
    match end {
        End::Whole => Answer::Done,
        End::Stopped { stop, .. } => stop_answer(stop, count, Bytes::new(alloc)),
    }
}

/// Whether a line is that of an answer.
pub fn says(alloc: Global, answer: Answer, line: &[u8]) -> Result<bool, AllocError>
    ensures { IfOk result (λ yes. SaysOnly yes line.now answer) }
{
    is_answer(alloc, &answer, line)
}

/// Whether a unit is legal for `read`.
pub fn audits_read(
    alloc: Global,
    machine: &Machine,
    memories: &Memories,
    book: &mut Book,
    process: u16,
    address: u64,
    length: u16,
    unit: &[u8],
) -> Result<bool, AllocError>
    requires some { 0 < machine.now.frames }
    requires fits { AreNamed (setting_of machine.now) }
    ensures { IfOk result (λ legal. (w : World) → IsWorld memories.now w
        → IsLeft (setting_of machine.now) w (ledger_of book.old)
        (commands.Read process address length) unit.now legal memories.now book.new) }
{
    if !memories.lives(process) {
        return is_answer(alloc, &Answer::Refused(Errno::Esrch), unit);
    }
    let Some((line, notes)) = first_line(unit) else {
        return Ok(false);
    };
    let n = u64::from(length);
    match ends_at(
        alloc, machine, memories, book, process, false, address, n, notes,
    )? {
        None => Ok(false),
        Some(end) => {
            let k = bytes_before(address, n, end);
            let bytes = Bytes::from_vec(memories.read(process, address, k as usize)?);
            says(alloc, read_answer(end, k, bytes), line)
        }
    }
}

/// Whether a unit is legal for `write`.
pub fn audits_write(
    alloc: Global,
    machine: &Machine,
    memories: &mut Memories,
    book: &mut Book,
    process: u16,
    address: u64,
    bytes: &[u8],
    unit: &[u8],
) -> Result<bool, AllocError>
    requires some { 0 < machine.now.frames }
    requires fits { AreNamed (setting_of machine.now) }
    ensures { IfOk result (λ legal. (w : World) → IsWorld memories.old w
        → IsLeft (setting_of machine.now) w (ledger_of book.old)
        (commands.Write process address bytes.now) unit.now legal memories.new book.new) }
{
    if !memories.lives(process) {
        return is_answer(alloc, &Answer::Refused(Errno::Esrch), unit);
    }
    let Some((line, notes)) = first_line(unit) else {
        return Ok(false);
    };
    let n = bytes.len() as u64;
    match ends_at(
        alloc, machine, memories, book, process, true, address, n, notes,
    )? {
        None => Ok(false),
        Some(end) => {
            let k = bytes_before(address, n, end);
            if !says(alloc, write_answer(alloc, end, k), line)? {
                return Ok(false);
            }
            memories.write(process, address, &bytes[..k as usize])?;
            Ok(true)
        }
    }
}
