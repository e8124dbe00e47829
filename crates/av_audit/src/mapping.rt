//! Units of `mmap` and `mprotect`.

ghost use Rattle.std.specs.Prelude.{◌≡◌, ◌+◌, ◌<◌, ◌≤◌, ◌^◌, IfOk, IfSome, MatchResult, None, OnOk};
ghost use Rattle.std.specs.Prelude.{Some, is_some, true};
ghost use Rattle.av_base.specs.Limits.{top_page};
ghost use Rattle.av_base.specs.Page.{page_of, pages_of as pages_of_bytes};
ghost use Rattle.av_base.specs.declared.prot.Prot.{Prot as AnyProt};
ghost use Rattle.av_trace.specs.declared.command.Command.TheVariants as commands;
ghost use Rattle.av_trace.specs.declared.place.Place.{Place as AnyPlace};
ghost use Rattle.av_trace.specs.declared.place.Place.TheVariants as places;
ghost use Rattle.av_plain.specs.Ledger.{Ledger, Setting};
ghost use Rattle.av_plain.specs.Map.{zaps_for_place};
ghost use Rattle.av_plain.specs.Place.{Goes, is_room as is_room_of};
ghost use Rattle.av_plain.specs.Refusal.{fixed_tests, place_tests, refusal, tests};
ghost use Rattle.av_plain.specs.Step.{next};
ghost use Rattle.av_plain.specs.World.{World, lives, pages};
ghost use Rattle.av_audit_book.specs.Book.{ledger_of};
ghost use Rattle.av_audit_world.specs.Memories.{IsWorld};
ghost use Rattle.av_audit.specs.Judge.{IsLeft, LeavesLedger};
ghost use Rattle.av_audit.specs.Known.{SaysEvents, map_answer as map_answer_of};

use crate::known::{hole_answer, map_answer, says_zaps};
use crate::lengths::{pages_of, wraps};
use av_audit_book::Book;
use av_audit_judge::is_answer;
use av_audit_world::{Edit, Memories};
use av_base::{LOW_PAGE, PAGE_SIZE, Prot, TOP_PAGE};
use av_trace::{Answer, Errno, Place};
use std::alloc::{AllocError, Global};

/// The page of an address from which on n pages have to go, or why they can't.
fn fixed_page(address: u64, n: u64) -> Result<u64, Errno>
    requires { n ≤ top_page }
    ensures fits { IfOk result (λ page. page + n ≤ top_page) }
    ensures page { MatchResult result
        (λ page. (refusal (fixed_tests n address) ≡ None) × (page ≡ page_of address))
        (λ error. refusal (fixed_tests n address) ≡ Some error) }
{
    if address > TOP_PAGE * PAGE_SIZE - n * PAGE_SIZE {
        return Err(Errno::Enomem);
    }
    if address % PAGE_SIZE != 0 {
        return Err(Errno::Einval);
    }
    if address < LOW_PAGE * PAGE_SIZE {
        return Err(Errno::Eperm);
    }
    Ok(address / PAGE_SIZE)
}

/// Whether n pages from one on are free, and a process may have them.
fn is_room(memories: &Memories, process: u16, n: u64, page: u64) -> bool
    requires few { n ≤ top_page }
    requires low { page < 2 ^ 52 }
    ensures fits { result ≡ true → page + n ≤ top_page }
    ensures room { (w : World) → IsWorld memories.now w
        → result ≡ is_room_of (pages w process) n page }
{
    LOW_PAGE <= page && page + n <= TOP_PAGE && !memories.meets(process, page, n)
}

/// Where n pages go that are to be at an address if they can.
fn hinted_page(memories: &Memories, process: u16, n: u64, address: u64) -> Option<u64>
    requires some { 0 < n }
    requires few { n ≤ top_page }
    ensures fits { IfSome result (λ page. page + n ≤ top_page) }
    ensures page { (w : World) → IsWorld memories.now w
        → Goes (pages w process) n (places.At address) result }
{
    let page = address / PAGE_SIZE;
    if is_room(memories, process, n, page) {
        Some(page)
    } else {
        memories.gap(process, n)
    }
}

/// The page of an address from which on n pages have to go where none is mapped, or why they
/// can't.
fn free_page(memories: &Memories, process: u16, n: u64, address: u64) -> Result<u64, Errno>
    requires { n ≤ top_page }
    ensures fits { IfOk result (λ page. page + n ≤ top_page) }
    ensures page { (w : World) → IsWorld memories.now w → MatchResult result
        (λ page. (refusal (place_tests (pages w process) n (places.NoReplace address)) ≡ None)
        × (page ≡ page_of address))
        (λ error. refusal (place_tests (pages w process) n (places.NoReplace address))
        ≡ Some error) }
{
    let page = fixed_page(address, n)?;
    if memories.meets(process, page, n) {
        return Err(Errno::Eexist);
    }
    Ok(page)
}

/// Where n pages go, if there is a place; or why they can't go where they have to.
fn place_for(memories: &Memories, process: u16, n: u64, place: Place) -> Result<Option<u64>, Errno>
    requires some { 0 < n }
    requires few { n ≤ top_page }
    ensures fits { IfOk result (λ to. IfSome to (λ page. page + n ≤ top_page)) }
    ensures place { (w : World) → IsWorld memories.now w → MatchResult result
        (λ to. (refusal (place_tests (pages w process) n place) ≡ None)
        × Goes (pages w process) n place to)
        (λ error. refusal (place_tests (pages w process) n place) ≡ Some error) }
{
    match place {
        Place::Auto => Ok(memories.gap(process, n)),
        Place::At(address) => Ok(hinted_page(memories, process, n, address)),
        Place::Fixed(address) => Ok(Some(fixed_page(address, n)?)),
        Place::NoReplace(address) => Ok(Some(free_page(memories, process, n, address)?)),
    }
}

/// Where the pages of an mmap go, if there is a place; or why it is refused.
fn place_of_mmap(
    memories: &Memories,
    process: u16,
    length: u64,
    place: Place,
) -> Result<Option<u64>, Errno>
    ensures fits { IfOk result (λ to. IfSome to (λ page. page + pages_of_bytes length ≤ top_page)) }
    ensures place { (m : Setting) (w : World) (l : Ledger) (prot : AnyProt) → IsWorld memories.now w
        → MatchResult result
        (λ to. (refusal (tests m w l (commands.Mmap process length prot place)) ≡ None)
        × Goes (pages w process) (pages_of_bytes length) place to)
        (λ error. refusal (tests m w l (commands.Mmap process length prot place)) ≡ Some error) }
{
    if !memories.lives(process) {
        return Err(Errno::Esrch);
    }
    if length == 0 {
        return Err(Errno::Einval);
    }
    let n = pages_of(length);
    if n > TOP_PAGE {
        return Err(Errno::Enomem);
    }
    place_for(memories, process, n, place)
}

/// The entries go that a mapping of n pages takes away; and whether the unit is the text of this
/// answer with the notes of that. Without memory a part may be done.
fn says_mmap(
    alloc: Global,
    book: &mut Book,
    process: u16,
    n: u64,
    place: Place,
    answer: Answer,
    unit: &[u8],
) -> Result<bool, AllocError>
    requires { n ≤ 2 ^ 52 }
    ensures { IfOk result (λ legal. SaysEvents (ledger_of book.old) answer
        (zaps_for_place (ledger_of book.old) process n place) unit.now legal
        (ledger_of book.new)) }
{
    match place {
        Place::Fixed(address) => {
            says_zaps(alloc, book, process, address / PAGE_SIZE, n, answer, unit)
        }
        _ => is_answer(alloc, &answer, unit),
    }
}

/// The pages of an mmap are mapped from a page on, if there is a place. Without memory a part may
/// be done.
fn map_at(
    memories: &mut Memories,
    process: u16,
    length: u64,
    prot: Prot,
    to: Option<u64>,
) -> Result<(), AllocError>
    requires { IfSome to (λ page. page + pages_of_bytes length ≤ top_page) }
    ensures { OnOk result ((w : World) (place : AnyPlace) → IsWorld memories.old w
        → lives w process ≡ true → IsWorld memories.new
        (next w (commands.Mmap process length prot place) (map_answer_of to))) }
{
    match to {
        None => Ok(()),
        Some(from) => {
            let n = pages_of(length);
            memories.edit(process, Edit::Map { from, n, prot })
        }
    }
}

/// Whether a unit is legal for `mmap`.
pub fn audits_mmap(
    alloc: Global,
    memories: &mut Memories,
    book: &mut Book,
    process: u16,
    length: u64,
    prot: Prot,
    place: Place,
    unit: &[u8],
) -> Result<bool, AllocError>
    ensures { IfOk result (λ legal. (m : Setting) (w : World) → IsWorld memories.old w
        → is_some m.headers ≡ true → IsLeft m w (ledger_of book.old)
        (commands.Mmap process length prot place) unit.now legal memories.new book.new) }
{
    match place_of_mmap(memories, process, length, place) {
        Err(error) => is_answer(alloc, &Answer::Refused(error), unit),
        Ok(to) => {
            let n = pages_of(length);
            if !says_mmap(alloc, book, process, n, place, map_answer(to), unit)? {
                return Ok(false);
            }
            map_at(memories, process, length, prot, to)?;
            Ok(true)
        }
    }
}

/// Why an mprotect is refused, if it is.
fn refuses_mprotect(memories: &Memories, process: u16, address: u64, length: u64) -> Option<Errno>
    ensures { (m : Setting) (w : World) (l : Ledger) (prot : AnyProt) → IsWorld memories.now w
        → result ≡ refusal (tests m w l (commands.Mprotect process address length prot)) }
{
    if !memories.lives(process) {
        Some(Errno::Esrch)
    } else if address % PAGE_SIZE != 0 {
        Some(Errno::Einval)
    } else if wraps(address, length) {
        Some(Errno::Enomem)
    } else {
        None
    }
}

/// Whether a unit is legal for `mprotect`.
pub fn audits_mprotect(
    alloc: Global,
    memories: &mut Memories,
    process: u16,
    address: u64,
    length: u64,
    prot: Prot,
    unit: &[u8],
) -> Result<bool, AllocError>
    ensures { IfOk result (λ legal. (m : Setting) (w : World) (l : Ledger)
        → IsWorld memories.old w → is_some m.headers ≡ true
        → LeavesLedger m w l (commands.Mprotect process address length prot) unit.now legal
        memories.new) }
{
    match refuses_mprotect(memories, process, address, length) {
        Some(error) => is_answer(alloc, &Answer::Refused(error), unit),
        None => {
            let from = address / PAGE_SIZE;
            let n = pages_of(length);
            let mapped = memories.before_hole(process, from, n);
            if !is_answer(alloc, &hole_answer(mapped, n), unit)? {
                return Ok(false);
            }
            let edit = Edit::Protect {
                from,
                n: mapped,
                prot,
            };
            memories.edit(process, edit)?;
            Ok(true)
        }
    }
}
