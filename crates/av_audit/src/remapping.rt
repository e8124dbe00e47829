//! Units of `mremap`.

ghost use Rattle.std.specs.Prelude.{◌≡◌, ◌+◌, ◌++◌, ◌<◌, ◌≤◌, ◌^◌, IfOk, IfSome, None, OnOk, Some};
ghost use Rattle.std.specs.Prelude.{if◌then◌else◌, is_some, true};
ghost use Rattle.av_base.specs.Limits.{top_page};
ghost use Rattle.av_base.specs.Page.{is_on_page, page_of, pages_of as pages_of_bytes};
ghost use Rattle.av_trace.specs.declared.command.Command.TheVariants as commands;
ghost use Rattle.av_vma.specs.Gap.{IsGap};
ghost use Rattle.av_plain.specs.Event.{after_all, notes_of};
ghost use Rattle.av_plain.specs.Ledger.{Ledger, Setting};
ghost use Rattle.av_plain.specs.Mremap as plain;
ghost use Rattle.av_plain.specs.Refusal as refusals;
ghost use Rattle.av_plain.specs.Refusal.{refusal, tests};
ghost use Rattle.av_plain.specs.Step.{next};
ghost use Rattle.av_plain.specs.World.{World, is_mapped, lives, pages};
ghost use Rattle.av_audit_book.specs.Book.{ledger_of};
ghost use Rattle.av_audit_world.specs.Memories.{IsWorld};
ghost use Rattle.av_audit_world.specs.Remap.{IsBelowTop};
ghost use Rattle.av_audit.specs.Judge.{IsLeft};
ghost use Rattle.av_audit.specs.Known.{SaysEvents, map_answer as map_answer_of};

use crate::known::map_answer;
use crate::lengths::pages_of;
use av_audit_book::Book;
use av_audit_events::{move_entries, zap_range};
use av_audit_judge::{all_fit, is_answer, is_reply};
use av_audit_world::Memories;
use av_base::{LOW_PAGE, PAGE_SIZE, TOP_PAGE};
use av_trace::{Answer, Errno, Mode, Notes, Reply};
use std::alloc::{AllocError, Global};

/// Whether rounding a length up to whole pages passes 64 bits.
fn overflows(length: u64) -> bool
    ensures { result ≡ refusals.overflows length }
{
    length > u64::MAX - (PAGE_SIZE - 1)
}

/// Whether the old range stays mapped, with zeros.
fn leaves_old(mode: Mode) -> bool
    ensures { result ≡ plain.leaves_old mode }
{
    matches!(mode, Mode::DontUnmap(_))
}

/// The address that a mode names, if it names one.
fn target_of(mode: Mode) -> Option<u64>
    ensures { result ≡ plain.target_of mode }
{
    match mode {
        Mode::Plain | Mode::MayMove => None,
        Mode::Fixed(address) => Some(address),
        Mode::DontUnmap(address) => address,
    }
}

/// Whether n pages become m in place, since no mode sends them elsewhere and they don't grow.
fn is_in_place(mode: Mode, n: u64, m: u64) -> bool
    ensures { result ≡ plain.is_in_place mode n m }
{
    match mode {
        Mode::Plain | Mode::MayMove => m <= n,
        Mode::Fixed(_) | Mode::DontUnmap(_) => false,
    }
}

/// Whether the two lengths cannot be what the mode asks for.
fn are_bad_lengths(old: u64, new: u64, mode: Mode) -> bool
    ensures { result ≡ refusals.are_bad_lengths old new mode }
{
    old == 0 || new == 0 || overflows(old) || overflows(new) || (leaves_old(mode) && old != new)
}

/// Whether so many pages from a target on end too high or meet those of the old range.
fn is_bad_target(address: u64, n: u64, target: u64, m: u64) -> bool
    requires on_page { is_on_page address ≡ true }
    requires few { n ≤ 2 ^ 52 }
    requires new_few { m ≤ 2 ^ 52 }
    ensures { result ≡ refusals.is_no_target address n m (Some target) }
{
    let (from, to) = (address / PAGE_SIZE, target / PAGE_SIZE);
    target % PAGE_SIZE != 0 || to + m > TOP_PAGE || (from < to + m && to < from + n)
}

/// Whether the address that the mode names can't be that of the new range.
fn is_no_target(address: u64, n: u64, m: u64, mode: Mode) -> bool
    requires on_page { is_on_page address ≡ true }
    requires few { n ≤ 2 ^ 52 }
    requires new_few { m ≤ 2 ^ 52 }
    ensures { result ≡ refusals.is_no_target address n m (plain.target_of mode) }
{
    match target_of(mode) {
        Some(target) => is_bad_target(address, n, target, m),
        None => false,
    }
}

/// Whether the address that the mode names is too low.
fn is_below_low(mode: Mode) -> bool
    ensures { result ≡ refusals.is_below_low (plain.target_of mode) }
{
    match target_of(mode) {
        Some(address) => address < PAGE_SIZE * LOW_PAGE,
        None => false,
    }
}

/// Whether the pages that have to be mapped are: the first one where they stay in place, else all
/// of them, with one protection.
fn has_pages(memories: &Memories, process: u16, from: u64, n: u64, in_place: bool) -> bool
    requires { from + n < 2 ^ 63 }
    ensures { (w : World) → IsWorld memories.now w → result ≡ (if in_place
        then is_mapped (pages w process) from else plain.have_one_prot (pages w process) from n) }
{
    if in_place {
        memories.meets(process, from, 1)
    } else {
        memories.have_one_prot(process, from, n)
    }
}

/// Why an mremap is refused before it looks for room, if it is.
fn refuses_mremap(
    memories: &Memories,
    process: u16,
    address: u64,
    old: u64,
    new: u64,
    mode: Mode,
) -> Option<Errno>
    ensures some { result ≡ None → (0 < old) × (0 < new) }
    ensures tests { (m : Setting) (w : World) (l : Ledger) → IsWorld memories.now w
        → result ≡ refusal (tests m w l (commands.Mremap process address old new mode)) }
{
    if !memories.lives(process) {
        return Some(Errno::Esrch);
    }
    if address % PAGE_SIZE != 0 || are_bad_lengths(old, new, mode) {
        return Some(Errno::Einval);
    }
    let (from, n, m) = (address / PAGE_SIZE, pages_of(old), pages_of(new));
    if is_no_target(address, n, m, mode) {
        return Some(Errno::Einval);
    }
    let in_place = is_in_place(mode, n, m);
    if !has_pages(memories, process, from, n, in_place) {
        return Some(Errno::Efault);
    }
    if in_place && m < n && from + n > TOP_PAGE {
        return Some(Errno::Einval);
    }
    if is_below_low(mode) {
        return Some(Errno::Eperm);
    }
    None
}

/// Where m pages go, if there is room.
fn room_for(memories: &Memories, process: u16, m: u64) -> Option<u64>
    requires { 0 < m }
    ensures fits { IfSome result (λ to. to + m ≤ top_page) }
    ensures gap { (w : World) → IsWorld memories.now w
        → IsGap (is_mapped (pages w process)) m result }
{
    if m > TOP_PAGE {
        return None;
    }
    memories.gap(process, m)
}

/// Whether n pages may become m where they are: they don't grow, or there is room.
fn may_stay(memories: &Memories, process: u16, from: u64, n: u64, m: u64) -> bool
    requires few { from + n < 2 ^ 63 }
    requires new_few { m ≤ 2 ^ 52 }
    ensures { (w : World) → IsWorld memories.now w
        → result ≡ plain.may_stay (pages w process) from n m }
{
    m <= n || (from + m <= TOP_PAGE && !memories.meets(process, from + n, m - n))
}

/// Where the pages stand then, if there is room.
fn place_after(
    memories: &Memories,
    process: u16,
    from: u64,
    n: u64,
    m: u64,
    mode: Mode,
) -> Option<u64>
    requires some { 0 < m }
    requires low { from < 2 ^ 52 }
    requires few { n ≤ 2 ^ 52 }
    requires new_few { m ≤ 2 ^ 52 }
    ensures low { IfSome result (λ to. to < 2 ^ 52) }
    ensures place { (w : World) → IsWorld memories.now w
        → plain.MovesTo (pages w process) from n m mode result }
{
    match mode {
        Mode::Plain => may_stay(memories, process, from, n, m).then_some(from),
        Mode::MayMove => {
            if may_stay(memories, process, from, n, m) {
                return Some(from);
            }
            room_for(memories, process, m)
        }
        Mode::Fixed(address) | Mode::DontUnmap(Some(address)) => Some(address / PAGE_SIZE),
        Mode::DontUnmap(None) => room_for(memories, process, m),
    }
}

/// The entries go that an mremap of n pages to m takes away, and the others move; the notes of
/// slots that are dropped are added. Without memory a part may be done.
fn follow_mremap(
    alloc: Global,
    book: &mut Book,
    process: u16,
    from: u64,
    n: u64,
    to: u64,
    m: u64,
    notes: &mut Notes,
) -> Result<(), AllocError>
    requires from { from < 2 ^ 53 }
    requires to { to < 2 ^ 53 }
    requires few { n ≤ 2 ^ 52 }
    requires new_few { m ≤ 2 ^ 52 }
    ensures ledger { OnOk result (ledger_of book.new ≡ after_all (ledger_of book.old)
        (plain.remap_events (ledger_of book.old) process from n to m)) }
    ensures notes { OnOk result (notes.new ≡ notes.old ++ notes_of
        (plain.remap_events (ledger_of book.old) process from n to m)) }
{
    let shorter = n.saturating_sub(m);
    if to == from {
        return zap_range(book, alloc, process, from + m, shorter, notes);
    }
    zap_range(book, alloc, process, to, m, notes)?;
    zap_range(book, alloc, process, from + m, shorter, notes)?;
    move_entries(book, alloc, process, n.min(m), from, to)
}

/// The entries go and move as an mremap takes them whose pages stand from a page on then, if there
/// is room; and whether the unit is the text of its answer with the notes of that. Without memory a
/// part may be done.
fn says_mremap(
    alloc: Global,
    book: &mut Book,
    process: u16,
    from: u64,
    n: u64,
    to: Option<u64>,
    m: u64,
    unit: &[u8],
) -> Result<bool, AllocError>
    requires from { from < 2 ^ 52 }
    requires to { IfSome to (λ page. page < 2 ^ 52) }
    requires few { n ≤ 2 ^ 52 }
    requires new_few { m ≤ 2 ^ 52 }
    ensures { IfOk result (λ legal. SaysEvents (ledger_of book.old) (map_answer_of to)
        (plain.events_to (ledger_of book.old) process from n to m) unit.now legal
        (ledger_of book.new)) }
{
    let mut reply = Reply::new(alloc);
    reply.answer = map_answer(to);
    if let Some(to) = to {
        follow_mremap(alloc, book, process, from, n, to, m, &mut reply.notes)?;
    }
    all_fit(reply.notes.as_slice());
    is_reply(alloc, &reply, unit)
}

/// The pages of an mremap stand from a page on then, if there is room. Without memory a part may be
/// done.
fn remap_to(
    memories: &mut Memories,
    process: u16,
    address: u64,
    old: u64,
    new: u64,
    mode: Mode,
    to: Option<u64>,
) -> Result<(), AllocError>
    requires some { 0 < old }
    requires to { IfSome to (λ page. page < 2 ^ 52) }
    ensures { OnOk result ((w : World) → IsWorld memories.old w → lives w process ≡ true
        → IfSome to (λ to. IsBelowTop (plain.process_after_mremap (page_of address)
        (pages_of_bytes old) to (pages_of_bytes new) (plain.leaves_old mode) (pages w process)))
        → IsWorld memories.new
        (next w (commands.Mremap process address old new mode) (map_answer_of to))) }
{
    match to {
        None => Ok(()),
        Some(to) => {
            let from = address / PAGE_SIZE;
            let n = pages_of(old);
            let m = pages_of(new);
            memories.remap(process, from, n, to, m, leaves_old(mode))
        }
    }
}

/// Whether a unit is legal for `mremap`.
pub fn audits_mremap(
    alloc: Global,
    memories: &mut Memories,
    book: &mut Book,
    process: u16,
    address: u64,
    old: u64,
    new: u64,
    mode: Mode,
    unit: &[u8],
) -> Result<bool, AllocError>
    ensures { IfOk result (λ legal. (m : Setting) (w : World) → IsWorld memories.old w
        → is_some m.headers ≡ true → IsLeft m w (ledger_of book.old)
        (commands.Mremap process address old new mode) unit.now legal memories.new book.new) }
{
    match refuses_mremap(memories, process, address, old, new, mode) {
        Some(error) => is_answer(alloc, &Answer::Refused(error), unit),
        None => {
            let from = address / PAGE_SIZE;
            let n = pages_of(old);
            let m = pages_of(new);
            let to = place_after(memories, process, from, n, m, mode);
            if !says_mremap(alloc, book, process, from, n, to, m, unit)? {
                return Ok(false);
            }
            remap_to(memories, process, address, old, new, mode, to)?;
            Ok(true)
        }
    }
}
