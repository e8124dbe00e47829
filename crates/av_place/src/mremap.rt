//! What `mremap` refuses, and where its pages go.

ghost use Rattle.std.specs.Prelude.{◌≡◌, ℕ, ◌+◌, ◌-◌, ◌^◌, ◌<◌, ◌≤◌, ◌==◌, true, false, not};
ghost use Rattle.std.specs.Prelude.{is_some, if◌then◌else◌, None, Some, MatchResult, OnErr, OnOk};
ghost use Rattle.av_base.specs.Limits.{top_page};
ghost use Rattle.av_base.specs.Page.{is_on_page};
ghost use Rattle.av_place.specs.Mremap.{GrowTooFar, HaveProtsOf, IsTarget, StaySmall};
ghost use Rattle.av_plain.specs.Mremap as plain;
ghost use Rattle.av_plain.specs.Refusal as refusals;
ghost use Rattle.av_plain.specs.Refusal.{mremap_tests, refusal};
ghost use Rattle.av_plain.specs.World.{Process, is_mapped};
ghost use Rattle.av_spaces.specs.Spaces.{areas_of, is_taken, pages_of};
ghost use Rattle.av_vma.specs.Pages.{AreLaid};

use crate::place::find_gap;
use av_base::{LOW_PAGE, PAGE_SIZE, Prot, TOP_PAGE};
use av_spaces::Spaces;
use av_trace::{Errno, Mode};
use av_vma::index;
use std::alloc::AllocError;

/// Each linear index is below this.
const MOST_INDICES: u64 = 1 << 60;

/// Refuses by the tests that need no place.
pub fn check_remap(
    spaces: &Spaces,
    process: u16,
    address: u64,
    old_len: u64,
    new_len: u64,
    mode: Mode,
) -> Result<(), Errno>
    ensures tests { (q : Process) → HaveProtsOf (pages_of spaces.now.processes process) q →
        MatchResult result
        (λ _. refusal (mremap_tests q address old_len new_len mode) ≡ None)
        (λ error. refusal (mremap_tests q address old_len new_len mode) ≡ Some error) }
    ensures laid { OnOk result (AreLaid (pages_of spaces.now.processes process)) }
{
    if address % PAGE_SIZE != 0 || are_bad_lengths(old_len, new_len, mode) {
        return Err(Errno::Einval);
    }
    let from = address / PAGE_SIZE;
    let (pages, new_pages) = (old_len.div_ceil(PAGE_SIZE), new_len.div_ceil(PAGE_SIZE));
    if is_no_target(address, pages, new_pages, mode) {
        return Err(Errno::Einval);
    }
    let in_place = is_in_place(mode, pages, new_pages);
    if !has_pages(spaces, process, from, pages, in_place) {
        return Err(Errno::Efault);
    }
    // A tail that goes is unmapped, and `munmap` refuses a range past the top.
    if in_place && new_pages < pages && from + pages > TOP_PAGE {
        return Err(Errno::Einval);
    }
    if is_below_low(mode) {
        return Err(Errno::Eperm);
    }
    Ok(())
}

/// Whether rounding a length up to whole pages passes 64 bits.
fn overflows(len: u64) -> bool
    ensures { result ≡ refusals.overflows len }
{
    len > u64::MAX - (PAGE_SIZE - 1)
}

/// Whether the two lengths cannot be what the mode asks for.
fn are_bad_lengths(old_len: u64, new_len: u64, mode: Mode) -> bool
    ensures { result ≡ refusals.are_bad_lengths old_len new_len mode }
{
    old_len == 0
        || new_len == 0
        || overflows(old_len)
        || overflows(new_len)
        || (leaves_old(mode) && old_len != new_len)
}

/// Whether the old range stays mapped, with zeros.
pub fn leaves_old(mode: Mode) -> bool
    ensures { result ≡ plain.leaves_old mode }
{
    matches!(mode, Mode::DontUnmap(_))
}

/// The address that a mode names, if it names one.
fn target_of(mode: Mode) -> Option<u64>
    ensures { result ≡ plain.target_of mode }
{
    match mode {
        Mode::Plain | Mode::MayMove => None,
        Mode::Fixed(address) => Some(address),
        Mode::DontUnmap(address) => address,
    }
}

/// Whether the pages stay where they are, since no mode sends them elsewhere and they don't grow.
fn is_in_place(mode: Mode, pages: u64, new_pages: u64) -> bool
    ensures { result ≡ plain.is_in_place mode pages new_pages }
{
    match mode {
        Mode::Plain | Mode::MayMove => new_pages <= pages,
        Mode::Fixed(_) | Mode::DontUnmap(_) => false,
    }
}

/// Whether the address that the mode names can't be that of the new range.
fn is_no_target(address: u64, pages: u64, new_pages: u64, mode: Mode) -> bool
    requires on_page { is_on_page address ≡ true }
    requires few { pages < 2 ^ 62 }
    requires new_few { new_pages < 2 ^ 62 }
    ensures { result ≡ refusals.is_no_target address pages new_pages (plain.target_of mode) }
{
    match target_of(mode) {
        Some(target) => is_bad_target(address, pages, target, new_pages),
        None => false,
    }
}

/// Whether so many pages from a target on end too high or meet those of the old range.
fn is_bad_target(address: u64, pages: u64, target: u64, new_pages: u64) -> bool
    requires on_page { is_on_page address ≡ true }
    requires few { pages < 2 ^ 62 }
    requires new_few { new_pages < 2 ^ 62 }
    ensures { result ≡ refusals.is_no_target address pages new_pages (Some target) }
{
    let (from, to) = (address / PAGE_SIZE, target / PAGE_SIZE);
    target % PAGE_SIZE != 0
        || to + new_pages > TOP_PAGE
        || (from < to + new_pages && to < from + pages)
}

/// Whether the address that the mode names is too low.
fn is_below_low(mode: Mode) -> bool
    ensures { result ≡ refusals.is_below_low (plain.target_of mode) }
{
    match target_of(mode) {
        Some(address) => address < PAGE_SIZE * LOW_PAGE,
        None => false,
    }
}

/// Whether the pages that have to be mapped are: the first one where they stay in place, else all
/// of them, with one protection.
fn has_pages(spaces: &Spaces, process: u16, from: u64, pages: u64, in_place: bool) -> bool
    requires few { from + pages < 2 ^ 63 }
    ensures mapped { (q : Process) → HaveProtsOf (pages_of spaces.now.processes process) q
        → result ≡ (if in_place then is_mapped q from else plain.have_one_prot q from pages) }
    ensures laid { AreLaid (pages_of spaces.now.processes process) }
{
    let Some(area) = spaces.area(process, from) else {
        return false;
    };
    if in_place {
        return true;
    }
    have_prot(spaces, process, area.prot, from, from + pages)
}

/// Whether the pages from one to below another are mapped with this protection.
fn have_prot(spaces: &Spaces, process: u16, prot: Prot, from: u64, past: u64) -> bool
    requires forward { from ≤ past }
    requires few { past < 2 ^ 63 }
    ensures { (q : Process) → HaveProtsOf (pages_of spaces.now.processes process) q → result
        ≡ plain.have_prot q prot from (past - from) }
{
    let mut page = from;
    while page < past {
        let Some(area) = spaces.area(process, page) else {
            return false;
        };
        if area.prot != prot {
            return false;
        }
        page = area.end / PAGE_SIZE;
    }
    true
}

/// The page from which on the pages stand then, or that there is no room.
pub fn find_target(
    spaces: &Spaces,
    process: u16,
    from: u64,
    pages: u64,
    new_pages: u64,
    mode: Mode,
) -> Result<u64, Errno>
    requires lives { is_some (areas_of spaces.now.processes process) ≡ true }
    requires some { 1 ≤ new_pages }
    requires few { from + pages < 2 ^ 63 }
    requires new_few { new_pages < 2 ^ 62 }
    ensures { (q : Process) → HaveProtsOf (pages_of spaces.now.processes process) q →
        IsTarget q from pages new_pages mode result }
{
    match mode {
        Mode::Plain => {
            if may_stay(spaces, process, from, pages, new_pages) {
                return Ok(from);
            }
            Err(Errno::Enomem)
        }
        Mode::MayMove => {
            if may_stay(spaces, process, from, pages, new_pages) {
                return Ok(from);
            }
            find_gap(spaces, process, new_pages)
        }
        Mode::Fixed(address) | Mode::DontUnmap(Some(address)) => Ok(address / PAGE_SIZE),
        Mode::DontUnmap(None) => find_gap(spaces, process, new_pages),
    }
}

/// Whether the pages may become so many where they are: they don't grow, or there is room.
fn may_stay(spaces: &Spaces, process: u16, from: u64, pages: u64, new_pages: u64) -> bool
    requires lives { is_some (areas_of spaces.now.processes process) ≡ true }
    requires few { from + pages < 2 ^ 63 }
    requires new_few { new_pages < 2 ^ 62 }
    ensures { (q : Process) → HaveProtsOf (pages_of spaces.now.processes process) q → result
        ≡ plain.may_stay q from pages new_pages }
{
    new_pages <= pages
        || (from + new_pages <= TOP_PAGE
            && spaces.is_free(process, from + pages, new_pages - pages))
}

/// Whether linear indices stay small where the pages grow: else memory counts as wanting. A run of
/// as many commands as a kernel does never gets there, since each raises them by less than 2^35.
pub fn check_indices(
    spaces: &Spaces,
    process: u16,
    from: u64,
    pages: u64,
    new_pages: u64,
) -> Result<(), AllocError>
    requires some { 1 ≤ pages }
    requires few { from + pages < 2 ^ 63 }
    requires new_few { new_pages < 2 ^ 62 }
    requires mapped { pages < new_pages
        → is_taken spaces.now.processes process (from + pages - 1) ≡ true }
    ensures small { OnOk result (StaySmall spaces.now.processes process from pages new_pages) }
    ensures great { OnErr result (GrowTooFar spaces.now.processes process from pages new_pages) }
{
    if new_pages <= pages {
        return Ok(());
    }
    let last = from + pages - 1;
    let Some(area) = spaces.area(process, last) else {
        unreachable!()
    };
    if index(&area, last) + (new_pages - pages) >= MOST_INDICES {
        return Err(AllocError);
    }
    Ok(())
}
