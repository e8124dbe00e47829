//! Where `mmap` puts pages, and the tests of addresses and lengths.

ghost use Rattle.std.specs.Prelude.{◌≡◌, ℕ, ◌+◌, ◌^◌, ◌<◌, ◌≤◌, ◌&&◌, ◌||◌, ◌==◌, nat_le, nat_lt};
ghost use Rattle.std.specs.Prelude.{true, false, not, [], ◌∷◌, None, Some, is_some, MatchResult};
ghost use Rattle.av_base.specs.Limits.{low_page, top_page};
ghost use Rattle.av_vma.specs.Gap.{IsGap};
ghost use Rattle.av_plain.specs.World.{Process};
ghost use Rattle.av_base.specs.Page.{page_of, is_on_page};
ghost use Rattle.av_plain.specs.Refusal.{top, fixed_tests, refusal};
ghost use Rattle.av_plain.specs.Refusal as refusals;
ghost use Rattle.av_plain.specs.Place.{is_room};
ghost use Rattle.av_spaces.specs.Spaces.{areas_of, is_taken};
ghost use Rattle.av_place.specs.Place.{protect_tests, IsProcess, IsPlaced};
ghost use Rattle.av_trace.specs.declared.reply.Errno.TheVariants as errors;

use av_base::{LOW_PAGE, PAGE_SIZE, TOP_PAGE};
use av_spaces::Spaces;
use av_trace::{Errno, Place};

/// The first address that no process can have.
const TOP: u64 = PAGE_SIZE * TOP_PAGE;

/// How many pages addresses of 64 bits have.
pub(crate) const ADDRESS_PAGES: u64 = 1 << 52;

/// Whether a length in bytes, rounded up to whole pages, is more than a process can have.
pub fn is_too_long(len: u64) -> bool
    ensures { result ≡ refusals.is_too_long len }
{
    len > TOP
}

/// Whether no process can have this range of addresses, or it is empty or begins within a page.
pub fn is_no_range(address: u64, len: u64) -> bool
    ensures { result ≡ (not (is_on_page address) || len == 0 || nat_lt top (address + len)) }
{
    address % PAGE_SIZE != 0 || len == 0 || address > TOP || len > TOP - address
}

/// Refuses a range of addresses that `mprotect` refuses before it looks at its pages.
pub fn check_protect(address: u64, len: u64) -> Result<(), Errno>
    ensures { MatchResult result
        (λ _. refusal (protect_tests address len) ≡ None)
        (λ error. refusal (protect_tests address len) ≡ Some error) }
{
    if address % PAGE_SIZE != 0 {
        return Err(Errno::Einval);
    }
    if address / PAGE_SIZE + len.div_ceil(PAGE_SIZE) >= ADDRESS_PAGES {
        return Err(Errno::Enomem);
    }
    Ok(())
}

/// Whether a process may have this many pages from one on.
fn may_have(page: u64, pages: u64) -> bool
    requires reach { page + pages < 2 ^ 64 }
    ensures { result ≡ (nat_le low_page page && nat_le (page + pages) top_page) }
{
    page >= LOW_PAGE && page + pages <= TOP_PAGE
}

/// The page of an address that a mapping has to have, or why it can't have it.
fn fixed_page(address: u64, pages: u64) -> Result<u64, Errno>
    requires few { pages ≤ top_page }
    ensures { MatchResult result
        (λ page. (refusal (fixed_tests pages address) ≡ None) × (page ≡ page_of address))
        (λ error. refusal (fixed_tests pages address) ≡ Some error) }
{
    if address > TOP - PAGE_SIZE * pages {
        return Err(Errno::Enomem);
    }
    if address % PAGE_SIZE != 0 {
        return Err(Errno::Einval);
    }
    if address < PAGE_SIZE * LOW_PAGE {
        return Err(Errno::Eperm);
    }
    Ok(address / PAGE_SIZE)
}

/// The page from which on this many go in a process that lives, or why they can't go where they
/// should.
pub fn find_place(spaces: &Spaces, process: u16, pages: u64, place: Place) -> Result<u64, Errno>
    requires lives { is_some (areas_of spaces.now.processes process) ≡ true }
    requires some { 1 ≤ pages }
    requires few { pages ≤ top_page }
    ensures { (q : Process) → IsProcess spaces.now.processes process q → IsPlaced q pages place
        result }
{
    match place {
        Place::Auto => find_gap(spaces, process, pages),
        Place::At(address) => {
            let page = address / PAGE_SIZE;
            if has_room(spaces, process, pages, page) {
                return Ok(page);
            }
            find_gap(spaces, process, pages)
        }
        Place::Fixed(address) => fixed_page(address, pages),
        Place::NoReplace(address) => {
            let page = fixed_page(address, pages)?;
            if !spaces.is_free(process, page, pages) {
                return Err(Errno::Eexist);
            }
            Ok(page)
        }
    }
}

/// The greatest page from which on there is room for this many.
pub fn find_gap(spaces: &Spaces, process: u16, pages: u64) -> Result<u64, Errno>
    requires lives { is_some (areas_of spaces.now.processes process) ≡ true }
    requires some { 1 ≤ pages }
    ensures { MatchResult result
        (λ page. IsGap (is_taken spaces.now.processes process) pages (Some page))
        (λ error. IsGap (is_taken spaces.now.processes process) pages None × (error ≡
        errors.Enomem)) }
{
    match spaces.gap(process, pages) {
        Some(page) => Ok(page),
        None => Err(Errno::Enomem),
    }
}

/// Whether this many pages from one on are free in a process that lives, and it may have them.
fn has_room(spaces: &Spaces, process: u16, pages: u64, page: u64) -> bool
    requires lives { is_some (areas_of spaces.now.processes process) ≡ true }
    requires reach { page + pages < 2 ^ 64 }
    ensures { (q : Process) → IsProcess spaces.now.processes process q → result ≡ is_room q pages
        page }
{
    may_have(page, pages) && spaces.is_free(process, page, pages)
}
