//! What `madvise` refuses by its range, and how far it goes over pages.

ghost use Rattle.std.specs.Prelude.{◌≡◌, ◌≤◌, true, is_some};
ghost use Rattle.av_plain.specs.Refusal as refusals;
ghost use Rattle.av_spaces.specs.Spaces.{areas_of, is_taken};
ghost use Rattle.av_merge.specs.Pages.{GoesTo};
ghost use Rattle.av_place.specs.Advice.{is_unlocked};

use crate::place::ADDRESS_PAGES;
use av_base::PAGE_SIZE;
use av_spaces::Spaces;

/// Whether a range of addresses begins within a page, or ends past 64 bits.
pub fn is_bad_range(address: u64, len: u64) -> bool
    ensures { result ≡ refusals.is_bad_range address len }
{
    address % PAGE_SIZE != 0 || address / PAGE_SIZE + len.div_ceil(PAGE_SIZE) >= ADDRESS_PAGES
}

/// The first page from one to below another that isn't mapped, else that other.
pub fn first_hole(spaces: &Spaces, process: u16, from: u64, past: u64) -> u64
    requires forward { from ≤ past }
    ensures { GoesTo (is_taken spaces.now.processes process) from past result }
{
    let mut page = from;
    while page < past {
        let Some(area) = spaces.area(process, page) else {
            return page;
        };
        page = past.min(area.end / PAGE_SIZE);
    }
    past
}

/// The first page from one to below another that is locked, else that other. The process lives.
pub fn first_locked(spaces: &Spaces, process: u16, from: u64, past: u64) -> u64
    requires lives { is_some (areas_of spaces.now.processes process) ≡ true }
    requires forward { from ≤ past }
    ensures { GoesTo (is_unlocked spaces.now.processes process) from past result }
{
    let mut page = spaces.next_mapped(process, from, past);
    while page < past {
        let Some(area) = spaces.area(process, page) else {
            unreachable!()
        };
        if area.flags.locked {
            return page;
        }
        let end = past.min(area.end / PAGE_SIZE);
        page = spaces.next_mapped(process, end, past);
    }
    past
}
