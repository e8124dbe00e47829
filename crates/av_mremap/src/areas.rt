//! What the areas of a process become where a range of its pages moves, shrinks or grows.

ghost use Rattle.std.specs.Prelude.{◌≡◌, ℕ, ◌+◌, ◌-◌, ◌<◌, ◌≤◌, true, is_some, OnOk};
ghost use Rattle.av_base.specs.Limits.{top_page};
ghost use Rattle.av_mremap.specs.Areas.{HasAreas, HasRemap};
ghost use Rattle.av_plain.specs.Areas.{chain_length};
ghost use Rattle.av_plain.specs.Mremap.{after_mremap};
ghost use Rattle.av_plain.specs.Transcript.{State};
ghost use Rattle.av_spaces.specs.Spaces.{areas_of, pages_of};
ghost use Rattle.av_vma.specs.Mremap.{IsGrowth, IsMove, after_resize};

use av_mem::Mem;
use std::alloc::AllocError;

/// Makes `new_pages` pages from the page `to` on of a process's `pages` pages from the page `from`
/// on, as far as areas go. Where they stay, those past the new ones go, or the last area grows.
/// Where they move, what stands in the new range goes first; an area that has an anon_vma keeps its
/// offset, so that each page keeps its linear index. Then the old range is mapped again, if it
/// stays: each page like the one that moved from it, but not locked.
///
/// The entries of locked pages that go are off their counts before: the areas tell them no more.
///
/// Costs by the areas that move or go. Without memory nothing is promised of areas and anon_vmas.
pub fn remap_areas(
    mem: &mut Mem,
    process: u16,
    from: u64,
    pages: u64,
    to: u64,
    new_pages: u64,
    stays: bool,
) -> Result<(), AllocError>
    requires steady { (s : State) × HasAreas mem.old s }
    requires lives { is_some (areas_of mem.old.spaces.processes process) ≡ true }
    requires some { 1 ≤ pages }
    requires shrinks { to ≡ from → new_pages < pages → from + pages ≤ top_page }
    requires grows { to ≡ from → pages < new_pages → IsGrowth (from + pages - 1)
        (from + new_pages) (pages_of mem.old.spaces.processes process) }
    requires whole { stays ≡ true → pages ≤ new_pages }
    requires moves { (to ≡ from → ⊥) → IsMove from pages to new_pages
        (pages_of mem.old.spaces.processes process) }
    ensures remaps { (s : State) → HasAreas mem.old s →
        OnOk result (HasRemap mem.old mem.new process (after_mremap (chain_length s.anons)
        process from pages to new_pages stays (s.areas process))) }
    ensures rest { mem.new
        ≡ record mem.old { spaces = mem.new.spaces; anons = mem.new.anons } }
{
    if to == from {
        return resize_areas(mem, process, from, pages, new_pages);
    }
    mem.spaces
        .move_range(&mut mem.anons, process, from, pages, to, new_pages)?;
    if !stays {
        return Ok(());
    }
    mem.spaces
        .map_like(&mut mem.anons, process, from, pages, to)
}

/// The same where the pages stay.
fn resize_areas(
    mem: &mut Mem,
    process: u16,
    from: u64,
    pages: u64,
    new_pages: u64,
) -> Result<(), AllocError>
    requires steady { (s : State) × HasAreas mem.old s }
    requires lives { is_some (areas_of mem.old.spaces.processes process) ≡ true }
    requires some { 1 ≤ pages }
    requires shrinks { new_pages < pages → from + pages ≤ top_page }
    requires grows { pages < new_pages → IsGrowth (from + pages - 1)
        (from + new_pages) (pages_of mem.old.spaces.processes process) }
    ensures resizes { (s : State) → HasAreas mem.old s →
        OnOk result (HasRemap mem.old mem.new process (after_resize (chain_length s.anons)
        from pages new_pages (s.areas process))) }
    ensures rest { mem.new
        ≡ record mem.old { spaces = mem.new.spaces; anons = mem.new.anons } }
{
    if new_pages < pages {
        let past = from + new_pages;
        return mem
            .spaces
            .unmap(&mut mem.anons, process, past, pages - new_pages);
    }
    if pages < new_pages {
        let last = from + pages - 1;
        return mem
            .spaces
            .grow(&mut mem.anons, process, last, from + new_pages);
    }
    Ok(())
}
