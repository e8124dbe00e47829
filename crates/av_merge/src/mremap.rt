//! Moves and growth: pages stand at another place with their areas, and an area becomes longer
//! (Linux's `move_vma` and `vma_expand`).

ghost use Rattle.std.specs.Prelude.{◌≡◌, ℕ, suc, ◌+◌, ◌-◌, ◌^◌, ◌<◌, ◌≤◌, ◌⊎◌, min, true, Some};
ghost use Rattle.std.specs.Prelude.{IsSomeAnd, OnOk, IfOk};
ghost use Rattle.av_base.specs.Limits.{low_page, top_page, most_indices};
ghost use Rattle.av_vma.specs.Areas.{area_of};
ghost use Rattle.av_vma.specs.Index.{first_of, past_of};
ghost use Rattle.av_vma.specs.Mremap.{IsGrowth, IsMove, after_grow, after_move, grown_to};
ghost use Rattle.av_vma.specs.Mremap.{joined_over, moved_area, moved_range, pages_from};
ghost use Rattle.av_vma.specs.Mremap.{pages_left};
ghost use Rattle.av_vma.specs.Pages.{after_unmap, split_at, with_area, without_range};
ghost use Rattle.av_vmatree.specs.Spans.{IsFree, area_at, is_page_taken};
ghost use Rattle.av_merge.specs.Kin.{AreInOrder, StayKin, lengths};
ghost use Rattle.av_merge.specs.Pages.{pages_by};
ghost use Rattle.av_merge.specs.Process.{AreAreasOf, NoneCrosses, Stays, AreOfOne, StayOfOne};
ghost use Rattle.av_merge.specs.Process.{Becomes};

use crate::changing::map;
use crate::joining::{join_at, join_ends};
use crate::linking::take;
use crate::placing::replace;
use crate::splitting::{split_before, unmap};
use av_anon::Anons;
use av_base::PAGE_SIZE;
use av_vma::{Area, AreaId, Areas};
use av_vmatree::Tree;
use std::alloc::AllocError;

/// Moves `pages` pages of a process, all of them mapped, from the page `from` to the page `to`,
/// where they become `new_pages`.
///
/// What stands in the new range goes, and nothing is left in the old one. Of fewer pages the first
/// ones move. The areas keep their links, and those that have an anon_vma their linear indices; the
/// last one gets the pages that are new. Then each boundary of an area is tried, by rising address.
pub fn move_range(
    areas: &mut Areas,
    tree: &mut Tree,
    anons: &mut Anons,
    from: u64,
    pages: u64,
    to: u64,
    new_pages: u64,
) -> Result<(), AllocError>
    requires order { AreInOrder areas.old anons.old }
    requires stands { AreOfOne areas.old tree.old }
    requires range { IsMove from pages to new_pages (pages_by (area_of areas.old) tree.old) }
    ensures stands { StayOfOne areas.old tree.old areas.new tree.new }
    ensures kin { OnOk result (StayKin areas.old anons.old areas.new anons.new) }
    ensures pages { OnOk result
        (Becomes areas.old tree.old areas.new tree.new
        (after_move (lengths areas.old anons.old) from pages to new_pages)) }
{
    let common = pages.min(new_pages);
    clear_ranges(areas, tree, anons, from, pages, to, new_pages)?;
    relocate_all(areas, tree, anons, from, from + common, to)?;
    extend(areas, tree, anons, to + common - 1, to + new_pages)?;
    join_over(areas, tree, anons, to, to + new_pages)
}

/// Takes away what stands in the new range and, where that is shorter, the end of the old one; and
/// splits before the old one. What is left of it are whole areas.
fn clear_ranges(
    areas: &mut Areas,
    tree: &mut Tree,
    anons: &mut Anons,
    from: u64,
    pages: u64,
    to: u64,
    new_pages: u64,
) -> Result<(), AllocError>
    requires order { AreInOrder areas.old anons.old }
    requires stands { AreOfOne areas.old tree.old }
    requires range { IsMove from pages to new_pages (pages_by (area_of areas.old) tree.old) }
    ensures stands { StayOfOne areas.old tree.old areas.new tree.new }
    ensures kin { OnOk result (StayKin areas.old anons.old areas.new anons.new) }
    ensures pages { OnOk result (Becomes areas.old tree.old areas.new tree.new
        (λ on. after_unmap (from + min pages new_pages) (from + pages)
        (split_at from (after_unmap to (to + new_pages) on)))) }
{
    unmap(areas, tree, anons, to, to + new_pages)?;
    split_before(areas, tree, anons, from)?;
    unmap(
        areas,
        tree,
        anons,
        from + pages.min(new_pages),
        from + pages,
    )
}

/// Maps the pages from `from` to below `past`, which are free in the process, each like the page
/// that is as far from `like` on, with its protection and its flags, but not locked.
///
/// Each run of pages that are alike is a new area without an anon_vma, whose offset is its first
/// page, and is joined with its neighbours.
pub fn map_like(
    areas: &mut Areas,
    tree: &mut Tree,
    anons: &mut Anons,
    process: u16,
    from: u64,
    past: u64,
    like: u64,
) -> Result<(), AllocError>
    requires order { AreInOrder areas.old anons.old }
    requires stands { AreAreasOf process (area_of areas.old) tree.old }
    requires forward { from ≤ past }
    requires low { low_page ≤ from }
    requires high { past ≤ top_page }
    requires small { like + (past - from) < 2 ^ 64 }
    requires free { IsFree (is_page_taken tree.old) from past }
    requires mapped { (page : ℕ) → like ≤ page → page < like + (past - from)
        → is_page_taken tree.old page ≡ true }
    ensures stands { Stays process (area_of areas.old) (area_of areas.new) tree.new }
    ensures kin { OnOk result (StayKin areas.old anons.old areas.new anons.new) }
    ensures pages { OnOk result (Becomes areas.old tree.old areas.new tree.new
        (λ on. pages_left (lengths areas.old anons.old) process (pages_from like from on) from
        (past - from) on)) }
{
    let mut page = from;
    while page < past {
        let at = like + (page - from);
        let Some(number) = tree.find(at) else {
            unreachable!()
        };
        let area = areas.get(number);
        let end = past.min(page + (area.end / PAGE_SIZE - at));
        let flags = area.flags.unlocked();
        map(areas, tree, anons, process, page, end, area.prot, flags)?;
        page = end;
    }
    Ok(())
}

/// Makes an area longer, from its last page on: it ends before the page `past` then. It is joined
/// with the one before, then with the one after.
pub fn grow(
    areas: &mut Areas,
    tree: &mut Tree,
    anons: &mut Anons,
    last: u64,
    past: u64,
) -> Result<(), AllocError>
    requires order { AreInOrder areas.old anons.old }
    requires stands { AreOfOne areas.old tree.old }
    requires growth { IsGrowth last past (pages_by (area_of areas.old) tree.old) }
    ensures stands { StayOfOne areas.old tree.old areas.new tree.new }
    ensures kin { OnOk result (StayKin areas.old anons.old areas.new anons.new) }
    ensures pages { OnOk result (Becomes areas.old tree.old areas.new tree.new
        (λ on. after_grow (lengths areas.old anons.old) past (on last) on)) }
{
    let first = extend(areas, tree, anons, last, past)?;
    join_ends(areas, tree, anons, first, past)
}

/// An area whose pages stand elsewhere, as the page `from` does at `to`. Its offset stays where it
/// has an anon_vma, so that each page keeps its linear index.
fn shift(area: Area, from: u64, to: u64) -> Area
    requires first { from ≤ first_of area }
    requires forward { first_of area ≤ past_of area }
    requires high { past_of area + to - from ≤ top_page }
    ensures { result ≡ moved_area from to area }
{
    let first = area.start / PAGE_SIZE - from + to;
    let past = area.end / PAGE_SIZE - from + to;
    let pgoff = if area.anon.is_some() {
        area.pgoff
    } else {
        first
    };
    Area {
        start: PAGE_SIZE * first,
        end: PAGE_SIZE * past,
        pgoff,
        ..area
    }
}

/// Puts an area on other pages, which are free. It keeps its number, and so its links; spans go by
/// linear indices, so they stay. Without memory the area goes.
fn relocate(
    areas: &mut Areas,
    tree: &mut Tree,
    anons: &mut Anons,
    number: AreaId,
    area: Area,
    from: u64,
    to: u64,
) -> Result<(), AllocError>
    requires order { AreInOrder areas.old anons.old }
    requires stands { AreOfOne areas.old tree.old }
    requires number { area_of areas.old number ≡ Some area }
    requires there { area_at tree.old (first_of area) ≡ Some number }
    requires first { from ≤ first_of area }
    requires low { low_page ≤ to }
    requires high { past_of area + to - from ≤ top_page }
    requires free { IsFree (is_page_taken tree.old) (first_of area + to - from)
        (past_of area + to - from) }
    ensures stands { StayOfOne areas.old tree.old areas.new tree.new }
    ensures kin { OnOk result (StayKin areas.old anons.old areas.new anons.new) }
    ensures pages { OnOk result (Becomes areas.old tree.old areas.new tree.new
        (λ on. with_area (moved_area from to area)
        (without_range (first_of area) (past_of area) on))) }
{
    let target = shift(area, from, to);
    tree.remove(number, area.start / PAGE_SIZE);
    areas.change(number, target);
    match tree.insert(number, target.start / PAGE_SIZE, target.end / PAGE_SIZE) {
        Ok(()) => Ok(()),
        Err(error) => {
            take(areas, anons, number);
            Err(error)
        }
    }
}

/// Puts the areas that lie from the page `from` to below `past`, with no free page between them, on
/// the pages from `to` on, which are free.
fn relocate_all(
    areas: &mut Areas,
    tree: &mut Tree,
    anons: &mut Anons,
    from: u64,
    past: u64,
    to: u64,
) -> Result<(), AllocError>
    requires order { AreInOrder areas.old anons.old }
    requires stands { AreOfOne areas.old tree.old }
    requires forward { from ≤ past }
    requires low { low_page ≤ to }
    requires high { to + (past - from) ≤ top_page }
    requires apart { (to + (past - from) ≤ from) ⊎ (past ≤ to) }
    requires lower { NoneCrosses from tree.old }
    requires upper { NoneCrosses past tree.old }
    requires mapped { (page : ℕ) → from ≤ page → page < past
        → is_page_taken tree.old page ≡ true }
    requires free { IsFree (is_page_taken tree.old) to (to + (past - from)) }
    ensures stands { StayOfOne areas.old tree.old areas.new tree.new }
    ensures kin { OnOk result (StayKin areas.old anons.old areas.new anons.new) }
    ensures pages { OnOk result (Becomes areas.old tree.old areas.new tree.new
        (moved_range from (past - from) (past - from) to)) }
{
    let mut page = from;
    while page < past {
        let Some(number) = tree.find(page) else {
            unreachable!()
        };
        let area = areas.get(number);
        relocate(areas, tree, anons, number, area, from, to)?;
        page = area.end / PAGE_SIZE;
    }
    Ok(())
}

/// Makes the area of the page `last` end before the page `past`, and answers its first page.
fn extend(
    areas: &mut Areas,
    tree: &mut Tree,
    anons: &mut Anons,
    last: u64,
    past: u64,
) -> Result<u64, AllocError>
    requires order { AreInOrder areas.old anons.old }
    requires stands { AreOfOne areas.old tree.old }
    requires high { past ≤ top_page }
    requires longer { IsSomeAnd (pages_by (area_of areas.old) tree.old last)
        (λ area. past_of area ≤ past) }
    requires free { IsSomeAnd (pages_by (area_of areas.old) tree.old last)
        (λ area. IsFree (is_page_taken tree.old) (past_of area) past) }
    requires small { IsSomeAnd (pages_by (area_of areas.old) tree.old last)
        (λ area. area.pgoff + (past - first_of area) ≤ most_indices) }
    ensures stands { StayOfOne areas.old tree.old areas.new tree.new }
    ensures kin { OnOk result (StayKin areas.old anons.old areas.new anons.new) }
    ensures first { IfOk result (λ first. IsSomeAnd (pages_by (area_of areas.old) tree.old last)
        (λ area. first ≡ first_of area)) }
    ensures pages { OnOk result (Becomes areas.old tree.old areas.new tree.new
        (λ on. grown_to past (on last) on)) }
{
    let Some(number) = tree.find(last) else {
        unreachable!()
    };
    let area = areas.get(number);
    // A move of as many pages leaves the end: neither the tree nor a span changes then.
    if area.end == PAGE_SIZE * past {
        return Ok(area.start / PAGE_SIZE);
    }
    let longer = Area {
        end: PAGE_SIZE * past,
        ..area
    };
    replace(areas, tree, anons, number, longer)?;
    Ok(area.start / PAGE_SIZE)
}

/// Tries each boundary of an area from the page `from` to `past`, by rising address. There is no
/// free page between them, so a boundary is where an area ends.
fn join_over(
    areas: &mut Areas,
    tree: &mut Tree,
    anons: &mut Anons,
    from: u64,
    past: u64,
) -> Result<(), AllocError>
    requires order { AreInOrder areas.old anons.old }
    requires stands { AreOfOne areas.old tree.old }
    requires some { 0 < from }
    requires forward { from ≤ past }
    requires upper { NoneCrosses past tree.old }
    requires mapped { (page : ℕ) → from ≤ page → page < past
        → is_page_taken tree.old page ≡ true }
    ensures stands { StayOfOne areas.old tree.old areas.new tree.new }
    ensures kin { OnOk result (StayKin areas.old anons.old areas.new anons.new) }
    ensures pages { OnOk result (Becomes areas.old tree.old areas.new tree.new
        (joined_over (lengths areas.old anons.old) from (suc (past - from)))) }
{
    let mut at = from;
    join_at(areas, tree, anons, at)?;
    while at < past {
        let Some(number) = tree.find(at) else {
            unreachable!()
        };
        at = areas.get(number).end / PAGE_SIZE;
        join_at(areas, tree, anons, at)?;
    }
    Ok(())
}
