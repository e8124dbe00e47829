//! Splitting and unmapping: an area becomes two, and what lies in a range goes.

ghost use Rattle.std.specs.Prelude.{◌≡◌, ℕ, ◌<◌, ◌≤◌, [], true, Some, IfSome, IsSomeAnd, OnOk};
ghost use Rattle.std.specs.Prelude.{IfOk};
ghost use Rattle.av_vma.specs.Areas.{area_of};
ghost use Rattle.av_vma.specs.Index.{past_of};
ghost use Rattle.av_vmatree.specs.Spans.{area_at, last_below, span_of};
ghost use Rattle.av_merge.specs.Pages.{pages_by};
ghost use Rattle.av_vma.specs.Pages.{split_at, without_range, after_unmap};
ghost use Rattle.av_merge.specs.Kin.{AreInOrder, StayKin};
ghost use Rattle.av_merge.specs.Process.{AreAreasOf, NoneCrosses, Stays, AreOfOne, StayOfOne};
ghost use Rattle.av_merge.specs.Process.{Becomes};

use crate::linking::take;
use crate::placing::put_apart;
use av_anon::Anons;
use av_base::{LOW_PAGE, PAGE_SIZE, TOP_PAGE};
use av_vma::{Area, AreaId, Areas, index};
use av_vmatree::{Span, Tree};
use std::alloc::AllocError;

/// Makes two areas of one, the upper of which begins with the page `at`, a page of the area but not
/// its first.
///
/// The offset of the upper area runs on.
pub fn split(
    areas: &mut Areas,
    tree: &mut Tree,
    anons: &mut Anons,
    area: AreaId,
    at: u64,
) -> Result<(), AllocError>
    requires order { AreInOrder areas.old anons.old }
    requires stands { AreOfOne areas.old tree.old }
    requires inside { IsSomeAnd (span_of tree.old area) (λ s. (s.from < at) × (at < s.to)) }
    ensures stands { StayOfOne areas.old tree.old areas.new tree.new }
    ensures kin { OnOk result (StayKin areas.old anons.old areas.new anons.new) }
    ensures pages { OnOk result
        (Becomes areas.old tree.old areas.new tree.new (split_at at)) }
{
    split_area(areas, tree, anons, area, at)?;
    Ok(())
}

/// Splits an area, and answers the number of the upper one. The lower one keeps its own.
fn split_area(
    areas: &mut Areas,
    tree: &mut Tree,
    anons: &mut Anons,
    area: AreaId,
    at: u64,
) -> Result<AreaId, AllocError>
    requires order { AreInOrder areas.old anons.old }
    requires stands { AreOfOne areas.old tree.old }
    requires inside { IsSomeAnd (span_of tree.old area) (λ s. (s.from < at) × (at < s.to)) }
    ensures stands { StayOfOne areas.old tree.old areas.new tree.new }
    ensures kin { OnOk result (StayKin areas.old anons.old areas.new anons.new) }
    ensures pages { OnOk result
        (Becomes areas.old tree.old areas.new tree.new (split_at at)) }
    ensures upper { IfOk result (λ number. area_at tree.new at ≡ Some number) }
    ensures lower { OnOk result ((page : ℕ) → page < at → area_at tree.old page ≡ Some area
        → area_at tree.new page ≡ Some area) }
{
    unmap_within(areas, tree, anons, area, at, at)
}

/// Takes away the pages from `from` to below `to`, where one area lies on both sides of them, and
/// answers the number of what is left above. What is left below keeps the area's.
///
/// The offset of the upper area runs on.
fn unmap_within(
    areas: &mut Areas,
    tree: &mut Tree,
    anons: &mut Anons,
    area: AreaId,
    from: u64,
    to: u64,
) -> Result<AreaId, AllocError>
    requires order { AreInOrder areas.old anons.old }
    requires stands { AreOfOne areas.old tree.old }
    requires forward { from ≤ to }
    requires inside { IsSomeAnd (span_of tree.old area) (λ s. (s.from < from) × (to < s.to)) }
    ensures stands { StayOfOne areas.old tree.old areas.new tree.new }
    ensures kin { OnOk result (StayKin areas.old anons.old areas.new anons.new) }
    ensures pages { OnOk result
        (Becomes areas.old tree.old areas.new tree.new (after_unmap from to)) }
    ensures upper { IfOk result (λ number. area_at tree.new to ≡ Some number) }
    ensures lower { OnOk result ((page : ℕ) → page < from → area_at tree.old page ≡ Some area
        → area_at tree.new page ≡ Some area) }
{
    let whole = areas.get(area);
    let lower = Area {
        end: PAGE_SIZE * from,
        ..whole
    };
    let upper = Area {
        start: PAGE_SIZE * to,
        pgoff: index(&whole, to),
        ..whole
    };
    put_apart(areas, tree, anons, area, lower, upper)
}

/// Splits before the page `at`, where one area lies on both sides.
pub fn split_before(
    areas: &mut Areas,
    tree: &mut Tree,
    anons: &mut Anons,
    at: u64,
) -> Result<(), AllocError>
    requires order { AreInOrder areas.old anons.old }
    requires stands { AreOfOne areas.old tree.old }
    ensures stands { StayOfOne areas.old tree.old areas.new tree.new }
    ensures kin { OnOk result (StayKin areas.old anons.old areas.new anons.new) }
    ensures pages { OnOk result
        (Becomes areas.old tree.old areas.new tree.new (split_at at)) }
    ensures none_crosses { OnOk result (NoneCrosses at tree.new) }
{
    let (below, _) = tree.around(at);
    split_below(areas, tree, anons, below, at)
}

/// Splits before the page `at` the last area that begins below it, where that goes on past it.
fn split_below(
    areas: &mut Areas,
    tree: &mut Tree,
    anons: &mut Anons,
    below: Option<Span>,
    at: u64,
) -> Result<(), AllocError>
    requires order { AreInOrder areas.old anons.old }
    requires stands { AreOfOne areas.old tree.old }
    requires last { below ≡ last_below tree.old at }
    ensures stands { StayOfOne areas.old tree.old areas.new tree.new }
    ensures kin { OnOk result (StayKin areas.old anons.old areas.new anons.new) }
    ensures pages { OnOk result
        (Becomes areas.old tree.old areas.new tree.new (split_at at)) }
    ensures none_crosses { OnOk result (NoneCrosses at tree.new) }
{
    match below {
        Some(span) if at < span.to => split(areas, tree, anons, span.area, at),
        _ => Ok(()),
    }
}

/// Makes the pages from `from` to below `past`, all of one area, an area of their own, and answers
/// its number.
pub fn split_out(
    areas: &mut Areas,
    tree: &mut Tree,
    anons: &mut Anons,
    area: AreaId,
    from: u64,
    past: u64,
) -> Result<AreaId, AllocError>
    requires order { AreInOrder areas.old anons.old }
    requires stands { AreOfOne areas.old tree.old }
    requires some { from < past }
    requires there { area_at tree.old from ≡ Some area }
    requires inside { IsSomeAnd (pages_by (area_of areas.old) tree.old from)
        (λ area. past ≤ past_of area) }
    ensures stands { StayOfOne areas.old tree.old areas.new tree.new }
    ensures kin { OnOk result (StayKin areas.old anons.old areas.new anons.new) }
    ensures pages { OnOk result (Becomes areas.old tree.old areas.new tree.new
        (λ on. split_at past (split_at from on))) }
    ensures part { IfOk result (λ part. area_at tree.new from ≡ Some part) }
{
    let part = split_from(areas, tree, anons, area, from)?;
    split_to(areas, tree, anons, part, past)?;
    Ok(part)
}

/// Splits an area before one of its pages, where it doesn't begin there, and answers the number of
/// the area that does.
fn split_from(
    areas: &mut Areas,
    tree: &mut Tree,
    anons: &mut Anons,
    area: AreaId,
    at: u64,
) -> Result<AreaId, AllocError>
    requires order { AreInOrder areas.old anons.old }
    requires stands { AreOfOne areas.old tree.old }
    requires there { area_at tree.old at ≡ Some area }
    ensures stands { StayOfOne areas.old tree.old areas.new tree.new }
    ensures kin { OnOk result (StayKin areas.old anons.old areas.new anons.new) }
    ensures pages { OnOk result
        (Becomes areas.old tree.old areas.new tree.new (split_at at)) }
    ensures part { IfOk result (λ part. area_at tree.new at ≡ Some part) }
{
    if areas.get(area).start / PAGE_SIZE < at {
        split_area(areas, tree, anons, area, at)
    } else {
        Ok(area)
    }
}

/// Splits an area past one of its pages, where it goes on there. The lower part keeps the number.
fn split_to(
    areas: &mut Areas,
    tree: &mut Tree,
    anons: &mut Anons,
    area: AreaId,
    at: u64,
) -> Result<(), AllocError>
    requires order { AreInOrder areas.old anons.old }
    requires stands { AreOfOne areas.old tree.old }
    requires inside { IsSomeAnd (span_of tree.old area) (λ s. (s.from < at) × (at ≤ s.to)) }
    ensures stands { StayOfOne areas.old tree.old areas.new tree.new }
    ensures kin { OnOk result (StayKin areas.old anons.old areas.new anons.new) }
    ensures pages { OnOk result
        (Becomes areas.old tree.old areas.new tree.new (split_at at)) }
    ensures lower { OnOk result ((page : ℕ) → page < at → area_at tree.old page ≡ Some area
        → area_at tree.new page ≡ Some area) }
{
    if areas.get(area).end / PAGE_SIZE <= at {
        return Ok(());
    }
    split_area(areas, tree, anons, area, at)?;
    Ok(())
}

/// Takes away the pages from `from` to below `to`. An area that goes past an end of the range is
/// split there; nothing is joined.
pub fn unmap(
    areas: &mut Areas,
    tree: &mut Tree,
    anons: &mut Anons,
    from: u64,
    to: u64,
) -> Result<(), AllocError>
    requires order { AreInOrder areas.old anons.old }
    requires stands { AreOfOne areas.old tree.old }
    requires forward { from ≤ to }
    ensures stands { StayOfOne areas.old tree.old areas.new tree.new }
    ensures kin { OnOk result (StayKin areas.old anons.old areas.new anons.new) }
    ensures pages { OnOk result
        (Becomes areas.old tree.old areas.new tree.new (after_unmap from to)) }
{
    let (below, above) = tree.around(from);
    // Pages are mostly moved to free ones: two more descents are spared.
    if lie_beside(below, above, from, to) {
        return Ok(());
    }
    match below {
        Some(span) if to < span.to => {
            unmap_within(areas, tree, anons, span.area, from, to)?;
            Ok(())
        }
        _ => unmap_between(areas, tree, anons, below, from, to),
    }
}

/// True only where two spans leave out the pages from `from` to below `to`: the first ends before
/// them, the second begins after them.
fn lie_beside(below: Option<Span>, above: Option<Span>, from: u64, to: u64) -> bool
    ensures { result ≡ true
        → IfSome below (λ s. s.to ≤ from) × IfSome above (λ s. to ≤ s.from) }
{
    let ends_before = match below {
        Some(span) => span.to <= from,
        None => true,
    };
    let begins_after = match above {
        Some(span) => to <= span.from,
        None => true,
    };
    ends_before && begins_after
}

/// Takes away the pages from `from` to below `to`: splits at the two ends, of which the lower is in
/// the last area that begins below it or in none, and takes out what lies between.
fn unmap_between(
    areas: &mut Areas,
    tree: &mut Tree,
    anons: &mut Anons,
    below: Option<Span>,
    from: u64,
    to: u64,
) -> Result<(), AllocError>
    requires order { AreInOrder areas.old anons.old }
    requires stands { AreOfOne areas.old tree.old }
    requires forward { from ≤ to }
    requires last { below ≡ last_below tree.old from }
    ensures stands { StayOfOne areas.old tree.old areas.new tree.new }
    ensures kin { OnOk result (StayKin areas.old anons.old areas.new anons.new) }
    ensures pages { OnOk result
        (Becomes areas.old tree.old areas.new tree.new (after_unmap from to)) }
{
    split_below(areas, tree, anons, below, from)?;
    split_before(areas, tree, anons, to)?;
    take_out(areas, tree, anons, from, to);
    Ok(())
}

/// Takes out every area that lies from the page `from` to below `to`, where none goes past an end
/// of the range.
fn take_out(areas: &mut Areas, tree: &mut Tree, anons: &mut Anons, from: u64, to: u64)
    requires order { AreInOrder areas.old anons.old }
    requires stands { AreOfOne areas.old tree.old }
    requires lower { NoneCrosses from tree.old }
    requires upper { NoneCrosses to tree.old }
    ensures stands { StayOfOne areas.old tree.old areas.new tree.new }
    ensures kin { StayKin areas.old anons.old areas.new anons.new }
    ensures pages { Becomes areas.old tree.old areas.new tree.new (without_range from to) }
{
    // No area begins with page 0.
    while let Some(area) = tree.after(from.saturating_sub(1)) {
        let start = areas.get(area).start / PAGE_SIZE;
        if to <= start {
            return;
        }
        tree.remove(area, start);
        take(areas, anons, area);
    }
}

/// Takes out every area of the process. It takes no memory.
pub fn unmap_all(areas: &mut Areas, tree: &mut Tree, anons: &mut Anons)
    requires order { AreInOrder areas.old anons.old }
    requires stands { AreOfOne areas.old tree.old }
    ensures stands { StayOfOne areas.old tree.old areas.new tree.new }
    ensures kin { StayKin areas.old anons.old areas.new anons.new }
    ensures empty { tree.new ≡ [] }
{
    take_out(areas, tree, anons, LOW_PAGE, TOP_PAGE);
}
