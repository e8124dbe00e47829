//! Joining: two areas become one where the second goes on in the way of the first.

ghost use Rattle.std.specs.Prelude.{◌≡◌, ◌≢◌, ℕ, ◌-◌, ◌<◌, Some, IfOk, OnOk, true};
ghost use Rattle.av_vma.specs.Areas.{area_of};
ghost use Rattle.av_vmatree.specs.Spans.{area_at};
ghost use Rattle.av_vma.specs.Pages.{joined_around, joined_at, do_join, join_of};
ghost use Rattle.av_merge.specs.Mapping.{DoDiffer};
ghost use Rattle.av_merge.specs.Pages.{pages_by};
ghost use Rattle.av_merge.specs.Kin.{AreInOrder, StayKin, lengths};
ghost use Rattle.av_merge.specs.Process.{AreOfOne, StayOfOne, Becomes};

use crate::linking::{chain_len, share, take};
use crate::placing::replace_both;
use av_anon::Anons;
use av_vma::{Area, AreaId, Areas, joinable};
use av_vmatree::Tree;
use std::alloc::AllocError;

/// Tries the boundaries before the pages `from` and `past`.
#[inline(always)]
pub fn join_ends(
    areas: &mut Areas,
    tree: &mut Tree,
    anons: &mut Anons,
    from: u64,
    past: u64,
) -> Result<(), AllocError>
    requires order { AreInOrder areas.old anons.old }
    requires stands { AreOfOne areas.old tree.old }
    requires some { 0 < from }
    requires forward { from < past }
    ensures stands { StayOfOne areas.old tree.old areas.new tree.new }
    ensures kin { OnOk result (StayKin areas.old anons.old areas.new anons.new) }
    ensures pages { OnOk result
        (Becomes areas.old tree.old areas.new tree.new
        (joined_around (lengths areas.old anons.old) from past)) }
{
    let (below, here) = tree.around(from);
    let (_, above) = tree.around(past);
    match (below, here, above) {
        (Some(left), Some(middle), Some(right))
            if left.to == from && middle.from == from && middle.to == past && right.from == past =>
            {
                join_beside(
                    areas,
                    tree,
                    anons,
                    Some(left.area),
                    middle.area,
                    Some(right.area),
                    from,
                    past,
                )
            }
        _ => join_both(areas, tree, anons, from, past),
    }
}

/// Tries the boundaries at the two ends of an area, but for those where its neighbour is known not
/// to be alike.
pub fn join_part(
    areas: &mut Areas,
    tree: &mut Tree,
    anons: &mut Anons,
    from: u64,
    past: u64,
    differs_below: bool,
    differs_above: bool,
) -> Result<(), AllocError>
    requires order { AreInOrder areas.old anons.old }
    requires stands { AreOfOne areas.old tree.old }
    requires some { 0 < from }
    requires forward { from < past }
    requires below { differs_below ≡ true
        → DoDiffer from (pages_by (area_of areas.old) tree.old) }
    requires above { differs_above ≡ true
        → DoDiffer past (joined_at (lengths areas.old anons.old) from
        (pages_by (area_of areas.old) tree.old)) }
    ensures stands { StayOfOne areas.old tree.old areas.new tree.new }
    ensures kin { OnOk result (StayKin areas.old anons.old areas.new anons.new) }
    ensures pages { OnOk result
        (Becomes areas.old tree.old areas.new tree.new
        (joined_around (lengths areas.old anons.old) from past)) }
{
    if !differs_below && !differs_above {
        return join_ends(areas, tree, anons, from, past);
    }
    join_unless(areas, tree, anons, differs_below, from)?;
    join_unless(areas, tree, anons, differs_above, past)
}

/// Tries one boundary, and then another.
fn join_both(
    areas: &mut Areas,
    tree: &mut Tree,
    anons: &mut Anons,
    from: u64,
    past: u64,
) -> Result<(), AllocError>
    requires order { AreInOrder areas.old anons.old }
    requires stands { AreOfOne areas.old tree.old }
    requires some { 0 < from }
    requires forward { from < past }
    ensures stands { StayOfOne areas.old tree.old areas.new tree.new }
    ensures kin { OnOk result (StayKin areas.old anons.old areas.new anons.new) }
    ensures pages { OnOk result
        (Becomes areas.old tree.old areas.new tree.new
        (joined_around (lengths areas.old anons.old) from past)) }
{
    join_at(areas, tree, anons, from)?;
    join_at(areas, tree, anons, past)
}

/// Tries both boundaries of the area on the pages from `from` to below `past`, where these areas
/// are beside it, if any: none has to be sought.
pub fn join_beside(
    areas: &mut Areas,
    tree: &mut Tree,
    anons: &mut Anons,
    below: Option<AreaId>,
    area: AreaId,
    above: Option<AreaId>,
    from: u64,
    past: u64,
) -> Result<(), AllocError>
    requires order { AreInOrder areas.old anons.old }
    requires stands { AreOfOne areas.old tree.old }
    requires below { area_at tree.old (from - 1) ≡ below }
    requires first { area_at tree.old from ≡ Some area }
    requires last { area_at tree.old (past - 1) ≡ Some area }
    requires above { area_at tree.old past ≡ above }
    requires apart { above ≢ Some area }
    ensures stands { StayOfOne areas.old tree.old areas.new tree.new }
    ensures kin { OnOk result (StayKin areas.old anons.old areas.new anons.new) }
    ensures pages { OnOk result
        (Becomes areas.old tree.old areas.new tree.new
        (joined_around (lengths areas.old anons.old) from past)) }
{
    let joined = join_below(areas, tree, anons, below, area, from)?;
    join_above(areas, tree, anons, joined, above, past)
}

/// Tries the lower boundary of an area, the one before the page `at`, and answers the number of the
/// area that has its pages then.
fn join_below(
    areas: &mut Areas,
    tree: &mut Tree,
    anons: &mut Anons,
    below: Option<AreaId>,
    area: AreaId,
    at: u64,
) -> Result<AreaId, AllocError>
    requires order { AreInOrder areas.old anons.old }
    requires stands { AreOfOne areas.old tree.old }
    requires below { area_at tree.old (at - 1) ≡ below }
    requires above { area_at tree.old at ≡ Some area }
    ensures stands { StayOfOne areas.old tree.old areas.new tree.new }
    ensures kin { OnOk result (StayKin areas.old anons.old areas.new anons.new) }
    ensures pages { OnOk result (Becomes areas.old tree.old areas.new tree.new
        (joined_at (lengths areas.old anons.old) at)) }
    ensures number { IfOk result (λ number. (page : ℕ) → area_at tree.old page ≡ Some area
        → area_at tree.new page ≡ Some number) }
    ensures others { OnOk result ((page : ℕ) → area_at tree.old page ≢ Some area
        → area_at tree.new page ≡ area_at tree.old page) }
{
    match below {
        Some(left) => join(areas, tree, anons, left, area, at),
        None => Ok(area),
    }
}

/// Tries the upper boundary of an area, the one before the page `at`.
fn join_above(
    areas: &mut Areas,
    tree: &mut Tree,
    anons: &mut Anons,
    area: AreaId,
    above: Option<AreaId>,
    at: u64,
) -> Result<(), AllocError>
    requires order { AreInOrder areas.old anons.old }
    requires stands { AreOfOne areas.old tree.old }
    requires below { area_at tree.old (at - 1) ≡ Some area }
    requires above { area_at tree.old at ≡ above }
    ensures stands { StayOfOne areas.old tree.old areas.new tree.new }
    ensures kin { OnOk result (StayKin areas.old anons.old areas.new anons.new) }
    ensures pages { OnOk result (Becomes areas.old tree.old areas.new tree.new
        (joined_at (lengths areas.old anons.old) at)) }
{
    let Some(right) = above else {
        return Ok(());
    };
    join(areas, tree, anons, area, right, at)?;
    Ok(())
}

/// Tries the boundary before the page `at`: the areas on its two sides become one where they are
/// joinable, with the anon_vma that either has.
pub fn join_at(
    areas: &mut Areas,
    tree: &mut Tree,
    anons: &mut Anons,
    at: u64,
) -> Result<(), AllocError>
    requires order { AreInOrder areas.old anons.old }
    requires stands { AreOfOne areas.old tree.old }
    requires some { 0 < at }
    ensures stands { StayOfOne areas.old tree.old areas.new tree.new }
    ensures kin { OnOk result (StayKin areas.old anons.old areas.new anons.new) }
    ensures pages { OnOk result
        (Becomes areas.old tree.old areas.new tree.new
        (joined_at (lengths areas.old anons.old) at)) }
{
    let (below, above) = tree.around(at);
    let Some(left) = below else {
        return Ok(());
    };
    let Some(right) = above else {
        return Ok(());
    };
    if left.to != at || right.from != at {
        return Ok(());
    }
    join(areas, tree, anons, left.area, right.area, at)?;
    Ok(())
}

/// Makes one of the areas on the two sides of the boundary before the page `at`, where they are
/// joinable, and answers the number of the one that has the pages above it then.
fn join(
    areas: &mut Areas,
    tree: &mut Tree,
    anons: &mut Anons,
    left: AreaId,
    right: AreaId,
    at: u64,
) -> Result<AreaId, AllocError>
    requires order { AreInOrder areas.old anons.old }
    requires stands { AreOfOne areas.old tree.old }
    requires below { area_at tree.old (at - 1) ≡ Some left }
    requires above { area_at tree.old at ≡ Some right }
    ensures stands { StayOfOne areas.old tree.old areas.new tree.new }
    ensures kin { OnOk result (StayKin areas.old anons.old areas.new anons.new) }
    ensures pages { OnOk result (Becomes areas.old tree.old areas.new tree.new
        (joined_at (lengths areas.old anons.old) at)) }
    ensures number { IfOk result (λ number. (page : ℕ) → area_at tree.old page ≡ Some right
        → area_at tree.new page ≡ Some number) }
    ensures others { OnOk result ((page : ℕ) → area_at tree.old page ≢ Some right
        → area_at tree.new page ≡ area_at tree.old page) }
{
    let lower = areas.get(left);
    let upper = areas.get(right);
    let left_len = chain_len(anons, left, lower.anon);
    let right_len = chain_len(anons, right, upper.anon);
    if !joinable(&lower, left_len, &upper, right_len) {
        return Ok(right);
    }
    share(areas, anons, left, right)?;
    take(areas, anons, right);
    replace_both(areas, tree, anons, left, join_of(lower, upper), right, at)?;
    Ok(left)
}

/// Tries the boundary before the page `at`, unless the areas on its two sides are known not to be
/// alike.
fn join_unless(
    areas: &mut Areas,
    tree: &mut Tree,
    anons: &mut Anons,
    differs: bool,
    at: u64,
) -> Result<(), AllocError>
    requires order { AreInOrder areas.old anons.old }
    requires stands { AreOfOne areas.old tree.old }
    requires some { 0 < at }
    requires differ { differs ≡ true → DoDiffer at (pages_by (area_of areas.old) tree.old) }
    ensures stands { StayOfOne areas.old tree.old areas.new tree.new }
    ensures kin { OnOk result (StayKin areas.old anons.old areas.new anons.new) }
    ensures pages { OnOk result
        (Becomes areas.old tree.old areas.new tree.new
        (joined_at (lengths areas.old anons.old) at)) }
{
    if differs {
        return Ok(());
    }
    join_at(areas, tree, anons, at)
}

/// Two areas that adjoin as one, with the anon_vma that either has.
fn join_of(lower: Area, upper: Area) -> Area
    ensures { result ≡ join_of lower upper }
{
    Area {
        end: upper.end,
        anon: lower.anon.or(upper.anon),
        ..lower
    }
}
