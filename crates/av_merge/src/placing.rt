//! One area is put, or another is put in its place.

ghost use Rattle.std.specs.Prelude.{◌≡◌, ℕ, ◌-◌, ◌<◌, ◌≤◌, Some, None, IsSomeAnd, OnOk, IfOk};
ghost use Rattle.std.specs.Prelude.{if◌then◌else◌};
ghost use Rattle.av_vma.specs.Areas.{area_of};
ghost use Rattle.av_vma.specs.Index.{first_of, past_of};
ghost use Rattle.av_base.specs.Words.{with_at};
ghost use Rattle.av_vmatree.specs.Spans.{AreSpans, IsFree, area_at, span, span_of, is_page_taken};
ghost use Rattle.av_vmatree.specs.Spans.{unless_area, with_span, without_area};
ghost use Rattle.av_merge.specs.Pages.{beginning_at, ending_at, pages_by};
ghost use Rattle.av_vma.specs.Pages.{has_page, with_area, IsWhole};
ghost use Rattle.av_anon.specs.Resize.{with_bounds};
ghost use Rattle.av_merge.specs.Kin.{AreInOrder, StayKin};
ghost use Rattle.av_merge.specs.Process.{AreAreasOf, Stays, AreOfOne, StayOfOne, Becomes};

use crate::linking::{put, put_parts};
use av_anon::Anons;
use av_base::PAGE_SIZE;
use av_vma::{Area, AreaId, Areas};
use av_vmatree::{Span, Tree};
use std::alloc::AllocError;

/// Puts a new area of a process on pages that are free, and answers its number.
pub fn add(areas: &mut Areas, tree: &mut Tree, area: Area) -> Result<AreaId, AllocError>
    requires stands { AreAreasOf area.pid (area_of areas.old) tree.old }
    requires whole { IsWhole area }
    requires free { IsFree (is_page_taken tree.old) (first_of area) (past_of area) }
    ensures stands { Stays area.pid (area_of areas.old) (area_of areas.new) tree.new }
    ensures pages { OnOk result
        (Becomes areas.old tree.old areas.new tree.new (with_area area)) }
    ensures number { IfOk result (λ number. (page : ℕ) → area_at tree.new page
        ≡ (if has_page area page then Some number else area_at tree.old page)) }
    ensures unused { IfOk result (λ number. area_of areas.old number ≡ None) }
    ensures areas { IfOk result (λ number. (k : ℕ)
        → area_of areas.new k ≡ with_at number (Some area) (area_of areas.old) k) }
    ensures tree { IfOk result (λ number.
        tree.new ≡ with_span (span number (first_of area) (past_of area)) tree.old) }
{
    let number = areas.add(area)?;
    match tree.insert(number, area.start / PAGE_SIZE, area.end / PAGE_SIZE) {
        Ok(()) => Ok(number),
        Err(error) => {
            areas.remove(number);
            Err(error)
        }
    }
}

/// The areas beside the pages from `from` to below `to`, which are free: the one that ends with
/// the page before them, and the one that begins with the page after them.
pub fn beside(tree: &Tree, from: u64, to: u64) -> (Option<AreaId>, Option<AreaId>)
    requires spans { AreSpans tree.now }
    requires some { from < to }
    requires low { 0 < from }
    requires free { IsFree (is_page_taken tree.now) from to }
    ensures below { result.0 ≡ area_at tree.now (from - 1) }
    ensures above { result.1 ≡ area_at tree.now to }
{
    let (below, above) = tree.around(from);
    (ending(below, from), beginning(above, to))
}

/// The area of a span, where that ends before the page `at`.
fn ending(span: Option<Span>, at: u64) -> Option<AreaId>
    ensures { result ≡ ending_at at span }
{
    match span {
        Some(span) if span.to == at => Some(span.area),
        _ => None,
    }
}

/// The area of a span, where that begins with the page `at`.
fn beginning(span: Option<Span>, at: u64) -> Option<AreaId>
    ensures { result ≡ beginning_at at span }
{
    match span {
        Some(span) if span.from == at => Some(span.area),
        _ => None,
    }
}

/// Gives an area that begins with the same page other bounds, on pages that are its own or free.
pub fn replace(
    areas: &mut Areas,
    tree: &mut Tree,
    anons: &mut Anons,
    number: AreaId,
    area: Area,
) -> Result<(), AllocError>
    requires order { AreInOrder areas.old anons.old }
    requires was { IsSomeAnd (area_of areas.old number)
        (λ old. area ≡ with_bounds area.start area.end area.pgoff old) }
    requires stands { AreAreasOf area.pid (area_of areas.old) tree.old }
    requires there { IsSomeAnd (span_of tree.old number) (λ s. s.from ≡ first_of area) }
    requires whole { IsWhole area }
    requires free { IsFree (is_page_taken (without_area number tree.old))
        (first_of area) (past_of area) }
    ensures stands { Stays area.pid (area_of areas.old) (area_of areas.new) tree.new }
    ensures pages { (page : ℕ) → pages_by (area_of areas.new) tree.new page
        ≡ with_area area (pages_by (with_at number None (area_of areas.old)) tree.old) page }
    ensures number { (page : ℕ) → area_at tree.new page ≡ (if has_page area page then Some number
        else unless_area number (area_at tree.old page)) }
    ensures kin { OnOk result (StayKin areas.old anons.old areas.new anons.new) }
{
    tree.set_end(number, area.start / PAGE_SIZE, area.end / PAGE_SIZE);
    put(areas, anons, number, area)
}

/// Takes out of the tree the area `other`, which begins with the page `at` and is out of `areas`
/// already, and gives the area before it other bounds, on pages of the two or free.
///
/// The tree is gone down once for both.
pub fn replace_both(
    areas: &mut Areas,
    tree: &mut Tree,
    anons: &mut Anons,
    number: AreaId,
    area: Area,
    other: AreaId,
    at: u64,
) -> Result<(), AllocError>
    requires order { AreInOrder areas.old anons.old }
    requires was { IsSomeAnd (area_of areas.old number)
        (λ old. area ≡ with_bounds area.start area.end area.pgoff old) }
    requires other { IsSomeAnd (span_of tree.old other) (λ s. s.from ≡ at) }
    requires lower { first_of area < at }
    requires upper { at < past_of area }
    requires stands { AreAreasOf area.pid (area_of areas.old) (without_area other tree.old) }
    requires there { IsSomeAnd (span_of (without_area other tree.old) number)
        (λ s. s.from ≡ first_of area) }
    requires whole { IsWhole area }
    requires free { IsFree (is_page_taken (without_area number (without_area other tree.old)))
        (first_of area) (past_of area) }
    ensures stands { Stays area.pid (area_of areas.old) (area_of areas.new) tree.new }
    ensures pages { (page : ℕ) → pages_by (area_of areas.new) tree.new page
        ≡ with_area area (pages_by (with_at number None (area_of areas.old))
        (without_area other tree.old)) page }
    ensures number { (page : ℕ) → area_at tree.new page ≡ (if has_page area page then Some number
        else unless_area number (area_at (without_area other tree.old) page)) }
    ensures kin { OnOk result (StayKin areas.old anons.old areas.new anons.new) }
{
    tree.join(
        number,
        area.start / PAGE_SIZE,
        other,
        at,
        area.end / PAGE_SIZE,
    );
    put(areas, anons, number, area)
}

/// Puts the two parts that a split leaves of an area in its place, and answers the number of the
/// upper one. The lower one keeps its own.
///
/// The tree is gone down once for both. Both have the area's own anon_vma and its chain.
pub fn put_apart(
    areas: &mut Areas,
    tree: &mut Tree,
    anons: &mut Anons,
    number: AreaId,
    lower: Area,
    upper: Area,
) -> Result<AreaId, AllocError>
    requires order { AreInOrder areas.old anons.old }
    requires was { IsSomeAnd (area_of areas.old number)
        (λ old. lower ≡ with_bounds lower.start lower.end lower.pgoff old) }
    requires same_own { upper.anon ≡ lower.anon }
    requires stands { AreAreasOf lower.pid (area_of areas.old) tree.old }
    requires same_process { upper.pid ≡ lower.pid }
    requires there { IsSomeAnd (span_of tree.old number)
        (λ s. (s.from ≡ first_of lower) × (s.to ≡ past_of upper)) }
    requires whole_lower { IsWhole lower }
    requires whole_upper { IsWhole upper }
    requires apart { past_of lower ≤ first_of upper }
    ensures stands { Stays lower.pid (area_of areas.old) (area_of areas.new) tree.new }
    ensures pages { OnOk result ((page : ℕ) → pages_by (area_of areas.new) tree.new page
        ≡ with_area upper (with_area lower
        (pages_by (with_at number None (area_of areas.old)) tree.old)) page) }
    ensures number { IfOk result (λ above. (page : ℕ) → area_at tree.new page
        ≡ (if has_page upper page then Some above else if has_page lower page then Some number
        else unless_area number (area_at tree.old page))) }
    ensures kin { OnOk result (StayKin areas.old anons.old areas.new anons.new) }
{
    let bare = Area {
        anon: None,
        ..upper
    };
    let above = areas.add(bare)?;
    match tree.split(place_of(number, lower), place_of(above, upper)) {
        Ok(()) => {
            put_parts(areas, anons, number, lower, above, upper)?;
            Ok(above)
        }
        Err(error) => {
            areas.remove(above);
            Err(error)
        }
    }
}

/// The span of an area's pages.
fn place_of(number: AreaId, area: Area) -> Span
    ensures { result ≡ span number (first_of area) (past_of area) }
{
    Span {
        from: area.start / PAGE_SIZE,
        to: area.end / PAGE_SIZE,
        area: number,
    }
}
