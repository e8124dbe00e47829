//! Areas with their chains of anon_vmas: one goes, gets other bounds, or gets another's chain.
//!
//! Where want of memory leaves an anon_vma without the span of an area, `put` and `put_parts`
//! change the areas all the same, so that they and the tree go together; `share` leaves all areas.

ghost use Rattle.std.specs.Prelude.{◌≡◌, ◌≢◌, ℕ, ◌<◌, Some, None, is_some, IsSome, IsSomeAnd};
ghost use Rattle.std.specs.Prelude.{OnErr, OnOk, length, if◌then◌else◌};
ghost use Rattle.std.specs.Option.{option_or};
ghost use Rattle.av_base.specs.Words.{with_at};
ghost use Rattle.av_vma.specs.Areas.{area_of};
ghost use Rattle.av_vma.specs.Pages.{IsWhole};
ghost use Rattle.av_chain.specs.Links.{chain_of};
ghost use Rattle.av_anon.specs.Anons.{give_own, own_of};
ghost use Rattle.av_anon.specs.Resize.{with_bounds};
ghost use Rattle.av_merge.specs.Kin.{AreInOrder, StayKin};

use av_anon::Anons;
use av_base::Steps;
use av_vma::{Area, AreaId, Areas};
use std::alloc::AllocError;
use std::marker::Brand;
use std::sync::ledger::{Blank, Ledger};

/// How long the chain of an area with this own anon_vma is. Where it has none no table is asked.
pub fn chain_len(anons: &Anons, number: AreaId, own: Option<u64>) -> u64
    ensures { result ≡ (if is_some own then length (chain_of anons.now.links number) else 0) }
{
    if own.is_none() {
        return 0;
    }
    anons.links().len(number)
}

/// Takes an area out, which leaves its anon_vmas first.
#[inline(always)]
pub fn take(areas: &mut Areas, anons: &mut Anons, number: AreaId)
    requires order { AreInOrder areas.old anons.old }
    requires used { IsSome (area_of areas.old number) }
    ensures areas { (k : ℕ) → area_of areas.new k ≡ with_at number None (area_of areas.old) k }
    ensures kin { StayKin areas.old anons.old areas.new anons.new }
{
    leave(areas, anons, number, Blank::new(1));
    areas.remove(number);
}

/// An area leaves its anon_vmas, if it has any, its links counted by a ledger of their own.
fn leave(areas: &mut Areas, anons: &mut Anons, number: AreaId, blank: Blank)
    requires order { AreInOrder areas.old anons.old }
    requires used { IsSome (area_of areas.old number) }
    requires some { 0 < blank.parts }
    ensures areas { (k : ℕ) → area_of areas.new k ≡ give_own number None (area_of areas.old) k }
    ensures kin { StayKin areas.old anons.old areas.new anons.new }
{
    leave_by::<Brand>(areas, anons, number, blank);
}

fn leave_by<L: Ledger>(areas: &mut Areas, anons: &mut Anons, number: AreaId, blank: Blank)
    requires order { AreInOrder areas.old anons.old }
    requires used { IsSome (area_of areas.old number) }
    requires name { blank.name ≡ L.name }
    requires parts { blank.parts ≡ L.parts }
    requires some { 0 < blank.parts }
    ensures areas { (k : ℕ) → area_of areas.new k ≡ give_own number None (area_of areas.old) k }
    ensures kin { StayKin areas.old anons.old areas.new anons.new }
{
    if areas.get(number).anon.is_none() {
        return;
    }
    let mut steps = Steps::<L>::open(blank);
    anons.unlink(areas, number, &mut steps);
}

/// Gives an area other bounds and another offset, and its spans with it.
// Inlined: an area that is handed to a call is copied twice.
#[inline(always)]
pub fn put(
    areas: &mut Areas,
    anons: &mut Anons,
    number: AreaId,
    area: Area,
) -> Result<(), AllocError>
    requires order { AreInOrder areas.old anons.old }
    requires whole { IsWhole area }
    requires was { IsSomeAnd (area_of areas.old number)
        (λ old. area ≡ with_bounds area.start area.end area.pgoff old) }
    ensures areas { (k : ℕ) → area_of areas.new k
        ≡ with_at number (Some area) (area_of areas.old) k }
    ensures kin { OnOk result (StayKin areas.old anons.old areas.new anons.new) }
{
    if area.anon.is_none() {
        areas.change(number, area);
        return Ok(());
    }
    let result = anons.resize(areas, number, area.start, area.end, area.pgoff);
    areas.change(number, area);
    result
}

/// Gives an area the chain of another, where it has none. Without memory all areas stay.
pub fn share(
    areas: &mut Areas,
    anons: &mut Anons,
    number: AreaId,
    other: AreaId,
) -> Result<(), AllocError>
    requires order { AreInOrder areas.old anons.old }
    requires used { IsSome (area_of areas.old number) }
    requires other_used { IsSome (area_of areas.old other) }
    ensures areas { let own = option_or (own_of (area_of areas.old number))
        (own_of (area_of areas.old other)) in
        OnOk result ((k : ℕ)
        → area_of areas.new k ≡ give_own number own (area_of areas.old) k) }
    ensures kept { OnErr result (areas.new ≡ areas.old) }
    ensures kin { OnOk result (StayKin areas.old anons.old areas.new anons.new) }
{
    if areas.get(number).anon.is_some() {
        return Ok(());
    }
    anons.clone_chain(areas, other, number)
}

/// Gives the two parts of an area that is split their bounds: the lower one keeps the area's number
/// and chain, and the upper one, which stands as an area without anon_vma, is linked to the whole
/// chain.
pub fn put_parts(
    areas: &mut Areas,
    anons: &mut Anons,
    number: AreaId,
    lower: Area,
    above: AreaId,
    upper: Area,
) -> Result<(), AllocError>
    requires order { AreInOrder areas.old anons.old }
    requires whole { IsWhole lower }
    requires apart { number ≢ above }
    requires was { IsSomeAnd (area_of areas.old number)
        (λ old. lower ≡ with_bounds lower.start lower.end lower.pgoff old) }
    requires there { area_of areas.old above ≡ Some (record upper { anon = None }) }
    requires same_own { upper.anon ≡ lower.anon }
    ensures areas { (k : ℕ) → area_of areas.new k
        ≡ with_at number (Some lower) (with_at above (Some upper) (area_of areas.old)) k }
    ensures kin { OnOk result (StayKin areas.old anons.old areas.new anons.new) }
{
    match link(areas, anons, number, above, upper) {
        Ok(()) => put(areas, anons, number, lower),
        Err(error) => {
            areas.change(number, lower);
            Err(error)
        }
    }
}

/// Links an area, which stands without its anon_vma, to the chain of another with the same own; to
/// none where that has none.
fn link(
    areas: &mut Areas,
    anons: &mut Anons,
    other: AreaId,
    number: AreaId,
    area: Area,
) -> Result<(), AllocError>
    requires order { AreInOrder areas.old anons.old }
    requires other { IsSome (area_of areas.old other) }
    requires there { area_of areas.old number ≡ Some (record area { anon = None }) }
    requires same_own { own_of (area_of areas.old other) ≡ area.anon }
    ensures areas { (k : ℕ) → area_of areas.new k
        ≡ with_at number (Some area) (area_of areas.old) k }
    ensures kin { OnOk result (StayKin areas.old anons.old areas.new anons.new) }
{
    if area.anon.is_none() {
        return Ok(());
    }
    let result = anons.clone_chain(areas, other, number);
    areas.change(number, area);
    result
}
