//! The areas of all processes, by number.

ghost use Rattle.std.specs.Prelude.{◌≡◌, ◌+◌, ◌-◌, ◌<◌, ◌≤◌, ℕ, Some, None, IfOk, OnErr, IsSome};
ghost use Rattle.std.specs.Prelude.{true, false, if◌then◌else◌, MatchBool};
ghost use Rattle.av_vma.specs.Areas.{area_of, is_locked, is_mergeable};
ghost use Rattle.av_base.specs.Words.{with_at};

use crate::area::Area;
use slab::Slab;
use std::alloc::{AllocError, Global};
use std::marker::Model;

/// The number of an area, given out by `Areas::add` and in use until `Areas::remove`.
pub type AreaId = u64;

/// The areas of all processes, a finite map from the numbers in use.
#[derive(Drop)]
pub struct Areas {
    slab: Slab<Area>,
    /// How many of them are locked.
    locked: usize,
    /// How many are mergeable.
    mergeable: usize,
}

impl Model for Areas {
    ghost use Rattle.std.specs.Prelude.{List, Option};
    ghost use Rattle.av_vma.specs.Areas.{AreCounted};
    ghost use Rattle.av_vma.specs.declared.area.Area.{Area};

    ghost Value = { List (Option Area) };

    ghost view = { λ a. a.slab.slots };

    ghost invariant = { λ a. AreCounted a.slab.slots a.locked a.mergeable };
}

impl Areas {
    /// No area at all.
    pub fn new(alloc: Global) -> Areas
        ensures { (number : ℕ) → area_of result number ≡ None }
    {
        Areas {
            slab: Slab::new(alloc),
            locked: 0,
            mergeable: 0,
        }
    }

    /// Puts `area` under a number that is not in use. Without memory all stays.
    #[inline(always)]
    pub fn add(&mut self, area: Area) -> Result<AreaId, AllocError>
        ensures unused { IfOk result (λ id. area_of self.old id ≡ None) }
        ensures added { IfOk result (λ id. (number : ℕ) → area_of self.new number ≡ with_at id
            (Some area) (area_of self.old) number) }
        ensures kept { OnErr result (self.new ≡ self.old) }
    {
        let id = self.slab.insert(area)?;
        let count = self.slab.len();
        self.locked = count_with(self.locked, area.flags.locked, count);
        self.mergeable = count_with(self.mergeable, area.flags.mergeable, count);
        Ok(id as u64)
    }

    /// The area with a number that is in use.
    pub fn get(&self, id: AreaId) -> Area
        requires used { IsSome (area_of self.now id) }
        ensures { area_of self.now id ≡ Some result }
    {
        let area = &self.slab[id as usize];
        *area
    }

    /// Whether any area is locked. It looks at none.
    pub fn any_locked(&self) -> bool
        ensures { MatchBool result
            ((number : ℕ) × (is_locked (area_of self.now number) ≡ true))
            ((number : ℕ) → is_locked (area_of self.now number) ≡ false) }
    {
        self.locked > 0
    }

    /// Whether any area is mergeable. It looks at none.
    pub fn any_mergeable(&self) -> bool
        ensures { MatchBool result
            ((number : ℕ) × (is_mergeable (area_of self.now number) ≡ true))
            ((number : ℕ) → is_mergeable (area_of self.now number) ≡ false) }
    {
        self.mergeable > 0
    }

    /// Puts `area` in place of the one with this number, which is in use.
    pub fn change(&mut self, id: AreaId, area: Area)
        requires used { IsSome (area_of self.old id) }
        ensures { (number : ℕ) → area_of self.new number ≡ with_at id (Some area) (area_of self.old)
            number }
    {
        let place = &mut self.slab[id as usize];
        let locked = count_without(self.locked, place.flags.locked);
        let mergeable = count_without(self.mergeable, place.flags.mergeable);
        *place = area;
        let count = self.slab.len();
        self.locked = count_with(locked, area.flags.locked, count);
        self.mergeable = count_with(mergeable, area.flags.mergeable, count);
    }

    /// Takes out the area with this number, which is in use until now.
    pub fn remove(&mut self, id: AreaId)
        requires used { IsSome (area_of self.old id) }
        ensures { (number : ℕ) → area_of self.new number ≡ with_at id None (area_of self.old)
            number }
    {
        let area = self.slab.remove(id as usize);
        self.locked = count_without(self.locked, area.flags.locked);
        self.mergeable = count_without(self.mergeable, area.flags.mergeable);
    }
}

/// How many of `count` areas have a flag: so many of the others, and this one where it is set.
fn count_with(others: usize, is_set: bool, count: usize) -> usize
    requires { others + (if is_set then 1 else 0) ≤ count }
    ensures { result ≡ others + (if is_set then 1 else 0) }
{
    if is_set { others + 1 } else { others }
}

/// How many of the others have a flag, where so many have it with this area.
fn count_without(all: usize, is_set: bool) -> usize
    requires { (if is_set then 1 else 0) ≤ all }
    ensures { result ≡ all - (if is_set then 1 else 0) }
{
    if is_set { all - 1 } else { all }
}
