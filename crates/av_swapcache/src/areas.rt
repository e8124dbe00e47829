//! The swap areas by number.

ghost use Rattle.std.specs.Borrow.{LendsSo, sem};
ghost use Rattle.std.specs.Prelude.{◌≡◌, ◌≤◌, ◌^◌, length, IfOk, IfSome, None, OnSome, Some};
ghost use Rattle.std.specs.Prelude.{option_map, replicate, slice_index_or, slice_set};
ghost use Rattle.av_swapcache.specs.Area.{free_in};
ghost use Rattle.av_swapcache.specs.Swap.{AreKept, IsKeptOn, IsSlotIn, area_at, frame_in};
ghost use Rattle.av_swapcache.specs.Swap.{number_on, sum_on};
ghost use Rattle.av_swapdev.specs.Device.{most_areas};
ghost use Rattle.av_swapcache.specs.contracts.area.Area.{the_row as area_row};
ghost use Rattle.av_swapcache.specs.contracts.areas.Areas.{the_row};

use crate::area::Area;
use av_base::Slot;
use std::alloc::{AllocError, Global};

/// The areas that are on, each in the place of its number.
#[derive(Drop)]
pub(crate) struct Areas {
    pub(crate) areas: Vec<Option<Area>>,
}

impl Areas {
    /// This many places, and no area.
    pub(crate) fn new(alloc: Global, count: u8) -> Result<Areas, AllocError>
        ensures { IfOk result (λ a. a.areas.items ≡ replicate count None) }
    {
        let mut areas = Vec::new(alloc);
        for area in 0..count {
            areas.push(None)?;
        }
        Ok(Areas { areas })
    }

    /// The area of this number, if it is on.
    pub(crate) fn of(&self, area: u8) -> Option<&Area>
        ensures { option_map (λ a. a.now) result ≡ slice_index_or self.now.areas.items area None }
    {
        self.areas.get(area as usize)?.as_ref()
    }

    /// The frame that caches a slot, which is then a slot of its area.
    pub(crate) fn find(&self, slot: Slot) -> Option<u32>
        ensures frame { result ≡ frame_in self.now.areas.items slot }
        ensures slot { IfSome result (λ _. IsSlotIn (area_at self.now.areas.items slot.area)
            slot.page) }
    {
        self.of(slot.area)?.find(slot.page)
    }

    /// What holds of the slots of each area at any time.
    pub(crate) fn keep(&self)
        ensures { AreKept self.now.areas.items (length self.now.areas.items) }
    {
        for area in &self.areas {
            keep(area);
        }
    }

    /// How many slots of all areas are free.
    pub(crate) fn free(&self) -> u64
        requires { length self.now.areas.items ≤ most_areas }
        ensures sum { result ≡ sum_on (λ a. free_in a.slots) self.now.areas.items }
        ensures fits { result ≤ 2 ^ 35 }
    {
        let mut free = 0;
        for area in &self.areas {
            free += u64::from(free_of(area));
        }
        free
    }

    /// How many slots all areas have.
    pub(crate) fn slots(&self) -> u64
        requires { length self.now.areas.items ≤ most_areas }
        ensures sum { result ≡ sum_on (λ a. a.header.slots) self.now.areas.items }
        ensures fits { result ≤ 2 ^ 35 }
    {
        let mut slots = 0;
        for area in &self.areas {
            slots += u64::from(slots_of(area));
        }
        slots
    }

    /// The area of this number, to change it.
    pub(crate) fn of_mut(&mut self, area: u8) -> Option<&mut Area>
        // The area that is lent comes back in its place, and no other changes.
        ensures* writes_back { sem 𝓛 (LendsSo the_row area_row self.entry result
            (λ n w. OnSome result (n.areas.items ≡ slice_set self.old.areas.items area (Some w)))
            (λ n. n.areas.items ≡ self.old.areas.items)) }
        ensures value { option_map (λ a. a.now) result
            ≡ slice_index_or self.old.areas.items area None }
    {
        self.areas.get_mut(area as usize)?.as_mut()
    }
}

/// What holds of the slots of an area, if it is on.
fn keep(area: &Option<Area>)
    ensures { IsKeptOn area.now }
{
    if let Some(area) = area {
        area.keeps();
    }
}

/// How many slots of an area are free, if it is on.
fn free_of(area: &Option<Area>) -> u32
    ensures { result ≡ number_on (λ a. free_in a.slots) area.now }
{
    match area {
        Some(area) => area.free(),
        None => 0,
    }
}

/// How many slots an area has, if it is on.
fn slots_of(area: &Option<Area>) -> u32
    ensures { result ≡ number_on (λ a. a.header.slots) area.now }
{
    match area {
        Some(area) => area.header().slots,
        None => 0,
    }
}
