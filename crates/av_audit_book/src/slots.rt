//! Slots of swap areas that are on, and frames that are free.

ghost use Rattle.std.specs.Prelude.{◌≡◌, length};
ghost use Rattle.av_plain.specs.Ledger.{free_slots, has_free, has_free_slot, is_free_slot};
ghost use Rattle.av_plain.specs.Ledger.{is_on, may_give, no_slot, slot_count};
ghost use Rattle.av_plain.specs.Ledger.{is_open as is_open_by, slots_in_use};
ghost use Rattle.av_base.specs.Words.{how_many};
ghost use Rattle.av_audit_book.specs.Filters.{IsFirst, gives};
ghost use Rattle.av_audit_book.specs.Book.{area_of, ledger_of};
ghost use Rattle.av_audit_book.specs.Machine.{setting_of};

use crate::book::{Area, Book};
use crate::machine::Machine;
use av_base::Slot;

impl Book {
    /// Whether a frame is free.
    pub fn has_free(&self, machine: &Machine) -> bool
        ensures { result ≡ has_free (setting_of machine.now) (ledger_of self.now) }
    {
        self.count_free(machine) > 0
    }

    /// The entries that name a slot, and one more where it is cached.
    pub fn count(&self, slot: Slot) -> u64
        ensures { result ≡ slot_count (ledger_of self.now) slot }
    {
        self.names(slot) + u64::from(self.is_cached(slot))
    }

    /// How many slots of an area are in use.
    pub fn in_use(&self, machine: &Machine, area: u8) -> u32
        ensures { result
            ≡ length (slots_in_use (setting_of machine.now) (ledger_of self.now) area) }
    {
        self.pages.slots_used(area, machine.size(area))
    }

    /// The least slot of an area in use, if one is.
    pub fn least_in_use(&self, machine: &Machine, area: u8) -> Option<Slot>
        ensures { IsFirst area (slots_in_use (setting_of machine.now) (ledger_of self.now) area)
            result }
    {
        let page = self.pages.least_used(area, machine.size(area))?;
        Some(Slot { area, page })
    }

    /// How many slots of an area that is on are free.
    pub fn free_slots(&self, machine: &Machine, number: u8, area: Area) -> u32
        ensures { result ≡ free_slots (setting_of machine.now) (ledger_of self.now)
            (number, area_of area) }
    {
        area.slots.saturating_sub(self.in_use(machine, number))
    }

    /// Whether an area is on.
    pub fn is_on(&self, area: u8) -> bool
        ensures { result ≡ is_on (ledger_of self.now) area }
    {
        self.on.contains_key(&area)
    }

    /// Whether an area is on and has a free slot.
    pub fn has_free_slot(&self, machine: &Machine, area: u8) -> bool
        ensures { result ≡ has_free_slot (setting_of machine.now) (ledger_of self.now) area }
    {
        match self.on.get(&area) {
            None => false,
            Some(on) => self.free_slots(machine, area, *on) > 0,
        }
    }

    /// Whether nothing names the slot, and its area is on.
    pub fn is_free_slot(&self, machine: &Machine, slot: Slot) -> bool
        ensures { result ≡ is_free_slot (setting_of machine.now) (ledger_of self.now) slot }
    {
        self.is_on(slot.area)
            && 0 < slot.page
            && slot.page < machine.size(slot.area)
            && self.count(slot) == 0
            && machine.usable(slot)
    }

    /// Whether the slot may be given.
    pub fn may_give(&self, machine: &Machine, closing: Option<u8>, slot: Slot) -> bool
        ensures { result ≡ may_give (setting_of machine.now) closing (ledger_of self.now) slot }
    {
        self.is_free_slot(machine, slot)
            && is_open(closing, slot.area)
            && self.has_free_slot(machine, slot.area)
    }

    /// How many swap areas have a slot that may be given.
    fn giving(&self, machine: &Machine, closing: Option<u8>) -> u64
        ensures { result ≡ how_many (gives (setting_of machine.now) closing (ledger_of self.now))
            (ledger_of self.now).on }
    {
        let mut n = 0u64;
        for (number, area) in self.on.iter() {
            if is_open(closing, *number) && self.free_slots(machine, *number, *area) > 0 {
                n += 1;
            }
        }
        n
    }

    /// Whether no slot may be given.
    pub fn no_slot(&self, machine: &Machine, closing: Option<u8>) -> bool
        ensures { result ≡ no_slot (setting_of machine.now) closing (ledger_of self.now) }
    {
        self.giving(machine, closing) == 0
    }
}

/// Whether an area is another than the one that is closing.
fn is_open(closing: Option<u8>, area: u8) -> bool
    ensures { result ≡ is_open_by closing area }
{
    match closing {
        None => true,
        Some(closing) => closing != area,
    }
}
