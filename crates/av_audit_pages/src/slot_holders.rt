//! What holds each slot.

ghost use Rattle.std.specs.Prelude.{◌≡◌, ◌+◌, ◌-◌, ◌<◌, ◌^◌, ◌&&◌, false, IfOk, None, OnErr, OnOk};
ghost use Rattle.std.specs.Prelude.{Some, length, if◌then◌else◌, slice_get};
ghost use Rattle.std.specs.Map.{keys_of};
ghost use Rattle.av_base.specs.Keys.{Key, same_key};
ghost use Rattle.av_base.specs.declared.slot.Slot.{Slot as SlotOf};
ghost use Rattle.av_audit_index.specs.Holders.{KeysRise, used_within};
ghost use Rattle.av_plain.specs.Ledger.{same_slot};
ghost use Rattle.av_audit_pages.specs.SlotHolders.{area_at, one, slot_keys_at, slot_pairs_at};
ghost use Rattle.av_audit_pages.specs.SlotHolders.{slot_seen_at};

use av_audit_index::Holders;
use av_base::Slot;
use std::alloc::{AllocError, Global};
use std::collections::BTreeMap;

/// What holds each slot: its page's holders, by area. No key of a slot is seen.
#[derive(Drop)]
pub(crate) struct SlotHolders {
    alloc: Global,
    areas: BTreeMap<u8, Holders>,
}

impl SlotHolders {
    /// Nothing holds a slot.
    pub(crate) fn new(alloc: Global) -> SlotHolders
        ensures keys { (s : SlotOf) (k : Key) → slot_seen_at result s k ≡ None }
        ensures pairs { (s : SlotOf) → slot_pairs_at result s ≡ 0 }
    {
        SlotHolders {
            alloc,
            areas: BTreeMap::new(alloc),
        }
    }

    /// The key names the slot now. Without memory all stays.
    pub(crate) fn add(&mut self, slot: Slot, key: (u16, u64)) -> Result<(), AllocError>
        ensures ok { OnOk result ((s : SlotOf) (k : Key) → slot_seen_at self.new s k
            ≡ if same_slot s slot && same_key key k then Some false
            else slot_seen_at self.old s k) }
        ensures pairs { (s : SlotOf) → slot_pairs_at self.new s ≡ slot_pairs_at self.old s }
        ensures err { OnErr result ((s : SlotOf) (k : Key)
            → slot_seen_at self.new s k ≡ slot_seen_at self.old s k) }
    {
        if let Some(holders) = self.areas.get_mut(&slot.area) {
            return holders.add(slot.page, key, false);
        }
        let mut holders = Holders::new(self.alloc);
        holders.add(slot.page, key, false)?;
        self.areas.insert(slot.area, holders)?;
        Ok(())
    }

    /// The key names the slot no longer, if it did.
    pub(crate) fn take(&mut self, slot: Slot, key: (u16, u64))
        ensures keys { (s : SlotOf) (k : Key) → slot_seen_at self.new s k
            ≡ if same_slot s slot && same_key key k then None else slot_seen_at self.old s k }
        ensures pairs { (s : SlotOf) → slot_pairs_at self.new s ≡ slot_pairs_at self.old s }
    {
        if let Some(holders) = self.areas.get_mut(&slot.area) {
            holders.take(slot.page, key);
        }
    }

    /// One cached pair more has the slot. Without memory all stays.
    pub(crate) fn hold(&mut self, slot: Slot) -> Result<(), AllocError>
        requires room { slot_pairs_at self.old slot < 2 ^ 64 - 1 }
        ensures ok { OnOk result ((s : SlotOf) → slot_pairs_at self.new s
            ≡ slot_pairs_at self.old s + one (same_slot s slot)) }
        ensures keys { (s : SlotOf) (k : Key)
            → slot_seen_at self.new s k ≡ slot_seen_at self.old s k }
        ensures err { OnErr result ((s : SlotOf)
            → slot_pairs_at self.new s ≡ slot_pairs_at self.old s) }
    {
        if let Some(holders) = self.areas.get_mut(&slot.area) {
            return holders.hold(slot.page);
        }
        let mut holders = Holders::new(self.alloc);
        holders.hold(slot.page)?;
        self.areas.insert(slot.area, holders)?;
        Ok(())
    }

    /// One cached pair less has the slot; none stays none.
    pub(crate) fn drop_pair(&mut self, slot: Slot)
        ensures pairs { (s : SlotOf) → slot_pairs_at self.new s
            ≡ slot_pairs_at self.old s - one (same_slot s slot) }
        ensures keys { (s : SlotOf) (k : Key)
            → slot_seen_at self.new s k ≡ slot_seen_at self.old s k }
    {
        if let Some(holders) = self.areas.get_mut(&slot.area) {
            holders.drop_pair(slot.page);
        }
    }

    /// How many keys name the slot.
    pub(crate) fn names(&self, slot: Slot) -> u64
        ensures names { result ≡ length (slot_keys_at self.now slot) }
        ensures rising { KeysRise (area_at self.now slot.area) }
        ensures fits { result < 2 ^ 63 }
    {
        match self.areas.get(&slot.area) {
            None => 0,
            Some(holders) => holders.names(slot.page),
        }
    }

    /// How many cached pairs have the slot.
    pub(crate) fn pairs(&self, slot: Slot) -> u64
        ensures { result ≡ slot_pairs_at self.now slot }
    {
        match self.areas.get(&slot.area) {
            None => 0,
            Some(holders) => holders.pairs(slot.page),
        }
    }

    /// The keys that name the slot, rising.
    pub(crate) fn keys(&self, alloc: Global, slot: Slot) -> Result<Vec<(u16, u64)>, AllocError>
        ensures keys { IfOk result (λ keys. keys.items ≡ keys_of (slot_keys_at self.now slot)) }
        ensures rising { KeysRise (area_at self.now slot.area) }
    {
        match self.areas.get(&slot.area) {
            None => Ok(Vec::new(alloc)),
            Some(holders) => holders.keys(alloc, slot.page),
        }
    }

    /// How many slots of an area are used, from page `from` on and below `end`.
    pub(crate) fn len_within(&self, area: u8, from: u32, end: u32) -> u32
        ensures len { result ≡ length (used_within (area_at self.now area) from end) }
        ensures rising { KeysRise (area_at self.now area) }
    {
        match self.areas.get(&area) {
            None => 0,
            Some(holders) => holders.len_within(from, end),
        }
    }

    /// The least page of a slot of an area that is used, from page `from` on and below `end`.
    pub(crate) fn least(&self, area: u8, from: u32, end: u32) -> Option<u32>
        ensures least { result ≡ slice_get (used_within (area_at self.now area) from end) 0 }
        ensures rising { KeysRise (area_at self.now area) }
    {
        match self.areas.get(&area) {
            None => None,
            Some(holders) => holders.least(from, end),
        }
    }
}
