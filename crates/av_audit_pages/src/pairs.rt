//! Cached pairs, the newest first, which are found by their slots and by their frames.

ghost use Rattle.std.specs.Prelude.{◌≡◌, ℕ, ◌+◌, ◌<◌, ◌^◌, ◌==◌, ◌&&◌, [], ◌∷◌};
ghost use Rattle.std.specs.Prelude.{IfNone, IfSome, None, OnErr, OnOk, Some, length, map};
ghost use Rattle.std.specs.Prelude.{option_and_then, option_map};
ghost use Rattle.std.specs.BTreeMap.{insert_entry, is_at};
ghost use Rattle.std.specs.List.{list_any};
ghost use Rattle.std.specs.List.Sorted.{IsStrictlySortedBy};
ghost use Rattle.std.specs.Map.{keys_of, remove_entry, set_value, values_of};
ghost use Rattle.std.specs.Ordering.{nat_cmp};
ghost use Rattle.av_plain.specs.Ledger.{same_slot};
ghost use Rattle.av_audit_queue.specs.Line.{member_at};
ghost use Rattle.av_audit_pages.specs.Entries.{changed_pair};
ghost use Rattle.av_audit_pages.specs.Pairs.{IsFirstFrom};
ghost use Rattle.av_audit_pages.specs.declared.changes.PairChange.TheVariants.{Stale};

use crate::entries::Cached;
use av_audit_queue::{Member, Places};
use av_base::Slot;
use std::alloc::{AllocError, Global};
use std::collections::BTreeMap;
use std::collections::btree_map::Values;
use std::marker::Model;

/// The rank of the first pair that comes. Each that comes later stands one before the others.
const LAST: u64 = u64::MAX;

/// Pairs by rank, which rises from the newest on. Two may have the same slot or frame.
#[derive(Drop)]
pub(crate) struct Pairs {
    pairs: BTreeMap<u64, Cached>,
    slots: Places,
    frames: Places,
}

impl Model for Pairs {
    ghost use Rattle.std.specs.Prelude.{ℕ, List};
    ghost use Rattle.av_audit_pages.specs.Pairs.{ArePlaced};
    ghost use Rattle.av_audit_pages.specs.declared.entries.Cached.{Cached as CachedPair};

    ghost Value = { List (ℕ × CachedPair) };

    ghost view = { λ a. a.pairs.entries };

    ghost invariant = { λ a. ArePlaced a.pairs.entries a.slots a.frames };
}

impl Pairs {
    /// No pair.
    pub(crate) fn new(alloc: Global) -> Pairs
        ensures { result ≡ [] }
    {
        Pairs {
            pairs: BTreeMap::new(alloc),
            slots: Places::new(alloc),
            frames: Places::new(alloc),
        }
    }

    /// How many there are.
    pub(crate) fn len(&self) -> usize
        ensures len { result ≡ length self.now }
        ensures fits { length self.now < 2 ^ 63 }
    {
        self.pairs.len()
    }

    /// The pairs, the newest first.
    pub(crate) fn iter(&self) -> Values<'_, u64, Cached>
        ensures { result ≡ values_of self.now }
    {
        self.pairs.values()
    }

    /// The pair at a rank, if one is there.
    fn at(&self, rank: Option<u64>) -> Option<(u64, Cached)>
        ensures { result
            ≡ option_and_then (λ r. option_map (λ c. (r, c)) (member_at self.now r)) rank }
    {
        let rank = rank?;
        let pair = self.pairs.get(&rank)?;
        Some((rank, *pair))
    }

    /// The first pair of a slot, with its rank.
    pub(crate) fn first_of(&self, slot: Slot) -> Option<(u64, Cached)>
        ensures first { IsFirstFrom (λ c. same_slot slot c.slot) self.now 0 result }
        ensures rising { IsStrictlySortedBy nat_cmp (keys_of self.now) }
    {
        self.at(self.slots.first(slot.name()))
    }

    /// The first pair of a slot behind a rank.
    fn next_of(&self, slot: Slot, rank: u64) -> Option<(u64, Cached)>
        ensures next { IsFirstFrom (λ c. same_slot slot c.slot) self.now (rank + 1) result }
        ensures rising { IsStrictlySortedBy nat_cmp (keys_of self.now) }
    {
        self.at(self.slots.next(slot.name(), rank))
    }

    /// The first pair at a frame, with its rank.
    pub(crate) fn first_at(&self, frame: u32) -> Option<(u64, Cached)>
        ensures first { IsFirstFrom (λ c. frame == c.frame) self.now 0 result }
        ensures rising { IsStrictlySortedBy nat_cmp (keys_of self.now) }
    {
        self.at(self.frames.first(frame.name()))
    }

    /// Whether a pair of the slot is stale.
    pub(crate) fn is_stale(&self, slot: Slot) -> bool
        ensures { result
            ≡ list_any (λ c. same_slot slot c.slot && c.stale) (values_of self.now) }
    {
        let mut first = self.first_of(slot);
        while let Some((rank, pair)) = first {
            if pair.stale {
                return true;
            }
            first = self.next_of(slot, rank);
        }
        false
    }

    /// The least rank of a pair.
    fn least(&self) -> Option<u64>
        ensures some { IfSome result (λ rank. (r : ℕ) → r < rank → member_at self.now r ≡ None) }
        ensures none { IfNone result (self.now ≡ []) }
    {
        let (rank, _) = self.pairs.first_key_value()?;
        Some(*rank)
    }

    /// A pair comes to a rank at which there is none. Without memory all stays.
    fn add(&mut self, rank: u64, pair: Cached) -> Result<(), AllocError>
        requires { member_at self.old rank ≡ None }
        ensures ok { OnOk result (self.new ≡ insert_entry nat_cmp self.old rank pair) }
        ensures err { OnErr result (self.new ≡ self.old) }
    {
        let slot = pair.slot.name();
        let frame = pair.frame.name();
        self.slots.add(slot, rank)?;
        match self.frames.add(frame, rank) {
            Ok(()) => {}
            Err(error) => {
                self.slots.take(slot, rank);
                return Err(error);
            }
        }
        match self.pairs.insert(rank, pair) {
            Ok(_) => Ok(()),
            Err(_) => {
                self.slots.take(slot, rank);
                self.frames.take(frame, rank);
                Err(AllocError)
            }
        }
    }

    /// A pair comes before the others. Without memory all stays, and where no rank is left, too.
    pub(crate) fn push_front(&mut self, pair: Cached) -> Result<(), AllocError>
        ensures ok { OnOk result (values_of self.new ≡ pair ∷ values_of self.old) }
        ensures err { OnErr result (self.new ≡ self.old) }
    {
        let Some(least) = self.least() else {
            return self.add(LAST, pair);
        };
        if least == 0 {
            return Err(AllocError);
        }
        self.add(least - 1, pair)
    }

    /// The pair at a rank goes.
    pub(crate) fn take(&mut self, rank: u64, pair: Cached)
        requires { member_at self.old rank ≡ Some pair }
        ensures { self.new ≡ remove_entry (is_at (nat_cmp rank)) self.old }
    {
        self.slots.take(pair.slot.name(), rank);
        self.frames.take(pair.frame.name(), rank);
        self.pairs.remove(&rank);
    }

    /// The pair at a rank is at another frame. Without memory all stays.
    pub(crate) fn set_frame(&mut self, rank: u64, pair: Cached, to: u32) -> Result<(), AllocError>
        requires there { member_at self.old rank ≡ Some pair }
        requires other { pair.frame ≡ to → ⊥ }
        ensures ok { OnOk result (self.new
            ≡ set_value (is_at (nat_cmp rank)) self.old (record pair { frame = to })) }
        ensures err { OnErr result (self.new ≡ self.old) }
    {
        self.frames.add(to.name(), rank)?;
        self.frames.take(pair.frame.name(), rank);
        let Some(place) = self.pairs.get_mut(&rank) else {
            return Ok(());
        };
        *place = Cached {
            slot: pair.slot,
            frame: to,
            stale: pair.stale,
        };
        Ok(())
    }

    /// The pair at a rank is stale, or is not.
    fn set_stale_at(&mut self, rank: u64, pair: Cached, stale: bool)
        requires { member_at self.old rank ≡ Some pair }
        ensures { self.new
            ≡ set_value (is_at (nat_cmp rank)) self.old (record pair { stale = stale }) }
    {
        let Some(place) = self.pairs.get_mut(&rank) else {
            return;
        };
        *place = Cached {
            slot: pair.slot,
            frame: pair.frame,
            stale,
        };
    }

    /// The pairs of a slot are stale, or are not.
    pub(crate) fn set_stale(&mut self, slot: Slot, stale: bool)
        ensures { values_of self.new ≡ map (changed_pair (Stale slot stale)) (values_of self.old) }
    {
        let mut first = self.first_of(slot);
        while let Some((rank, pair)) = first {
            self.set_stale_at(rank, pair, stale);
            first = self.next_of(slot, rank);
        }
    }
}
