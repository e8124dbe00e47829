//! Members in a line.

ghost use Rattle.std.specs.Prelude.{◌≡◌, ℕ, ◌<◌, ◌^◌, [], IfNone, IfSome, None, OnErr, OnOk};
ghost use Rattle.std.specs.Prelude.{false, length, true};
ghost use Rattle.std.specs.BTreeMap.{insert_entry, is_at};
ghost use Rattle.std.specs.List.Sorted.{IsStrictlySortedBy};
ghost use Rattle.std.specs.Map.{keys_of, remove_entry, set_value, values_of};
ghost use Rattle.std.specs.Map.Iter.{ShowsInOrder, ShowsInReverse, deref};
ghost use Rattle.std.specs.Ordering.{nat_cmp};
ghost use Rattle.av_audit_queue.specs.Line.{has_at, member_at};

use crate::member::Member;
use crate::places::Places;
use std::alloc::{AllocError, Global};
use std::collections::BTreeMap;
use std::collections::btree_map::Values;
use std::marker::Model;

/// Members, each at a rank of its own, which are found by their names as well.
#[derive(Drop)]
pub(crate) struct Line<T: Member> {
    members: BTreeMap<u64, T>,
    places: Places,
}

impl<T: Member> Model for Line<T> {
    ghost use Rattle.std.specs.Prelude.{ℕ, List};
    ghost use Rattle.av_audit_queue.specs.Line.{IsLine};

    ghost Value = { List (ℕ × T) };

    ghost view = { λ a. a.members.entries };

    ghost invariant = { λ a. IsLine T.name a.members.entries a.places };
}

impl<T: Member> Line<T> {
    /// No member.
    pub(crate) fn new(alloc: Global) -> Line<T>
        ensures { result ≡ [] }
    {
        Line {
            members: BTreeMap::new(alloc),
            places: Places::new(alloc),
        }
    }

    /// How many members there are.
    pub(crate) fn len(&self) -> usize
        ensures { result ≡ length self.now }
    {
        self.members.len()
    }

    /// The members in the order of their ranks.
    pub(crate) fn members(&self) -> Values<'_, u64, T>
        ensures rest { result ≡ values_of self.now }
        ensures runs { ShowsInOrder (deref {X = T}) }
        ensures runs_back { ShowsInReverse (deref {X = T}) }
        ensures fits { length self.now < 2 ^ 63 }
    {
        self.members.values()
    }

    /// The least rank of a member.
    pub(crate) fn first(&self) -> Option<u64>
        ensures some { IfSome result (λ rank. (r : ℕ) → r < rank → member_at self.now r ≡ None) }
        ensures none { IfNone result (self.now ≡ []) }
    {
        let (rank, _) = self.members.first_key_value()?;
        Some(*rank)
    }

    /// The greatest.
    pub(crate) fn last(&self) -> Option<u64>
        ensures some { IfSome result (λ rank. (r : ℕ) → rank < r → member_at self.now r ≡ None) }
        ensures none { IfNone result (self.now ≡ []) }
    {
        let (rank, _) = self.members.last_key_value()?;
        Some(*rank)
    }

    /// The least rank of a member with this name.
    pub(crate) fn find(&self, name: (u8, u32)) -> Option<u64>
        ensures some { IfSome result (λ rank. has_at T.name self.now name rank ≡ true) }
        ensures least { IfSome result
            (λ rank. (r : ℕ) → r < rank → has_at T.name self.now name r ≡ false) }
        ensures none { IfNone result ((r : ℕ) → has_at T.name self.now name r ≡ false) }
        ensures rising { IsStrictlySortedBy nat_cmp (keys_of self.now) }
    {
        // Often none is there at all: no frame is merged, say.
        if self.members.is_empty() {
            return None;
        }
        self.places.first(name)
    }

    /// A member comes to a rank at which there is none. Without memory all stays.
    pub(crate) fn add(&mut self, rank: u64, member: T) -> Result<(), AllocError>
        requires free { member_at self.old rank ≡ None }
        ensures ok { OnOk result (self.new ≡ insert_entry nat_cmp self.old rank member) }
        ensures err { OnErr result (self.new ≡ self.old) }
    {
        let name = member.name();
        self.places.add(name, rank)?;
        match self.members.insert(rank, member) {
            Ok(_) => Ok(()),
            Err(_) => {
                self.places.take(name, rank);
                Err(AllocError)
            }
        }
    }

    /// The member with this name at this rank leaves.
    pub(crate) fn take(&mut self, name: (u8, u32), rank: u64)
        requires there { has_at T.name self.old name rank ≡ true }
        ensures { self.new ≡ remove_entry (is_at (nat_cmp rank)) self.old }
    {
        self.places.take(name, rank);
        self.members.remove(&rank);
    }

    /// The member with this name at this rank gives its place to one with another. Without memory
    /// all stays.
    pub(crate) fn set(&mut self, name: (u8, u32), rank: u64, member: T) -> Result<(), AllocError>
        requires there { has_at T.name self.old name rank ≡ true }
        requires other { T.name member ≡ name → ⊥ }
        ensures ok { OnOk result (self.new
            ≡ set_value (is_at (nat_cmp rank)) self.old member) }
        ensures err { OnErr result (self.new ≡ self.old) }
    {
        self.places.add(member.name(), rank)?;
        self.places.take(name, rank);
        // The rank is in use, so that no memory is asked for.
        self.members.insert(rank, member)?;
        Ok(())
    }
}
