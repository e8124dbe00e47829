//! A list by its ends and its members.

ghost use Rattle.std.specs.Prelude.{◌≡◌, ◌^◌, ◌<◌, [], ◌∷◌, ◌++◌, OnErr, OnOk, length};
ghost use Rattle.std.specs.Map.Iter.{ShowsInOrder, ShowsInReverse, deref};
ghost use Rattle.av_audit_queue.specs.Queue.{is_member, others, with_place};

use crate::line::Line;
use crate::member::Member;
use std::alloc::{AllocError, Global};
use std::collections::btree_map::Values;
use std::marker::Model;

/// The rank of the first member: half of all ranks are left at each end.
const MIDDLE: u64 = 1 << 63;

/// Members in their order, from the front to the back. One may stand there more than once.
#[derive(Drop)]
pub struct Queue<T: Member> {
    line: Line<T>,
}

impl<T: Member> Model for Queue<T> {
    ghost use Rattle.std.specs.Prelude.{List};
    ghost use Rattle.std.specs.Map.{values_of};

    ghost Value = { List T };

    ghost view = { λ a. values_of a.line };
}

impl<T: Member> Queue<T> {
    /// No member.
    pub fn new(alloc: Global) -> Queue<T>
        ensures { result ≡ [] }
    {
        Queue {
            line: Line::new(alloc),
        }
    }

    /// How many members there are.
    pub fn len(&self) -> usize
        ensures { result ≡ length self.now }
    {
        self.line.len()
    }

    /// The members, from the front to the back, or in reverse.
    pub fn iter(&self) -> Values<'_, u64, T>
        ensures rest { result ≡ self.now }
        ensures runs { ShowsInOrder (deref {X = T}) }
        ensures runs_back { ShowsInReverse (deref {X = T}) }
        ensures fits { length self.now < 2 ^ 63 }
    {
        self.line.members()
    }

    /// Whether it has a member.
    pub fn contains(&self, member: T) -> bool
        ensures { result ≡ is_member T.name member self.now }
    {
        self.line.find(member.name()).is_some()
    }

    /// A member comes to the front. Without memory all stays, and where no rank is left there, too.
    pub fn push_front(&mut self, member: T) -> Result<(), AllocError>
        ensures ok { OnOk result (self.new ≡ member ∷ self.old) }
        ensures err { OnErr result (self.new ≡ self.old) }
    {
        let Some(first) = self.line.first() else {
            return self.line.add(MIDDLE, member);
        };
        if first == 0 {
            return Err(AllocError);
        }
        self.line.add(first - 1, member)
    }

    /// A member comes to the back. Without memory all stays, and where no rank is left there, too.
    pub fn push_back(&mut self, member: T) -> Result<(), AllocError>
        ensures ok { OnOk result (self.new ≡ self.old ++ member ∷ []) }
        ensures err { OnErr result (self.new ≡ self.old) }
    {
        let Some(last) = self.line.last() else {
            return self.line.add(MIDDLE, member);
        };
        if last == u64::MAX {
            return Err(AllocError);
        }
        self.line.add(last + 1, member)
    }

    /// All that are the same as this one leave.
    pub fn remove(&mut self, member: T)
        ensures { self.new ≡ others T.name member self.old }
    {
        let name = member.name();
        while let Some(rank) = self.line.find(name) {
            self.line.take(name, rank);
        }
    }

    /// All that are the same as one give their places to another. Without memory some may have
    /// done so.
    pub fn replace(&mut self, from: T, to: T) -> Result<(), AllocError>
        ensures ok { OnOk result (self.new ≡ with_place T.name from to self.old) }
        ensures err { OnErr result (with_place T.name from to self.new
            ≡ with_place T.name from to self.old) }
    {
        let name = from.name();
        if name == to.name() {
            return Ok(());
        }
        while let Some(rank) = self.line.find(name) {
            self.line.set(name, rank, to)?;
        }
        Ok(())
    }
}
