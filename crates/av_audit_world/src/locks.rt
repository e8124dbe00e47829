//! Which pages are locked.

ghost use Rattle.std.specs.Prelude.{◌≡◌, ◌+◌, ◌<◌, ◌≤◌, ◌^◌, ℕ, IfSome, OnOk, true};
ghost use Rattle.std.specs.BTreeSet.{Updates, contains};
ghost use Rattle.std.specs.Ordering.{nat_cmp};
ghost use Rattle.av_plain.specs.World.{Process, World, is_locked_page, pages, pages_to_locked};
ghost use Rattle.av_base.specs.Keys.{Key};
ghost use Rattle.av_audit_ranges.specs.Marks.{is_locked};
ghost use Rattle.av_audit_ranges.specs.Ranges.{marks_at};
ghost use Rattle.av_audit_world.specs.Locks.{IsFirstRun, locks_page};
ghost use Rattle.av_audit_world.specs.Memories.{IsWorld};
ghost use Rattle.av_audit_world.specs.Space.{IsSpace};

use crate::kinds::Kind;
use crate::memories::Memories;
use crate::space::Space;
use std::alloc::AllocError;
use std::collections::BTreeSet;

impl Space {
    /// How many of n pages from one on come before the first that is locked.
    pub fn before_locked(&self, from: u64, n: u64) -> u64
        requires { from + n < 2 ^ 64 }
        ensures most { result ≤ n }
        ensures pages { (q : Process) → IsSpace self.now q → result ≡ pages_to_locked q from n }
    {
        self.before(Kind::Locked, from, n)
    }

    /// The first pages from one on that are locked: the first of them, and the end up to which each
    /// is. None where no page from this one on is.
    pub fn next_locked(&self, from: u64) -> Option<(u64, u64)>
        ensures order { IfSome result (λ run. (from ≤ run.0) × (run.0 < run.1)) }
        ensures kept { IsFirstRun (λ page. is_locked (marks_at self.now.ranges page)) from result }
        ensures pages { (q : Process) → IsSpace self.now q
            → IsFirstRun (λ page. is_locked_page (q page)) from result }
    {
        let mut at = from;
        while !Kind::Locked.has(self.marks(at)) {
            at = self.ranges.bound_above(at)?;
        }
        let end = self.ranges.bound_above(at)?;
        Some((at, end))
    }
}

/// Notes whether a process has a locked page. Without memory nothing is noted.
pub fn note(locking: &mut BTreeSet<u16>, number: u16, locks: bool) -> Result<(), AllocError>
    ensures { OnOk result (Updates nat_cmp locking.old locking.new number locks) }
{
    if locks {
        locking.insert(number)?;
    } else {
        locking.remove(&number);
    }
    Ok(())
}

impl Memories {
    /// The processes that may have a locked page: no other has one.
    pub fn locking(&self) -> &BTreeSet<u16>
        ensures kept { (k : Key) → locks_page self.now k ≡ true
            → contains nat_cmp result.now k.0 ≡ true }
        ensures pages { (w : World) → IsWorld self.now w → (p page : ℕ)
            → is_locked_page (pages w p page) ≡ true → contains nat_cmp result.now p ≡ true }
    {
        &self.locking
    }

    /// The first pages of a process from one on that are locked, as `Space::next_locked` has them.
    pub fn next_locked(&self, number: u16, from: u64) -> Option<(u64, u64)>
        ensures order { IfSome result (λ run. (from ≤ run.0) × (run.0 < run.1)) }
        ensures kept { IsFirstRun (λ page. locks_page self.now (number, page)) from result }
        ensures pages { (w : World) → IsWorld self.now w
            → IsFirstRun (λ page. is_locked_page (pages w number page)) from result }
    {
        if !self.locking.contains(&number) {
            return None;
        }
        match self.spaces.get(&number) {
            None => None,
            Some(space) => space.next_locked(from),
        }
    }
}
