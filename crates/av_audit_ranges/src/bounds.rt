//! Where something else is said than of the page below.

ghost use Rattle.std.specs.Prelude.{◌≡◌, ◌≢◌, ℕ, ◌+◌, ◌<◌, ◌≤◌, ◌^◌, nat_le, None};
ghost use Rattle.std.specs.Prelude.{false, if◌then◌else◌, true, IsSome, MatchOption, OnErr, OnOk};
ghost use Rattle.av_base.specs.Words.{within};
ghost use Rattle.av_audit_ranges.specs.Marks.{is_locked, marks_of_rewrite};
ghost use Rattle.av_audit_ranges.specs.Ranges.{IsTightAt, bound_at, marks_at, marks_below};

use crate::marks::{Marks, Rewrite, locks, same};
use std::alloc::{AllocError, Global};
use std::collections::BTreeMap;
use std::marker::Model;
use std::ops::Bound;

/// What is said of each page, by the bounds at which it changes. Of a page below the first bound is
/// said that it isn't mapped.
#[derive(Drop)]
pub struct Bounds {
    // What is said of the pages from each bound on, up to the next.
    map: BTreeMap<u64, Option<Marks>>,
    // At how many of them locked pages begin.
    locked: u64,
}

impl Model for Bounds {
    ghost use Rattle.std.specs.Prelude.{ℕ, List, Option};
    ghost use Rattle.av_audit_ranges.specs.declared.marks.Marks.{Marks};

    ghost Value = { List (ℕ × Option Marks) };

    ghost view = { λ a. a.map.entries };

    ghost use Rattle.av_audit_ranges.specs.Ranges.{AreCounted};

    ghost invariant = { λ a. AreCounted a.map.entries a.locked };
}

impl Bounds {
    /// There is no bound.
    pub fn new(alloc: Global) -> Bounds
        ensures { (q : ℕ) → bound_at result q ≡ None }
    {
        Bounds {
            map: BTreeMap::new(alloc),
            locked: 0,
        }
    }

    /// What is said of a page, and the bound at or below it from which on the same is said, or 0.
    pub fn run(&self, page: u64) -> (u64, Option<Marks>)
        ensures start { result.0 ≤ page }
        ensures bound { 0 < result.0 → IsSome (bound_at self.now result.0) }
        ensures marks { result.1 ≡ marks_at self.now page }
        ensures same { (q : ℕ) → result.0 ≤ q → q ≤ page → marks_at self.now q ≡ result.1 }
    {
        match self.map.range(..=page).next_back() {
            None => (0, None),
            Some((start, marks)) => (*start, *marks),
        }
    }

    /// Whether a page is locked.
    pub fn has_lock(&self) -> bool
        ensures some { result ≡ true → (page : ℕ) × (is_locked (marks_at self.now page) ≡ true) }
        ensures none { result ≡ false → (page : ℕ) → is_locked (marks_at self.now page) ≡ false }
    {
        self.locked > 0
    }

    /// The next bound above a page.
    pub fn next(&self, page: u64) -> Option<u64>
        ensures { MatchOption result ((q : ℕ) → page < q → bound_at self.now q ≡ None)
            (λ next. (page < next) × IsSome (bound_at self.now next)
            × ((q : ℕ) → page < q → q < next → bound_at self.now q ≡ None)) }
    {
        let after = (Bound::Excluded(page), Bound::Unbounded);
        let (next, _) = self.map.range(after).next()?;
        Some(*next)
    }

    /// What is said of the page below one.
    fn below(&self, page: u64) -> Option<Marks>
        ensures { result ≡ marks_below self.now page }
    {
        if page == 0 {
            return None;
        }
        let (_, marks) = self.run(page - 1);
        marks
    }

    /// A page becomes a bound. The same is said as before.
    fn cut(&mut self, at: u64) -> Result<(), AllocError>
        ensures bound { OnOk result (IsSome (bound_at self.new at)) }
        ensures others { (q : ℕ) → IsSome (bound_at self.old q) → IsSome (bound_at self.new q) }
        ensures kept { (q : ℕ) → q ≢ at → bound_at self.new q ≡ bound_at self.old q }
        ensures same { (q : ℕ) → marks_at self.new q ≡ marks_at self.old q }
        ensures err { OnErr result (self.new ≡ self.old) }
    {
        if self.map.contains_key(&at) {
            return Ok(());
        }
        let (_, marks) = self.run(at);
        self.map.insert(at, marks)?;
        // There are fewer than 2^63 of them.
        let _ = self.map.len();
        self.locked += locks(marks);
        Ok(())
    }

    /// This is said from a bound on, up to the next one. It is none any more where the same is said
    /// of the page below.
    fn say(&mut self, at: u64, below: Option<Marks>, marks: Option<Marks>)
        requires bound { IsSome (bound_at self.old at) }
        requires below { below ≡ marks_below self.old at }
        ensures at { marks_at self.new at ≡ marks }
        ensures tight { IsTightAt self.new at }
        ensures others { (q : ℕ) → q ≢ at → bound_at self.new q ≡ bound_at self.old q }
    {
        if same(below, marks) {
            let gone = self.map.remove(&at).unwrap_or(None);
            self.locked -= locks(gone);
            return;
        }
        // There are fewer than 2^63 of them.
        let _ = self.map.len();
        if let Some(stands) = self.map.get_mut(&at) {
            let gone = *stands;
            *stands = marks;
            self.locked = self.locked + locks(marks) - locks(gone);
        }
    }

    /// A bound is none any more where the same is said of the page below.
    fn join(&mut self, at: u64)
        requires { IsSome (bound_at self.old at) }
        ensures marks { (q : ℕ) → marks_at self.new q ≡ marks_at self.old q }
        ensures tight { IsTightAt self.new at }
        ensures others { (q : ℕ) → q ≢ at → bound_at self.new q ≡ bound_at self.old q }
    {
        let below = self.below(at);
        let (_, marks) = self.run(at);
        self.say(at, below, marks);
    }

    /// The next bound above a page, but no more than `end`.
    pub fn next_up_to(&self, page: u64, end: u64) -> u64
        requires { page < end }
        ensures above { page < result }
        ensures most { result ≤ end }
        ensures bound { result < end → IsSome (bound_at self.now result) }
        ensures none { (q : ℕ) → page < q → q < result → bound_at self.now q ≡ None }
    {
        match self.next(page) {
            None => end,
            Some(next) => next.min(end),
        }
    }

    /// What is said of each page from one bound on, up to another, becomes something else.
    fn rewrite_between(&mut self, from: u64, end: u64, rewrite: Rewrite)
        requires order { from ≤ end }
        requires from { IsSome (bound_at self.old from) }
        requires end { IsSome (bound_at self.old end) }
        ensures below { (q : ℕ) → q < end → marks_at self.new q
            ≡ (if nat_le from q then marks_of_rewrite rewrite (marks_at self.old q)
            else marks_at self.old q) }
        ensures above { (q : ℕ) → end ≤ q → bound_at self.new q ≡ bound_at self.old q }
        ensures before { (q : ℕ) → q < from → bound_at self.new q ≡ bound_at self.old q }
        ensures tight { (q : ℕ) → from ≤ q → q < end → IsTightAt self.new q }
    {
        let mut at = from;
        let mut below = self.below(from);
        while at < end {
            let (_, old) = self.run(at);
            let next = self.next_up_to(at, end);
            let marks = rewrite.of(old);
            self.say(at, below, marks);
            below = marks;
            at = next;
        }
    }

    /// What is said of n pages from one on becomes something else. Without memory all stays.
    pub fn rewrite(&mut self, from: u64, n: u64, rewrite: Rewrite) -> Result<(), AllocError>
        requires { from + n < 2 ^ 64 }
        ensures ok { OnOk result ((q : ℕ) → marks_at self.new q
            ≡ (if within from n q then marks_of_rewrite rewrite (marks_at self.old q)
            else marks_at self.old q)) }
        ensures err { OnErr result ((q : ℕ) → marks_at self.new q ≡ marks_at self.old q) }
        ensures tight { ((q : ℕ) → IsTightAt self.old q) → (q : ℕ) → IsTightAt self.new q }
    {
        let end = from + n;
        self.cut(from)?;
        if let Err(error) = self.cut(end) {
            self.join(from);
            return Err(error);
        }
        self.rewrite_between(from, end, rewrite);
        self.join(end);
        Ok(())
    }
}
