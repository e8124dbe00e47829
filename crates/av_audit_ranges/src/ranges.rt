//! What is said of each page.

ghost use Rattle.std.specs.Prelude.{◌≡◌, ◌≢◌, ℕ, ◌+◌, ◌<◌, ◌≤◌, ◌^◌, Some, None, true, false};
ghost use Rattle.std.specs.Prelude.{if◌then◌else◌, IfSome, MatchOption, OnErr, OnOk, is_some};
ghost use Rattle.std.specs.Prelude.{option_and_then};
ghost use Rattle.av_base.specs.Limits.{top_page};
ghost use Rattle.av_base.specs.Words.{within};
ghost use Rattle.av_vma.specs.Gap.{IsGap};
ghost use Rattle.av_audit_ranges.specs.Marks.{change_of, is_locked, marks_of_rewrite};
ghost use Rattle.av_audit_ranges.specs.Ranges.{marks_at};

use crate::bounds::Bounds;
use crate::holes::Holes;
use crate::index::one_hole;
use crate::marks::{Change, Marks, Rewrite};
use std::alloc::{AllocError, Global};
use std::marker::Model;

/// What is said of each page that is mapped.
#[derive(Drop)]
pub struct Ranges {
    bounds: Bounds,
    // The index of the holes. None once memory was wanting for it.
    holes: Option<Holes>,
}

impl Model for Ranges {
    ghost use Rattle.std.specs.Prelude.{ℕ, List, Option};
    ghost use Rattle.av_audit_ranges.specs.declared.marks.Marks.{Marks};
    ghost use Rattle.av_audit_ranges.specs.Ranges.{AreRanges};

    ghost Value = { List (ℕ × Option Marks) };

    ghost view = { λ a. a.bounds };

    ghost invariant = { λ a. AreRanges a.bounds a.holes };
}

impl Ranges {
    /// Nothing is mapped.
    pub fn new(alloc: Global) -> Ranges
        ensures { (page : ℕ) → marks_at result page ≡ None }
    {
        Ranges {
            bounds: Bounds::new(alloc),
            holes: one_hole(alloc),
        }
    }

    /// What is said of a page, if it is mapped.
    pub fn marks(&self, page: u64) -> Option<Marks>
        ensures { result ≡ marks_at self.now page }
    {
        let (_, marks) = self.bounds.run(page);
        marks
    }

    /// The nearest page above at which something else is said. None where nothing is mapped from
    /// this page on.
    pub fn bound_above(&self, page: u64) -> Option<u64>
        ensures { MatchOption result ((q : ℕ) → page ≤ q → marks_at self.now q ≡ None)
            (λ next. (page < next) × ((q : ℕ) → page ≤ q → q < next
            → marks_at self.now q ≡ marks_at self.now page)
            × (marks_at self.now next ≢ marks_at self.now page)) }
    {
        self.bounds.next(page)
    }

    /// How far the same is said of each page from one on, `end` at the most.
    pub fn same_up_to(&self, page: u64, end: u64) -> u64
        requires { page < end }
        ensures above { page < result }
        ensures most { result ≤ end }
        ensures same { (q : ℕ) → page ≤ q → q < result
            → marks_at self.now q ≡ marks_at self.now page }
        ensures next { result < end → marks_at self.now result ≢ marks_at self.now page }
    {
        match self.bound_above(page) {
            None => end,
            Some(next) => next.min(end),
        }
    }

    /// What is said of n pages from one on becomes something else. Without memory all stays.
    fn rewrite(&mut self, from: u64, n: u64, rewrite: Rewrite) -> Result<(), AllocError>
        requires { from + n < 2 ^ 64 }
        ensures ok { OnOk result ((page : ℕ) → marks_at self.new page
            ≡ (if within from n page then marks_of_rewrite rewrite (marks_at self.old page)
            else marks_at self.old page)) }
        ensures err { OnErr result ((page : ℕ) → marks_at self.new page ≡ marks_at self.old page) }
    {
        let (low, high) = self.bounds.around(from, from + n);
        let holes = self.bounds.without_holes(self.holes.take(), low, high);
        let result = self.bounds.rewrite(from, n, rewrite);
        self.holes = self.bounds.with_holes(holes, low, high);
        result
    }

    /// What is said of n pages from one on changes. Without memory all stays.
    pub fn change(&mut self, from: u64, n: u64, change: Change) -> Result<(), AllocError>
        requires { from + n < 2 ^ 64 }
        ensures ok { OnOk result ((page : ℕ) → marks_at self.new page
            ≡ (if within from n page
            then option_and_then (change_of change) (marks_at self.old page)
            else marks_at self.old page)) }
        ensures err { OnErr result ((page : ℕ) → marks_at self.new page ≡ marks_at self.old page) }
    {
        self.rewrite(from, n, Rewrite::By(change))
    }

    /// n pages from one on are mapped, and this is said of them. Without memory all stays.
    pub fn put(&mut self, from: u64, n: u64, marks: Marks) -> Result<(), AllocError>
        requires { from + n < 2 ^ 64 }
        ensures ok { OnOk result ((page : ℕ) → marks_at self.new page
            ≡ (if within from n page then Some marks else marks_at self.old page)) }
        ensures err { OnErr result ((page : ℕ) → marks_at self.new page ≡ marks_at self.old page) }
    {
        self.rewrite(from, n, Rewrite::To(marks))
    }

    /// Whether a page is locked.
    pub fn has_lock(&self) -> bool
        ensures some { result ≡ true → (page : ℕ) × (is_locked (marks_at self.now page) ≡ true) }
        ensures none { result ≡ false → (page : ℕ) → is_locked (marks_at self.now page) ≡ false }
    {
        self.bounds.has_lock()
    }

    /// Where n pages go: the greatest place at which none is mapped.
    pub fn gap(&self, n: u64) -> Option<u64>
        requires some { 0 < n }
        requires fits { n ≤ top_page }
        ensures fits { IfSome result (λ page. page + n ≤ top_page) }
        ensures gap { IsGap (λ page. is_some (marks_at self.now page)) n result }
    {
        match &self.holes {
            Some(holes) => holes.highest(n),
            None => self.bounds.gap(n),
        }
    }
}
