//! Which holes a change touches, read off the bounds.

ghost use Rattle.std.specs.Prelude.{◌≡◌, ℕ, ◌+◌, ◌<◌, ◌≤◌, true, false, IfSome, is_some};
ghost use Rattle.av_base.specs.Limits.{low_page, top_page};
ghost use Rattle.av_audit_ranges.specs.Holes.{AreHoles, AreHolesBut, EndsAt, EndsBelow, IsHole};
ghost use Rattle.av_audit_ranges.specs.Ranges.{IsTightAt, is_mapped};

use crate::bounds::Bounds;
use crate::holes::Holes;
use av_base::{LOW_PAGE, TOP_PAGE};
use std::alloc::Global;

impl Bounds {
    /// The first page of the hole that goes up to a page, or this page.
    fn hole_start(&self, page: u64) -> u64
        requires low { low_page ≤ page }
        requires tight { (q : ℕ) → IsTightAt self.now q }
        ensures low { low_page ≤ result }
        ensures most { result ≤ page }
        ensures below { EndsBelow (is_mapped self.now) result }
    {
        if page == LOW_PAGE {
            return LOW_PAGE;
        }
        let (start, marks) = self.run(page - 1);
        if marks.is_some() {
            return page;
        }
        start.max(LOW_PAGE)
    }

    /// The end of the hole that goes on from a page, or this page.
    fn hole_end(&self, page: u64) -> u64
        requires high { page ≤ top_page }
        requires tight { (q : ℕ) → IsTightAt self.now q }
        ensures least { page ≤ result }
        ensures high { result ≤ top_page }
        ensures above { EndsAt (is_mapped self.now) result }
    {
        if page == TOP_PAGE {
            return page;
        }
        let (_, marks) = self.run(page);
        if marks.is_some() {
            return page;
        }
        self.next_up_to(page, TOP_PAGE)
    }

    /// The pages between two, of those that a process may have, and the holes that they touch.
    pub fn around(&self, from: u64, end: u64) -> (u64, u64)
        requires order { from ≤ end }
        requires tight { (q : ℕ) → IsTightAt self.now q }
        ensures low { low_page ≤ result.0 }
        ensures order { result.0 ≤ result.1 }
        ensures high { result.1 ≤ top_page }
        ensures from { (q : ℕ) → low_page ≤ q → q < result.0 → q < from }
        ensures end { (q : ℕ) → q < top_page → result.1 ≤ q → end ≤ q }
        ensures below { EndsBelow (is_mapped self.now) result.0 }
        ensures above { EndsAt (is_mapped self.now) result.1 }
    {
        let start = self.hole_start(from.clamp(LOW_PAGE, TOP_PAGE));
        (start, self.hole_end(end.clamp(LOW_PAGE, TOP_PAGE)))
    }

    /// How far the pages from one on are mapped as this one is, and whether they are free.
    fn piece(&self, at: u64, end: u64) -> (u64, bool)
        requires order { at < end }
        requires low { low_page ≤ at }
        requires high { end ≤ top_page }
        requires tight { (q : ℕ) → IsTightAt self.now q }
        requires below { is_mapped self.now at ≡ false → EndsBelow (is_mapped self.now) at }
        requires above { EndsAt (is_mapped self.now) end }
        ensures above { at < result.0 }
        ensures most { result.0 ≤ end }
        ensures hole { result.1 ≡ true → (length : ℕ) → at + length ≡ result.0
            → IsHole (is_mapped self.now) (length, at) }
        ensures taken { result.1 ≡ false → (q : ℕ) → at ≤ q → q < result.0
            → is_mapped self.now q ≡ true }
        ensures next { result.0 < end → is_mapped self.now result.0 ≡ false
            → EndsBelow (is_mapped self.now) result.0 }
    {
        let (_, marks) = self.run(at);
        (self.next_up_to(at, end), marks.is_none())
    }

    /// The index without the holes that lie from one page on and below another.
    pub fn without_holes(&self, holes: Option<Holes>, from: u64, end: u64) -> Option<Holes>
        requires order { from ≤ end }
        requires low { low_page ≤ from }
        requires high { end ≤ top_page }
        requires tight { (q : ℕ) → IsTightAt self.now q }
        requires below { EndsBelow (is_mapped self.now) from }
        requires above { EndsAt (is_mapped self.now) end }
        requires holes { IfSome holes (AreHoles (is_mapped self.now)) }
        ensures holes { IfSome result (AreHolesBut (is_mapped self.now) from end) }
        ensures same { is_some result ≡ is_some holes }
    {
        let mut holes = holes?;
        let mut at = from;
        while at < end {
            let (next, is_free) = self.piece(at, end);
            if is_free {
                holes.take(next - at, at);
            }
            at = next;
        }
        Some(holes)
    }

    /// The index with the holes that lie from one page on and below another. None without memory.
    pub fn with_holes(&self, holes: Option<Holes>, from: u64, end: u64) -> Option<Holes>
        requires order { from ≤ end }
        requires low { low_page ≤ from }
        requires high { end ≤ top_page }
        requires tight { (q : ℕ) → IsTightAt self.now q }
        requires below { EndsBelow (is_mapped self.now) from }
        requires above { EndsAt (is_mapped self.now) end }
        requires holes { IfSome holes (AreHolesBut (is_mapped self.now) from end) }
        ensures { IfSome result (AreHoles (is_mapped self.now)) }
    {
        let mut holes = holes?;
        let mut at = from;
        while at < end {
            let (next, is_free) = self.piece(at, end);
            if is_free {
                holes.put(next - at, at).ok()?;
            }
            at = next;
        }
        Some(holes)
    }
}

/// The index where nothing is mapped. None without memory.
pub fn one_hole(alloc: Global) -> Option<Holes>
    ensures { IfSome result (AreHoles (λ page. false)) }
{
    let mut holes = Holes::new(alloc);
    holes.put(TOP_PAGE - LOW_PAGE, LOW_PAGE).ok()?;
    Some(holes)
}
