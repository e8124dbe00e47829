//! The areas of one process in a tree, by their pages.

ghost use Rattle.std.specs.Prelude.{◌≡◌, ℕ, ◌-◌, ◌<◌, ◌≤◌, ◌++◌, [], Some, None, true, false};
ghost use Rattle.std.specs.Prelude.{is_ok, IfOk, IfSome, IsSomeAnd, OnOk, if◌then◌else◌};
ghost use Rattle.av_base.specs.Limits.{low_page, top_page};
ghost use Rattle.av_vma.specs.Gap.{IsGap};
ghost use Rattle.av_base.specs.Words.{within, with_at};
ghost use Rattle.av_vmatree.specs.Spans.{AreSpans, IsFree, IsMet, area_after, area_at, area_before};
ghost use Rattle.av_vmatree.specs.Spans.{first_from, holds, last_below, span, span_of};
ghost use Rattle.av_vmatree.specs.Spans.{is_page_taken, unless_area, with_span, without_area};

use crate::gap::gap_in;
use crate::span::Span;
use av_arena::Avl;
use av_vma::AreaId;
use std::alloc::{AllocError, Global};
use std::marker::Model;

/// The areas of one process, seen as the list of their spans in the order of their pages.
///
/// Pages go by number, which is their address over 4096. A call takes time logarithmic in the
/// number of areas.
/// No two spans share a page or an area, and each lies from page 16 to below page 0x7ffffffff.
#[derive(Drop)]
pub struct Tree {
    spans: Avl<Span>,
}

impl Model for Tree {
    ghost use Rattle.std.specs.Prelude.{List};
    ghost use Rattle.av_vmatree.specs.declared.span.Span.{Span};
    ghost use Rattle.av_vmatree.specs.Spans.{AreSpans};

    ghost Value = { List Span };

    ghost view = { λ t. t.spans };

    ghost invariant = { λ t. AreSpans t.spans };
}

impl Tree {
    /// The areas of a process that has none.
    pub fn new(alloc: Global) -> Tree
        ensures { result ≡ [] }
    {
        Tree {
            spans: Avl::new(alloc),
        }
    }

    /// The areas of a process that has none, and room for so many: while it has no more, an area
    /// that is put in asks the host for no memory and moves none of the others.
    pub fn with_room(alloc: Global, count: usize) -> Result<Tree, AllocError>
        ensures { IfOk result (λ tree. tree ≡ []) }
    {
        Ok(Tree {
            spans: Avl::with_room(alloc, count)?,
        })
    }

    /// Puts in an area, new to the process, with the pages from `from` to below `to`, all of them
    /// free.
    ///
    /// Without memory all stays.
    pub fn insert(&mut self, area: AreaId, from: u64, to: u64) -> Result<(), AllocError>
        requires some { from < to }
        requires low { low_page ≤ from }
        requires high { to ≤ top_page }
        requires free { IsFree (is_page_taken self.old) from to }
        requires other { span_of self.old area ≡ None }
        ensures spans { self.new ≡ (if is_ok result then with_span (span area from to) self.old
            else self.old) }
        ensures areas { OnOk result
            ((number : ℕ) → span_of self.new number ≡ with_at area (Some (span area from to))
            (span_of self.old) number) }
        ensures pages { OnOk result
            ((page : ℕ) → area_at self.new
            page ≡ (if within from (to - from) page then Some area else area_at self.old page)) }
        ensures kept { AreSpans self.new }
    {
        self.spans.insert(Span { from, to, area })
    }

    /// Takes out an area that is there, and begins with the page `from`.
    pub fn remove(&mut self, area: AreaId, from: u64)
        requires there { IsSomeAnd (span_of self.old area) (λ s. s.from ≡ from) }
        ensures spans { self.new ≡ without_area area self.old }
        ensures areas { (number : ℕ) → span_of self.new number ≡ with_at area None
            (span_of self.old) number }
        ensures pages { (page : ℕ) → area_at self.new page ≡ unless_area area
            (area_at self.old page) }
        ensures kept { AreSpans self.new }
    {
        self.spans.remove(Span {
            from,
            to: from,
            area,
        });
    }

    /// Gives an area that is there, and begins with the page `from`, another end. The pages up to
    /// it are its own or
    /// free. It takes no memory.
    pub fn set_end(&mut self, area: AreaId, from: u64, to: u64)
        requires there { IsSomeAnd (span_of self.old area) (λ s. s.from ≡ from) }
        requires some { from < to }
        requires high { to ≤ top_page }
        requires free { IsFree (is_page_taken (without_area area self.old)) from to }
        ensures spans { self.new ≡ with_span (span area from to) (without_area area self.old) }
        ensures areas { (number : ℕ) → span_of self.new number ≡ with_at area
            (Some (span area from to)) (span_of self.old) number }
        ensures pages { (page : ℕ) → area_at self.new
            page ≡ (if within from (to - from) page then Some area else unless_area area
            (area_at self.old page)) }
        ensures kept { AreSpans self.new }
    {
        self.spans.replace(Span { from, to, area });
    }

    /// Gives an area that is there the span `lower`, a part of its own that begins with it, and
    /// puts in the span `upper` of an area new to the process, a later part that ends with it. It
    /// goes down once, where `set_end` and `insert` would each change every summary up to the root.
    ///
    /// Without memory all stays.
    pub fn split(&mut self, lower: Span, upper: Span) -> Result<(), AllocError>
        requires there { IsSomeAnd (span_of self.old lower.area)
            (λ s. (s.from ≡ lower.from) × (s.to ≡ upper.to)) }
        requires some { lower.from < lower.to }
        requires apart { lower.to ≤ upper.from }
        requires more { upper.from < upper.to }
        requires other { span_of self.old upper.area ≡ None }
        ensures spans { self.new ≡ (if is_ok result then with_span upper
            (with_span lower (without_area lower.area self.old)) else self.old) }
        ensures areas { OnOk result
            ((number : ℕ) → span_of self.new number ≡ with_at upper.area (Some upper)
            (with_at lower.area (Some lower) (span_of self.old)) number) }
        ensures pages { OnOk result
            ((page : ℕ) → area_at self.new
            page ≡ (if holds upper page then Some upper.area else if holds lower page then Some
            lower.area else unless_area lower.area (area_at self.old page))) }
        ensures kept { AreSpans self.new }
    {
        self.spans.split(lower, upper)
    }

    /// Takes out the area `other`, which is there and begins with the page `at`, and gives the area
    /// before it, which begins with the page `from`, another end. The pages up to it are those of
    /// the two or free. It goes down once, where `remove` and `set_end` would each change every
    /// summary up to the root. It takes no memory.
    pub fn join(&mut self, area: AreaId, from: u64, other: AreaId, at: u64, to: u64)
        requires there { IsSomeAnd (span_of self.old other) (λ s. s.from ≡ at) }
        requires before { IsSomeAnd (span_of (without_area other self.old) area)
            (λ s. s.from ≡ from) }
        requires lower { from < at }
        requires upper { at < to }
        requires high { to ≤ top_page }
        requires free { IsFree (is_page_taken (without_area area (without_area other self.old)))
            from to }
        ensures spans { self.new ≡ with_span (span area from to)
            (without_area area (without_area other self.old)) }
        ensures areas { (number : ℕ) → span_of self.new number ≡ with_at area
            (Some (span area from to)) (span_of (without_area other self.old)) number }
        ensures pages { (page : ℕ) → area_at self.new
            page ≡ (if within from (to - from) page then Some area else unless_area area
            (area_at (without_area other self.old) page)) }
        ensures kept { AreSpans self.new }
    {
        let lower = Span { from, to: at, area };
        let upper = Span {
            from: at,
            to,
            area: other,
        };
        self.spans.join(lower, upper, Span { from, to, area });
    }

    /// The area that holds the page.
    pub fn find(&self, page: u64) -> Option<AreaId>
        ensures area { result ≡ area_at self.now page }
        ensures span { IfSome result
            (λ area. IsSomeAnd (span_of self.now area) (λ s. holds s page ≡ true)) }
    {
        let mut part = self.spans.part();
        'down: while let Some((left, span, right)) = part.parts() {
            if page < span.from {
                part = left;
            } else if span.to <= page {
                part = right;
            } else {
                return Some(span.area);
            }
        }
        None
    }

    /// The nearest area wholly below the page.
    pub fn before(&self, page: u64) -> Option<AreaId>
        ensures { result ≡ area_before self.now page }
    {
        let mut nearest = None;
        let mut part = self.spans.part();
        'down: while let Some((left, span, right)) = part.parts() {
            if span.to <= page {
                nearest = Some(span.area);
                part = right;
            } else {
                part = left;
            }
        }
        nearest
    }

    /// The nearest area wholly above the page.
    pub fn after(&self, page: u64) -> Option<AreaId>
        ensures { result ≡ area_after self.now page }
    {
        let mut nearest = None;
        let mut part = self.spans.part();
        'down: while let Some((left, span, right)) = part.parts() {
            if span.from <= page {
                part = right;
            } else {
                nearest = Some(span.area);
                part = left;
            }
        }
        nearest
    }

    /// The last area that begins below the page, and the first one that begins there or above, in
    /// one descent.
    pub fn around(&self, page: u64) -> (Option<Span>, Option<Span>)
        ensures below { result.0 ≡ last_below self.now page }
        ensures above { result.1 ≡ first_from self.now page }
    {
        let mut below = None;
        let mut above = None;
        let mut part = self.spans.part();
        'down: while let Some((left, span, right)) = part.parts() {
            if span.from < page {
                below = Some(span);
                part = right;
            } else {
                above = Some(span);
                part = left;
            }
        }
        (below, above)
    }

    /// Whether no area holds a page from `from` to below `to`.
    pub fn is_free(&self, from: u64, to: u64) -> bool
        requires { from ≤ to }
        ensures free { result ≡ true → IsFree (is_page_taken self.now) from to }
        ensures met { result ≡ false → IsMet (is_page_taken self.now) from to }
    {
        if from == to {
            return true;
        }
        let mut part = self.spans.part();
        'down: while let Some((left, span, right)) = part.parts() {
            if to <= span.from {
                part = left;
            } else if span.to <= from {
                part = right;
            } else {
                return false;
            }
        }
        true
    }

    /// Adds the spans of all areas in the order of their pages. It takes time linear in their
    /// number.
    ///
    /// Without memory none is added.
    pub fn append_to(&self, spans: &mut Vec<Span>) -> Result<(), AllocError>
        ensures { spans.new.items ≡ (if is_ok result then spans.old.items ++ self.now else
            spans.old.items) }
    {
        self.spans.part().append_to(spans)
    }

    /// The greatest page from which on `pages` pages are free, or none where there is no such page.
    pub fn gap(&self, pages: u64) -> Option<u64>
        requires { 1 ≤ pages }
        ensures { IsGap (is_page_taken self.now) pages result }
    {
        gap_in(&self.spans, pages)
    }
}
