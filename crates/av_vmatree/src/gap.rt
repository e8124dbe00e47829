//! The search for a gap.

ghost use Rattle.std.specs.Prelude.{◌≡◌, ◌≤◌};
ghost use Rattle.av_vma.specs.Gap.{IsGap};
ghost use Rattle.av_vmatree.specs.Extent.{last_between, fits};
ghost use Rattle.av_vmatree.specs.Spans.{AreApart, AreWithin, is_page_taken};

use crate::span::{Extent, Span};
use av_arena::Avl;
use av_base::{LOW_PAGE, TOP_PAGE};

/// The greatest page from which on `pages` pages are free. The extent of each subtree tells on
/// which side it lies; where no mapping was taken away, it lies below all spans.
pub fn gap_in(spans: &Avl<Span>, pages: u64) -> Option<u64>
    requires some { 1 ≤ pages }
    requires apart { AreApart spans.now }
    requires within { AreWithin spans.now }
    ensures { IsGap (is_page_taken spans.now) pages result }
{
    let mut low = LOW_PAGE;
    let mut high = TOP_PAGE;
    let mut part = spans.part();
    if let Extent::Between { from, to, widest } = part.sum() {
        if widest < pages && TOP_PAGE.saturating_sub(to) < pages {
            return last_start(LOW_PAGE, from, pages);
        }
    }
    'down: while let Some((left, span, right)) = part.parts() {
        if is_room(right.sum(), span.to, high, pages) {
            low = span.to;
            part = right;
        } else {
            high = span.from;
            part = left;
        }
    }
    last_start(low, high, pages)
}

/// Whether `pages` free pages lie between `low` and `high`, beside or between the spans of a row.
fn is_room(row: Extent, low: u64, high: u64, pages: u64) -> bool
    ensures { result ≡ fits pages low high row }
{
    match row {
        Extent::Nothing => pages <= high.saturating_sub(low),
        Extent::Between { from, to, widest } => {
            pages <= widest || pages <= from.saturating_sub(low) || pages <= high.saturating_sub(to)
        }
    }
}

/// Where the last `pages` pages between `low` and `high` begin.
fn last_start(low: u64, high: u64, pages: u64) -> Option<u64>
    ensures { result ≡ last_between pages low high }
{
    if pages <= high.saturating_sub(low) {
        Some(high - pages)
    } else {
        None
    }
}
