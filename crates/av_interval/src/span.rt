//! What is kept in the trees: the linear indices of an area.

ghost use Rattle.std.specs.Prelude.{max};
ghost use Rattle.av_interval.specs.Span.{last_of, max_laws};
ghost use Rattle.av_interval.specs.Span.{key};

use av_arena::Entry;

/// The pages of an area that is linked to an anon_vma, by their linear indices, both ends among
/// them.
#[derive(Clone, Copy, Drop)]
pub struct Span {
    pub first: u64,
    pub last: u64,
    pub area: u64,
}

impl Entry for Span {
    /// The greatest last index.
    type Sum = u64;

    ghost key = { key };

    ghost unit = { 0 };

    ghost of = { last_of };

    ghost op = { max };

    ghost laws = { max_laws };

    fn is_before(&self, other: &Span) -> bool {
        let (area, other_area) = (self.area, other.area);
        if self.first == other.first {
            area < other_area
        } else {
            self.first < other.first
        }
    }

    fn empty() -> u64 {
        0
    }

    fn is_same(left: u64, right: u64) -> bool {
        left == right
    }

    fn join_sums(left: u64, middle: &Span, right: u64) -> u64 {
        left.max(middle.last.max(right))
    }
}
