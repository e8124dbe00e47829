//! What a tree is of: entries in order, with a summary of each row of them.

ghost use Rattle.std.specs.Prelude.{◌≡◌, ℕ, nat_lt, true};
ghost use Rattle.av_arena.specs.Monoid.{MonoidLaws};

/// What a tree needs of its entries: a key, by which they are ordered, and a summary of each, which
/// joins to the summary of a row.
///
/// The laws are those of a monoid: joining is associative, and the summary of no entry joins as
/// nothing.
pub trait Entry: Copy + Drop {
    /// The summary of a row of entries.
    type Sum: Copy + Drop;

    ghost key: { Self → ℕ };

    ghost unit: { Self.Sum };

    ghost of: { Self → Self.Sum };

    ghost op: { Self.Sum → Self.Sum → Self.Sum };

    /// Whether the key is below the other's.
    fn is_before(&self, other: &Self) -> bool
        ensures { result ≡ nat_lt (key self.now) (key other.now) };

    /// The summary of no entry.
    fn empty() -> Self::Sum
        ensures { result ≡ unit };

    /// Whether two summaries are the same. A change stops where a summary stays.
    fn is_same(left: Self::Sum, right: Self::Sum) -> bool
        ensures same { result ≡ true → left ≡ right }
        ensures always { left ≡ right → result ≡ true };

    /// The summary of a row of entries, by those of what stands before and after the one in the
    /// middle.
    fn join_sums(left: Self::Sum, middle: &Self, right: Self::Sum) -> Self::Sum
        ensures { result ≡ op left (op (of middle.now) right) };

    ghost laws: { MonoidLaws unit op };
}
