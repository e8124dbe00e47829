//! Whether the same is said of each page.

ghost use Rattle.std.specs.Prelude.{◌≡◌, false, true};
ghost use Rattle.av_audit_ranges.specs.Ranges.{marks_at};
ghost use Rattle.av_audit_area.specs.Alike.{AreAlike};

use av_audit_ranges::{Marks, Ranges};

/// Whether two pages have one protection and the same flags.
fn same_marks(one: Marks, other: Marks) -> bool
    ensures yes { result ≡ true → (one.prot ≡ other.prot) × (one.flags ≡ other.flags) }
    ensures no { result ≡ false → one.prot ≡ other.prot → one.flags ≡ other.flags → ⊥ }
{
    one.prot == other.prot && one.flags == other.flags
}

/// Whether the same is said of two pages.
fn are_same(one: Option<Marks>, other: Option<Marks>) -> bool
    ensures yes { result ≡ true → one ≡ other }
    ensures no { result ≡ false → one ≡ other → ⊥ }
{
    match one {
        None => other.is_none(),
        Some(one) => match other {
            None => false,
            Some(other) => same_marks(one, other),
        },
    }
}

/// Whether the same is said of each page below `end`.
pub fn are_alike(one: &Ranges, other: &Ranges, end: u64) -> bool
    ensures { AreAlike (marks_at one.now) (marks_at other.now) end result }
{
    let mut page = 0;
    while page < end {
        if !are_same(one.marks(page), other.marks(page)) {
            return false;
        }
        let to = one.same_up_to(page, end);
        page = other.same_up_to(page, to);
    }
    true
}
