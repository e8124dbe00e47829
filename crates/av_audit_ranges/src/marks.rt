//! What is said of a page, and its changes.

ghost use Rattle.std.specs.Prelude.{◌≡◌, ◌≢◌, false, if◌then◌else◌, true};
ghost use Rattle.av_audit_ranges.specs.Marks.{change_of, is_locked, marks_of_rewrite};

use av_base::{Flag, Flags, Prot};

/// What is said of a page.
#[derive(Clone, Copy, Drop)]
pub struct Marks {
    pub prot: Prot,
    pub flags: Flags,
}

/// Pages side by side of which the same is said, from `start` to below `end`.
#[derive(Clone, Copy, Drop)]
pub struct Range {
    pub start: u64,
    pub end: u64,
    pub marks: Marks,
}

/// A change of what is said of a page; or it isn't mapped any more.
#[derive(Clone, Copy, Drop)]
pub enum Change {
    Unmap,
    Protect(Prot),
    Mark { flag: Flag, set: bool },
}

impl Change {
    /// What is said afterwards, if the page is mapped still.
    pub fn of(self, marks: Marks) -> Option<Marks>
        ensures { result ≡ change_of self marks }
    {
        match self {
            Change::Unmap => None,
            Change::Protect(prot) => Some(Marks { prot, ..marks }),
            Change::Mark { flag, set } => Some(Marks {
                flags: marks.flags.with(flag, set),
                ..marks
            }),
        }
    }
}

/// What becomes of what is said of a page: it changes, if the page is mapped, or it is this.
#[derive(Clone, Copy, Drop)]
pub enum Rewrite {
    By(Change),
    To(Marks),
}

impl Rewrite {
    /// What is said afterwards.
    pub fn of(self, marks: Option<Marks>) -> Option<Marks>
        ensures { result ≡ marks_of_rewrite self marks }
    {
        match self {
            Rewrite::By(change) => change.of(marks?),
            Rewrite::To(marks) => Some(marks),
        }
    }
}

/// Whether two protections are one.
fn same_prot(one: Prot, other: Prot) -> bool
    ensures same { result ≡ true → one ≡ other }
    ensures other { result ≡ false → one ≢ other }
{
    one == other
}

/// Whether the same flags are set.
fn same_flags(one: Flags, other: Flags) -> bool
    ensures same { result ≡ true → one ≡ other }
    ensures other { result ≡ false → one ≢ other }
{
    one == other
}

/// Whether the same is said of two pages.
pub fn same(one: Option<Marks>, other: Option<Marks>) -> bool
    ensures same { result ≡ true → one ≡ other }
    ensures other { result ≡ false → one ≢ other }
{
    match (one, other) {
        (None, None) => true,
        (Some(one), Some(other)) => {
            same_prot(one.prot, other.prot) && same_flags(one.flags, other.flags)
        }
        _ => false,
    }
}

/// 1 where a page of which this is said is mapped and locked, else 0.
pub fn locks(marks: Option<Marks>) -> u64
    ensures { result ≡ (if is_locked marks then 1 else 0) }
{
    match marks {
        Some(marks) if marks.flags.locked => 1,
        _ => 0,
    }
}
