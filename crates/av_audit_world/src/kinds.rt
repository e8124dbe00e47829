//! How many pages come before the first of a kind.

ghost use Rattle.std.specs.Prelude.{◌≡◌, ◌+◌, ◌<◌, ◌≤◌, ◌^◌};
ghost use Rattle.av_vma.specs.Join.{same_prot as same_prot_of};
ghost use Rattle.av_audit_ranges.specs.Ranges.{marks_at};
ghost use Rattle.av_audit_world.specs.Kinds.{is_kind, pages_before};

use crate::space::Space;
use av_audit_ranges::Marks;
use av_base::Prot;

/// What a page is like.
#[derive(Clone, Copy, Drop)]
pub enum Kind {
    /// It isn't mapped.
    Hole,
    /// It is.
    Mapped,
    /// It is, and locked.
    Locked,
    /// It isn't mapped with this protection.
    Without(Prot),
}

/// Whether two protections are one.
fn same_prot(one: Prot, other: Prot) -> bool
    ensures { result ≡ same_prot_of one other }
{
    one == other
}

impl Kind {
    /// Whether a page of which this is said is of the kind.
    pub fn has(self, said: Option<Marks>) -> bool
        ensures { result ≡ is_kind self said }
    {
        let Some(marks) = said else {
            return matches!(self, Kind::Hole | Kind::Without(_));
        };
        match self {
            Kind::Hole => false,
            Kind::Mapped => true,
            Kind::Locked => marks.flags.locked,
            Kind::Without(prot) => !same_prot(marks.prot, prot),
        }
    }
}

impl Space {
    /// How many of n pages from one on come before the first of a kind.
    pub fn before(&self, kind: Kind, from: u64, n: u64) -> u64
        requires { from + n < 2 ^ 64 }
        ensures most { result ≤ n }
        ensures pages { result
            ≡ pages_before (λ page. is_kind kind (marks_at self.now.ranges page)) from n }
    {
        let end = from + n;
        let mut at = from;
        while at < end {
            if kind.has(self.marks(at)) {
                return at - from;
            }
            at = self.ranges.same_up_to(at, end);
        }
        n
    }
}
