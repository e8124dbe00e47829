//! Which pages are mapped, and which are free.

ghost use Rattle.std.specs.Prelude.{◌≡◌, ◌+◌, ◌<◌, ◌≤◌, ◌^◌, IfSome};
ghost use Rattle.av_base.specs.Limits.{top_page};
ghost use Rattle.av_vma.specs.Gap.{IsGap};
ghost use Rattle.av_plain.specs.World.{Process, is_mapped, meets, pages_to_hole};
ghost use Rattle.av_audit_world.specs.Space.{IsSpace};

use crate::kinds::Kind;
use crate::space::Space;

impl Space {
    /// Where n pages go: the greatest place at which none is mapped.
    pub fn gap(&self, n: u64) -> Option<u64>
        requires some { 0 < n }
        requires fits { n ≤ top_page }
        ensures fits { IfSome result (λ page. page + n ≤ top_page) }
        ensures gap { (q : Process) → IsSpace self.now q → IsGap (is_mapped q) n result }
    {
        self.ranges.gap(n)
    }

    /// Whether one of n pages from one on is mapped.
    pub fn meets(&self, from: u64, n: u64) -> bool
        requires { from + n < 2 ^ 64 }
        ensures { (q : Process) → IsSpace self.now q → result ≡ meets q from n }
    {
        self.before(Kind::Mapped, from, n) < n
    }

    /// How many of n pages from one on come before the first that isn't mapped.
    pub fn before_hole(&self, from: u64, n: u64) -> u64
        requires { from + n < 2 ^ 64 }
        ensures most { result ≤ n }
        ensures pages { (q : Process) → IsSpace self.now q → result ≡ pages_to_hole q from n }
    {
        self.before(Kind::Hole, from, n)
    }
}
