//! Whether pages have one protection.

ghost use Rattle.std.specs.Prelude.{◌≡◌, ◌+◌, ◌<◌, ◌^◌};
ghost use Rattle.av_plain.specs.Mremap.{have_one_prot};
ghost use Rattle.av_plain.specs.World.{Process, World, pages};
ghost use Rattle.av_audit_world.specs.Memories.{IsWorld};
ghost use Rattle.av_audit_world.specs.Space.{IsSpace};

use crate::kinds::Kind;
use crate::memories::Memories;
use crate::space::Space;

impl Space {
    /// Whether n pages from one on are mapped, with one protection.
    fn have_one_prot(&self, from: u64, n: u64) -> bool
        requires { from + n < 2 ^ 64 }
        ensures { (q : Process) → IsSpace self.now q → result ≡ have_one_prot q from n }
    {
        match self.marks(from) {
            None => false,
            Some(marks) => self.before(Kind::Without(marks.prot), from, n) == n,
        }
    }
}

impl Memories {
    /// Whether n pages of a process from one on are mapped, with one protection.
    pub fn have_one_prot(&self, number: u16, from: u64, n: u64) -> bool
        requires { from + n < 2 ^ 64 }
        ensures { (w : World) → IsWorld self.now w
            → result ≡ have_one_prot (pages w number) from n }
    {
        match self.spaces.get(&number) {
            None => false,
            Some(space) => space.have_one_prot(from, n),
        }
    }
}
