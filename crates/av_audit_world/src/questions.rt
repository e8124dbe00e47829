//! What is asked of the pages of a process. One that doesn't live has none.

ghost use Rattle.std.specs.Prelude.{◌≡◌, ◌+◌, ◌<◌, ◌≤◌, ◌^◌, IfSome};
ghost use Rattle.av_base.specs.Limits.{top_page};
ghost use Rattle.av_vma.specs.Gap.{IsGap};
ghost use Rattle.av_plain.specs.World.{World, is_mapped, meets, pages};
ghost use Rattle.av_plain.specs.World.{pages_to_hole, pages_to_locked};
ghost use Rattle.av_audit_world.specs.Memories.{IsWorld};

use crate::memories::Memories;
use crate::space::Space;

impl Memories {
    /// Where n pages of a process go: the greatest place at which none is mapped.
    pub fn gap(&self, number: u16, n: u64) -> Option<u64>
        requires some { 0 < n }
        requires fits { n ≤ top_page }
        ensures fits { IfSome result (λ page. page + n ≤ top_page) }
        ensures gap { (w : World) → IsWorld self.now w
            → IsGap (is_mapped (pages w number)) n result }
    {
        match self.spaces.get(&number) {
            None => Space::new(self.alloc).gap(n),
            Some(space) => space.gap(n),
        }
    }

    /// Whether one of n pages of a process from one on is mapped.
    pub fn meets(&self, number: u16, from: u64, n: u64) -> bool
        requires { from + n < 2 ^ 64 }
        ensures { (w : World) → IsWorld self.now w → result ≡ meets (pages w number) from n }
    {
        match self.spaces.get(&number) {
            None => false,
            Some(space) => space.meets(from, n),
        }
    }

    /// How many of n pages of a process from one on come before the first that isn't mapped.
    pub fn before_hole(&self, number: u16, from: u64, n: u64) -> u64
        requires { from + n < 2 ^ 64 }
        ensures most { result ≤ n }
        ensures pages { (w : World) → IsWorld self.now w
            → result ≡ pages_to_hole (pages w number) from n }
    {
        match self.spaces.get(&number) {
            None => 0,
            Some(space) => space.before_hole(from, n),
        }
    }

    /// How many of n pages of a process from one on come before the first that is locked.
    pub fn before_locked(&self, number: u16, from: u64, n: u64) -> u64
        requires { from + n < 2 ^ 64 }
        ensures most { result ≤ n }
        ensures pages { (w : World) → IsWorld self.now w
            → result ≡ pages_to_locked (pages w number) from n }
    {
        match self.spaces.get(&number) {
            None => n,
            Some(space) => space.before_locked(from, n),
        }
    }
}
