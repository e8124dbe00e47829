//! Trees of spans, read node by node.

ghost use Rattle.std.specs.Prelude.{◌≡◌, ℕ, ◌+◌, MatchOption};
ghost use Rattle.av_interval.specs.Nodes.{Tree};
ghost use Rattle.av_arena.specs.Tree.{Leaf, entries};
ghost use Rattle.av_interval.specs.Nodes.{IsSeen};
ghost use Rattle.av_interval.specs.Search.{IsOrdered};

use av_base::Steps;
use std::sync::ledger::Ledger;

/// A node's span, and for each child its number and the greatest last index below it.
#[derive(Clone, Copy, Drop)]
pub struct Node {
    pub first: u64,
    pub last: u64,
    pub area: u64,
    pub left: Option<(u32, u64)>,
    pub right: Option<(u32, u64)>,
}

pub trait Nodes<L: Ledger> {
    // The tree of an anon_vma.
    ghost tree: { Self → ℕ → Tree };

    // What counts as a node's number, and the tree below it.
    ghost is_node: { Self → ℕ → Type 0 };

    ghost below: { Self → ℕ → Tree };

    fn root(&self, anon: u64) -> Option<u32>
        ensures root { MatchOption result (tree self.now anon ≡ Leaf)
            (λ n. is_node self.now n × (below self.now n ≡ tree self.now anon)) }
        ensures ordered { IsOrdered (entries (tree self.now anon)) };

    fn visit(&self, node: u32, steps: &mut Steps<L>) -> Node
        requires { is_node self.now node }
        ensures seen { IsSeen (is_node self.now) (below self.now) (below self.now node) result }
        ensures counted { steps.new ≡ steps.old + 1 };
}
