//! The next overlaps past a place, in one way through the tree.

ghost use Rattle.std.specs.Prelude.{◌≡◌, ◌+◌, ◌*◌, ◌-◌, ◌<◌, ◌≤◌, [], ◌∷◌, ◌++◌, length, take};
ghost use Rattle.arrayvec.specs.ArrayVec.{array_vec_len};
ghost use Rattle.av_arena.specs.Tree.{entries, height};
ghost use Rattle.av_interval.specs.Batch.{edges, overlaps_past, IsReached};
ghost use Rattle.av_interval.specs.Nodes.{span_of, tree_at, IsNone_or};
ghost use Rattle.av_interval.specs.Search.{IsOrdered};

use crate::nodes::{Node, Nodes};
use crate::search::{child_that_reaches, comes_after};
use arrayvec::ArrayVec;
use av_base::Steps;
use std::sync::ledger::Ledger;

/// How many overlaps are found in one way through the tree, at most.
pub const BATCH: usize = 64;

/// First index and area of some spans.
pub type Batch = ArrayVec<(u64, u64), BATCH>;

/// Adds the span of a node, where it overlaps the index and there is room.
fn add(node: &Node, index: u64, found: &mut Batch)
    requires { node.now.first ≤ index }
    ensures { found.new.items ≡ take BATCH
        (found.old.items ++ overlaps_past None index (span_of node.now ∷ [])) }
{
    if found.is_full() {
        return;
    }
    if node.last < index {
        return;
    }
    found.push((node.first, node.area));
}

/// Adds the overlaps below `number`, if there is one, that are past `after`, as long as there is
/// room.
#[cycle(gather)]
#[inline(always)]
fn gather<N: Nodes<L>, L: Ledger>(
    nodes: &N,
    number: Option<u32>,
    index: u64,
    after: &Option<(u64, u64)>,
    found: &mut Batch,
    steps: &mut Steps<L>,
)
    requires node { IsNone_or (N.is_node nodes.now) number }
    requires ordered { IsOrdered (entries (tree_at (N.below nodes.now) number)) }
    ensures found { found.new.items ≡ take BATCH (found.old.items
        ++ overlaps_past after.now index (entries (tree_at (N.below nodes.now) number))) }
    ensures cost { steps.new ≤ steps.old + (array_vec_len found.new - array_vec_len found.old + 2)
        * height (tree_at (N.below nodes.now) number) }
    ensures cost_inside { IsReached index (entries (tree_at (N.below nodes.now) number)) →
        steps.new ≤ steps.old + (array_vec_len found.new - array_vec_len found.old
        + edges after.now index (entries (tree_at (N.below nodes.now) number)))
        * height (tree_at (N.below nodes.now) number) }
{
    if found.is_full() {
        return;
    }
    let Some(number) = number else {
        return;
    };
    gather_below(nodes, number, index, after, found, steps);
}

/// The same, where there is a node and room.
#[cycle(gather)]
fn gather_below<N: Nodes<L>, L: Ledger>(
    nodes: &N,
    number: u32,
    index: u64,
    after: &Option<(u64, u64)>,
    found: &mut Batch,
    steps: &mut Steps<L>,
)
    requires node { N.is_node nodes.now number }
    requires ordered { IsOrdered (entries (N.below nodes.now number)) }
    requires room { array_vec_len found.old < BATCH }
    ensures found { found.new.items ≡ take BATCH (found.old.items
        ++ overlaps_past after.now index (entries (N.below nodes.now number))) }
    ensures cost { steps.new ≤ steps.old + (array_vec_len found.new - array_vec_len found.old + 2)
        * height (N.below nodes.now number) }
    ensures cost_inside { IsReached index (entries (N.below nodes.now number)) →
        steps.new ≤ steps.old + (array_vec_len found.new - array_vec_len found.old
        + edges after.now index (entries (N.below nodes.now number)))
        * height (N.below nodes.now number) }
{
    let node = nodes.visit(number, steps);
    let right = child_that_reaches(node.right, index);
    if !comes_after(&node, *after) {
        gather(nodes, right, index, after, found, steps);
        return;
    }
    let left = child_that_reaches(node.left, index);
    gather(nodes, left, index, after, found, steps);
    if index < node.first {
        return;
    }
    add(&node, index, found);
    gather(nodes, right, index, after, found, steps);
}

/// Fills a batch anew: first index and area of the next spans past `after` that overlap `index`, as
/// many as it has room for.
pub fn search_batch<N: Nodes<L>, L: Ledger>(
    nodes: &N,
    anon: u64,
    index: u64,
    after: Option<(u64, u64)>,
    found: &mut Batch,
    steps: &mut Steps<L>,
)
    ensures found { found.new.items ≡ take BATCH
        (overlaps_past after index (entries (N.tree nodes.now anon))) }
    ensures cost { steps.new ≤ steps.old
        + (array_vec_len found.new + 2) * height (N.tree nodes.now anon) }
{
    found.clear();
    let root = nodes.root(anon);
    gather(nodes, root, index, &after, found, steps);
}
