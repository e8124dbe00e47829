//! The first overlap past a place.

ghost use Rattle.std.specs.Prelude.{◌≡◌, ◌+◌, ◌*◌, ◌^◌, ◌<◌, ◌≤◌, length, IsTrue, IsSome, Some};
ghost use Rattle.std.specs.Prelude.{None, is_some, MatchOption};
ghost use Rattle.std.specs.Option.{option_map};
ghost use Rattle.av_interval.specs.Span.{top};
ghost use Rattle.av_arena.specs.Tree.{entries, height};
ghost use Rattle.av_interval.specs.Nodes.{span_of, reaching_child, tree_at, IsNone_or};
ghost use Rattle.av_base.specs.Words.{how_many};
ghost use Rattle.av_interval.specs.Search.{IsOrdered, is_past, overlaps, span_reaching, overlap_of};

use crate::nodes::{Node, Nodes};
use av_base::Steps;
use std::sync::ledger::Ledger;

pub(crate) fn comes_after(node: &Node, after: Option<(u64, u64)>) -> bool
    ensures { result ≡ is_past after (span_of node.now) }
{
    match after {
        None => true,
        Some((first, area)) => first < node.first || (first == node.first && area < node.area),
    }
}

pub(crate) fn child_that_reaches(child: Option<(u32, u64)>, index: u64) -> Option<u32>
    ensures { result ≡ reaching_child index child }
{
    match child {
        None => None,
        Some((number, greatest)) => {
            if index <= greatest {
                Some(number)
            } else {
                None
            }
        }
    }
}

/// The first node below `number` that reaches `index`.
fn first_reaching<N: Nodes<L>, L: Ledger>(
    nodes: &N,
    number: u32,
    index: u64,
    steps: &mut Steps<L>,
) -> Node
    requires node { N.is_node nodes.now number }
    requires reaches { index ≤ top (entries (N.below nodes.now number)) }
    ensures first { span_reaching None index (entries (N.below nodes.now number)) ≡ Some
        (span_of result) }
    ensures cost { steps.new ≤ steps.old + height (N.below nodes.now number) }
{
    let node = nodes.visit(number, steps);
    if let Some(left) = child_that_reaches(node.left, index) {
        return first_reaching(nodes, left, index, steps);
    }
    if index <= node.last {
        return node;
    }
    match child_that_reaches(node.right, index) {
        Some(right) => first_reaching(nodes, right, index, steps),
        None => unreachable!(),
    }
}

/// The first node past `after` that reaches `index`.
fn first_past<N: Nodes<L>, L: Ledger>(
    nodes: &N,
    number: Option<u32>,
    index: u64,
    after: Option<(u64, u64)>,
    steps: &mut Steps<L>,
) -> Option<Node>
    requires node { IsNone_or (N.is_node nodes.now) number }
    requires ordered { IsOrdered (entries (tree_at (N.below nodes.now) number)) }
    ensures first { option_map span_of result ≡ span_reaching after index
        (entries (tree_at (N.below nodes.now) number)) }
    ensures cost { steps.new ≤ steps.old + 2 * height (tree_at (N.below nodes.now) number) }
    ensures cost_of_none { result ≡ None → steps.new ≤ steps.old + height
        (tree_at (N.below nodes.now) number) }
{
    let Some(number) = number else {
        return None;
    };
    let node = nodes.visit(number, steps);
    if !comes_after(&node, after) {
        return first_past(
            nodes,
            child_that_reaches(node.right, index),
            index,
            after,
            steps,
        );
    }
    let found = first_past(
        nodes,
        child_that_reaches(node.left, index),
        index,
        after,
        steps,
    );
    if found.is_some() {
        return found;
    }
    if index <= node.last {
        return Some(node);
    }
    match child_that_reaches(node.right, index) {
        Some(right) => Some(first_reaching(nodes, right, index, steps)),
        None => None,
    }
}

/// First index and area of the first span past `after` that overlaps `index`.
pub fn search<N: Nodes<L>, L: Ledger>(
    nodes: &N,
    anon: u64,
    index: u64,
    after: Option<(u64, u64)>,
    steps: &mut Steps<L>,
) -> Option<(u64, u64)>
    ensures first { result ≡ overlap_of after index (entries (N.tree nodes.now anon)) }
    ensures cost { steps.new ≤ steps.old + 2 * (height (N.tree nodes.now anon) + 1) }
{
    let root = nodes.root(anon);
    match first_past(nodes, root, index, after, steps) {
        Some(node) => {
            if node.first <= index {
                Some((node.first, node.area))
            } else {
                None
            }
        }
        None => None,
    }
}

/// How many spans overlap `index`. Each is asked for in turn, until there is none.
pub fn count<N: Nodes<L>, L: Ledger>(nodes: &N, anon: u64, index: u64, steps: &mut Steps<L>) -> u64
    requires room { length (entries (N.tree nodes.now anon)) < 2 ^ 64 }
    ensures count { result ≡ how_many (overlaps index) (entries (N.tree nodes.now anon)) }
    ensures cost { steps.new ≤ steps.old + 2 * ((result + 1) * (height (N.tree nodes.now anon) +
        1)) }
{
    let _ = nodes.root(anon);
    let mut many = 0;
    let mut after = None;
    'each: while let Some(place) = search(nodes, anon, index, after, steps) {
        many += 1;
        after = Some(place);
    }
    many
}
