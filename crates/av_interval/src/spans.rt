//! The trees of all anon_vmas, with the calls that change them.

ghost use Rattle.std.specs.Prelude.{◌≡◌, ℕ, ◌+◌, ◌*◌, ◌^◌, ◌<◌, ◌≤◌, [], is_ok, length, take};
ghost use Rattle.std.specs.Prelude.{IsSome, None, OnErr, if◌then◌else◌, ◌∷◌};
ghost use Rattle.av_arena.specs.Order.{entry_at, with_entry, without_key};
ghost use Rattle.av_interval.specs.Spans.{IsNew, height_at, root_in, tree_of, triples};
ghost use Rattle.av_interval.specs.Span.{triple};
ghost use Rattle.av_interval.specs.Search.{IsOrdered, overlap_of};
ghost use Rattle.av_interval.specs.Batch.{overlaps_past};
ghost use Rattle.arrayvec.specs.ArrayVec.{array_vec_len};
ghost use Rattle.av_interval.specs.Roots.{len_of, top_of};
ghost use Rattle.av_interval.specs.Nodes.{child_of};
ghost use Rattle.av_base.specs.Words.{with_at};
ghost use Rattle.av_interval.specs.Span.{key, key_of};

use crate::batch::{BATCH, Batch, search_batch};
use crate::nodes::{Node, Nodes};
use crate::roots::{Root, Roots};
use crate::search::search;
use crate::span::Span;
use av_arena::{Arena, Link, place, remove, replace};
use av_base::Steps;
use std::alloc::{AllocError, Global};
use std::marker::Model;
use std::sync::ledger::Ledger;

/// For each anon_vma the spans of the areas that are linked to it, in a tree balanced by height.
#[derive(Drop)]
pub struct Spans {
    arena: Arena<Span, u64>,
    roots: Roots,
}

impl Model for Spans {
    ghost use Rattle.std.specs.Prelude.{ℕ, List, Option};
    ghost use Rattle.av_arena.specs.declared.cell.Cell.{Cell};
    ghost use Rattle.av_interval.specs.declared.roots.Root.{Root};
    ghost use Rattle.av_interval.specs.declared.span.Span.{Span};
    ghost use Rattle.av_arena.specs.Arena.{store_of};
    ghost use Rattle.av_interval.specs.Roots.{root_of};
    ghost use Rattle.av_interval.specs.Spans.{IsForest};

    ghost Value = { List (Option (Cell Span ℕ)) × List (ℕ × Root) };

    ghost view = { λ s. (s.arena, s.roots.map.entries) };

    ghost invariant = { λ s. IsForest (store_of s.arena) (root_of s.roots) };
}

impl Spans {
    /// No span at all.
    pub fn new(alloc: Global) -> Spans
        ensures { (anon : ℕ) → triples result anon ≡ [] }
    {
        Spans {
            arena: Arena::new(alloc),
            roots: Roots::new(alloc),
        }
    }

    /// Links an area, new to the anon_vma, with its first and last index. Without memory all stays.
    pub fn add(&mut self, anon: u64, first: u64, last: u64, area: u64) -> Result<(), AllocError>
        requires other { IsNew area (triples self.old anon) }
        ensures spans { (a : ℕ) → triples self.new
            a ≡ (if is_ok result then with_at anon
            (with_entry key (triple first last area) (triples self.old anon)) (triples self.old) a
            else triples self.old a) }
        ensures kept { OnErr result ((a : ℕ) → tree_of self.new a ≡ tree_of self.old a) }
    {
        let span = Span { first, last, area };
        let Some(root) = self.roots.get_mut(anon) else {
            return self.add_first(anon, span);
        };
        let Some(len) = root.len.checked_add(1) else {
            return Err(AllocError);
        };
        let number = match self.arena.add_leaf(span) {
            Ok(number) => number,
            Err(error) => return Err(error),
        };
        root.tree = place(&mut self.arena, Some(root.tree), number, span);
        root.len = len;
        Ok(())
    }

    // Links an area to an anon_vma that has no tree. Without memory all stays.
    fn add_first(&mut self, anon: u64, span: Span) -> Result<(), AllocError>
        requires none { root_in self.old anon ≡ None }
        requires fits { span.area < 2 ^ 64 }
        ensures spans { (a : ℕ) → triples self.new a ≡ (if is_ok result
            then with_at anon (span ∷ []) (triples self.old) a else triples self.old a) }
        ensures kept { OnErr result ((a : ℕ) → tree_of self.new a ≡ tree_of self.old a) }
    {
        let number = match self.arena.add_leaf(span) {
            Ok(number) => number,
            Err(error) => return Err(error),
        };
        let tree = place(&mut self.arena, None, number, span);
        match self.roots.put(anon, Root { tree, len: 1 }) {
            Ok(()) => Ok(()),
            Err(error) => {
                self.arena.free(number);
                Err(error)
            }
        }
    }

    /// Takes out the span of an area that is there, and begins at the index `first`. It takes no
    /// memory.
    pub fn remove(&mut self, anon: u64, first: u64, area: u64)
        requires there { IsSome (entry_at key (key_of first area) (triples self.old anon)) }
        ensures { (a : ℕ) → triples self.new a ≡ with_at anon
            (without_key key (key_of first area) (triples self.old anon)) (triples self.old) a }
    {
        let Some(root) = self.roots.get_mut(anon) else {
            unreachable!()
        };
        let like = Span {
            first,
            last: first,
            area,
        };
        is_few(root.len);
        let (number, rest) = remove(&mut self.arena, Some(root.tree), like);
        self.arena.free(number);
        match rest {
            None => self.roots.remove(anon),
            Some(tree) => {
                root.tree = tree;
                root.len -= 1;
            }
        }
    }

    /// Gives the span of an area that is there, and begins at the index `first`, another last
    /// index. It takes no memory.
    pub fn resize(&mut self, anon: u64, first: u64, last: u64, area: u64)
        requires there { IsSome (entry_at key (key_of first area) (triples self.old anon)) }
        ensures { (a : ℕ) → triples self.new a ≡ with_at anon
            (with_entry key (triple first last area)
            (without_key key (key_of first area) (triples self.old anon))) (triples self.old) a }
    {
        let Some(root) = self.roots.get_mut(anon) else {
            unreachable!()
        };
        let span = Span { first, last, area };
        is_few(root.len);
        root.tree = replace(&mut self.arena, Some(root.tree), span);
    }

    /// First index and area of the first span past `after` that overlaps `index`. It takes no
    /// memory.
    pub fn overlap<L: Ledger>(
        &self,
        anon: u64,
        index: u64,
        after: Option<(u64, u64)>,
        steps: &mut Steps<L>,
    ) -> Option<(u64, u64)>
        ensures first { result ≡ overlap_of after index (triples self.now anon) }
        ensures cost { steps.new ≤ steps.old + 2 * (height_at self.now anon + 1) }
        ensures shallow { 2 ^ height_at self.now anon ≤ (length (triples self.now anon) + 1) *
            (length (triples self.now anon) + 1) }
    {
        // What keeps the trees shallow is the value's own, which a look at a part of it opens.
        let _ = &self.arena;
        search(self, anon, index, after, steps)
    }

    /// Fills a batch anew: first index and area of the next spans past `after` that overlap
    /// `index`, as many as it has room for. It takes no memory.
    pub fn overlaps<L: Ledger>(
        &self,
        anon: u64,
        index: u64,
        after: Option<(u64, u64)>,
        found: &mut Batch,
        steps: &mut Steps<L>,
    )
        ensures found { found.new.items ≡ take BATCH
            (overlaps_past after index (triples self.now anon)) }
        ensures ordered { IsOrdered (triples self.now anon) }
        ensures cost { steps.new ≤ steps.old
            + (array_vec_len found.new + 2) * height_at self.now anon }
        ensures shallow { 2 ^ height_at self.now anon ≤ (length (triples self.now anon) + 1) *
            (length (triples self.now anon) + 1) }
    {
        let _ = &self.roots;
        search_batch(self, anon, index, after, found, steps);
    }

    /// How many spans an anon_vma has.
    pub fn len(&self, anon: u64) -> u64
        ensures { result ≡ length (triples self.now anon) }
    {
        len(self.roots.get(anon))
    }
}

// How many spans a tree has is a number of the machine: a law, which keeps the tree low.
fn is_few(len: u64)
    ensures { len < 2 ^ 64 }
{}

fn top(root: Option<Root>) -> Option<Link<u64>>
    ensures { result ≡ top_of root }
{
    match root {
        None => None,
        Some(root) => Some(root.tree),
    }
}

fn len(root: Option<Root>) -> u64
    ensures { result ≡ len_of root }
{
    match root {
        None => 0,
        Some(root) => root.len,
    }
}

fn child(tree: Option<Link<u64>>) -> Option<(u32, u64)>
    ensures { result ≡ child_of tree }
{
    match tree {
        None => None,
        Some(link) => Some((link.number, link.sum)),
    }
}

impl<L: Ledger> Nodes<L> for Spans {
    ghost use Rattle.av_interval.specs.Spans.{IsNode, below, tree_of};

    ghost tree = { tree_of };

    ghost is_node = { IsNode };

    ghost below = { below };

    fn root(&self, anon: u64) -> Option<u32> {
        match top(self.roots.get(anon)) {
            None => None,
            Some(tree) => Some(tree.number),
        }
    }

    fn visit(&self, node: u32, steps: &mut Steps<L>) -> Node {
        steps.tick();
        let stored = self.arena.get(node);
        Node {
            first: stored.entry.first,
            last: stored.entry.last,
            area: stored.entry.area,
            left: child(stored.left),
            right: child(stored.right),
        }
    }
}
