//! Which anon_vmas have a tree, and its root.

ghost use Rattle.std.specs.Prelude.{◌≡◌, ℕ, Some, None, MatchResult, OnSome, option_map};
ghost use Rattle.std.specs.Borrow.{LendsSo, sem};
ghost use Rattle.av_interval.specs.Roots.{root_of};
ghost use Rattle.av_base.specs.Words.{with_at};
ghost use Rattle.av_interval.specs.contracts.roots.Roots.{the_row};
ghost use Rattle.av_interval.specs.contracts.roots.Root.{the_row as root_row};

use av_arena::Link;
use std::alloc::{AllocError, Global};
use std::collections::HashMap;

/// A tree that has a node, and how many it has.
#[derive(Clone, Copy, Drop)]
pub struct Root {
    pub tree: Link<u64>,
    pub len: u64,
}

/// The trees that have a node, by anon_vma.
#[derive(Drop)]
pub struct Roots {
    map: HashMap<u64, Root>,
}

impl Roots {
    /// No tree.
    pub fn new(alloc: Global) -> Roots
        ensures { (anon : ℕ) → root_of result anon ≡ None }
    {
        Roots {
            map: HashMap::new(alloc),
        }
    }

    /// The tree of an anon_vma.
    pub fn get(&self, anon: u64) -> Option<Root>
        ensures { result ≡ root_of self.now anon }
    {
        self.map.get(&anon).copied()
    }

    /// The tree of an anon_vma, to change it.
    pub fn get_mut(&mut self, anon: u64) -> Option<&mut Root>
        // The tree that is lent comes back as this anon_vma's, and no other changes.
        ensures* writes_back { sem 𝓛 (LendsSo the_row root_row self.entry result
            (λ n w. OnSome result (root_of n ≡ with_at anon (Some w) (root_of self.old)))
            (λ n. root_of n ≡ root_of self.old)) }
        ensures value { option_map (λ r. r.now) result ≡ root_of self.old anon }
    {
        self.map.get_mut(&anon)
    }

    /// Gives an anon_vma a tree. Without memory all stays.
    pub fn put(&mut self, anon: u64, root: Root) -> Result<(), AllocError>
        ensures { MatchResult result
            (λ _. root_of self.new ≡ with_at anon (Some root) (root_of self.old))
            (λ _. root_of self.new ≡ root_of self.old) }
    {
        self.map.insert(anon, root)?;
        Ok(())
    }

    /// Takes away the tree of an anon_vma.
    pub fn remove(&mut self, anon: u64)
        ensures { root_of self.new ≡ with_at anon None (root_of self.old) }
    {
        let _ = self.map.remove(&anon);
    }
}
