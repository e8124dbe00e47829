//! The memory of all nodes. Only the functions of this file follow a pointer.
ghost use Rattle.std.specs.Prelude.{◌≡◌, List, [], ◌∷◌, ◌++◌, Some, true};
ghost use Rattle.std.specs.Coded.{prop_coded};
ghost use denote.RawPtr.{Ptr};
ghost use Rattle.av_chain.specs.Nodes.{Block, IsApart, IsApart-prop, found, has_place, with_node};
ghost use Rattle.av_chain.specs.Nodes.{without_node};
ghost use Rattle.av_chain.specs.Ownership.{blocks_own, blocks_lent};

use crate::node::{Node, Place};
use crate::parts::Parts;
use std::alloc::Global;
use std::marker::{Model, PhantomData};

/// The owner of the nodes' memory. It takes no space: who has a node's place reaches it through
/// this.
pub(crate) struct Nodes {
    mark: PhantomData<*mut Node>,
    pub(crate) ghost blocks: { List Block },
    pub(crate) ghost apart: { IsApart blocks } by { prop_coded (IsApart-prop blocks) },
}

impl Model for Nodes {
    ghost also_owns = { λ n. blocks_own n.blocks };

    ghost also_shares = { λ n _ κ. blocks_lent n.blocks κ };
}

impl Nodes {
    pub(crate) fn new() -> Nodes
        ensures { result.blocks ≡ [] }
    {
        Nodes { mark: PhantomData }
    }

    /// Every node has been taken out.
    pub(crate) fn end(self)
        requires { self.blocks ≡ [] }
    {
        let Nodes { mark: _ } = self;
    }

    /// Takes in a node, which becomes the last.
    pub(crate) fn put(&mut self, node: Parts<Node, Global>) -> Place
        ensures { self.new.blocks ≡ self.old.blocks ++ (result.ptr, node.value) ∷ [] }
    {
        let Parts { ptr, alloc: _ } = node;
        Place { ptr }
    }

    /// Frees a node.
    pub(crate) fn free(&mut self, alloc: Global, at: Place)
        requires { has_place at.ptr self.old.blocks ≡ true }
        ensures { self.new.blocks ≡ without_node at.ptr self.old.blocks }
    {
        drop(self.take(alloc, at).into_box());
    }

    // Hands out a node's memory.
    fn take(&mut self, alloc: Global, at: Place) -> Parts<Node, Global>
        requires { has_place at.ptr self.old.blocks ≡ true }
        ensures { self.new.blocks ≡ without_node at.ptr self.old.blocks }
    {
        Parts { ptr: at.ptr, alloc }
    }

    pub(crate) fn get(&self, at: Place) -> &Node
        requires { has_place at.ptr self.now.blocks ≡ true }
        ensures { found at.ptr self.now.blocks ≡ Some result.now }
    {
        unsafe { &*at.ptr }
    }

    pub(crate) fn set(&mut self, at: Place, node: Node)
        requires { has_place at.ptr self.old.blocks ≡ true }
        ensures { self.new.blocks ≡ with_node at.ptr node self.old.blocks }
    {
        unsafe { *at.ptr = node };
    }
}
