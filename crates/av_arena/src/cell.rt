//! How a node lies in its arena: in fewer bytes than its two links take.
//!
//! On the way down and up a tree a cell is read where it lies, and no more of it than is asked
//! for: a whole `Stored` costs a branch and a copy for each side.
//!
//! That a cell is free stands where its left tree would: so it takes no bytes beside the node, and
//! whoever asks for a node that is in use tests nothing.

ghost use Rattle.std.specs.Prelude.{◌≡◌, false};
ghost use Rattle.av_arena.specs.Arena.{on_side, with_side};
ghost use Rattle.av_arena.specs.Below.{number_of};
ghost use Rattle.av_arena.specs.Tree.{height_of};
ghost use Rattle.av_arena.specs.Cell.{is_free, link_in, next_in, node_in};

use crate::link::{Link, Side, Stored};

/// The tree on a side of a node. The parts of its link stand beside the mark that there is one: so
/// it takes 16 bytes where a summary takes eight, and an `Option<Link>` 24.
///
/// The left one of a cell that holds no node tells the next such cell.
#[derive(Clone, Copy, Drop)]
pub enum Twig<S> {
    Bare,
    Tree { height: u8, number: u32, sum: S },
    Free { next: Option<u32> },
}

/// A node, as it lies in its arena.
#[derive(Clone, Copy, Drop)]
pub struct Cell<T, S> {
    pub(crate) left: Twig<S>,
    pub(crate) entry: T,
    pub(crate) right: Twig<S>,
}

impl<S: Copy + Drop> Twig<S> {
    /// The tree that a link tells, if there is one.
    #[inline(always)]
    pub(crate) fn of(link: Option<Link<S>>) -> Twig<S>
        ensures link { link_in result ≡ link }
        ensures used { is_free result ≡ false }
    {
        match link {
            None => Twig::Bare,
            Some(
                Link {
                    number,
                    height,
                    sum,
                },
            ) => Twig::Tree {
                height,
                number,
                sum,
            },
        }
    }

    /// The link that tells the tree, if there is one.
    #[inline(always)]
    pub(crate) fn link(&self) -> Option<Link<S>>
        ensures { result ≡ link_in self.now }
    {
        match self {
            Twig::Tree {
                height,
                number,
                sum,
            } => Some(Link {
                number: *number,
                height: *height,
                sum: *sum,
            }),
            _ => None,
        }
    }

    /// The number of the tree's root, if there is one.
    #[inline(always)]
    pub(crate) fn number(&self) -> Option<u32>
        ensures { result ≡ number_of (link_in self.now) }
    {
        match self {
            Twig::Tree { number, .. } => Some(*number),
            _ => None,
        }
    }

    /// The height of the tree.
    #[inline(always)]
    pub(crate) fn height(&self) -> u8
        ensures { result ≡ height_of (link_in self.now) }
    {
        match self {
            Twig::Tree { height, .. } => *height,
            _ => 0,
        }
    }

    /// The next free cell after one whose left tree this is, which is free.
    #[inline(always)]
    pub(crate) fn next(&self) -> Option<u32>
        ensures { result ≡ next_in self.now }
    {
        match self {
            Twig::Free { next } => *next,
            _ => None,
        }
    }
}

impl<T: Copy + Drop, S: Copy + Drop> Cell<T, S> {
    #[inline(always)]
    pub(crate) fn of(node: Stored<T, S>) -> Cell<T, S>
        ensures node { node_in result ≡ node }
        ensures used { is_free result.left ≡ false }
    {
        let Stored { left, entry, right } = node;
        Cell {
            left: Twig::of(left),
            entry,
            right: Twig::of(right),
        }
    }

    #[inline(always)]
    pub(crate) fn node(&self) -> Stored<T, S>
        ensures { result ≡ node_in self.now }
    {
        Stored {
            left: self.left.link(),
            entry: self.entry,
            right: self.right.link(),
        }
    }

    /// What lies on a side.
    #[inline(always)]
    pub(crate) fn twig(&self, side: Side) -> &Twig<S>
        ensures { link_in result.now ≡ on_side side (node_in self.now) }
    {
        match side {
            Side::Left => &self.left,
            Side::Right => &self.right,
        }
    }

    /// Puts another tree on a side.
    #[inline(always)]
    pub(crate) fn set_side(&mut self, side: Side, link: Option<Link<S>>)
        ensures node { node_in self.new ≡ with_side side link (node_in self.old) }
        ensures used { is_free self.old.left ≡ false → is_free self.new.left ≡ false }
    {
        let twig = Twig::of(link);
        match side {
            Side::Left => self.left = twig,
            Side::Right => self.right = twig,
        }
    }
}
