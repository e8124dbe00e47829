//! An ordered set of entries as a balanced tree that owns its nodes.

ghost use Rattle.std.specs.Prelude.{◌≡◌, ◌+◌, ◌^◌, ◌<◌, [], None, is_ok, length, IsSome};
ghost use Rattle.std.specs.Prelude.{IfOk, MatchOption, OnOk, ◌++◌, if◌then◌else◌};
ghost use Rattle.av_arena.specs.Order.{NoneBetween, NoneWithin, entry_at, with_entry, with_joined};
ghost use Rattle.av_arena.specs.Order.{with_two, without_key};
ghost use Rattle.av_arena.specs.Avl.{IsLonger, IsParts};
ghost use Rattle.av_arena.specs.Monoid.{total};

use crate::arena::Arena;
use crate::cell::Twig;
use crate::entry::Entry;
use crate::link::Link;
use crate::tree::{join, open_cell, place, remove, replace, split, sum_in};
use std::alloc::{AllocError, Global};
use std::marker::Model;

/// Entries in the order of their keys, no key twice, in one tree with an arena of its own.
#[derive(Drop)]
pub struct Avl<T: Entry> {
    arena: Arena<T, T::Sum>,
    root: Option<Link<T::Sum>>,
}

impl<T: Entry> Model for Avl<T> {
    ghost use Rattle.std.specs.Prelude.{List};
    ghost use Rattle.av_arena.specs.Arena.{store_of};
    ghost use Rattle.av_arena.specs.Avl.{IsAvl};
    ghost use Rattle.av_arena.specs.Tree.{entries_at};

    ghost Value = { List T };

    ghost view = { λ a. entries_at (store_of a.arena) a.root };

    ghost invariant = { λ a. IsAvl T.key T.unit T.op T.of (store_of a.arena) a.root };
}

/// A tree or one side of a node, to be read.
#[derive(Drop)]
pub struct Part<'a, T: Entry> {
    arena: &'a Arena<T, T::Sum>,
    tree: Twig<T::Sum>,
}

impl<'a, T: Entry> Model for Part<'a, T> {
    ghost use Rattle.std.specs.Prelude.{List};
    ghost use Rattle.av_arena.specs.Arena.{store_of};
    ghost use Rattle.av_arena.specs.Cell.{link_in};
    ghost use Rattle.av_arena.specs.Avl.{IsPart};
    ghost use Rattle.av_arena.specs.Tree.{entries_at};

    ghost Value = { List T };

    ghost view = { λ p. entries_at (store_of p.arena.now) (link_in p.tree) };

    ghost invariant = { λ p. IsPart T.key T.unit T.op T.of (store_of p.arena.now)
        (link_in p.tree) };
}

impl<T: Entry> Avl<T> {
    /// A tree with no entry.
    pub fn new(alloc: Global) -> Avl<T>
        ensures empty { result ≡ [] }
    {
        Avl {
            arena: Arena::new(alloc),
            root: None,
        }
    }

    /// A tree with no entry, and room for so many: while it has no more, what is put in asks the
    /// host for no memory and moves no node.
    pub fn with_room(alloc: Global, count: usize) -> Result<Avl<T>, AllocError>
        ensures empty { IfOk result (λ tree. tree ≡ []) }
    {
        Ok(Avl {
            arena: Arena::with_room(alloc, count)?,
            root: None,
        })
    }

    /// The whole tree, to be read.
    #[inline]
    pub fn part(&self) -> Part<'_, T>
        ensures { result ≡ self.now }
    {
        Part {
            arena: &self.arena,
            tree: Twig::of(self.root),
        }
    }

    /// Puts `entry` in, whose key is not there. Without memory all stays.
    pub fn insert(&mut self, entry: T) -> Result<(), AllocError>
        requires room { length self.old + 1 < 2 ^ 63 }
        requires other { entry_at T.key (T.key entry) self.old ≡ None }
        ensures entries { self.new ≡ (if is_ok result then with_entry T.key entry self.old else
            self.old) }
    {
        let number = match self.arena.add_leaf(entry) {
            Ok(number) => number,
            Err(error) => return Err(error),
        };
        let root = place(&mut self.arena, self.root, number, entry);
        self.root = Some(root);
        Ok(())
    }

    /// Puts `lower` in the place of the entry with its key, which is there, and `upper` right after
    /// it. Without memory all stays.
    pub fn split(&mut self, lower: T, upper: T) -> Result<(), AllocError>
        requires room { length self.old + 1 < 2 ^ 63 }
        requires there { IsSome (entry_at T.key (T.key lower) self.old) }
        requires after { T.key lower < T.key upper }
        requires next { NoneBetween T.key (T.key lower) (T.key upper) self.old }
        ensures entries { self.new ≡ (if is_ok result then with_two T.key lower upper self.old else
            self.old) }
    {
        let number = match self.arena.add_leaf(upper) {
            Ok(number) => number,
            Err(error) => return Err(error),
        };
        let root = split(&mut self.arena, self.root, number, lower, upper);
        self.root = Some(root);
        Ok(())
    }

    /// Puts `joined`, which has the key of `lower`, in the place of two entries that are there:
    /// those with the keys of `lower` and of `upper`, which comes right after it. It takes no
    /// memory.
    pub fn join(&mut self, lower: T, upper: T, joined: T)
        requires room { length self.old < 2 ^ 63 }
        requires there { IsSome (entry_at T.key (T.key lower) self.old) }
        requires upper { IsSome (entry_at T.key (T.key upper) self.old) }
        requires after { T.key lower < T.key upper }
        requires next { NoneWithin T.key (T.key lower) (T.key upper) self.old }
        requires same { T.key joined ≡ T.key lower }
        ensures entries { self.new ≡ with_joined T.key lower upper joined self.old }
    {
        let (number, root) = join(&mut self.arena, self.root, lower, upper, joined);
        self.arena.free(number);
        self.root = Some(root);
    }

    /// Takes out the entry with the key of `like`, which is there. It takes no memory.
    pub fn remove(&mut self, like: T)
        requires room { length self.old < 2 ^ 63 }
        requires there { IsSome (entry_at T.key (T.key like) self.old) }
        ensures entries { self.new ≡ without_key T.key (T.key like) self.old }
    {
        let (number, root) = remove(&mut self.arena, self.root, like);
        self.arena.free(number);
        self.root = root;
    }

    /// Puts `entry` in the place of the one with its key, which is there. It takes no memory: the
    /// node is used again.
    pub fn replace(&mut self, entry: T)
        requires room { length self.old < 2 ^ 63 }
        requires there { IsSome (entry_at T.key (T.key entry) self.old) }
        ensures entries { self.new ≡ with_entry T.key entry
            (without_key T.key (T.key entry) self.old) }
    {
        let root = replace(&mut self.arena, self.root, entry);
        self.root = Some(root);
    }
}

impl<'a, T: Entry> Part<'a, T> {
    /// The summary of all entries.
    #[inline]
    pub fn sum(&self) -> T::Sum
        ensures { result ≡ total T.unit T.op T.of self.now }
    {
        sum_in::<T>(&self.tree)
    }

    /// Adds the entries in the order of their keys. It takes time linear in their number.
    ///
    /// Without memory none is added.
    pub fn append_to(&self, entries: &mut Vec<T>) -> Result<(), AllocError>
        ensures { entries.new.items ≡ (if is_ok result then entries.old.items ++ self.now else
            entries.old.items) }
    {
        let before = entries.len();
        let added = self.push_each(entries);
        if added.is_err() {
            entries.truncate(before);
        }
        added
    }

    /// Without memory those that were pushed until then stay at the end.
    fn push_each(&self, entries: &mut Vec<T>) -> Result<(), AllocError>
        ensures all { OnOk result (entries.new.items ≡ entries.old.items ++ self.now) }
        ensures longer { IsLonger entries.old.items entries.new.items }
    {
        let Some((left, entry, right)) = self.parts() else {
            return Ok(());
        };
        left.push_each(entries)?;
        entries.push(entry)?;
        right.push_each(entries)
    }

    /// The entry at the root, with what lies before and after it, or none where the tree is empty.
    #[inline]
    pub fn parts(&self) -> Option<(Part<'a, T>, T, Part<'a, T>)>
        ensures parts { MatchOption result (self.now ≡ [])
            (λ p. IsParts T.key self.now p.0 p.1 p.2) }
    {
        let Some(tree) = self.tree.link() else {
            return None;
        };
        let cell = open_cell(self.arena, tree);
        let before = Part {
            arena: self.arena,
            tree: cell.left,
        };
        let after = Part {
            arena: self.arena,
            tree: cell.right,
        };
        Some((before, cell.entry, after))
    }
}
