//! The nodes of all trees, in one keyed store.

ghost use Rattle.std.specs.Prelude.{◌≡◌, ℕ, Some, None, IfOk, OnErr, IsSome};
ghost use Rattle.av_arena.specs.Arena.{entry_put, leaf_of, side_put, store_of};
ghost use Rattle.av_arena.specs.Cell.{node_in};
ghost use Rattle.av_base.specs.Words.{with_at};

use crate::cell::{Cell, Twig};
use crate::link::{Link, Side, Stored};
use std::alloc::{AllocError, Global};
use std::marker::Model;

/// The nodes of all trees, each under a number, seen as the list of the cells that hold one.
///
/// A number that is in use is an index below the number of cells, so nothing tests it.
#[derive(Drop)]
pub struct Arena<T, S> {
    cells: Vec<Cell<T, S>>,
    /// The first cell that holds no node. Each tells the next.
    free: Option<u32>,
}

impl<T, S> Model for Arena<T, S> {
    ghost use Rattle.std.specs.Prelude.{List, Option, map};
    ghost use Rattle.av_arena.specs.Cell.{AreListed, cell_used};
    ghost use Rattle.av_arena.specs.declared.cell.Cell.{Cell};

    ghost Value = { List (Option (Cell T S)) };

    ghost view = { λ a. map cell_used a.cells.items };

    ghost invariant = { λ a. AreListed a.cells.items a.free };
}

impl<T: Copy + Drop, S: Copy + Drop> Arena<T, S> {
    /// No node.
    pub fn new(alloc: Global) -> Arena<T, S>
        ensures { (number : ℕ) → store_of result number ≡ None }
    {
        Arena {
            cells: Vec::new(alloc),
            free: None,
        }
    }

    /// No node, and room for so many: while no more are in use, what is put in asks the host for no
    /// memory and moves no node.
    pub fn with_room(alloc: Global, count: usize) -> Result<Arena<T, S>, AllocError>
        ensures { IfOk result (λ arena. (number : ℕ) → store_of arena number ≡ None) }
    {
        Ok(Arena {
            cells: Vec::with_capacity(alloc, count)?,
            free: None,
        })
    }

    /// Puts an entry, as a node without sides, under a number that is not in use. Without memory
    /// all stays, and where 2^32 numbers are in use, too.
    #[inline(always)]
    pub fn add_leaf(&mut self, entry: T) -> Result<u32, AllocError>
        ensures unused { IfOk result (λ number. store_of self.old number ≡ None) }
        ensures added { IfOk result
            (λ number. store_of self.new
            ≡ with_at number (Some (leaf_of entry)) (store_of self.old)) }
        ensures kept { OnErr result (store_of self.new ≡ store_of self.old) }
    {
        let cell = Cell {
            left: Twig::Bare,
            entry,
            right: Twig::Bare,
        };
        if let Some(number) = self.free {
            self.free = self.cells[number as usize].left.next();
            self.cells[number as usize] = cell;
            return Ok(number);
        }
        let Ok(number) = u32::try_from(self.cells.len()) else {
            return Err(AllocError);
        };
        self.cells.push(cell)?;
        Ok(number)
    }

    /// The node with a number that is in use.
    #[inline(always)]
    pub fn get(&self, number: u32) -> Stored<T, S>
        requires { IsSome (store_of self.now number) }
        ensures { store_of self.now number ≡ Some result }
    {
        self.cells[number as usize].node()
    }

    /// The node with a number that is in use, as it lies here.
    #[inline(always)]
    pub(crate) fn cell(&self, number: u32) -> &Cell<T, S>
        requires { IsSome (store_of self.now number) }
        ensures { store_of self.now number ≡ Some (node_in result.now) }
    {
        &self.cells[number as usize]
    }

    /// Puts a node in place of the one with this number, which is in use.
    #[inline(always)]
    pub fn set(&mut self, number: u32, node: Stored<T, S>)
        requires { IsSome (store_of self.old number) }
        ensures { store_of self.new ≡ with_at number (Some node) (store_of self.old) }
    {
        self.cells[number as usize] = Cell::of(node);
    }

    /// Puts another entry into the node with this number, which is in use.
    #[inline(always)]
    pub fn set_entry(&mut self, number: u32, entry: T)
        requires { IsSome (store_of self.old number) }
        ensures { store_of self.new ≡ with_at number (entry_put entry (store_of self.old number))
            (store_of self.old) }
    {
        self.cells[number as usize].entry = entry;
    }

    /// Puts another tree on a side of the node with this number, which is in use.
    #[inline(always)]
    pub fn set_side(&mut self, number: u32, side: Side, link: Option<Link<S>>)
        requires { IsSome (store_of self.old number) }
        ensures { store_of self.new ≡ with_at number (side_put side link (store_of self.old number))
            (store_of self.old) }
    {
        self.cells[number as usize].set_side(side, link);
    }

    /// Takes out the node with this number, which is in use until now.
    pub fn free(&mut self, number: u32)
        requires { IsSome (store_of self.old number) }
        ensures { store_of self.new ≡ with_at number None (store_of self.old) }
    {
        self.cells[number as usize].left = Twig::Free { next: self.free };
        self.free = Some(number);
    }
}
