//! The last level of a page table, and the four levels together.

use crate::dir::Dir;
use crate::level::Level;
use crate::middle::Middle;
use crate::pte::Pte;
use crate::table::{RUN, Table};
use std::alloc::{AllocError, Global};

// An entry is the part that spans one page.
impl Level for Pte {
    ghost use Rattle.std.specs.Prelude.{[]};
    ghost use Rattle.av_pagetable.specs.Dir.{alone};

    ghost at = { alone };

    ghost span = { 1 };

    ghost own = { [] };

    fn span() -> u64 {
        1
    }

    fn new(_alloc: Global) -> Result<Self, AllocError> {
        Ok(Pte::Empty)
    }

    fn is_empty(&self) -> bool {
        match *self {
            Pte::Empty => true,
            Pte::Zero | Pte::Here { .. } | Pte::Away { .. } => false,
        }
    }

    fn get(&self, page: u64) -> Pte {
        if page == 0 { *self } else { Pte::Empty }
    }

    fn get_near(&self, page: u64) -> Option<Pte> {
        if page == 0 { Some(*self) } else { None }
    }

    fn set(&mut self, _page: u64, entry: Pte) -> Result<(), AllocError> {
        *self = entry;
        Ok(())
    }

    fn set_run(&mut self, _page: u64, run: &[Pte]) -> Result<(), AllocError> {
        if !run.is_empty() && run[0] != Pte::Empty {
            *self = run[0];
        }
        Ok(())
    }

    fn change(&mut self, _page: u64, entry: Pte) {
        *self = entry;
    }

    fn change_near(&mut self, _page: u64, entry: Pte) -> bool {
        *self = entry;
        true
    }

    fn clear_range(&mut self, from: u64, past: u64) {
        if from == 0 && 0 < past {
            *self = Pte::Empty;
        }
    }

    fn next_from(&self, page: u64) -> Option<u64> {
        if page == 0 && !self.is_empty() {
            Some(0)
        } else {
            None
        }
    }

    fn first(&self) -> Option<u64> {
        if self.is_empty() { None } else { Some(0) }
    }

    fn for_child(&self) -> Result<Self, AllocError> {
        Ok(Pte::for_child(*self))
    }

    fn write_protect(&mut self) {
        self.protect();
    }

    fn held(&self) -> u64 {
        0
    }
}

/// A page table of four levels of 512 (Linux's PGD, PUD, PMD and PTE tables).
#[derive(Drop)]
pub struct RadixTable {
    top: Dir<Dir<Middle>>,
}

impl Table for RadixTable {
    ghost at = { λ table. ⟦<Dir<Dir<Middle>> as Level>⟧.at table.top };

    ghost use Rattle.std.proofs.Common.{arith};
    ghost use Rattle.av_pagetable.specs.Dir.{none_past};

    ghost ends = { λ table page above.
        none_past _ 134217728 table.top page (Prim.omega arith) above };

    fn new(alloc: Global) -> Result<Self, AllocError> {
        let top = Dir::new(alloc)?;
        Ok(RadixTable { top })
    }

    // A walk's looks are little more than this. No call stands on the short way, so that nothing
    // has to be kept over one.
    #[inline(always)]
    fn get(&self, page: u64) -> Pte {
        match self.top.get_near(page) {
            Some(entry) => entry,
            None => self.find(page),
        }
    }

    fn set(&mut self, page: u64, entry: Pte) -> Result<(), AllocError> {
        self.top.set(page, entry)
    }

    fn set_run(&mut self, page: u64, run: &[Pte]) -> Result<(), AllocError> {
        self.top.set_run(page, run)
    }

    // As `get`, a short way on which no call stands.
    #[inline]
    fn change(&mut self, page: u64, entry: Pte) {
        if !self.top.change_near(page, entry) {
            self.find_and_change(page, entry);
        }
    }

    fn clear_range(&mut self, from: u64, past: u64) {
        self.top.clear_range(from, past);
    }

    fn next_from(&self, page: u64) -> Option<u64> {
        self.top.next_from(page)
    }

    fn read_run(&self, page: u64, run: &mut [Pte; RUN]) -> usize {
        match self.leaf(page / 512) {
            Some(leaf) => leaf.read_run(page % 512, run),
            None => {
                run[0] = Pte::Empty;
                1
            }
        }
    }

    fn for_child(&self, _alloc: Global) -> Result<Self, AllocError> {
        let top = self.top.for_child()?;
        Ok(RadixTable { top })
    }

    fn write_protect(&mut self) {
        self.top.write_protect();
    }

    fn clear(&mut self) {
        self.top.clear();
    }
}

impl RadixTable {
    ghost use Rattle.std.specs.Prelude.{◌≡◌, ℕ, ◌+◌, ◌*◌, ◌<◌, MatchOption};
    ghost use Rattle.av_base.specs.Words.{with_at};
    ghost use Rattle.av_pagetable.specs.Held.{IsHeld};
    ghost use Rattle.av_pagetable.specs.declared.pte.Pte.{Pte};

    // The entry of a page, wherever it stands.
    #[inline(never)]
    fn find(&self, page: u64) -> Pte
        ensures { result ≡ ⟦<RadixTable as Table>⟧.at self.now page }
    {
        self.top.get(page)
    }

    // Changes an entry that is there, wherever it stands.
    #[inline(never)]
    fn find_and_change(&mut self, page: u64, entry: Pte)
        requires some { entry ≡ Pte.Empty → ⊥ }
        requires there { ⟦<RadixTable as Table>⟧.at self.old page ≡ Pte.Empty → ⊥ }
        ensures { ⟦<RadixTable as Table>⟧.at self.new
            ≡ with_at page entry (⟦<RadixTable as Table>⟧.at self.old) }
    {
        self.top.change(page, entry);
    }

    // The last table of this number, if there is one: of those that span 512 pages each.
    fn leaf(&self, number: u64) -> Option<&Dir<Pte>>
        ensures { MatchOption result
            ((i : ℕ) → i < 512
            → ⟦<RadixTable as Table>⟧.at self.now (number * 512 + i) ≡ Pte.Empty)
            (λ leaf. (i : ℕ) → i < 512
            → ⟦<RadixTable as Table>⟧.at self.now (number * 512 + i)
            ≡ ⟦<Dir<Pte> as Level>⟧.at leaf.now i) }
    {
        let rest = number % 0x40000;
        let upper = self.top.part(number / 0x40000)?;
        let middle = upper.part(rest / 512)?;
        middle.leaf(rest % 512)
    }

    /// How many tables there are: 1, and one more for each part of a level that has an entry.
    pub fn held(&self) -> u64
        ensures { IsHeld (⟦<RadixTable as Table>⟧.at self.now) result }
    {
        self.top.below() + 1
    }
}
