//! The third level of a page table.

use crate::dir::Dir;
use crate::level::Level;
use crate::pte::Pte;
use std::alloc::{AllocError, Global};

/// A table of 512 last tables (Linux's PMD table): the lower two of the four levels.
///
/// A type of its own and not `Dir<Dir<Pte>>`, since a proof about a type goes through all that it
/// is made of, again wherever it is used.
#[derive(Drop)]
pub struct Middle {
    tables: Dir<Dir<Pte>>,
}

impl Middle {
    ghost use Rattle.std.specs.Prelude.{◌≡◌, option_map};
    ghost use Rattle.av_pagetable.specs.Dir.{part_of};

    /// The last table of this number, if there is one.
    #[inline(always)]
    pub fn leaf(&self, number: u64) -> Option<&Dir<Pte>>
        ensures { option_map (λ leaf. leaf.now) result ≡ part_of self.now.tables number }
    {
        self.tables.part(number)
    }
}

impl Level for Middle {
    ghost use Rattle.std.specs.Prelude.{[], ◌∷◌};

    ghost at = { λ middle. ⟦<Dir<Dir<Pte>> as Level>⟧.at middle.tables };

    ghost span = { 262144 };

    ghost own = { 262144 ∷ 512 ∷ [] };

    #[inline(always)]
    fn span() -> u64 {
        <Dir<Dir<Pte>> as Level>::span()
    }

    #[inline(always)]
    fn new(alloc: Global) -> Result<Self, AllocError> {
        let tables = Dir::new(alloc)?;
        Ok(Middle { tables })
    }

    #[inline(always)]
    fn is_empty(&self) -> bool {
        self.tables.is_empty()
    }

    #[inline(always)]
    fn get(&self, page: u64) -> Pte {
        self.tables.get(page)
    }

    #[inline(always)]
    fn get_near(&self, page: u64) -> Option<Pte> {
        self.tables.get_near(page)
    }

    #[inline(always)]
    fn set(&mut self, page: u64, entry: Pte) -> Result<(), AllocError> {
        self.tables.set(page, entry)
    }

    #[inline(always)]
    fn set_run(&mut self, page: u64, run: &[Pte]) -> Result<(), AllocError> {
        self.tables.set_run(page, run)
    }

    #[inline(always)]
    fn change(&mut self, page: u64, entry: Pte) {
        self.tables.change(page, entry);
    }

    #[inline(always)]
    fn change_near(&mut self, page: u64, entry: Pte) -> bool {
        self.tables.change_near(page, entry)
    }

    #[inline(always)]
    fn clear_range(&mut self, from: u64, past: u64) {
        self.tables.clear_range(from, past);
    }

    #[inline(always)]
    fn next_from(&self, page: u64) -> Option<u64> {
        self.tables.next_from(page)
    }

    #[inline(always)]
    fn first(&self) -> Option<u64> {
        self.tables.first()
    }

    #[inline(always)]
    fn for_child(&self) -> Result<Self, AllocError> {
        let tables = self.tables.for_child()?;
        Ok(Middle { tables })
    }

    #[inline(always)]
    fn write_protect(&mut self) {
        self.tables.write_protect();
    }

    #[inline(always)]
    fn held(&self) -> u64 {
        self.tables.held()
    }
}
