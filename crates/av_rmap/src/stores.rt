//! The stores of a memory system, as a walk reads them.

ghost use Rattle.std.specs.Prelude.{◌≡◌, ℕ, Bool, ◌<◌, take};
ghost use Rattle.std.specs.Borrow.{GName};
ghost use Rattle.av_pagetable.specs.Entries.{has};
ghost use Rattle.av_interval.specs.Batch.{overlaps_past};
ghost use Rattle.av_interval.specs.Search.{IsOrdered};
ghost use Rattle.av_interval.specs.Spans.{triples};
ghost use Rattle.av_rmap.specs.Stores.{view_of, view_of_mut};

use crate::look::{Look, LookMut};
use av_anon::Anons;
use av_base::{PAGE_SIZE, Steps};
use av_interval::{BATCH, Batch, Spans};
use av_pagetable::{PageTable, Pte, Tables};
use av_vma::Areas;
use std::marker::Brand;
use std::sync::ledger::{Blank, Ledger};

/// Areas, anon_vmas with their links and spans, and page tables, lent for reading.
#[derive(Drop)]
pub struct Stores<'a> {
    pub areas: &'a Areas,
    pub anons: &'a Anons,
    pub tables: &'a Tables<PageTable>,
}

impl<'a, L: Ledger> Look<L> for Stores<'a> {
    ghost view = { view_of };

    fn next(&self, anon: u64, index: u64, after: Option<(u64, u64)>, found: &mut Batch) {
        overlaps::<Brand>(self.anons.spans(), anon, index, after, found, Blank::new(1));
    }

    fn place(&self, area: u64, index: u64) -> (u16, u64) {
        let area = self.areas.get(area);
        (area.pid, area.start / PAGE_SIZE + (index - area.pgoff))
    }

    #[inline(always)]
    fn look(&self, process: u16, page: u64, steps: &mut Steps<L>) -> Pte {
        steps.tick();
        self.tables.get(process, page)
    }
}

/// The same, with page tables lent for writing.
#[derive(Drop)]
pub struct StoresMut<'a> {
    pub areas: &'a Areas,
    pub anons: &'a Anons,
    pub tables: &'a mut Tables<PageTable>,
}

impl<'a> StoresMut<'a> {
    /// The same stores, lent for reading.
    fn stores(&self) -> Stores<'_>
        ensures { view_of result ≡ view_of_mut self.now }
    {
        Stores {
            areas: self.areas,
            anons: self.anons,
            tables: &*self.tables,
        }
    }
}

impl<'a, L: Ledger> Look<L> for StoresMut<'a> {
    ghost view = { view_of_mut };

    fn next(&self, anon: u64, index: u64, after: Option<(u64, u64)>, found: &mut Batch) {
        Look::<L>::next(&self.stores(), anon, index, after, found);
    }

    fn place(&self, area: u64, index: u64) -> (u16, u64) {
        Look::<L>::place(&self.stores(), area, index)
    }

    #[inline(always)]
    fn look(&self, process: u16, page: u64, steps: &mut Steps<L>) -> Pte {
        self.stores().look(process, page, steps)
    }
}

impl<'a, L: Ledger> LookMut<L> for StoresMut<'a> {
    // It is lent the same tables, of the same processes.
    ghost Kept = { GName × (ℕ → Bool) };

    ghost kept = { λ s. (s.tables.ghost_name, has s.tables.now) };

    fn change(&mut self, process: u16, page: u64, entry: Pte) {
        self.tables.change(process, page, entry);
    }
}

/// `Spans::overlaps`, whose visits nobody counts.
fn overlaps<L: Ledger>(
    spans: &Spans,
    anon: u64,
    index: u64,
    after: Option<(u64, u64)>,
    found: &mut Batch,
    blank: Blank,
)
    requires name { blank.name ≡ L.name }
    requires parts { blank.parts ≡ L.parts }
    requires some { 0 < blank.parts }
    ensures found { found.new.items
        ≡ take BATCH (overlaps_past after index (triples spans.now anon)) }
    ensures ordered { IsOrdered (triples spans.now anon) }
{
    let mut visits = Steps::<L>::open(blank);
    spans.overlaps(anon, index, after, found, &mut visits);
}
