//! What a walk reads: spans, areas and page tables, and nothing else; and the one thing that is
//! written: an entry that is there.

ghost use Rattle.std.specs.Prelude.{◌≡◌, ◌+◌, true, take, IfSome, IsSomeAnd};
ghost use Rattle.av_interval.specs.Batch.{overlaps_past};
ghost use Rattle.av_pagetable.specs.Entries.{with_entry};
ghost use Rattle.av_interval.specs.Search.{IsOrdered};
ghost use Rattle.av_rmap.specs.View.{View};
ghost use Rattle.av_rmap.specs.Walk.{holds, page_at};

use av_base::Steps;
use av_interval::{BATCH, Batch};
use av_pagetable::Pte;
use std::sync::ledger::Ledger;

pub trait Look<L: Ledger> {
    // The areas with their chains, the spans of each anon_vma, and the entries.
    ghost view: { Self → View };

    /// Fills a batch anew: first index and area of the next spans past `after` that overlap
    /// `index`, of the areas that are linked to an anon_vma, as many as it has room for.
    fn next(&self, anon: u64, index: u64, after: Option<(u64, u64)>, found: &mut Batch)
        ensures found { found.new.items ≡ take BATCH
            (overlaps_past after index ((view self.now).spans anon)) }
        ensures ordered { IsOrdered ((view self.now).spans anon) };

    /// The process of an area that holds `index`, and its page there.
    fn place(&self, area: u64, index: u64) -> (u16, u64)
        requires { IsSomeAnd ((view self.now).areas area) (λ a. holds index a ≡ true) }
        ensures { IfSome ((view self.now).areas area) (λ a. result ≡ (a.pid, page_at index a)) };

    /// The entry of a page. This is the one call that takes a step.
    fn look(&self, process: u16, page: u64, steps: &mut Steps<L>) -> Pte
        ensures entry { result ≡ (view self.now).entry process page }
        ensures counted { steps.new ≡ steps.old + 1 };
}

pub trait LookMut<L: Ledger>: Look<L> {
    // What a change leaves as it was, beside what a walk reads.
    ghost Kept: { Type 0 };

    ghost kept: { Self → Self.Kept };

    /// Puts an entry in place of one that is there. It takes no step, so it isn't counted.
    fn change(&mut self, process: u16, page: u64, entry: Pte)
        requires some { entry ≡ Pte.Empty → ⊥ }
        requires there { (Self.view self.old).entry process page ≡ Pte.Empty → ⊥ }
        ensures changed { Self.view self.new ≡ record (Self.view self.old) {
          entry = with_entry process page entry (Self.view self.old).entry;
        } }
        ensures kept { Self.kept self.new ≡ Self.kept self.old };
}
