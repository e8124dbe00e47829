//! An area leaves its anon_vmas (Linux's unlink_anon_vmas).
ghost use Rattle.std.specs.Prelude.{◌≡◌, ℕ, ◌+◌, [], true, if◌then◌else◌, length, None, IsSome};
ghost use Rattle.av_base.specs.Words.{is_in, with_at};
ghost use Rattle.av_chain.specs.Links.{chain_of, left_by_all};
ghost use Rattle.av_arena.specs.Order.{entry_at};
ghost use Rattle.av_interval.specs.Span.{key, key_of};
ghost use Rattle.av_interval.specs.Spans.{triples};
ghost use Rattle.av_vma.specs.Areas.{area_of};
ghost use Rattle.av_anon.specs.Anons.{family, give_own, is_empty, own_of, IsRising};
ghost use Rattle.av_anon.specs.Infos.{info_in};
ghost use Rattle.av_anon.specs.Order.{IsInOrder};
ghost use Rattle.av_anon.specs.Spans.{spans_of, spans_without, GoWithLinks};
ghost use Rattle.av_anon.specs.Unlink.{info_without, without_anon, without_links, after_unlink};

use crate::anons::Anons;
use crate::infos::Infos;
use crate::links::UserRing;
use av_base::Steps;
use av_interval::Spans;
use av_vma::{Area, AreaId, Areas};
use std::sync::ledger::Ledger;

impl Anons {
    /// Takes an area out of all its anon_vmas, in as many steps as its chain is long; it has none
    /// then. One that no area is linked to any more is destroyed, and its parent's children fall by
    /// one. It takes no memory.
    pub fn unlink<L: Ledger>(&mut self, areas: &mut Areas, area: AreaId, steps: &mut Steps<L>)
        requires order { IsInOrder (area_of areas.old) (family self.old) (spans_of self.old) }
        requires there { IsSome (area_of areas.old area) }
        ensures family { family self.new
            ≡ after_unlink (own_of (area_of areas.old area)) area (family self.old) }
        ensures areas { (number : ℕ)
            → area_of areas.new number ≡ give_own area None (area_of areas.old) number }
        ensures spans { GoWithLinks
            (area_of areas.new) (family self.new).chain (spans_of self.new) }
        ensures steps { steps.new ≡ steps.old + length (chain_of self.old.links area) }
    {
        let this = areas.get(area);
        areas.change(area, Area { anon: None, ..this });
        if let Some(own) = this.anon {
            self.infos.count_active_down(own);
            self.leave(area, this.pgoff, steps);
        }
    }

    // Takes the area's links and spans out.
    fn leave<L: Ledger>(&mut self, area: u64, first: u64, steps: &mut Steps<L>)
        requires rising { IsRising (chain_of self.old.links area) }
        requires there { (v : ℕ) → is_in v (chain_of self.old.links area) ≡ true
            → IsSome (entry_at key (key_of first area) (spans_of self.old v)) }
        ensures family { family self.new ≡ without_links area (family self.old) }
        ensures spans { (v : ℕ) → spans_of self.new v
            ≡ spans_without (chain_of self.old.links area) (key_of first area)
            (spans_of self.old) v }
        ensures steps { steps.new ≡ steps.old + length (chain_of self.old.links area) }
    {
        leave_from(
            &mut self.links,
            &mut self.spans,
            &mut self.infos,
            area,
            first,
            steps,
        );
    }
}

// Takes an area's links out one after another, each with its span, in as many steps as there are.
// It reaches a link by the ring alone.
fn leave_from<R: UserRing<L>, L: Ledger>(
    ring: &mut R,
    spans: &mut Spans,
    infos: &mut Infos,
    area: u64,
    first: u64,
    steps: &mut Steps<L>,
)
    requires rising { IsRising (R.chain_of ring.old area) }
    requires there { (v : ℕ) → is_in v (R.chain_of ring.old area) ≡ true
        → IsSome (entry_at key (key_of first area) (triples spans.old v)) }
    ensures chain { R.chain_of ring.new ≡ with_at area [] (R.chain_of ring.old) }
    ensures users { R.users_of ring.new
        ≡ left_by_all area (R.chain_of ring.old area) (R.users_of ring.old) }
    ensures infos { (v : ℕ) → info_in infos.new v ≡ info_without area
        (R.users_of ring.old) (R.chain_of ring.old area) (info_in infos.old) v }
    ensures spans { (v : ℕ) → triples spans.new v ≡ spans_without
        (R.chain_of ring.old area) (key_of first area) (triples spans.old) v }
    ensures steps { steps.new ≡ steps.old + length (R.chain_of ring.old area) }
{
    while let Some(anon) = ring.pop(area, steps) {
        spans.remove(anon, first, area);
        destroy_unused(ring, infos, anon);
    }
}

// An anon_vma goes if no area is linked to it.
fn destroy_unused<R: UserRing<L>, L: Ledger>(ring: &R, infos: &mut Infos, anon: u64)
    ensures { info_in infos.new ≡ (if is_empty (R.users_of ring.now anon)
        then without_anon anon (info_in infos.old) else info_in infos.old) }
{
    if ring.is_unused(anon) {
        destroy(infos, anon);
    }
}

// An anon_vma goes, and its parent, if it is there, has a child less.
fn destroy(infos: &mut Infos, anon: u64)
    ensures { info_in infos.new ≡ without_anon anon (info_in infos.old) }
{
    let Some(info) = infos.get(anon) else {
        return;
    };
    infos.count_children_down(info.parent);
    infos.remove(anon);
}
