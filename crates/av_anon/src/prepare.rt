//! An area gets its own anon_vma at its first fault (Linux's anon_vma_prepare).
ghost use Rattle.std.specs.Prelude.{◌≡◌, ℕ, true, [], Some, None, IsSome, IfOk, OnErr, OnOk};
ghost use Rattle.av_base.specs.Words.{is_in};
ghost use Rattle.av_vma.specs.Areas.{area_of};
ghost use Rattle.av_chain.specs.Links.{chain_of};
ghost use Rattle.av_interval.specs.Spans.{IsNew};
ghost use Rattle.av_vma.specs.declared.area.Area.{Area};
ghost use Rattle.av_anon.specs.Anons.{family, give_own, with_links, new_root, own_of, IsRising};
ghost use Rattle.av_anon.specs.Infos.{info_in};
ghost use Rattle.av_anon.specs.Order.{IsArea, IsInOrder};
ghost use Rattle.av_anon.specs.Prepare.{loan, loan_near, loan_to, after_prepare};
ghost use Rattle.av_anon.specs.Prepare.{family_after_prepare, own_after_prepare, MayStand};
ghost use Rattle.av_anon.specs.Spans.{span_at, spans_of, spans_with, GoWithLinks};

use crate::anons::Anons;
use crate::infos::Info;
use crate::links::link_each;
use crate::spans::span_each;
use av_base::PAGE_SIZE;
use av_chain::Links;
use av_vma::{Area, AreaId, Areas, can_lend, index};
use std::alloc::AllocError;

impl Anons {
    /// Gives an area without anon_vma its own: that of the area after it, else of the one before,
    /// where it may take it; else a new root. Without memory, or a number for it, no area changes.
    pub fn prepare(
        &mut self,
        areas: &mut Areas,
        area: AreaId,
        before: Option<AreaId>,
        after: Option<AreaId>,
    ) -> Result<(), AllocError>
        requires order { IsInOrder (area_of areas.old) (family self.old) (spans_of self.old) }
        requires there { IsSome (area_of areas.old area) }
        requires none { own_of (area_of areas.old area) ≡ None }
        requires before { MayStand (area_of areas.old) before }
        requires after { MayStand (area_of areas.old) after }
        ensures family { let f = family self.old in
            let loan = loan_to (area_of areas.old) f.chain area before after in
            OnOk result (family self.new ≡ after_prepare area loan f) }
        ensures areas { let f = family self.old in
            let loan = loan_to (area_of areas.old) f.chain area before after in
            let own = Some (own_after_prepare loan f) in
            OnOk result ((number : ℕ)
            → area_of areas.new number ≡ give_own area own (area_of areas.old) number) }
        ensures spans { OnOk result (GoWithLinks
            (area_of areas.new) (family self.new).chain (spans_of self.new)) }
        ensures kept { OnErr result (areas.new ≡ areas.old) }
    {
        let this = areas.get(area);
        let loan = lent_anon(&self.links, areas, &this, before, after);
        let anon = self.own_from(loan)?;
        self.link_area(area, &this, &[anon])?;
        areas.change(
            area,
            Area {
                anon: Some(anon),
                ..this
            },
        );
        Ok(())
    }

    // The anon_vma that is lent, which has an active area more; else a new root.
    fn own_from(&mut self, loan: Option<u64>) -> Result<u64, AllocError>
        requires { (v : ℕ) → loan ≡ Some v → IsSome (info_in self.old.infos v) }
        ensures anon { IfOk result (λ v. v ≡ own_after_prepare loan (family self.old)) }
        ensures family { OnOk result
            (family self.new ≡ family_after_prepare loan (family self.old)) }
        ensures spans { self.new.spans ≡ self.old.spans }
    {
        match loan {
            Some(anon) => {
                self.infos.count_active_up(anon)?;
                Ok(anon)
            }
            None => self.make_root(),
        }
    }

    // Makes an anon_vma that is its own root and parent, and has one active area.
    fn make_root(&mut self) -> Result<u64, AllocError>
        ensures number { IfOk result (λ v. v ≡ self.old.next) }
        ensures family { OnOk result (family self.new ≡ new_root (family self.old)) }
        ensures spans { self.new.spans ≡ self.old.spans }
    {
        let anon = self.next;
        let next = anon.checked_add(1).ok_or(AllocError)?;
        let info = Info {
            root: anon,
            parent: anon,
            children: 1,
            active: 1,
        };
        self.infos.put(anon, info)?;
        self.next = next;
        Ok(anon)
    }

    /// Links an area that has no link to these anon_vmas, and puts its span into their trees.
    pub(crate) fn link_area(
        &mut self,
        area: AreaId,
        this: &Area,
        anons: &[u64],
    ) -> Result<(), AllocError>
        requires fits { IsArea this.now }
        requires empty { (family self.old).chain area ≡ [] }
        requires rising { IsRising anons.now }
        requires new { (v : ℕ) → is_in v anons.now ≡ true → IsNew area (spans_of self.old v) }
        ensures family { OnOk result (family self.new ≡ with_links area anons.now (family
            self.old)) }
        ensures spans { OnOk result ((v : ℕ) → spans_of self.new v
            ≡ spans_with anons.now (span_at area this.now) (spans_of self.old) v) }
    {
        let last = index(this, this.end / PAGE_SIZE) - 1;
        link_each(&mut self.links, area, anons)?;
        span_each(&mut self.spans, anons, this.pgoff, last, area)
    }
}

/// The anon_vma that a neighbour lends: that of the one after, else of the one before.
fn lent_anon(
    links: &Links,
    areas: &Areas,
    area: &Area,
    before: Option<AreaId>,
    after: Option<AreaId>,
) -> Option<u64>
    requires fits { IsArea area.now }
    requires all_fit { (a : ℕ) (A : Area) → area_of areas.now a ≡ Some A → IsArea A }
    requires before { MayStand (area_of areas.now) before }
    requires after { MayStand (area_of areas.now) after }
    ensures { result
        ≡ loan_near (area_of areas.now) (chain_of links.now) area.now before after }
{
    match lent_from(links, areas, area, after) {
        Some(anon) => Some(anon),
        None => lent_from(links, areas, area, before),
    }
}

/// The anon_vma that one neighbour lends, if there is one and it may be taken.
fn lent_from(links: &Links, areas: &Areas, area: &Area, near: Option<AreaId>) -> Option<u64>
    requires fits { IsArea area.now }
    requires all_fit { (a : ℕ) (A : Area) → area_of areas.now a ≡ Some A → IsArea A }
    requires there { MayStand (area_of areas.now) near }
    ensures { result ≡ loan (area_of areas.now) (chain_of links.now) area.now near }
{
    let Some(number) = near else {
        return None;
    };
    let other = areas.get(number);
    if can_lend(area, &other, links.len(number)) {
        other.anon
    } else {
        None
    }
}
