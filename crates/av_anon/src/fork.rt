//! The chain of a child's area at fork (Linux's anon_vma_fork), and of a copy (anon_vma_clone).
ghost use Rattle.std.specs.Prelude.{◌≡◌, ℕ, true, [], Some, None, IsSome, IfOk, OnOk, OnErr};
ghost use Rattle.av_base.specs.Words.{is_in};
ghost use Rattle.av_chain.specs.Links.{chain_of};
ghost use Rattle.av_vma.specs.Areas.{area_of};
ghost use Rattle.av_interval.specs.Spans.{IsNew};
ghost use Rattle.av_anon.specs.Anons.{IsRising, family, own_of, with_links};
ghost use Rattle.av_anon.specs.Fork.{child_chain, child_family, child_own, after_clone, after_fork};
ghost use Rattle.av_anon.specs.Fork.{own_after_fork, gets_own, is_idle, member_to_reuse};
ghost use Rattle.av_anon.specs.Infos.{info_in};
ghost use Rattle.av_anon.specs.Order.{IsArea, IsInOrder};
ghost use Rattle.av_anon.specs.Spans.{span_at, spans_of, spans_with, GoWithLinks};

use crate::anons::Anons;
use crate::infos::{Info, Infos};
use av_chain::Links;
use av_vma::{Area, AreaId, Areas};
use std::alloc::{AllocError, Global};
use std::mem::replace;

impl Anons {
    /// Gives an area without anon_vma another's chain and own anon_vma; where that one has none it
    /// gets none. Without memory no area changes.
    pub fn clone_chain(
        &mut self,
        areas: &mut Areas,
        src: AreaId,
        dst: AreaId,
    ) -> Result<(), AllocError>
        requires order { IsInOrder (area_of areas.old) (family self.old) (spans_of self.old) }
        requires src { IsSome (area_of areas.old src) }
        requires dst { IsSome (area_of areas.old dst) }
        requires none { own_of (area_of areas.old dst) ≡ None }
        ensures family { OnOk result (family self.new
            ≡ after_clone (own_of (area_of areas.old src)) src dst (family self.old)) }
        ensures areas { let own = own_of (area_of areas.old src) in
            OnOk result ((number : ℕ)
            → area_of areas.new number ≡ gets_own dst own (area_of areas.old) number) }
        ensures spans { OnOk result (GoWithLinks
            (area_of areas.new) (family self.new).chain (spans_of self.new)) }
        ensures kept { OnErr result (areas.new ≡ areas.old) }
    {
        let Some(own) = areas.get(src).anon else {
            return Ok(());
        };
        let this = areas.get(dst);
        self.infos.count_active_up(own)?;
        self.copy_chain(src, dst, &this)?;
        areas.change(
            dst,
            Area {
                anon: Some(own),
                ..this
            },
        );
        Ok(())
    }

    // Links an area that has no link to the anon_vmas that another is linked to, and puts its span
    // into their trees.
    fn copy_chain(&mut self, src: AreaId, dst: AreaId, this: &Area) -> Result<(), AllocError>
        requires fits { IsArea this.now }
        requires empty { (family self.old).chain dst ≡ [] }
        requires rising { IsRising ((family self.old).chain src) }
        requires new { (v : ℕ) → is_in v ((family self.old).chain src) ≡ true
            → IsNew dst (spans_of self.old v) }
        ensures family { let f = family self.old in
            OnOk result (family self.new ≡ with_links dst (f.chain src) f) }
        ensures spans { OnOk result ((v : ℕ) → spans_of self.new v
            ≡ spans_with ((family self.old).chain src) (span_at dst this.now)
            (spans_of self.old) v) }
    {
        let chain = take_chain(&mut self.chain, self.alloc, &self.links, src)?;
        self.link_area(dst, this, &chain)?;
        self.chain = chain;
        Ok(())
    }

    /// Gives the child's area `dst`, without anon_vma, its chain and own anon_vma at a fork of
    /// `src`: the parent's chain, with its lowest idle member as own, else with a new one below the
    /// parent's own. Where the parent's area has no anon_vma the child's gets none. Without memory
    /// no area changes.
    pub fn fork(&mut self, areas: &mut Areas, src: AreaId, dst: AreaId) -> Result<(), AllocError>
        requires order { IsInOrder (area_of areas.old) (family self.old) (spans_of self.old) }
        requires src { IsSome (area_of areas.old src) }
        requires dst { IsSome (area_of areas.old dst) }
        requires none { own_of (area_of areas.old dst) ≡ None }
        ensures family { OnOk result (family self.new
            ≡ after_fork (own_of (area_of areas.old src)) src dst (family self.old)) }
        ensures areas { let f = family self.old in
            let own = own_after_fork (own_of (area_of areas.old src)) src f in
            OnOk result ((number : ℕ)
            → area_of areas.new number ≡ gets_own dst own (area_of areas.old) number) }
        ensures spans { OnOk result (GoWithLinks
            (area_of areas.new) (family self.new).chain (spans_of self.new)) }
        ensures kept { OnErr result (areas.new ≡ areas.old) }
    {
        let Some(own) = areas.get(src).anon else {
            return Ok(());
        };
        let this = areas.get(dst);
        let mut chain = take_chain(&mut self.chain, self.alloc, &self.links, src)?;
        let anon = self.own_for_child(own, &mut chain)?;
        self.link_area(dst, &this, &chain)?;
        self.chain = chain;
        areas.change(
            dst,
            Area {
                anon: Some(anon),
                ..this
            },
        );
        Ok(())
    }

    // The child's own anon_vma: the lowest idle member of the chain, else a new one, which joins
    // it.
    fn own_for_child(&mut self, own: u64, chain: &mut Vec<u64>) -> Result<u64, AllocError>
        requires { IsSome (info_in self.old.infos own) }
        ensures anon { let reuse = member_to_reuse (info_in self.old.infos) chain.old.items in
            IfOk result (λ v. v ≡ child_own reuse self.old.next) }
        ensures chain { let reuse = member_to_reuse (info_in self.old.infos) chain.old.items in
            OnOk result (chain.new.items ≡ child_chain reuse self.old.next chain.old.items) }
        ensures family { let reuse = member_to_reuse (info_in self.old.infos) chain.old.items in
            OnOk result (family self.new ≡ child_family reuse own (family self.old)) }
        ensures spans { self.new.spans ≡ self.old.spans }
    {
        match lowest_idle(&self.infos, chain) {
            Some(anon) => {
                self.infos.count_active_up(anon)?;
                Ok(anon)
            }
            None => {
                let anon = self.make_child(own)?;
                chain.push(anon)?;
                Ok(anon)
            }
        }
    }

    // Makes an anon_vma below another one, with that one's root and one active area.
    fn make_child(&mut self, parent: u64) -> Result<u64, AllocError>
        requires { IsSome (info_in self.old.infos parent) }
        ensures anon { IfOk result (λ v. v ≡ self.old.next) }
        ensures family { OnOk result (family self.new
            ≡ child_family None parent (family self.old)) }
        ensures spans { self.new.spans ≡ self.old.spans }
    {
        let anon = self.next;
        let next = anon.checked_add(1).ok_or(AllocError)?;
        let root = self.infos.count_children_up(parent)?;
        let info = Info {
            root,
            parent,
            children: 0,
            active: 1,
        };
        self.infos.put(anon, info)?;
        self.next = next;
        Ok(anon)
    }
}

/// An area's chain, in the list that is kept for it: an empty one stands in its place until it is
/// put back. Without memory the kept list goes back to the host.
fn take_chain(
    kept: &mut Vec<u64>,
    alloc: Global,
    links: &Links,
    area: AreaId,
) -> Result<Vec<u64>, AllocError>
    ensures { IfOk result (λ chain. chain.items ≡ chain_of links.now area) }
{
    let mut chain = replace(kept, Vec::new(alloc));
    chain.clear();
    links.push_chain(area, &mut chain)?;
    Ok(chain)
}

/// The first of these anon_vmas that is idle: fewer than two children, no active area, and no root.
fn lowest_idle(infos: &Infos, anons: &[u64]) -> Option<u64>
    ensures { result ≡ member_to_reuse (info_in infos.now) anons.now }
{
    for anon in anons {
        if may_be_reused(infos, *anon) {
            return Some(*anon);
        }
    }
    None
}

fn may_be_reused(infos: &Infos, anon: u64) -> bool
    ensures { result ≡ is_idle anon (info_in infos.now anon) }
{
    match infos.get(anon) {
        Some(info) => info.children < 2 && (info.active == 0 && info.root != anon),
        None => false,
    }
}
