//! The links, as two maps.
ghost use Rattle.av_base.specs.Words.{is_in, with_at, without};
ghost use Rattle.std.specs.Prelude.{◌≡◌, ℕ, ◌+◌, [], ◌∷◌, ◌++◌, true, false, IfOk, OnOk, OnErr};
ghost use Rattle.std.specs.Prelude.{length, take};
ghost use Rattle.av_chain.specs.Links.{chain_of, users_of, first_in, after_in, users_with};
ghost use Rattle.av_chain.specs.Links.{AreMutual, AreNew, HasSome};

use crate::lists::Lists;
use crate::ring::{Ring, unlink_from};
use crate::users::Users;
use av_base::Steps;
use std::alloc::{AllocError, Global};
use std::marker::Model;
use std::sync::ledger::Ledger;

/// The links between areas and anon_vmas: of each area its chain, the anon_vmas that it is linked
/// to, and of each anon_vma its users, the areas that are linked to it.
///
/// One node for each link lies in both lists, and leaves both in constant time.
pub struct Links {
    lists: Lists,
    alloc: Global,
}

impl Model for Links {
    ghost use Rattle.std.specs.Prelude.{List};
    ghost use Rattle.av_chain.specs.Links.{Link};
    ghost use Rattle.av_chain.specs.Lists.{AreKept, links_in};

    ghost Value = { List Link };

    ghost view = { λ l. links_in l.lists };

    ghost invariant = { λ l. AreKept l.lists };
}

impl Links {
    /// No links.
    pub fn new(alloc: Global) -> Links
        ensures { result ≡ [] }
    {
        Links {
            lists: Lists::new(alloc),
            alloc,
        }
    }

    /// Links an area to an anon_vma that it is not linked to: each becomes the last in the other's
    /// list. Without memory all stays.
    pub fn link(&mut self, area: u64, anon: u64) -> Result<(), AllocError>
        requires { is_in anon (chain_of self.old area) ≡ false }
        ensures chain { OnOk result (chain_of self.new
            ≡ with_at area (chain_of self.old area ++ anon ∷ []) (chain_of self.old)) }
        ensures users { OnOk result (users_of self.new
            ≡ with_at anon (users_of self.old anon ++ area ∷ []) (users_of self.old)) }
        ensures err { OnErr result (self.new ≡ self.old) }
    {
        self.lists.add(self.alloc, area, anon)
    }

    /// Links an area to each of these anon_vmas, in their order: none of them stands twice, or in
    /// the area's chain already. The area's list is looked up once. Without memory it is linked to
    /// the first of them alone, or to none.
    pub fn link_all(&mut self, area: u64, anons: &[u64]) -> Result<(), AllocError>
        requires { AreNew (chain_of self.old area) anons.now }
        ensures chain { OnOk result (chain_of self.new
            ≡ with_at area (chain_of self.old area ++ anons.now) (chain_of self.old)) }
        ensures users { OnOk result (users_of self.new
            ≡ users_with area anons.now (users_of self.old)) }
        ensures err { OnErr result (HasSome area anons.now self.old self.new) }
    {
        self.lists.add_all(self.alloc, area, anons)
    }

    /// Takes an area out of all its lists, in as many steps as it has links. It takes no memory.
    pub fn unlink_all<L: Ledger>(&mut self, area: u64, steps: &mut Steps<L>)
        ensures chain { chain_of self.new ≡ with_at area [] (chain_of self.old) }
        ensures users { (anon : ℕ)
            → users_of self.new anon ≡ without area (users_of self.old anon) }
        ensures steps { steps.new ≡ steps.old + length (chain_of self.old area) }
    {
        unlink_from(self, area, steps);
    }

    /// Whether an area is linked to an anon_vma.
    pub fn has(&self, area: u64, anon: u64) -> bool
        ensures { result ≡ is_in anon (chain_of self.now area) }
    {
        self.lists.find(area, anon).is_some()
    }

    /// How many anon_vmas an area is linked to.
    pub fn len(&self, area: u64) -> u64
        ensures { result ≡ length (chain_of self.now area) }
    {
        self.lists.len(area)
    }

    /// The first anon_vma of an area. None exactly where it has none.
    pub fn first(&self, area: u64) -> Option<u64>
        ensures { result ≡ first_in (chain_of self.now area) }
    {
        self.lists.anon_at(self.lists.first(area))
    }

    /// The anon_vma after this one in the area's list. None exactly where it is the last.
    pub fn next(&self, area: u64, anon: u64) -> Option<u64>
        requires { is_in anon (chain_of self.now area) ≡ true }
        ensures { result ≡ after_in anon (chain_of self.now area) }
    {
        self.lists.next(area, anon)
    }

    /// The anon_vmas of an area, in the order in which it was linked to them.
    pub fn chain(&self, alloc: Global, area: u64) -> Result<Vec<u64>, AllocError>
        ensures { IfOk result (λ chain. chain.items ≡ chain_of self.now area) }
    {
        let mut chain = Vec::new(alloc);
        self.push_chain(area, &mut chain)?;
        Ok(chain)
    }

    /// Puts the anon_vmas of an area behind these, in the order in which it was linked to them.
    /// Without memory the first of them alone stand there, or none.
    pub fn push_chain(&self, area: u64, chain: &mut Vec<u64>) -> Result<(), AllocError>
        ensures ok { OnOk result (chain.new.items ≡ chain.old.items ++ chain_of self.now area) }
        ensures err { OnErr result ((many : ℕ)
            × (chain.new.items ≡ chain.old.items ++ take many (chain_of self.now area))) }
    {
        self.lists.push_chain(area, chain)
    }

    /// The areas that are linked to an anon_vma, in the order in which they were linked. It takes
    /// no memory.
    pub fn users(&self, anon: u64) -> Users<'_>
        ensures { result ≡ users_of self.now anon }
    {
        Users {
            lists: &self.lists,
            anon,
            at: self.lists.first_user(anon),
        }
    }

    /// The law of both maps: each is the other's inverse, and each link stands once in each.
    pub fn each_link_stands_once(&self)
        ensures { AreMutual (chain_of self.now) (users_of self.now) }
    {
        let _lists = &self.lists;
    }
}

impl<L: Ledger> Ring<L> for Links {
    ghost chain_of = { λ l. chain_of l };

    ghost users_of = { λ l. users_of l };

    fn pop(&mut self, area: u64, steps: &mut Steps<L>) -> Option<u64> {
        let place = self.lists.first(area)?;
        steps.tick();
        Some(self.lists.take_out(self.alloc, place))
    }
}

impl Drop for Links {
    fn drop(self) {
        let Links { lists, alloc } = self;
        lists.free_all(alloc);
    }
}
