//! The nodes with the heads of their lists.
ghost use Rattle.av_base.specs.Words.{is_in};
ghost use Rattle.std.specs.Prelude.{◌≡◌, ℕ, ◌-◌, ◌<◌, ◌^◌, [], ◌∷◌, ◌++◌, Some, None, true, false};
ghost use Rattle.std.specs.Prelude.{IfOk, OnOk, OnErr, IfSome, IfNone, is_some, length, nat_eq};
ghost use Rattle.std.specs.Prelude.{take};
ghost use Rattle.std.specs.HashMap.{get, spare};
ghost use Rattle.av_chain.specs.declared.node.Way.TheVariants.{Area as AreaWay, Anon as AnonWay};
ghost use Rattle.av_chain.specs.Nodes.{has_place, without_node};
ghost use Rattle.av_chain.specs.Rows.{Reaches, last_of, first_or, row};
ghost use Rattle.av_chain.specs.Links.{AreNew, HasSome, chain_of, after_in, links_to};
ghost use Rattle.av_chain.specs.Lists.{links_of, links_in, AreKept, AreKeptBut, IsLinkAt};
ghost use Rattle.av_chain.specs.Lists.{anon_there};

use crate::node::{Head, Node, Place, Sides, Way};
use crate::nodes::Nodes;
use crate::parts::Parts;
use crate::rows::{set_head, tell_head};
use std::alloc::{AllocError, Global};
use std::collections::HashMap;

/// All nodes, and where the list of each area and of each anon_vma that has one begins and ends.
pub(crate) struct Lists {
    pub(crate) nodes: Nodes,
    pub(crate) areas: HashMap<u64, Head>,
    pub(crate) anons: HashMap<u64, Head>,
}

impl Lists {
    pub(crate) fn new(alloc: Global) -> Lists
        ensures kept { AreKept result }
        ensures empty { result.nodes.blocks ≡ [] }
    {
        Lists {
            nodes: Nodes::new(),
            areas: HashMap::new(alloc),
            anons: HashMap::new(alloc),
        }
    }

    /// Links an area to an anon_vma. The room for both heads and for the node is made first.
    pub(crate) fn add(&mut self, alloc: Global, area: u64, anon: u64) -> Result<(), AllocError>
        requires kept { AreKept self.old }
        requires new { is_in anon (chain_of (links_in self.old) area) ≡ false }
        ensures kept { AreKept self.new }
        ensures links { OnOk result (links_in self.new ≡ links_in self.old ++ (area, anon) ∷ []) }
        ensures err { OnErr result (self.new.nodes.blocks ≡ self.old.nodes.blocks) }
    {
        let in_area = room_for(&mut self.areas, area)?;
        let in_anon = room_for(&mut self.anons, anon)?;
        let node = Box::new(alloc, Node::linking(area, anon, in_area, in_anon))?;
        let place = self.nodes.put(Parts::of(node));
        self.nodes.join(&mut self.areas, Way::Area, area, place);
        self.nodes.join(&mut self.anons, Way::Anon, anon, place);
        Ok(())
    }

    /// Links an area to each of these anon_vmas. Its head is looked up once, and told at the end.
    pub(crate) fn add_all(
        &mut self,
        alloc: Global,
        area: u64,
        anons: &[u64],
    ) -> Result<(), AllocError>
        requires kept { AreKept self.old }
        requires new { AreNew (chain_of (links_in self.old) area) anons.now }
        ensures kept { AreKept self.new }
        ensures links { OnOk result (links_in self.new ≡ links_in self.old
            ++ links_to area anons.now) }
        ensures err { OnErr result (HasSome area anons.now (links_in self.old)
            (links_in self.new)) }
    {
        let mut head = head_with_room(&mut self.areas, area)?;
        let all = self.add_each(alloc, area, &mut head, anons);
        tell_head(&mut self.areas, area, head);
        all
    }

    // Links an area whose list has this head to each of these anon_vmas. The heads are not told.
    fn add_each(
        &mut self,
        alloc: Global,
        area: u64,
        head: &mut Option<Head>,
        anons: &[u64],
    ) -> Result<(), AllocError>
        requires kept { AreKeptBut area head.old self.old }
        requires new { AreNew (chain_of (links_in self.old) area) anons.now }
        ensures areas { self.new.areas ≡ self.old.areas }
        ensures kept { AreKeptBut area head.new self.new }
        ensures links { OnOk result (links_in self.new ≡ links_in self.old
            ++ links_to area anons.now) }
        ensures err { OnErr result (HasSome area anons.now (links_in self.old)
            (links_in self.new)) }
    {
        for anon in anons {
            let longer = self.add_behind(alloc, area, *head, *anon)?;
            *head = Some(longer);
        }
        Ok(())
    }

    // Links an area whose list has this head to an anon_vma: its head then, which the heads are not
    // told. The head of the anon_vma's list is looked up once, where it has one.
    fn add_behind(
        &mut self,
        alloc: Global,
        area: u64,
        head: Option<Head>,
        anon: u64,
    ) -> Result<Head, AllocError>
        requires kept { AreKeptBut area head self.old }
        requires new { is_in anon (chain_of (links_in self.old) area) ≡ false }
        ensures areas { self.new.areas ≡ self.old.areas }
        ensures kept { IfOk result (λ longer. AreKeptBut area (Some longer) self.new) }
        ensures links { OnOk result (links_in self.new ≡ links_in self.old ++ (area, anon) ∷ []) }
        ensures same { OnErr result (AreKeptBut area head self.new) }
        ensures err { OnErr result (self.new.nodes.blocks ≡ self.old.nodes.blocks) }
    {
        let Some(users) = self.anons.get_mut(&anon) else {
            return self.add_first_user(alloc, area, head, anon);
        };
        let in_area = sides_behind(head)?;
        let in_anon = sides_behind(Some(*users))?;
        let node = Box::new(alloc, Node::linking(area, anon, in_area, in_anon))?;
        let place = self.nodes.put(Parts::of(node));
        let longer = self.nodes.join_behind(Way::Area, head, place);
        *users = self.nodes.join_behind(Way::Anon, Some(*users), place);
        Ok(longer)
    }

    // The same, where the anon_vma has no list: the room for its head is made first.
    fn add_first_user(
        &mut self,
        alloc: Global,
        area: u64,
        head: Option<Head>,
        anon: u64,
    ) -> Result<Head, AllocError>
        requires kept { AreKeptBut area head self.old }
        requires new { is_in anon (chain_of (links_in self.old) area) ≡ false }
        requires unused { get nat_eq self.old.anons anon ≡ None }
        ensures areas { self.new.areas ≡ self.old.areas }
        ensures kept { IfOk result (λ longer. AreKeptBut area (Some longer) self.new) }
        ensures links { OnOk result (links_in self.new ≡ links_in self.old ++ (area, anon) ∷ []) }
        ensures same { OnErr result (AreKeptBut area head self.new) }
        ensures err { OnErr result (self.new.nodes.blocks ≡ self.old.nodes.blocks) }
    {
        let in_area = sides_behind(head)?;
        let in_anon = sides_behind(None)?;
        self.anons.reserve(1)?;
        let node = Box::new(alloc, Node::linking(area, anon, in_area, in_anon))?;
        let place = self.nodes.put(Parts::of(node));
        let longer = self.nodes.join_behind(Way::Area, head, place);
        let users = self.nodes.join_behind(Way::Anon, None, place);
        set_head(&mut self.anons, anon, users);
        Ok(longer)
    }

    /// Takes a node out of both its lists, and frees it. Answers its anon_vma.
    pub(crate) fn take_out(&mut self, alloc: Global, place: Place) -> u64
        requires kept { AreKept self.old }
        requires there { has_place place.ptr self.old.nodes.blocks ≡ true }
        ensures kept { AreKept self.new }
        ensures anon { anon_there (Some place) self.old.nodes.blocks ≡ Some result }
        ensures links { links_in self.new ≡ links_of (without_node place.ptr
            self.old.nodes.blocks) }
    {
        let node = *self.nodes.get(place);
        self.nodes.part(&mut self.areas, Way::Area, node.area, node.sides(Way::Area));
        self.nodes.part(&mut self.anons, Way::Anon, node.anon, node.sides(Way::Anon));
        self.nodes.free(alloc, place);
        node.anon
    }

    /// Frees every node, one area's list after another. No node is taken out of its lists first.
    pub(crate) fn free_all(self, alloc: Global)
        requires { AreKept self }
    {
        let Lists {
            mut nodes,
            areas,
            anons: _,
        } = self;
        for (area, head) in areas.iter() {
            nodes.free_row(alloc, *area, head.first);
        }
        nodes.end();
    }

    /// How many nodes an area's list has.
    pub(crate) fn len(&self, area: u64) -> u64
        requires { AreKept self.now }
        ensures { result ≡ length (row AreaWay area self.now.nodes.blocks) }
    {
        match self.areas.get(&area) {
            Some(head) => head.count,
            None => 0,
        }
    }

    /// The first node of an area's list.
    pub(crate) fn first(&self, area: u64) -> Option<Place>
        requires { AreKept self.now }
        ensures { result ≡ first_or None (row AreaWay area self.now.nodes.blocks) }
    {
        match self.areas.get(&area) {
            Some(head) => Some(head.first),
            None => None,
        }
    }

    /// The node of an area's list that leads to an anon_vma.
    pub(crate) fn find(&self, area: u64, anon: u64) -> Option<Place>
        requires { AreKept self.now }
        ensures variant { is_some result ≡ is_in anon (chain_of (links_in self.now) area) }
        ensures place { IfSome result (λ p. IsLinkAt p.ptr area anon self.now.nodes.blocks) }
    {
        let mut at = self.first(area);
        for _step in 0..self.len(area) {
            let place = at?;
            let node = *self.nodes.get(place);
            if node.anon == anon {
                return Some(place);
            }
            at = node.sides(Way::Area).after;
        }
        None
    }

    /// Puts the anon_vmas of an area's list behind these, in its order. Without memory the first of
    /// them alone stand there, or none.
    pub(crate) fn push_chain(&self, area: u64, chain: &mut Vec<u64>) -> Result<(), AllocError>
        requires { AreKept self.now }
        ensures ok { OnOk result (chain.new.items
            ≡ chain.old.items ++ chain_of (links_in self.now) area) }
        ensures err { OnErr result ((many : ℕ) × (chain.new.items
            ≡ chain.old.items ++ take many (chain_of (links_in self.now) area))) }
    {
        let mut at = self.first(area);
        while let Some(place) = at {
            let node = *self.nodes.get(place);
            chain.push(node.anon)?;
            at = node.sides(Way::Area).after;
        }
        Ok(())
    }

    /// The anon_vma of the node at a place, if there is one.
    pub(crate) fn anon_at(&self, at: Option<Place>) -> Option<u64>
        requires { Reaches at self.now.nodes.blocks }
        ensures { result ≡ anon_there at self.now.nodes.blocks }
    {
        match at {
            Some(place) => Some(self.nodes.get(place).anon),
            None => None,
        }
    }

    /// The anon_vma after this one in an area's list.
    pub(crate) fn next(&self, area: u64, anon: u64) -> Option<u64>
        requires kept { AreKept self.now }
        requires linked { is_in anon (chain_of (links_in self.now) area) ≡ true }
        ensures { result ≡ after_in anon (chain_of (links_in self.now) area) }
    {
        let place = self.find(area, anon)?;
        self.anon_at(self.nodes.get(place).sides(Way::Area).after)
    }

    /// The first node of an anon_vma's list.
    pub(crate) fn first_user(&self, anon: u64) -> Option<Place>
        requires { AreKept self.now }
        ensures { result ≡ first_or None (row AnonWay anon self.now.nodes.blocks) }
    {
        match self.anons.get(&anon) {
            Some(head) => Some(head.first),
            None => None,
        }
    }
}

// Makes room for one more list, and tells the neighbours of a node that comes last in one. A list
// as long as can be counted takes no more.
fn room_for(heads: &mut HashMap<u64, Head>, key: u64) -> Result<Sides, AllocError>
    ensures same { (k : ℕ) → get nat_eq heads.new k ≡ get nat_eq heads.old k }
    ensures room { OnOk result (0 < spare heads.new) }
    ensures sides { IfOk result (λ s. (s.before ≡ last_of (get nat_eq heads.new key)) × (s.after ≡
        None)) }
    ensures few { OnOk result (IfSome (get nat_eq heads.new key) (λ h. h.count < 2 ^ 64 - 1)) }
{
    let head = head_with_room(heads, key)?;
    sides_behind(head)
}

// The head of a list, if it has one, once there is room for one more.
fn head_with_room(heads: &mut HashMap<u64, Head>, key: u64) -> Result<Option<Head>, AllocError>
    ensures same { (k : ℕ) → get nat_eq heads.new k ≡ get nat_eq heads.old k }
    ensures room { OnOk result (0 < spare heads.new) }
    ensures head { IfOk result (λ h. h ≡ get nat_eq heads.new key) }
{
    heads.reserve(1)?;
    Ok(heads.get(&key).copied())
}

// The neighbours of a node that comes last in the list with this head.
fn sides_behind(head: Option<Head>) -> Result<Sides, AllocError>
    ensures sides { IfOk result (λ s. (s.before ≡ last_of head) × (s.after ≡ None)) }
    ensures few { OnOk result (IfSome head (λ h. h.count < 2 ^ 64 - 1)) }
{
    let Some(head) = head else {
        return Ok(Sides {
            before: None,
            after: None,
        });
    };
    if head.count < u64::MAX {
        Ok(Sides {
            before: Some(head.last),
            after: None,
        })
    } else {
        Err(AllocError)
    }
}
