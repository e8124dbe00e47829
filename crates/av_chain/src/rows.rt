//! Lists of nodes. A node lies in two at once, and leaves both in constant time.
ghost use Rattle.std.specs.Prelude.{◌≡◌, ℕ, ◌-◌, ◌<◌, ◌^◌, Some, None, IfSome, IsSome, nat_eq};
ghost use Rattle.std.specs.HashMap.{get, spare};
ghost use Rattle.av_chain.specs.declared.node.Way.TheVariants.{Area as AreaWay};
ghost use Rattle.av_chain.specs.Rows.{row, without_row, first_or, IsRun};
ghost use Rattle.av_chain.specs.Rows.{leads_on, leads_back, Reaches, last_of, head_with};
ghost use Rattle.av_chain.specs.Rows.{head_without, after_join, after_part, HaveHead};

use crate::node::{Head, Node, Place, Sides, Way};
use crate::nodes::Nodes;
use std::alloc::Global;
use std::collections::HashMap;

impl Nodes {
    // The node at a place, if there is one, is to lead on to another.
    fn lead_on(&mut self, way: Way, at: Option<Place>, to: Option<Place>)
        requires { Reaches at self.old.blocks }
        ensures { self.new.blocks ≡ leads_on way at to self.old.blocks }
    {
        if let Some(place) = at {
            let node = *self.get(place);
            self.set(place, node.with_after(way, to));
        }
    }

    // The node at a place, if there is one, is to lead back to another.
    fn lead_back(&mut self, way: Way, at: Option<Place>, to: Option<Place>)
        requires { Reaches at self.old.blocks }
        ensures { self.new.blocks ≡ leads_back way at to self.old.blocks }
    {
        if let Some(place) = at {
            let node = *self.get(place);
            self.set(place, node.with_before(way, to));
        }
    }

    /// Puts the node at a place at the end of a list.
    pub(crate) fn join(&mut self, heads: &mut HashMap<u64, Head>, way: Way, key: u64, place: Place)
        requires room { 0 < spare heads.old }
        requires reaches { Reaches (last_of (get nat_eq heads.old key)) self.old.blocks }
        requires few { IfSome (get nat_eq heads.old key) (λ h. h.count < 2 ^ 64 - 1) }
        ensures blocks { self.new.blocks
            ≡ after_join way place (get nat_eq heads.old key) self.old.blocks }
        ensures heads { HaveHead key (Some (head_with place (get nat_eq heads.old key)))
            (get nat_eq heads.old) (get nat_eq heads.new) }
    {
        if let Some(head) = heads.get_mut(&key) {
            self.lead_on(way, Some(head.last), Some(place));
            head.last = place;
            head.count += 1;
            return;
        }
        set_head(
            heads,
            key,
            Head {
                first: place,
                last: place,
                count: 1,
            },
        );
    }

    /// Puts the node at a place at the end of the list with this head: its head then.
    pub(crate) fn join_behind(&mut self, way: Way, head: Option<Head>, place: Place) -> Head
        requires reaches { Reaches (last_of head) self.old.blocks }
        requires few { IfSome head (λ h. h.count < 2 ^ 64 - 1) }
        ensures blocks { self.new.blocks ≡ after_join way place head self.old.blocks }
        ensures head { result ≡ head_with place head }
    {
        let Some(head) = head else {
            return Head {
                first: place,
                last: place,
                count: 1,
            };
        };
        self.lead_on(way, Some(head.last), Some(place));
        Head {
            last: place,
            count: head.count + 1,
            ..head
        }
    }

    /// Takes a node with these neighbours out of its list.
    pub(crate) fn part(&mut self, heads: &mut HashMap<u64, Head>, way: Way, key: u64, sides: Sides)
        requires before { Reaches sides.before self.old.blocks }
        requires after { Reaches sides.after self.old.blocks }
        requires some { IsSome (get nat_eq heads.old key) }
        requires few { IfSome (get nat_eq heads.old key) (λ h. 0 < h.count) }
        ensures blocks { self.new.blocks ≡ after_part way sides self.old.blocks }
        ensures heads { HaveHead key (head_without sides (get nat_eq heads.old key))
            (get nat_eq heads.old) (get nat_eq heads.new) }
    {
        self.lead_on(way, sides.before, sides.after);
        self.lead_back(way, sides.after, sides.before);
        let Some(head) = heads.get_mut(&key) else {
            return;
        };
        match head_left(sides, *head) {
            None => {
                heads.remove(&key);
            }
            Some(left) => *head = left,
        }
    }

    /// Frees the nodes of an area's list, from the first on. The anon_vmas' lists that they lay in
    /// are not mended.
    pub(crate) fn free_row(&mut self, alloc: Global, area: u64, first: Place)
        requires run { IsRun AreaWay None (row AreaWay area self.old.blocks) None }
        requires first { Some first ≡ first_or None (row AreaWay area self.old.blocks) }
        ensures { self.new.blocks ≡ without_row AreaWay area self.old.blocks }
    {
        let mut at = Some(first);
        while let Some(place) = at {
            at = self.get(place).sides(Way::Area).after;
            self.free(alloc, place);
        }
    }
}

// What a list's head is without a node that had these neighbours.
fn head_left(sides: Sides, head: Head) -> Option<Head>
    requires { 0 < head.count }
    ensures { result ≡ head_without sides (Some head) }
{
    let count = head.count - 1;
    match (sides.before, sides.after) {
        (None, None) => None,
        (None, Some(first)) => Some(Head {
            first,
            last: head.last,
            count,
        }),
        (Some(last), None) => Some(Head {
            first: head.first,
            last,
            count,
        }),
        (Some(_), Some(_)) => Some(Head {
            first: head.first,
            last: head.last,
            count,
        }),
    }
}

/// Tells the heads that of a list, for which there is room, or that it is empty.
pub(crate) fn tell_head(heads: &mut HashMap<u64, Head>, key: u64, head: Option<Head>)
    requires { 0 < spare heads.old }
    ensures { HaveHead key head (get nat_eq heads.old) (get nat_eq heads.new) }
{
    match head {
        Some(head) => set_head(heads, key, head),
        None => {
            heads.remove(&key);
        }
    }
}

/// The head of a list, for which there is room.
pub(crate) fn set_head(heads: &mut HashMap<u64, Head>, key: u64, head: Head)
    requires { 0 < spare heads.old }
    ensures { HaveHead key (Some head) (get nat_eq heads.old) (get nat_eq heads.new) }
{
    match heads.insert(key, head) {
        Ok(_) => {}
        Err(_) => unreachable!(),
    }
}
