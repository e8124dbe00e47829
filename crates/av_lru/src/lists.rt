//! The two lists, as rings of frames through their heads.

ghost use Rattle.std.specs.Prelude.{◌≡◌, ◌≢◌, ◌⊎◌, ℕ, ◌+◌, ◌-◌, ◌<◌, ◌≤◌, ◌^◌, [], ◌∷◌, ◌++◌};
ghost use Rattle.std.specs.Prelude.{length, slice_index, IfOk, true, false, Some, None, nat_lt};
ghost use Rattle.std.specs.Prelude.{replicate, take, reverse, vec_capacity, if◌then◌else◌};
ghost use Rattle.av_lru.specs.Lists.{list_of, with_list, without_frame, with_renamed, last_of};
ghost use Rattle.av_lru.specs.Lists.{frame_before, place_in, IsApart};
ghost use Rattle.av_base.specs.Words.{is_in};
ghost use Rattle.av_lru.specs.Links.{head_of, len_of, with_len, Joins, Inserts, walk, after_links};

use std::alloc::{AllocError, Global};
use std::marker::Model;

/// Which of the two lists.
#[derive(Clone, Copy, Drop, Debug, PartialEq, Eq)]
pub enum Which {
    Active,
    Inactive,
}

/// How many frames each list has.
#[derive(Clone, Copy)]
struct Lengths {
    active: u32,
    inactive: u32,
}

/// The place after each place in its ring, and the one before it.
#[derive(Drop)]
struct Links {
    next: Vec<usize>,
    prev: Vec<usize>,
}

/// The frames of a fixed number that are in the active or the inactive list, each in one of them
/// at most. A list has a head, where frames join, and a tail. No call searches: each takes
/// constant time, but `new` and `tails`. Only `new` takes memory.
#[derive(Drop)]
pub struct Lru {
    /// Each list is a ring through its head, so that no end is a case of its own. The place of a
    /// frame is its number, and the heads stand behind the frames.
    links: Links,
    /// The list that each frame is in.
    places: Vec<Option<Which>>,
    lengths: Lengths,
}

impl Model for Lru {
    ghost use Rattle.std.specs.Prelude.{length};
    ghost use Rattle.av_lru.specs.Lists.{Lists};
    ghost use Rattle.av_lru.specs.Links.{lists_of, IsWhole};

    ghost Value = { Lists };

    ghost view = { λ a. lists_of a.links.next.items (length a.places.items) a.lengths };

    ghost invariant = { λ a.
        IsWhole a.links.next.items a.links.prev.items a.places.items a.lengths };
}

impl Lengths {
    /// How many frames a list has.
    fn of(&self, which: Which) -> u32
        ensures { result ≡ len_of which self.now }
    {
        match which {
            Which::Active => self.active,
            Which::Inactive => self.inactive,
        }
    }

    /// One more frame in a list.
    fn up(&mut self, which: Which)
        requires { len_of which self.old < 2 ^ 32 - 1 }
        ensures { self.new ≡ with_len which (len_of which self.old + 1) self.old }
    {
        match which {
            Which::Active => self.active += 1,
            Which::Inactive => self.inactive += 1,
        }
    }

    /// One frame fewer in a list.
    fn down(&mut self, which: Which)
        requires { 0 < len_of which self.old }
        ensures { self.new ≡ with_len which (len_of which self.old - 1) self.old }
    {
        match which {
            Which::Active => self.active -= 1,
            Which::Inactive => self.inactive -= 1,
        }
    }
}

impl Links {
    /// Joins the two neighbours of a place.
    fn skip(&mut self, at: usize)
        requires at_in { (at < length self.old.next.items) × (at < length self.old.prev.items) }
        requires before_in { slice_index self.old.prev.items at < length self.old.next.items }
        requires after_in { slice_index self.old.next.items at < length self.old.prev.items }
        ensures next { Joins (slice_index self.old.next.items)
            (slice_index self.new.next.items) (slice_index self.old.prev.items at)
            (slice_index self.old.next.items at) }
        ensures prev { Joins (slice_index self.old.prev.items)
            (slice_index self.new.prev.items) (slice_index self.old.next.items at)
            (slice_index self.old.prev.items at) }
        ensures next_len { length self.new.next.items ≡ length self.old.next.items }
        ensures prev_len { length self.new.prev.items ≡ length self.old.prev.items }
    {
        let before = self.prev[at];
        let after = self.next[at];
        self.next[before] = after;
        self.prev[after] = before;
    }

    /// Puts a place between two others.
    fn splice(&mut self, before: usize, at: usize, after: usize)
        requires before_in { before < length self.old.next.items }
        requires at_in { (at < length self.old.next.items) × (at < length self.old.prev.items) }
        requires after_in { after < length self.old.prev.items }
        requires apart { (at ≢ before) × (at ≢ after) }
        ensures inserts { Inserts (slice_index self.old.next.items)
            (slice_index self.old.prev.items) (slice_index self.new.next.items)
            (slice_index self.new.prev.items) before at after }
        ensures next_len { length self.new.next.items ≡ length self.old.next.items }
        ensures prev_len { length self.new.prev.items ≡ length self.old.prev.items }
    {
        self.next[before] = at;
        self.next[at] = after;
        self.prev[after] = at;
        self.prev[at] = before;
    }

    /// Appends the places that so many links back lead to in turn.
    fn follow_back(&self, from: usize, steps: u32, found: &mut Vec<u32>)
        requires within { (i : ℕ) → i < steps
            → after_links (slice_index self.now.prev.items) i from < length self.now.prev.items }
        requires small { (i : ℕ) → i < steps
            → after_links (slice_index self.now.prev.items) (i + 1) from < 2 ^ 32 }
        requires room { length found.old.items + steps ≤ vec_capacity found.old }
        ensures items { found.new.items
            ≡ found.old.items ++ walk (slice_index self.now.prev.items) steps from }
        ensures capacity { vec_capacity found.new ≡ vec_capacity found.old }
    {
        let mut at = from;
        for _step in 0..steps {
            at = self.prev[at];
            found.push_reserved(at as u32);
        }
    }
}

impl Lru {
    /// Two empty lists, for frames with numbers below `frames`.
    pub fn new(alloc: Global, frames: u32) -> Result<Lru, AllocError>
        ensures { IfOk result (λ lru. lru ≡
            record { frames = frames; active = []; inactive = [] }) }
    {
        let frames = frames as usize;
        Ok(Lru {
            links: Links {
                next: empty_rings(alloc, frames)?,
                prev: empty_rings(alloc, frames)?,
            },
            places: no_places(alloc, frames)?,
            lengths: Lengths {
                active: 0,
                inactive: 0,
            },
        })
    }

    /// Puts a frame that is in no list at the head of the inactive list.
    pub fn add(&mut self, frame: u32)
        requires in_range { frame < self.old.frames }
        requires not_active { is_in frame self.old.active ≡ false }
        requires not_inactive { is_in frame self.old.inactive ≡ false }
        ensures { self.new ≡ record self.old { inactive = frame ∷ self.old.inactive } }
    {
        self.add_head(Which::Inactive, frame);
    }

    /// Takes a frame out of its list, if it is in one.
    pub fn remove(&mut self, frame: u32)
        requires { frame < self.old.frames }
        ensures { self.new ≡ without_frame frame self.old }
    {
        let place = frame as usize;
        if let Some(which) = self.places[place] {
            self.links.skip(place);
            self.places[place] = None;
            self.lengths.down(which);
        }
    }

    /// Moves a frame to the head of the active list, out of its list if it is in one.
    #[tactic(auto, using(crate::proofs::Steps::gone))]
    pub fn to_active(&mut self, frame: u32)
        requires { frame < self.old.frames }
        ensures { self.new
            ≡ record (without_frame frame self.old) {
              active = frame ∷ (without_frame frame
                  self.old).active;
            } }
    {
        self.remove(frame);
        self.add_head(Which::Active, frame);
    }

    /// Moves a frame to the head of the inactive list, out of its list if it is in one.
    #[tactic(auto, using(crate::proofs::Steps::gone))]
    pub fn to_inactive_head(&mut self, frame: u32)
        requires { frame < self.old.frames }
        ensures { self.new ≡ record (without_frame frame self.old) {
          inactive = frame ∷ (without_frame frame self.old).inactive;
        } }
    {
        self.remove(frame);
        self.add(frame);
    }

    /// Moves a frame to the tail of the inactive list, out of its list if it is in one.
    #[tactic(auto, using(crate::proofs::Steps::gone))]
    pub fn to_inactive_tail(&mut self, frame: u32)
        requires { frame < self.old.frames }
        ensures { self.new ≡ record (without_frame frame self.old) {
          inactive = (without_frame frame self.old).inactive ++ frame ∷ [];
        } }
    {
        self.remove(frame);
        self.add_tail(Which::Inactive, frame);
    }

    /// Puts a frame that is in no list in the place of another, which is in no list then. Where
    /// that one is in none already, all stays.
    pub fn rename(&mut self, from: u32, to: u32)
        requires in_range { (from < self.old.frames) × (to < self.old.frames) }
        requires not_active { is_in to self.old.active ≡ false }
        requires not_inactive { is_in to self.old.inactive ≡ false }
        ensures { self.new ≡ with_renamed from to self.old }
    {
        let old = from as usize;
        let place = to as usize;
        if let Some(which) = self.places[old] {
            let before = self.links.prev[old];
            let after = self.links.next[old];
            self.links.splice(before, place, after);
            self.places[place] = Some(which);
            self.places[old] = None;
        }
    }

    /// The list that a frame is in.
    pub fn place(&self, frame: u32) -> Option<Which>
        requires { frame < self.now.frames }
        ensures place { result ≡ place_in frame self.now }
        ensures never_both { is_in frame self.now.active ≡ true
            → is_in frame self.now.inactive ≡ false }
    {
        self.places[frame as usize]
    }

    /// How many frames a list has.
    pub fn len(&self, which: Which) -> u32
        ensures count { result ≡ length (list_of which self.now) }
        ensures within { result ≤ self.now.frames }
        ensures apart { IsApart (list_of which self.now) }
        ensures in_range { (f : ℕ) → is_in f (list_of which self.now) ≡ true → f < self.now.frames }
    {
        self.lengths.of(which)
    }

    /// The frame at the tail of a list. None exactly where the list is empty.
    pub fn tail(&self, which: Which) -> Option<u32>
        ensures { result ≡ last_of None (list_of which self.now) }
    {
        frame_at(
            self.places.len(),
            self.links.prev[head(self.places.len(), which)],
        )
    }

    /// The frame before one that is in a list. None exactly where that is at the head.
    pub fn before(&self, frame: u32) -> Option<u32>
        requires { (is_in frame self.now.active ≡ true) ⊎ (is_in frame self.now.inactive ≡ true) }
        ensures active { is_in frame self.now.active ≡ true
            → result ≡ frame_before None frame self.now.active }
        ensures inactive { is_in frame self.now.inactive ≡ true
            → result ≡ frame_before None frame self.now.inactive }
    {
        frame_at(self.places.len(), self.links.prev[frame as usize])
    }

    /// Appends the last `count` frames of a list, or all where there are fewer, from the tail on.
    /// It costs `count` steps.
    pub fn tails(&self, which: Which, count: u32, found: &mut Vec<u32>)
        requires { length found.old.items + count ≤ vec_capacity found.old }
        ensures items { found.new.items
            ≡ found.old.items ++ take count (reverse (list_of which self.now)) }
        ensures capacity { vec_capacity found.new ≡ vec_capacity found.old }
    {
        let head = head(self.places.len(), which);
        let steps = count.min(self.len(which));
        self.links.follow_back(head, steps, found);
    }

    /// Puts a frame that is in no list at the head of a list.
    fn add_head(&mut self, which: Which, frame: u32)
        requires in_range { frame < self.old.frames }
        requires not_active { is_in frame self.old.active ≡ false }
        requires not_inactive { is_in frame self.old.inactive ≡ false }
        ensures { self.new ≡ with_list which (frame ∷ list_of which self.old) self.old }
    {
        let place = frame as usize;
        let head = head(self.places.len(), which);
        let first = self.links.next[head];
        self.links.splice(head, place, first);
        self.places[place] = Some(which);
        self.lengths.up(which);
    }

    /// Puts a frame that is in no list at the tail of a list.
    fn add_tail(&mut self, which: Which, frame: u32)
        requires in_range { frame < self.old.frames }
        requires not_active { is_in frame self.old.active ≡ false }
        requires not_inactive { is_in frame self.old.inactive ≡ false }
        ensures { self.new ≡ with_list which (list_of which self.old ++ frame ∷ []) self.old }
    {
        let place = frame as usize;
        let head = head(self.places.len(), which);
        let last = self.links.prev[head];
        self.links.splice(last, place, head);
        self.places[place] = Some(which);
        self.lengths.up(which);
    }
}

/// The place of a list's head, behind the frames.
fn head(frames: usize, which: Which) -> usize
    requires { frames < 2 ^ 32 }
    ensures { result ≡ head_of frames which }
{
    match which {
        Which::Active => frames,
        Which::Inactive => frames + 1,
    }
}

/// The frame whose place this is. None at a head.
fn frame_at(frames: usize, place: usize) -> Option<u32>
    requires { frames < 2 ^ 32 }
    ensures { result ≡ (if nat_lt place frames then Some place else None) }
{
    if place < frames {
        Some(place as u32)
    } else {
        None
    }
}

/// The links of two empty lists: each head leads to itself.
fn empty_rings(alloc: Global, frames: usize) -> Result<Vec<usize>, AllocError>
    requires { frames < 2 ^ 32 }
    ensures { IfOk result (λ links.
        (length links.items ≡ frames + 2)
        × (slice_index links.items frames ≡ frames)
        × (slice_index links.items (frames + 1) ≡ frames + 1)) }
{
    let mut links = Vec::new(alloc);
    links.resize(frames + 2, 0)?;
    links[frames] = frames;
    links[frames + 1] = frames + 1;
    Ok(links)
}

/// So many frames in no list.
fn no_places(alloc: Global, frames: usize) -> Result<Vec<Option<Which>>, AllocError>
    ensures { IfOk result (λ places. places.items ≡ replicate frames None) }
{
    let mut places = Vec::new(alloc);
    places.resize(frames, None)?;
    Ok(places)
}
