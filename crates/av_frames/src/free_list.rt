//! The list of free frames.

ghost use Rattle.std.specs.Prelude.{◌≡◌, ℕ, ◌<◌, ◌≤◌, ◌^◌, ◌∷◌, ◌==◌, [], length, not, true, false};
ghost use Rattle.std.specs.Prelude.{filter, IfOk, MatchOption};
ghost use Rattle.av_base.specs.Words.{how_many, is_in, without};
ghost use Rattle.av_frames.specs.Free.{is_free, is_out, listed, place_of};
ghost use Rattle.av_frames.specs.Store.{first_of};
ghost use Rattle.std.specs.List.{range_with_len};
ghost use Rattle.std.specs.VecDeque.{deque_len, deque_capacity};

use crate::frames::fill;
use std::alloc::{AllocError, Global};
use std::collections::VecDeque;
use std::marker::Model;

/// How a frame stands to the queue.
#[derive(Clone, Copy, Drop)]
enum Place {
    /// It is free, and has a place there.
    Free,
    /// It isn't free, and has none.
    Used,
    /// It isn't free any more. Its place is left there, and counts for nothing.
    Left,
}

/// The free ones of a fixed number of frames, in the order in which they are taken. Only `new`
/// takes memory. A frame that is taken out from among them leaves its place, so that no one has
/// to search it. Until `order`, `take` and `first` look over the places left in front.
#[derive(Drop)]
pub struct FreeList {
    /// There is room for every frame, so that giving back takes no memory.
    queue: VecDeque<u32>,
    places: Vec<Place>,
    /// How many places are left.
    left: u32,
}

impl Model for FreeList {
    ghost use Rattle.std.specs.Prelude.{length};
    ghost use Rattle.std.specs.VecDeque.{deque_capacity};
    ghost use Rattle.av_frames.specs.Free.{FreeFrames, IsListed, listed};

    ghost Value = { FreeFrames };

    ghost view = { λ f. record {
      count = length f.places.items;
      items = listed f.places.items f.queue.items;
    } };

    ghost invariant = { λ f.
        IsListed f.queue.items (deque_capacity f.queue) f.places.items f.left };
}

impl FreeList {
    /// This many frames, all free, in order of their numbers.
    pub fn new(alloc: Global, count: u32) -> Result<FreeList, AllocError>
        ensures { IfOk result (λ list. list ≡ record {
          count = count;
          items = range_with_len 0 count;
        }) }
    {
        Ok(FreeList {
            queue: all_numbers(alloc, count)?,
            places: fill(alloc, Place::Free, count as usize)?,
            left: 0,
        })
    }

    /// Takes the first one. None exactly where there is none.
    pub fn take(&mut self) -> Option<u32>
        ensures { MatchOption result
            ((self.old.items ≡ []) × (self.new ≡ self.old))
            (λ f. (self.old.items ≡ f ∷ self.new.items)
            × (f < self.old.count) × (is_in f self.new.items ≡ false)
            × (self.new.count ≡ self.old.count)) }
    {
        if self.left > 0 {
            return self.take_first();
        }
        let frame = self.queue.pop_front()?;
        self.places[frame as usize] = Place::Used;
        Some(frame)
    }

    // The same where places are left.
    fn take_first(&mut self) -> Option<u32>
        ensures { MatchOption result
            ((self.old.items ≡ []) × (self.new ≡ self.old))
            (λ f. (self.old.items ≡ f ∷ self.new.items)
            × (f < self.old.count) × (is_in f self.new.items ≡ false)
            × (self.new.count ≡ self.old.count)) }
    {
        let frame = first_free(&self.queue, &self.places)?;
        self.take_out(frame);
        Some(frame)
    }

    /// The one that is taken next. None exactly where there is none.
    pub fn first(&self) -> Option<u32>
        ensures { result ≡ first_of self.now.items }
    {
        if self.left > 0 {
            return first_free(&self.queue, &self.places);
        }
        self.queue.front().copied()
    }

    /// Puts a frame in front.
    pub fn give(&mut self, frame: u32)
        requires in_range { frame < self.old.count }
        requires not_free { is_in frame self.old.items ≡ false }
        ensures { self.new ≡ record self.old { items = frame ∷ self.old.items } }
    {
        if let Place::Left = self.places[frame as usize] {
            remove(&mut self.queue, frame);
            self.left -= 1;
        }
        self.places[frame as usize] = Place::Free;
        self.queue.push_front_reserved(frame);
    }

    /// Takes a frame out from among the others.
    pub fn take_out(&mut self, frame: u32)
        requires { is_in frame self.old.items ≡ true }
        ensures { self.new ≡ record self.old { items = without frame self.old.items } }
    {
        self.places[frame as usize] = Place::Left;
        self.left += 1;
    }

    /// Puts them in order, the least first.
    pub fn order(&mut self)
        ensures { self.new ≡ record self.old {
          items = filter (λ f. is_in f self.old.items) (range_with_len 0 self.old.count);
        } }
    {
        list_free(&mut self.places, &mut self.queue);
        self.left = 0;
    }

    /// How many there are.
    pub fn len(&self) -> u32
        ensures count { result ≡ length self.now.items }
        // Each is there once.
        ensures once { (f : ℕ) → how_many (λ g. f == g) self.now.items ≤ 1 }
        ensures in_range { (f : ℕ) → is_in f self.now.items ≡ true → f < self.now.count }
        ensures within { result ≤ self.now.count }
    {
        self.queue.len() as u32 - self.left
    }

    /// Whether a frame is one of them.
    pub fn has(&self, frame: u32) -> bool
        requires { frame < self.now.count }
        ensures { result ≡ is_in frame self.now.items }
    {
        matches!(self.places[frame as usize], Place::Free)
    }
}

/// The first of those that are free.
fn first_free(queue: &VecDeque<u32>, places: &[Place]) -> Option<u32>
    ensures { result ≡ first_of (listed places.now queue.now.items) }
{
    for at in 0..queue.len() {
        let frame = queue[at];
        if reads_free(places, frame) {
            return Some(frame);
        }
    }
    None
}

/// Whether a frame is free, by what is kept of it.
fn reads_free(places: &[Place], frame: u32) -> bool
    ensures { result ≡ is_free (place_of places.now frame) }
{
    matches!(places.get(frame as usize), Some(Place::Free))
}

/// Takes the place of a frame out of a queue.
fn remove(queue: &mut VecDeque<u32>, frame: u32)
    ensures items { queue.new.items ≡ without frame queue.old.items }
    ensures capacity { deque_capacity queue.new ≡ deque_capacity queue.old }
{
    queue.retain(|other| frame != *other);
}

/// Makes a queue that of the frames which are free, the least first. No place is left.
fn list_free(places: &mut [Place], queue: &mut VecDeque<u32>)
    requires few { length places.old < 2 ^ 32 }
    requires room { length places.old ≤ deque_capacity queue.old }
    ensures items { queue.new.items ≡ listed places.old (range_with_len 0 (length places.old)) }
    ensures capacity { deque_capacity queue.new ≡ deque_capacity queue.old }
    ensures len { length places.new ≡ length places.old }
    ensures free { (f : ℕ) → is_free (place_of places.new f) ≡ is_free (place_of places.old f) }
    ensures out { (f : ℕ) →
        is_out (place_of places.new f) ≡ not (is_free (place_of places.new f)) }
{
    queue.clear();
    for frame in 0..places.len() {
        if let Place::Free = places[frame] {
            queue.push_back_reserved(frame as u32);
        } else {
            places[frame] = Place::Used;
        }
    }
}

/// The numbers below the count, with the room that they take.
#[tactic(auto, using(crate::proofs::Numbers::numbers_next))]
fn all_numbers(alloc: Global, count: u32) -> Result<VecDeque<u32>, AllocError>
    ensures { IfOk result (λ q.
        (q.items ≡ range_with_len 0 count) × (deque_len q ≡ count) × (count ≤ deque_capacity q)) }
{
    let mut numbers = VecDeque::with_capacity(alloc, count as usize)?;
    for i in 0..count {
        numbers.push_back(i)?;
    }
    Ok(numbers)
}
