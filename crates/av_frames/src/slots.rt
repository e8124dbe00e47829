//! The slots at which frames are cached, and how many frames are.

ghost use Rattle.std.specs.Prelude.{◌≡◌, ◌<◌, ◌≤◌, ◌+◌, ◌^◌, length, replicate};
ghost use Rattle.std.specs.Prelude.{IfOk, None, if◌then◌else◌, is_some, slice_index_or, slice_set};
ghost use Rattle.av_base.specs.Words.{how_many};

use crate::frames::fill;
use av_base::Slot;
use std::alloc::{AllocError, Global};
use std::marker::Model;

/// The slot of each of a fixed number of frames, where it is cached at one. How many are is kept,
/// so that no one has to count them. Only `new` takes memory.
#[derive(Drop)]
pub struct Slots {
    slots: Vec<Option<Slot>>,
    cached: u32,
}

impl Model for Slots {
    ghost use Rattle.std.specs.Prelude.{◌≡◌, ◌<◌, ◌^◌, List, Option, length, is_some};
    ghost use Rattle.av_base.specs.declared.slot.Slot.{Slot};
    ghost use Rattle.av_base.specs.Words.{how_many};

    ghost Value = { List (Option Slot) };

    ghost view = { λ s. s.slots.items };

    ghost invariant = { λ s. (length s.slots.items < 2 ^ 32)
        × (s.cached ≡ how_many is_some s.slots.items) };
}

impl Slots {
    /// So many frames, of which none is cached.
    pub fn new(alloc: Global, count: u32) -> Result<Slots, AllocError>
        ensures { IfOk result (λ slots. slots ≡ replicate count None) }
    {
        Ok(Slots {
            slots: fill(alloc, None, count as usize)?,
            cached: 0,
        })
    }

    /// The slot of a frame.
    pub fn get(&self, frame: usize) -> Option<Slot>
        requires { frame < length self.now }
        ensures { result ≡ slice_index_or self.now frame None }
    {
        self.slots[frame]
    }

    /// Sets it.
    pub fn set(&mut self, frame: usize, slot: Option<Slot>)
        requires { frame < length self.old }
        ensures { self.new ≡ slice_set self.old frame slot }
    {
        self.cached = recount(self.cached, self.get(frame).is_some(), slot.is_some());
        self.slots[frame] = slot;
    }

    /// How many frames have one.
    pub fn cached_len(&self) -> u32
        ensures { result ≡ how_many is_some self.now }
    {
        self.cached
    }
}

/// How many frames are counted, once one that was, or wasn't, is, or isn't.
pub fn recount(count: u32, was: bool, is: bool) -> u32
    requires some { (if was then 1 else 0) ≤ count }
    requires few { count + (if is then 1 else 0) < 2 ^ 32 + (if was then 1 else 0) }
    ensures { result + (if was then 1 else 0) ≡ count + (if is then 1 else 0) }
{
    match (was, is) {
        (false, true) => count + 1,
        (true, false) => count - 1,
        _ => count,
    }
}
