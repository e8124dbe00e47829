//! How many entries of locked pages name each frame, and how many frames have one.

ghost use Rattle.std.specs.Prelude.{◌≡◌, ◌<◌, length, replicate, slice_index, slice_set};
ghost use Rattle.std.specs.Prelude.{◌&&◌, IfOk, None, is_some, nat_lt, slice_index_or};
ghost use Rattle.av_base.specs.Words.{how_many};
ghost use Rattle.av_frames.specs.Locks.{count_frames, is_locked, is_locked_cached};

use crate::frames::fill;
use crate::slots::{Slots, recount};
use av_base::Slot;
use std::alloc::{AllocError, Global};
use std::marker::Model;

/// How many entries of locked pages name each of a fixed number of frames, beside their slots: how
/// many frames are both locked and cached is kept, too. Only `new` takes memory.
#[derive(Drop)]
pub struct Locks {
    counts: Vec<u64>,
    slots: Slots,
    locked: u32,
    locked_cached: u32,
}

impl Model for Locks {
    ghost use Rattle.av_frames.specs.Locks.{LocksAndSlots, IsCounted};

    ghost Value = { LocksAndSlots };

    ghost view = { λ a. record { locks = a.counts.items; slots = a.slots } };

    ghost invariant = { λ a. IsCounted (record { locks = a.counts.items; slots = a.slots })
        a.locked a.locked_cached };
}

impl Locks {
    /// So many frames, of which none is locked or cached.
    pub fn new(alloc: Global, count: u32) -> Result<Locks, AllocError>
        ensures { IfOk result (λ locks. locks ≡ record {
          locks = replicate count 0;
          slots = replicate count None;
        }) }
    {
        Ok(Locks {
            counts: fill(alloc, 0, count as usize)?,
            slots: Slots::new(alloc, count)?,
            locked: 0,
            locked_cached: 0,
        })
    }

    /// How many entries of locked pages name a frame.
    pub fn get(&self, frame: usize) -> u64
        requires { frame < length self.now.locks }
        ensures { result ≡ slice_index self.now.locks frame }
    {
        self.counts[frame]
    }

    /// Whether one does.
    #[inline(always)]
    pub fn is_locked(&self, frame: usize) -> bool
        requires { frame < length self.now.locks }
        ensures { result ≡ is_locked self.now frame }
    {
        self.counts[frame] > 0
    }

    /// Sets how many do.
    pub fn set(&mut self, frame: usize, count: u64)
        requires { frame < length self.old.locks }
        ensures { self.new ≡ record self.old { locks = slice_set self.old.locks frame count } }
    {
        let was = self.get(frame);
        let slot = self.slots.get(frame);
        self.locked = recount(self.locked, was > 0, count > 0);
        self.locked_cached = recount(self.locked_cached, is_both(was, slot), is_both(count, slot));
        self.counts[frame] = count;
    }

    /// The slot of a frame.
    pub fn slot(&self, frame: usize) -> Option<Slot>
        requires { frame < length self.now.locks }
        ensures { result ≡ slice_index_or self.now.slots frame None }
    {
        self.slots.get(frame)
    }

    /// Sets it.
    pub fn set_slot(&mut self, frame: usize, slot: Option<Slot>)
        requires { frame < length self.old.locks }
        ensures { self.new ≡ record self.old { slots = slice_set self.old.slots frame slot } }
    {
        let count = self.get(frame);
        let was = self.slots.get(frame);
        self.locked_cached = recount(
            self.locked_cached,
            is_both(count, was),
            is_both(count, slot),
        );
        self.slots.set(frame, slot);
    }

    /// How many frames are cached.
    pub fn cached_len(&self) -> u32
        ensures { result ≡ how_many is_some self.now.slots }
    {
        self.slots.cached_len()
    }

    /// How many frames are locked.
    pub fn locked_len(&self) -> u32
        ensures { result ≡ count_frames (is_locked self.now) self.now }
    {
        self.locked
    }

    /// How many of these are cached.
    pub fn locked_cached_len(&self) -> u32
        ensures { result ≡ count_frames (is_locked_cached self.now) self.now }
    {
        self.locked_cached
    }
}

// Whether a frame with this count and this slot, or none, is locked and cached.
fn is_both(count: u64, slot: Option<Slot>) -> bool
    ensures { result ≡ nat_lt 0 count && is_some slot }
{
    count > 0 && slot.is_some()
}
