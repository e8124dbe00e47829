//! The frames: their bytes, and what is kept of each.

ghost use Rattle.std.specs.Prelude.{◌≡◌, ℕ, ◌+◌, ◌<◌, ◌≤◌, ◌^◌, ◌-◌, ◌∷◌, ◌==◌, [], length};
ghost use Rattle.std.specs.Prelude.{slice_index, MatchOption, IfOk, true, false, replicate};
ghost use Rattle.std.specs.Prelude.{◌&&◌, is_some, nat_lt};
ghost use Rattle.av_frames.specs.Store.{shown, first_of, fresh, overlaid, with_bytes, with_maps};
ghost use Rattle.av_frames.specs.Store.{with_locks, with_home, with_dirty, with_slot, relocated};
ghost use Rattle.av_frames.specs.Store.{free_in_order};
ghost use Rattle.av_base.specs.Page.{page_size};
ghost use Rattle.av_base.specs.Words.{how_many, is_in, without};
ghost use Rattle.std.specs.List.{range_with_len};

use crate::free_list::FreeList;
use crate::locks::Locks;
use crate::pages::Pages;
use av_base::Slot;
use std::alloc::{AllocError, Global};
use std::marker::Model;

/// A fixed number of frames of a page each, numbered from 0. Only `new` takes memory.
#[derive(Drop)]
pub struct Frames {
    free: FreeList,
    bytes: Pages,
    maps: Vec<u64>,
    homes: Vec<Option<(u64, u64)>>,
    dirty: Vec<bool>,
    /// How many entries of locked pages name each, and its slot.
    locks: Locks,
}

impl Model for Frames {
    ghost use Rattle.av_frames.specs.Store.{Store, IsWhole};

    ghost Value = { Store };

    ghost view = { λ a. record {
      free = a.free.items;
      bytes = a.bytes;
      maps = a.maps.items;
      locks = a.locks.locks;
      homes = a.homes.items;
      dirty = a.dirty.items;
      slots = a.locks.slots;
    } };

    ghost invariant = { λ a. IsWhole a.free a.bytes a.maps.items a.homes.items a.dirty.items
        a.locks };
}

impl Frames {
    /// This many frames, all free in order of their numbers, full of zeros, and named by no entry.
    pub fn new(alloc: Global, count: u32) -> Result<Frames, AllocError>
        ensures { IfOk result (λ frames. shown frames ≡ fresh count) }
    {
        let len = count as usize;
        Ok(Frames {
            free: FreeList::new(alloc, count)?,
            bytes: Pages::new(alloc, len)?,
            maps: fill(alloc, 0, len)?,
            homes: fill(alloc, None, len)?,
            dirty: fill(alloc, false, len)?,
            locks: Locks::new(alloc, count)?,
        })
    }

    /// Takes the first free frame. None exactly where no frame is free.
    pub fn take(&mut self) -> Option<u32>
        ensures { MatchOption result
            ((self.old.free ≡ []) × (shown self.new ≡ shown self.old))
            (λ f. (self.old.free ≡ f ∷ self.new.free)
            × (f < (shown self.old).count) × (is_in f self.new.free ≡ false)
            × (shown self.new ≡ record (shown self.old) { free = self.new.free })) }
    {
        self.free.take()
    }

    /// The free frame that is taken next. None exactly where none is free.
    pub fn first(&self) -> Option<u32>
        ensures { result ≡ first_of self.now.free }
    {
        self.free.first()
    }

    /// Puts a frame in front of the free ones.
    pub fn give(&mut self, frame: u32)
        requires in_range { frame < (shown self.old).count }
        requires not_free { is_in frame self.old.free ≡ false }
        ensures { shown self.new ≡ record (shown self.old) { free = frame ∷ self.old.free } }
    {
        self.free.give(frame);
    }

    /// Moves what is kept of a frame that isn't free to one that is: bytes, how many entries name
    /// it, and how many of locked pages do, home, slot, and whether it is dirty. The frame is free
    /// instead, in front of the others.
    /// It costs the copy of a page, whatever the number of free frames.
    pub fn relocate(&mut self, from: u32, to: u32)
        requires in_range { (from < (shown self.old).count) × (to < (shown self.old).count) }
        requires not_free { is_in from self.old.free ≡ false }
        requires free { is_in to self.old.free ≡ true }
        ensures { shown self.new ≡ relocated from to (shown self.old) }
    {
        self.free.take_out(to);
        self.copy(from, to);
        self.set_home(to, self.home(from));
        self.set_dirty(to, self.dirty(from));
        self.set_maps(to, self.maps(from));
        self.set_maps(from, 0);
        self.set_locks(to, self.locks(from));
        self.set_locks(from, 0);
        self.set_slot(to, self.slot(from));
        self.set_slot(from, None);
        self.give(from);
    }

    /// Puts the free frames in order, the least first. It costs a step for each frame.
    pub fn order_free(&mut self)
        ensures { shown self.new ≡ record (shown self.old) {
          free = free_in_order (shown self.old);
        } }
    {
        self.free.order();
    }

    fn set_maps(&mut self, frame: u32, maps: u64)
        requires { frame < (shown self.old).count }
        ensures { shown self.new ≡ with_maps frame maps (shown self.old) }
    {
        self.maps[frame as usize] = maps;
    }

    /// How many frames there are, free or not.
    pub fn count(&self) -> u32
        ensures { result ≡ length self.now.bytes }
    {
        self.bytes.count() as u32
    }

    /// How many entries name the frame.
    pub fn maps(&self, frame: u32) -> u64
        requires { frame < (shown self.now).count }
        ensures { result ≡ (shown self.now).maps frame }
    {
        self.maps[frame as usize]
    }

    /// One more entry names the frame.
    pub fn map_up(&mut self, frame: u32)
        requires in_range { frame < (shown self.old).count }
        requires room { (shown self.old).maps frame < 2 ^ 64 - 1 }
        ensures { shown self.new
            ≡ with_maps frame ((shown self.old).maps frame + 1) (shown self.old) }
    {
        self.maps[frame as usize] += 1;
    }

    /// One entry fewer names the frame.
    pub fn map_down(&mut self, frame: u32)
        requires in_range { frame < (shown self.old).count }
        requires some { 0 < (shown self.old).maps frame }
        ensures { shown self.new
            ≡ with_maps frame ((shown self.old).maps frame - 1) (shown self.old) }
    {
        self.maps[frame as usize] -= 1;
    }

    /// No entry names the frame any more.
    pub fn clear_maps(&mut self, frame: u32)
        requires { frame < (shown self.old).count }
        ensures { shown self.new ≡ with_maps frame 0 (shown self.old) }
    {
        self.set_maps(frame, 0);
    }

    fn locks(&self, frame: u32) -> u64
        requires { frame < (shown self.now).count }
        ensures { result ≡ (shown self.now).locks frame }
    {
        self.locks.get(frame as usize)
    }

    fn set_locks(&mut self, frame: u32, locks: u64)
        requires { frame < (shown self.old).count }
        ensures { shown self.new ≡ with_locks frame locks (shown self.old) }
    {
        self.locks.set(frame as usize, locks);
    }

    /// Whether an entry of a locked page names the frame.
    #[inline(always)]
    pub fn is_locked(&self, frame: u32) -> bool
        requires { frame < (shown self.now).count }
        ensures { result ≡ nat_lt 0 ((shown self.now).locks frame) }
    {
        self.locks.is_locked(frame as usize)
    }

    /// One more entry of a locked page names the frame.
    pub fn lock_up(&mut self, frame: u32)
        requires in_range { frame < (shown self.old).count }
        requires room { (shown self.old).locks frame < 2 ^ 64 - 1 }
        ensures { shown self.new
            ≡ with_locks frame ((shown self.old).locks frame + 1) (shown self.old) }
    {
        self.set_locks(frame, self.locks(frame) + 1);
    }

    /// One entry of a locked page fewer names the frame.
    pub fn lock_down(&mut self, frame: u32)
        requires in_range { frame < (shown self.old).count }
        requires some { 0 < (shown self.old).locks frame }
        ensures { shown self.new
            ≡ with_locks frame ((shown self.old).locks frame - 1) (shown self.old) }
    {
        self.set_locks(frame, self.locks(frame) - 1);
    }

    /// How many frames have one.
    pub fn locked_len(&self) -> u32
        ensures { result ≡ how_many (λ f. nat_lt 0 ((shown self.now).locks f))
            (range_with_len 0 (shown self.now).count) }
    {
        self.locks.locked_len()
    }

    /// How many of these are in the swap cache.
    pub fn locked_cached_len(&self) -> u32
        ensures { result ≡ how_many
            (λ f. nat_lt 0 ((shown self.now).locks f) && is_some ((shown self.now).slot f))
            (range_with_len 0 (shown self.now).count) }
    {
        self.locks.locked_cached_len()
    }

    /// Where the entries of the frame are found: an anon_vma's number, and the linear index there.
    pub fn home(&self, frame: u32) -> Option<(u64, u64)>
        requires { frame < (shown self.now).count }
        ensures { result ≡ (shown self.now).home frame }
    {
        self.homes[frame as usize]
    }

    /// Sets the frame's home.
    pub fn set_home(&mut self, frame: u32, home: Option<(u64, u64)>)
        requires { frame < (shown self.old).count }
        ensures { shown self.new ≡ with_home frame home (shown self.old) }
    {
        self.homes[frame as usize] = home;
    }

    /// Whether the frame's bytes may differ from those in its slot, where it is cached at one.
    pub fn dirty(&self, frame: u32) -> bool
        requires { frame < (shown self.now).count }
        ensures { result ≡ (shown self.now).dirty frame }
    {
        self.dirty[frame as usize]
    }

    /// Sets whether they may differ.
    pub fn set_dirty(&mut self, frame: u32, dirty: bool)
        requires { frame < (shown self.old).count }
        ensures { shown self.new ≡ with_dirty frame dirty (shown self.old) }
    {
        self.dirty[frame as usize] = dirty;
    }

    /// The slot at which the frame is in the swap cache, if it is there.
    pub fn slot(&self, frame: u32) -> Option<Slot>
        requires { frame < (shown self.now).count }
        ensures { result ≡ (shown self.now).slot frame }
    {
        self.locks.slot(frame as usize)
    }

    /// Sets that slot.
    pub fn set_slot(&mut self, frame: u32, slot: Option<Slot>)
        requires { frame < (shown self.old).count }
        ensures { shown self.new ≡ with_slot frame slot (shown self.old) }
    {
        self.locks.set_slot(frame as usize, slot);
    }

    /// How many frames are in the swap cache: those that have a slot.
    pub fn cached_len(&self) -> u32
        ensures { result ≡ how_many (λ f. is_some ((shown self.now).slot f))
            (range_with_len 0 (shown self.now).count) }
    {
        self.locks.cached_len()
    }

    /// How many frames are free.
    pub fn free(&self) -> u32
        ensures count { result ≡ length self.now.free }
        // The free list has each free frame once.
        ensures once { (f : ℕ) → how_many (λ g. f == g) self.now.free ≤ 1 }
        ensures in_range { (f : ℕ) → is_in f self.now.free ≡ true → f < (shown self.now).count }
        ensures within { result ≤ (shown self.now).count }
    {
        self.free.len()
    }

    /// Whether a frame is free.
    pub fn is_free(&self, frame: u32) -> bool
        requires { frame < (shown self.now).count }
        ensures { result ≡ is_in frame self.now.free }
    {
        self.free.has(frame)
    }

    /// The bytes of a frame.
    pub fn bytes(&self, frame: u32) -> &[u8]
        requires { frame < (shown self.now).count }
        ensures long { length result.now ≡ page_size }
        ensures bytes { (i : ℕ) → slice_index result.now i ≡ (shown self.now).bytes frame i }
    {
        self.bytes.get(frame as usize)
    }

    /// Writes a piece over a frame's bytes from `at` on.
    pub fn write_at(&mut self, frame: u32, at: usize, piece: &[u8])
        requires in_range { frame < (shown self.old).count }
        requires fits { at + length piece.now ≤ page_size }
        ensures { shown self.new
            ≡ with_bytes frame
            (overlaid at piece.now ((shown self.old).bytes frame)) (shown self.old) }
    {
        self.bytes.write_at(frame as usize, at, piece);
    }

    /// Copies the bytes of one frame to another.
    pub fn copy(&mut self, from: u32, to: u32)
        requires { (from < (shown self.old).count) × (to < (shown self.old).count) }
        ensures { shown self.new ≡ with_bytes to ((shown self.old).bytes from) (shown self.old) }
    {
        self.bytes.copy(from as usize, to as usize);
    }

    /// Makes each byte of a frame zero.
    pub fn zero(&mut self, frame: u32)
        requires { frame < (shown self.old).count }
        ensures { shown self.new ≡ with_bytes frame (λ i. 0) (shown self.old) }
    {
        self.bytes.clear(frame as usize);
    }

    /// Makes a frame's bytes those of a page, as it was read from a device.
    pub fn load(&mut self, frame: u32, page: &[u8])
        requires in_range { frame < (shown self.old).count }
        requires long { length page.now ≡ page_size }
        ensures { shown self.new ≡ with_bytes frame (slice_index page.now) (shown self.old) }
    {
        self.bytes.put(frame as usize, page);
    }
}

/// The same value, this many times.
pub fn fill<T: Copy>(alloc: Global, value: T, count: usize) -> Result<Vec<T>, AllocError>
    ensures { IfOk result (λ v. v.items ≡ replicate count value) }
{
    let mut values = Vec::new(alloc);
    values.resize(count, value)?;
    Ok(values)
}
