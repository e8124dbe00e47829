//! The swap areas that are on and the swap cache: one struct, whose calls go through frames and
//! device (Linux's `mm/swapfile.c` and `mm/swap_state.c`).

ghost use Rattle.std.specs.Prelude.{◌≡◌, ℕ, ◌+◌, ◌-◌, ◌<◌, ◌≤◌, ◌^◌, ◌∷◌, ◌++◌, [], nat_lt, length};
ghost use Rattle.std.specs.Prelude.{replicate, IfOk, IfSome, IsSomeAnd, MatchBool, MatchOption};
ghost use Rattle.std.specs.Prelude.{MatchResult, OnOk, OnErr, Ok, Some, None, true, false};
ghost use Rattle.av_frames.specs.Store.{shown as frames_shown, with_dirty};
ghost use Rattle.av_frames.specs.Store.{with_slot as with_frame_slot};
ghost use Rattle.av_io.specs.Count.{Rose};
ghost use Rattle.av_swapcache.specs.Calls.{Answers, Finishes, IsLoaded, IsPut};
ghost use Rattle.av_swapcache.specs.Swap.{shown, fresh, all_free, all_slots, IsFit, GivesFirst};
ghost use Rattle.av_swapcache.specs.Swap.{HasAreas, IsCachedAs, IsPage, IsUncached, can_give};
ghost use Rattle.av_swapcache.specs.Swap.{count_of, with_renamed};
ghost use Rattle.av_swapcache.specs.Swap.{is_flying, is_full, is_on, header_at, free_of};
ghost use Rattle.av_swapcache.specs.Swap.{outranks, is_closing, with_closing, with_entries};
ghost use Rattle.av_swapcache.specs.Swap.{with_find, given_back, after_off};
ghost use Rattle.av_swapdev.specs.Device.{most_areas};

use crate::area::Area;
use crate::areas::Areas;
use av_base::Slot;
use av_frames::Frames;
use av_io::Failed;
use av_swapdev::{Header, HeaderErr, PAGE_LEN, SwapDev, bad_pages, read_header};
use std::alloc::{AllocError, Global};
use std::collections::VecDeque;
use std::marker::Model;

/// How many areas there can be, by number from 0.
const AREAS: u8 = 8;

/// What came of turning an area on.
#[derive(Clone, Copy, Drop, Debug, PartialEq, Eq)]
pub enum SwapOn {
    /// It is on, with this header.
    On(Header),
    /// It was on already.
    Busy,
    /// Its header could not be read.
    Io,
    /// Page 0 is no header.
    Bad(HeaderErr),
}

/// What came of a write of a slot.
#[derive(Clone, Copy, Drop, Debug, PartialEq, Eq)]
pub enum Finished {
    /// The slot's page holds the bytes of the frame that caches it.
    Done { slot: Slot, frame: u32 },
    /// The device failed, and the slot's page holds any bytes.
    Failed { slot: Slot, frame: u32 },
}

/// The swap areas that are on and the swap cache. Areas are numbered from 0 to 7, the pages of each
/// from 0, its header. Only `new`, `swapon` and `entry_up` take memory.
#[derive(Drop)]
pub struct Swap {
    areas: Areas,
    // The area that gives no slot for now, since it is about to be turned off.
    closing: Option<u8>,
    // The slots in flight, in order. There is room for one of each frame.
    flight: VecDeque<Slot>,
    // Whether the slot that a frame caches is in flight, so that no one has to search it.
    writing: Vec<bool>,
    // Where a page is read to. It is kept, so that no load has to clear one.
    page: [u8; PAGE_LEN],
}

impl Model for Swap {
    ghost use Rattle.std.specs.VecDeque.{deque_len, deque_capacity};
    ghost use Rattle.std.specs.Prelude.{length};
    ghost use Rattle.av_swapcache.specs.Swap.{Store, IsWhole, frame_in};

    ghost Value = { Store };

    ghost view = { λ a. record {
      areas = a.areas.areas.items;
      closing = a.closing;
      flight = a.flight.items;
      writing = a.writing.items;
    } };

    ghost invariant = { λ a. IsWhole (length a.areas.areas.items) (frame_in a.areas.areas.items)
        a.flight.items (deque_len a.flight) (deque_capacity a.flight) a.writing.items };
}

impl Swap {
    /// No area is on. There is room for a slot in flight of each of so many frames.
    pub fn new(alloc: Global, frames: u32) -> Result<Swap, AllocError>
        ensures { IfOk result (λ swap. shown swap ≡ fresh frames) }
    {
        Ok(Swap {
            areas: Areas::new(alloc, AREAS)?,
            closing: None,
            flight: VecDeque::with_capacity(alloc, frames as usize)?,
            writing: no_flags(alloc, frames)?,
            page: [0; PAGE_LEN],
        })
    }

    /// Turns an area on, which has so many pages on the device, by the header on its page 0. Of two
    /// areas the one with the greater priority gives its slots first. `Err` is want of memory
    /// alone: all stays then, as where the answer is another than `On`.
    // Never inlined: its page would be on the stack of each caller, also of one that reads none.
    #[inline(never)]
    pub fn swapon<D: SwapDev>(
        &mut self,
        alloc: Global,
        area: u8,
        pages: u32,
        priority: i32,
        dev: &mut D,
    ) -> Result<SwapOn, AllocError>
        requires number { area < most_areas }
        requires some { 0 < pages }
        requires there { D.sizes dev.old area ≡ Some pages }
        ensures answers { MatchResult result
            (λ answer. Answers (D.pages dev.old) area pages priority answer (shown self.old)
            (shown self.new))
            (λ _. shown self.new ≡ shown self.old) }
        ensures same_pages { D.pages dev.new ≡ D.pages dev.old }
        ensures same_sizes { D.sizes dev.new ≡ D.sizes dev.old }
        ensures never_falls { D.failures dev.old ≤ D.failures dev.new }
        ensures cause { result ≡ Ok SwapOn.Io → Rose (D.failures dev.old) (D.failures dev.new) }
        ensures unfailed { (result ≡ Ok SwapOn.Io → ⊥) → D.failures dev.new ≡ D.failures dev.old }
        ensures asked { D.history dev.new ≡ D.history dev.old }
    {
        if self.is_on(area) {
            return Ok(SwapOn::Busy);
        }
        let mut page = [0; PAGE_LEN];
        if dev.read(area, 0, &mut page).is_err() {
            return Ok(SwapOn::Io);
        }
        let header = match read_header(&page, pages) {
            Ok(header) => header,
            Err(fault) => return Ok(SwapOn::Bad(fault)),
        };
        let bad = bad_pages(alloc, &page, &header)?;
        self.areas.areas[area as usize] = Some(Area::new(alloc, header, priority, &bad)?);
        Ok(SwapOn::On(header))
    }

    /// What holds of the slots, the cache and the flight at any time.
    pub fn keeps(&self)
        ensures { IsFit (shown self.now) }
    {
        self.areas.keep();
    }

    /// The frame that caches a slot (Linux's `swap_cache_get_folio`).
    pub fn find(&self, slot: Slot) -> Option<u32>
        ensures value { result ≡ (shown self.now).find slot }
        ensures in_range { IfSome result (λ f. f < (shown self.now).frames) }
    {
        self.areas.find(slot)
    }

    /// Whether an area gives a slot: then `put` finds one.
    pub fn has_slot(&self) -> bool
        ensures { MatchBool result ((k : ℕ) × (can_give (shown self.now) k ≡ true))
            ((k : ℕ) → can_give (shown self.now) k ≡ false) }
    {
        self.giving().is_some()
    }

    /// Takes the next slot of the area that gives first, and caches it at a frame, which is dirty
    /// then. None exactly where no area gives one.
    pub fn put(&mut self, frames: &mut Frames, frame: u32) -> Option<Slot>
        requires fits { (shown self.old).frames ≡ (frames_shown frames.old).count }
        requires in_range { frame < (shown self.old).frames }
        requires not_cached { IsUncached (shown self.old) frame }
        ensures { MatchOption result
            (((k : ℕ) → can_give (shown self.old) k ≡ false) × (shown self.new ≡ shown self.old)
            × (frames_shown frames.new ≡ frames_shown frames.old))
            (λ s. IsPut frame s (shown self.old) (shown self.new) (frames_shown frames.old)
            (frames_shown frames.new)) }
    {
        let number = self.giving()?;
        let Some(area) = self.areas.of_mut(number) else {
            unreachable!();
        };
        let slot = Slot {
            area: number,
            page: area.put(frame),
        };
        frames.set_slot(frame, Some(slot));
        frames.set_dirty(frame, true);
        Some(slot)
    }

    /// Reads a slot that an entry names from the device to a frame, and caches it there; the frame
    /// is clean then. After a failure all stays.
    #[inline(never)]
    pub fn load<D: SwapDev>(
        &mut self,
        frames: &mut Frames,
        slot: Slot,
        frame: u32,
        dev: &mut D,
    ) -> Result<(), Failed>
        requires fits { (shown self.old).frames ≡ (frames_shown frames.old).count }
        requires in_range { frame < (shown self.old).frames }
        requires named { 0 < (shown self.old).entries slot }
        requires not_there { (shown self.old).find slot ≡ None }
        requires not_cached { IsUncached (shown self.old) frame }
        requires areas { HasAreas (D.sizes dev.old) (shown self.old) }
        ensures loads { MatchResult result
            (λ _. IsLoaded (D.pages dev.old) slot frame (shown self.old) (shown self.new)
            (frames_shown frames.old) (frames_shown frames.new))
            (λ _. (shown self.new ≡ shown self.old)
            × (frames_shown frames.new ≡ frames_shown frames.old)) }
        ensures same_pages { D.pages dev.new ≡ D.pages dev.old }
        ensures same_sizes { D.sizes dev.new ≡ D.sizes dev.old }
        ensures never_falls { D.failures dev.old ≤ D.failures dev.new }
        ensures cause { OnErr result (Rose (D.failures dev.old) (D.failures dev.new)) }
        ensures unfailed { OnOk result (D.failures dev.new ≡ D.failures dev.old) }
        ensures asked { D.history dev.new ≡ D.history dev.old }
    {
        let Some(area) = self.areas.of_mut(slot.area) else {
            unreachable!();
        };
        area.keeps();
        if dev.read(slot.area, slot.page, &mut self.page).is_err() {
            return Err(Failed);
        }
        area.cache(slot.page, frame);
        frames.load(frame, &self.page);
        frames.set_slot(frame, Some(slot));
        frames.set_dirty(frame, false);
        Ok(())
    }

    /// A slot that is cached at a frame is so no longer (Linux's `delete_from_swap_cache`); it is
    /// given back where no entry names it. The frame's dirty bit stays, and it isn't freed.
    pub fn drop_ref(&mut self, frames: &mut Frames, frame: u32, slot: Slot)
        requires fits { (shown self.old).frames ≡ (frames_shown frames.old).count }
        requires cached { (shown self.old).find slot ≡ Some frame }
        requires not_flying { is_flying (shown self.old) slot ≡ false }
        ensures swap { shown self.new ≡ given_back slot (with_find slot None (shown self.old)) }
        ensures frame { frames_shown frames.new
            ≡ with_frame_slot frame None (frames_shown frames.old) }
    {
        let Some(area) = self.areas.of_mut(slot.area) else {
            unreachable!();
        };
        area.uncache(slot.page);
        frames.set_slot(frame, None);
    }

    /// The slot that is cached at a frame is cached at another one, in flight or not. The frames
    /// stay as they are: what they say of slots goes over with the rest (`Frames::relocate`). Where
    /// no slot is cached there all stays.
    pub fn rename(&mut self, frames: &Frames, from: u32, to: u32)
        requires fits { (shown self.old).frames ≡ (frames_shown frames.now).count }
        requires in_range { (from < (shown self.old).frames) × (to < (shown self.old).frames) }
        requires cached { IsCachedAs (shown self.old) from ((frames_shown frames.now).slot from) }
        requires not_cached { IsUncached (shown self.old) to }
        ensures { shown self.new ≡ with_renamed from to (shown self.old) }
    {
        let Some(slot) = frames.slot(from) else {
            return;
        };
        let Some(area) = self.areas.of_mut(slot.area) else {
            unreachable!();
        };
        area.cache(slot.page, to);
        self.writing[to as usize] = self.writing[from as usize];
        self.writing[from as usize] = false;
    }

    /// Puts a slot that is cached at a frame last in flight. The frame is clean then.
    pub fn start(&mut self, frames: &mut Frames, frame: u32, slot: Slot)
        requires fits { (shown self.old).frames ≡ (frames_shown frames.old).count }
        requires cached { (shown self.old).find slot ≡ Some frame }
        requires not_flying { is_flying (shown self.old) slot ≡ false }
        ensures swap { shown self.new
            ≡ record (shown self.old) { flight = (shown self.old).flight ++ slot ∷ [] } }
        ensures frame { frames_shown frames.new
            ≡ with_dirty frame false (frames_shown frames.old) }
    {
        self.writing[frame as usize] = true;
        self.flight.push_back_reserved(slot);
        frames.set_dirty(frame, false);
    }

    /// Writes the first slot in flight to the device, with the bytes that its frame has now. Where
    /// that fails the frame is dirty. None exactly where nothing is in flight.
    pub fn finish<D: SwapDev>(&mut self, frames: &mut Frames, dev: &mut D) -> Option<Finished>
        requires fits { (shown self.old).frames ≡ (frames_shown frames.old).count }
        requires areas { HasAreas (D.sizes dev.old) (shown self.old) }
        ensures finishes { Finishes result
            (record {
              swap = shown self.old;
              frames = frames_shown frames.old;
              pages = D.pages dev.old;
              failures = D.failures dev.old;
              history = D.history dev.old;
            })
            (record {
              swap = shown self.new;
              frames = frames_shown frames.new;
              pages = D.pages dev.new;
              failures = D.failures dev.new;
              history = D.history dev.new;
            }) }
        ensures same_sizes { D.sizes dev.new ≡ D.sizes dev.old }
        ensures never_falls { D.failures dev.old ≤ D.failures dev.new }
    {
        let slot = self.flight.pop_front()?;
        let Some(frame) = self.areas.find(slot) else {
            unreachable!();
        };
        self.writing[frame as usize] = false;
        if dev
            .write(slot.area, slot.page, frames.bytes(frame))
            .is_err()
        {
            frames.set_dirty(frame, true);
            return Some(Finished::Failed { slot, frame });
        }
        Some(Finished::Done { slot, frame })
    }

    /// So many more entries name a slot that is in use (Linux's `swap_duplicate`). Without memory
    /// all stays.
    pub fn entry_up(&mut self, slot: Slot, n: u32) -> Result<(), AllocError>
        requires used { 0 < count_of (shown self.old) slot }
        requires room { (shown self.old).entries slot + n < 2 ^ 32 }
        ensures { MatchResult result
            (λ _. shown self.new
            ≡ with_entries slot ((shown self.old).entries slot + n) (shown self.old))
            (λ _. shown self.new ≡ shown self.old) }
    {
        let Some(area) = self.areas.of_mut(slot.area) else {
            unreachable!();
        };
        area.entry_up(slot.page, n)
    }

    /// So many fewer entries name a slot that is in use (Linux's `swap_free`). It is given back
    /// where its count becomes 0.
    pub fn entry_down(&mut self, slot: Slot, n: u32)
        requires used { 0 < count_of (shown self.old) slot }
        requires some { n ≤ (shown self.old).entries slot }
        ensures { shown self.new
            ≡ given_back slot (with_entries slot ((shown self.old).entries slot - n)
            (shown self.old)) }
    {
        let Some(area) = self.areas.of_mut(slot.area) else {
            unreachable!();
        };
        area.entry_down(slot.page, n);
    }

    /// Lets no slot of an area be given, while it is emptied. At most one area closes at a time.
    pub fn close(&mut self, area: u8)
        requires on { is_on (shown self.old) area ≡ true }
        requires none_closing { (shown self.old).closing ≡ None }
        ensures { shown self.new ≡ with_closing (Some area) (shown self.old) }
    {
        self.closing = Some(area);
    }

    /// Lets the slots of the area that is closing be given again.
    pub fn reopen(&mut self)
        ensures { shown self.new ≡ with_closing None (shown self.old) }
    {
        self.closing = None;
    }

    /// Turns off the area that is closing, no slot of which is in use.
    pub fn remove(&mut self, area: u8)
        requires on { is_on (shown self.old) area ≡ true }
        requires closing { (shown self.old).closing ≡ Some area }
        requires unused { (s : Slot) → s.area ≡ area → count_of (shown self.old) s ≡ 0 }
        ensures { shown self.new ≡ after_off area (shown self.old) }
    {
        self.areas.areas[area as usize] = None;
        self.closing = None;
    }

    /// For how many frames there is room: those of the `Frames` that the calls are handed.
    pub fn frames(&self) -> u32
        ensures { result ≡ (shown self.now).frames }
    {
        self.writing.len() as u32
    }

    /// The area that is closing, if one is.
    pub fn closing(&self) -> Option<u8>
        ensures { result ≡ (shown self.now).closing }
    {
        self.closing
    }

    /// Whether an area is on.
    pub fn is_on(&self, area: u8) -> bool
        ensures { result ≡ is_on (shown self.now) area }
    {
        self.areas.of(area).is_some()
    }

    /// How many slots are in flight.
    pub fn flight(&self) -> u32
        ensures { result ≡ length (shown self.now).flight }
    {
        self.flight.len() as u32
    }

    /// Whether a slot is in flight.
    pub fn in_flight(&self, slot: Slot) -> bool
        ensures { result ≡ is_flying (shown self.now) slot }
    {
        match self.areas.find(slot) {
            Some(frame) => self.writing[frame as usize],
            None => false,
        }
    }

    /// How many pages an area that is on has.
    pub fn pages(&self, area: u8) -> u32
        requires { is_on (shown self.now) area ≡ true }
        ensures { IsSomeAnd (header_at (shown self.now) area) (λ h. result ≡ h.pages) }
    {
        self.header(area).pages
    }

    /// How many of them are slots.
    pub fn slots(&self, area: u8) -> u32
        requires { is_on (shown self.now) area ≡ true }
        ensures { IsSomeAnd (header_at (shown self.now) area) (λ h. result ≡ h.slots) }
    {
        self.header(area).slots
    }

    fn header(&self, area: u8) -> Header
        requires { is_on (shown self.now) area ≡ true }
        ensures { header_at (shown self.now) area ≡ Some result }
    {
        let Some(area) = self.areas.of(area) else {
            unreachable!();
        };
        area.header()
    }

    /// How many slots of an area are free.
    pub fn free_slots(&self, area: u8) -> u32
        ensures { result ≡ free_of (shown self.now) area }
    {
        match self.areas.of(area) {
            Some(area) => area.free(),
            None => 0,
        }
    }

    /// How many slots of all areas that are on are free.
    pub fn all_free_slots(&self) -> u64
        ensures sum { result ≡ all_free (shown self.now) }
        ensures fits { result ≤ 2 ^ 35 }
    {
        self.areas.free()
    }

    /// How many slots they have.
    pub fn all_slots(&self) -> u64
        ensures sum { result ≡ all_slots (shown self.now) }
        ensures fits { result ≤ 2 ^ 35 }
    {
        self.areas.slots()
    }

    /// Whether swap is full: twice the number of free slots is less than the number of slots.
    pub fn full(&self) -> bool
        ensures { result ≡ is_full (shown self.now) }
    {
        2 * self.all_free_slots() < self.all_slots()
    }

    /// How many entries name a slot; 0 of what is no slot of an area that is on.
    pub fn entries(&self, slot: Slot) -> u32
        ensures { result ≡ (shown self.now).entries slot }
    {
        match self.areas.of(slot.area) {
            Some(area) => area.entries(slot.page),
            None => 0,
        }
    }

    /// The count of a slot: the entries that name it, and one more where it is cached. 0 of what is
    /// no slot of an area that is on.
    pub fn count(&self, slot: Slot) -> u64
        ensures { result ≡ count_of (shown self.now) slot }
    {
        let entries = u64::from(self.entries(slot));
        match self.find(slot) {
            Some(_) => entries + 1,
            None => entries,
        }
    }

    /// Whether a slot is in use: an entry names it, or it is cached.
    pub fn is_in_use(&self, slot: Slot) -> bool
        ensures { result ≡ nat_lt 0 (count_of (shown self.now) slot) }
    {
        self.count(slot) > 0
    }

    /// Whether a page is bad.
    pub fn bad(&self, slot: Slot) -> bool
        requires { IsPage (shown self.now) slot }
        ensures { result ≡ (shown self.now).bad slot }
    {
        let Some(area) = self.areas.of(slot.area) else {
            unreachable!();
        };
        area.bad(slot.page)
    }

    /// The area that gives a slot first, if one gives any.
    fn giving(&self) -> Option<u8>
        ensures { MatchOption result ((k : ℕ) → can_give (shown self.now) k ≡ false)
            (λ k. GivesFirst (shown self.now) most_areas k) }
    {
        // The invariant is known once a field was read.
        let _ = &self.areas;
        let mut first = None;
        for area in 0..AREAS {
            if self.can_give(area) && self.outranks(area, first) {
                first = Some(area);
            }
        }
        first
    }

    /// Whether an area gives a slot.
    fn can_give(&self, area: u8) -> bool
        ensures { result ≡ can_give (shown self.now) area }
    {
        self.free_slots(area) > 0 && !self.is_closing(area)
    }

    /// Whether the area that is closing is this one.
    fn is_closing(&self, area: u8) -> bool
        ensures { result ≡ is_closing (shown self.now) area }
    {
        match self.closing {
            Some(closing) => area == closing,
            None => false,
        }
    }

    /// Whether an area has a greater priority than another, if there is one.
    fn outranks(&self, area: u8, other: Option<u8>) -> bool
        ensures { result ≡ outranks (shown self.now) area other }
    {
        match other {
            Some(other) => self.priority(area) > self.priority(other),
            None => true,
        }
    }

    fn priority(&self, area: u8) -> i32
        ensures { result ≡ (shown self.now).priority area }
    {
        match self.areas.of(area) {
            Some(area) => area.priority(),
            None => 0,
        }
    }
}

/// This many flags that don't stand.
fn no_flags(alloc: Global, count: u32) -> Result<Vec<bool>, AllocError>
    ensures { IfOk result (λ v. v.items ≡ replicate count false) }
{
    let mut flags = Vec::new(alloc);
    flags.resize(count as usize, false)?;
    Ok(flags)
}
