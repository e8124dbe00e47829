//! Which frames are merged, and how the entries of locked pages are counted.

ghost use Rattle.std.specs.Prelude.{◌≡◌, ◌+◌, ◌-◌, ◌<◌, ◌≤◌, ◌==◌, ◌^◌, ℕ, true, nat_lt};
ghost use Rattle.std.specs.List.{All};
ghost use Rattle.av_base.specs.Words.{how_many};
ghost use Rattle.av_chain.specs.Links.{one_if};
ghost use Rattle.av_frames.specs.Store.{shown};
ghost use Rattle.av_rmap.specs.Items.{is_merged};
ghost use Rattle.av_rmap.specs.Walk.{names_frame};
ghost use Rattle.av_mem.specs.Entries.{AreWithin};
ghost use Rattle.av_mem.specs.Locked.{IsBelow, IsCounted, MayCount, has_lock, locks_in};
ghost use Rattle.av_mem.specs.Locked.{locks_less, locks_more, names_in};
ghost use Rattle.av_mem.specs.Mem.{HasItems, frame_count, locks_of, view};

use crate::mem::Mem;
use av_base::PAGE_SIZE;
use av_frames::Frames;
use av_pagetable::{Pte, RUN};

impl Mem {
    /// Whether a frame is merged: it has items.
    pub fn is_merged(&self, frame: u32) -> bool
        requires itemed { HasItems self.now }
        requires in_range { frame < frame_count self.now }
        ensures { result ≡ is_merged ((view self.now).items frame) }
    {
        self.items.is_merged(frame)
    }

    /// Whether a page whose entry names the frame is locked. It is counted: no entry is looked at.
    #[inline(always)]
    pub fn is_locked(&self, frame: u32) -> bool
        requires { frame < frame_count self.now }
        ensures { result ≡ nat_lt 0 (locks_of self.now frame) }
    {
        self.frames.is_locked(frame)
    }

    /// Whether a page is locked. Where no area is, none is looked for.
    #[inline]
    fn is_locked_page(&self, key: (u16, u64)) -> bool
        ensures { result ≡ has_lock self.now key }
    {
        if !self.spaces.by_number().any_locked() {
            return false;
        }
        match self.spaces.area(key.0, key.1) {
            Some(area) => area.flags.locked,
            None => false,
        }
    }

    /// Counts the entry of a page, which names the frame now, where the page is locked.
    pub(crate) fn lock_up(&mut self, key: (u16, u64), frame: u32)
        requires in_range { frame < frame_count self.old }
        requires room { locks_of self.old frame < 2 ^ 64 - 1 }
        ensures locks { locks_of self.new ≡ locks_more self.old key frame (locks_of self.old) }
        ensures view { view self.new ≡ view self.old }
        ensures rest { self.new ≡ record self.old { frames = self.new.frames } }
    {
        if self.is_locked_page(key) {
            self.frames.lock_up(frame);
        }
    }

    /// Takes the entry of a page, which names the frame no longer, off the count, where the page is
    /// locked.
    pub(crate) fn lock_down(&mut self, key: (u16, u64), frame: u32)
        requires in_range { frame < frame_count self.old }
        requires some { has_lock self.old key ≡ true → 0 < locks_of self.old frame }
        ensures locks { locks_of self.new ≡ locks_less self.old key frame (locks_of self.old) }
        ensures view { view self.new ≡ view self.old }
        ensures rest { self.new ≡ record self.old { frames = self.new.frames } }
    {
        if self.is_locked_page(key) {
            self.frames.lock_down(frame);
        }
    }
}

/// Which way entries of locked pages are counted.
#[derive(Clone, Copy, Drop)]
enum Way {
    Up,
    Down,
}

/// Counts the entries of the locked pages of a process from page `from` to below `past`, as where
/// their areas were locked. Where no area is locked it looks at nothing; else it looks up each area
/// of the range that has entries, and at the entries of those that are locked.
pub fn lock_range(mem: &mut Mem, process: u16, from: u64, past: u64)
    requires within { AreWithin (view mem.old) }
    requires room { (f : ℕ) →
        locks_of mem.old f + locks_in mem.old process from (past - from) f < 2 ^ 64 }
    ensures locks { (f : ℕ) → locks_of mem.new f
        ≡ locks_of mem.old f + locks_in mem.old process from (past - from) f }
    ensures view { view mem.new ≡ view mem.old }
    ensures rest { mem.new ≡ record mem.old { frames = mem.new.frames } }
{
    count_range(mem, process, from, past, Way::Up);
}

/// Takes them off the count, as where their areas are about to be unlocked, or to go.
pub fn unlock_range(mem: &mut Mem, process: u16, from: u64, past: u64)
    requires within { AreWithin (view mem.old) }
    requires some { (f : ℕ) →
        locks_in mem.old process from (past - from) f ≤ locks_of mem.old f }
    ensures locks { (f : ℕ) → locks_of mem.old f
        ≡ locks_of mem.new f + locks_in mem.old process from (past - from) f }
    ensures view { view mem.new ≡ view mem.old }
    ensures rest { mem.new ≡ record mem.old { frames = mem.new.frames } }
{
    count_range(mem, process, from, past, Way::Down);
}

/// Counts the entries of the locked pages of a range, area by area.
fn count_range(mem: &mut Mem, process: u16, from: u64, past: u64, way: Way)
    requires within { AreWithin (view mem.old) }
    requires may { (f : ℕ) → MayCount way (locks_of mem.old f)
        (locks_in mem.old process from (past - from) f) }
    ensures locks { (f : ℕ) → IsCounted way (locks_of mem.old f) (locks_of mem.new f)
        (locks_in mem.old process from (past - from) f) }
    ensures view { view mem.new ≡ view mem.old }
    ensures rest { mem.new ≡ record mem.old { frames = mem.new.frames } }
{
    if !mem.spaces.by_number().any_locked() {
        return;
    }
    let mut next = from;
    while let Some(page) = mem.tables.next_from(process, next) {
        if page >= past {
            return;
        }
        next = count_area(mem, process, page, past, way);
    }
}

/// Counts the entries of one area from a page on, if it is locked, and tells where it ends.
fn count_area(mem: &mut Mem, process: u16, from: u64, past: u64, way: Way) -> u64
    requires some { from < past }
    requires within { AreWithin (view mem.old) }
    requires may { (f : ℕ) → MayCount way (locks_of mem.old f)
        (locks_in mem.old process from (past - from) f) }
    ensures goes_on { (from < result) × (result ≤ past) }
    ensures locks { (f : ℕ) → IsCounted way (locks_of mem.old f) (locks_of mem.new f)
        (locks_in mem.old process from (result - from) f) }
    ensures view { view mem.new ≡ view mem.old }
    ensures rest { mem.new ≡ record mem.old { frames = mem.new.frames } }
{
    let Some(area) = mem.spaces.area(process, from) else {
        return from + 1;
    };
    let end = past.min(area.end / PAGE_SIZE);
    if area.flags.locked {
        count_entries(mem, process, from, end, way);
    }
    end
}

/// Counts all entries of a range of pages, by runs.
fn count_entries(mem: &mut Mem, process: u16, from: u64, past: u64, way: Way)
    requires within { AreWithin (view mem.old) }
    requires may { (f : ℕ) → MayCount way (locks_of mem.old f)
        (names_in mem.old process from (past - from) f) }
    ensures locks { (f : ℕ) → IsCounted way (locks_of mem.old f) (locks_of mem.new f)
        (names_in mem.old process from (past - from) f) }
    ensures view { view mem.new ≡ view mem.old }
    ensures rest { mem.new ≡ record mem.old { frames = mem.new.frames } }
{
    let mut run = [Pte::Empty; RUN];
    let mut next = from;
    while let Some(page) = mem.tables.next_from(process, next) {
        if page >= past {
            return;
        }
        let read = mem.tables.read_run(process, page, &mut run);
        let len = read.min((past - page) as usize);
        next = page + len as u64;
        count_each(&mut mem.frames, &run[..len], way);
    }
}

/// Counts the entries of a run.
fn count_each(frames: &mut Frames, run: &[Pte], way: Way)
    requires in_range { All (IsBelow (shown frames.old).count) run.now }
    requires may { (f : ℕ) → MayCount way ((shown frames.old).locks f)
        (how_many (names_frame f) run.now) }
    ensures locks { (f : ℕ) → IsCounted way ((shown frames.old).locks f)
        ((shown frames.new).locks f) (how_many (names_frame f) run.now) }
    ensures rest { shown frames.new
        ≡ record (shown frames.old) { locks = (shown frames.new).locks } }
{
    for entry in run {
        count_one(frames, *entry, way);
    }
}

/// Counts an entry, if it names a frame.
fn count_one(frames: &mut Frames, entry: Pte, way: Way)
    requires in_range { IsBelow (shown frames.old).count entry }
    requires may { (f : ℕ) → MayCount way ((shown frames.old).locks f)
        (one_if (names_frame f entry)) }
    ensures locks { (f : ℕ) → IsCounted way ((shown frames.old).locks f)
        ((shown frames.new).locks f) (one_if (names_frame f entry)) }
    ensures rest { shown frames.new
        ≡ record (shown frames.old) { locks = (shown frames.new).locks } }
{
    if let Pte::Here { frame, .. } = entry {
        count_frame(frames, frame, way);
    }
}

/// Counts an entry that names the frame.
fn count_frame(frames: &mut Frames, frame: u32, way: Way)
    requires in_range { frame < (shown frames.old).count }
    requires may { MayCount way ((shown frames.old).locks frame) 1 }
    ensures locks { (f : ℕ) → IsCounted way ((shown frames.old).locks f)
        ((shown frames.new).locks f) (one_if (f == frame)) }
    ensures rest { shown frames.new
        ≡ record (shown frames.old) { locks = (shown frames.new).locks } }
{
    match way {
        Way::Up => frames.lock_up(frame),
        Way::Down => frames.lock_down(frame),
    }
}
