//! A memory system in single steps, each known by what it does to the ledger.

ghost use Rattle.std.specs.Prelude.{◌≡◌, ◌<◌, ◌∷◌, ◌++◌, [], length, ℕ, List, not, ◌==◌, reverse};
ghost use Rattle.std.specs.Prelude.{slice_get, OnOk, Some, MatchOption, false, true, Bool};
ghost use Rattle.av_base.specs.Words.{is_in};
ghost use Rattle.av_base.specs.declared.slot.Slot.{Slot};
ghost use Rattle.av_trace.specs.declared.note.Note.TheVariants.{Aged, Dropped, Kept, Started};
ghost use Rattle.av_trace.specs.declared.note.Note.TheVariants.{Unmapped};
ghost use Rattle.av_plain.specs.Areas.{Rmap};
ghost use Rattle.av_plain.specs.Fault.{is_locked};
ghost use Rattle.av_plain.specs.Ledger.{has_free, in_flight, is_free, is_merged, is_orphan};
ghost use Rattle.av_plain.specs.Ledger.{is_stale, map_count, may_give, no_slot, slot_of};
ghost use Rattle.av_plain.specs.Reclaim.{is_referenced};
ghost use Rattle.av_plain.specs.World.{World};
ghost use Rattle.av_evict.specs.Standing.{cached_count, locked_cached_count, locked_count};
ghost use Rattle.av_evict.specs.Standing.{locked_merged_count, merged_count};
ghost use Rattle.av_evict.specs.Steps.{IsCachedAt, IsFirst, IsUsed, MayDrop, MayPut, MayStart};
ghost use Rattle.av_evict.specs.Steps.{MayUnmap, notes_of_end, put_notes, referenced_notes};
ghost use Rattle.av_evict.specs.System.{Always, Knows, Makes, Leaves, SystemView, Tells};

use av_base::Slot;
use av_trace::Cause;
use std::alloc::AllocError;

/// How the write of a slot ended.
#[derive(Clone, Copy, Drop)]
pub struct WriteEnd {
    /// The frame that caches the slot.
    pub frame: u32,
    pub slot: Slot,
    pub failed: bool,
}

/// A memory system with its device. What it stands for is said by the ledgers that its view names.
pub trait System {
    // What is seen of it, by whether the pages of its device are told: where they aren't, it stands
    // even if somebody else writes them, so each step asks of that alone.
    ghost view: { Self → Bool → SystemView };

    // ---- frames and slots

    /// How many frames there are.
    fn frames(&self) -> u32
        ensures { (told : Bool) → result ≡ (view self.now told).setting.frames };

    /// The free frame that is taken next. None exactly where none is free.
    fn free_frame(&self) -> Option<u32>
        ensures first { (told : Bool) → result ≡ slice_get (view self.now told).free.frames 0 }
        ensures free { (told : Bool) → let now = view self.now told in Tells now (λ l.
            MatchOption result (has_free now.setting l ≡ false)
            (λ f. (f < now.setting.frames) × (is_free l f ≡ true))) };

    /// The slot at which a frame is cached.
    fn slot(&self, frame: u32) -> Option<Slot>
        requires { frame < (view self.now false).setting.frames }
        ensures { (told : Bool) → Tells (view self.now told) (λ l. result ≡ slot_of l frame) };

    /// How many frames are cached.
    fn cached_len(&self) -> u32
        ensures { (told : Bool) → let now = view self.now told in Tells now
            (λ l. result ≡ cached_count now.setting l) };

    /// Whether a slot may be given.
    fn has_slot(&self) -> bool
        ensures { (told : Bool) → let now = view self.now told in Tells now
            (λ l. result ≡ not (no_slot now.setting now.closing l)) };

    /// Whether a page of the frame's walk is locked.
    fn is_locked(&self, frame: u32) -> bool
        requires in_range { frame < (view self.now false).setting.frames }
        requires stands { Knows (view self.now false) Always }
        ensures { (told : Bool) → result ≡ (view self.now told).locked frame };

    /// How many frames have a locked page.
    fn locked_len(&self) -> u32
        requires { Knows (view self.now false) Always }
        ensures { (told : Bool) → let now = view self.now told in
            result ≡ locked_count now.setting now.locked };

    /// How many frames with a locked page are cached.
    fn locked_cached_len(&self) -> u32
        requires { Knows (view self.now false) Always }
        ensures { (told : Bool) → let now = view self.now told in Tells now
            (λ l. result ≡ locked_cached_count now.setting now.locked l) };

    /// How many frames with a locked page are merged.
    fn locked_merged_len(&self) -> u32
        requires { Knows (view self.now false) Always }
        ensures { (told : Bool) → let now = view self.now told in Tells now
            (λ l. result ≡ locked_merged_count now.setting now.locked l) };

    /// Whether pages with equal bytes share the frame.
    fn is_merged(&self, frame: u32) -> bool
        requires in_range { frame < (view self.now false).setting.frames }
        requires stands { Knows (view self.now false) Always }
        ensures { (told : Bool) → Tells (view self.now told) (λ l. result ≡ is_merged l frame) };

    /// How many frames are merged.
    fn merged_len(&self) -> u32
        ensures { (told : Bool) → let now = view self.now told in Tells now
            (λ l. result ≡ merged_count now.setting l) };

    /// Whether an entry names the frame.
    fn is_mapped(&self, frame: u32) -> bool
        requires { frame < (view self.now false).setting.frames }
        ensures { (told : Bool) → Tells (view self.now told)
            (λ l. result ≡ not (map_count l frame == 0)) };

    /// Whether a cached frame changed since its last write began.
    fn is_dirty(&self, frame: u32) -> bool
        requires { frame < (view self.now false).setting.frames }
        ensures { (told : Bool) → Tells (view self.now told) (λ l. (s : Slot) →
            slot_of l frame ≡ Some s → result ≡ is_stale l s) };

    /// Whether the write of a slot is in flight.
    fn is_in_flight(&self, slot: Slot) -> bool
        ensures { (told : Bool) → Tells (view self.now told) (λ l. result ≡ in_flight l slot) };

    /// Whether the slot at which a frame is cached is not in flight, and no entry names it or the
    /// frame.
    fn is_orphan(&self, frame: u32, slot: Slot) -> bool
        requires { Knows (view self.now false) (IsCachedAt frame slot) }
        ensures { (told : Bool) → Tells (view self.now told) (λ l. result ≡ is_orphan l slot) };

    // ---- lists

    /// How many frames are inactive.
    fn inactive_len(&self) -> u32
        ensures { (told : Bool) → Tells (view self.now told) (λ l. result ≡ length l.inactive) };

    /// The inactive frame at the tail.
    fn last_inactive(&self) -> Option<u32>
        ensures { (told : Bool) → Tells (view self.now told)
            (λ l. result ≡ slice_get (reverse l.inactive) 0) };

    /// How many frames are active.
    fn active_len(&self) -> u32
        ensures { (told : Bool) → Tells (view self.now told) (λ l. result ≡ length l.active) };

    /// The active frame at the tail.
    fn last_active(&self) -> Option<u32>
        ensures { (told : Bool) → Tells (view self.now told)
            (λ l. result ≡ slice_get (reverse l.active) 0) };

    /// Whether a frame in use is inactive.
    fn is_inactive(&self, frame: u32) -> bool
        requires { Knows (view self.now false) (IsUsed frame) }
        ensures { (told : Bool) → Tells (view self.now told)
            (λ l. result ≡ is_in frame l.inactive) };

    /// The frame just before one in use in its list. None where that is at the head.
    fn before(&self, frame: u32) -> Option<u32>
        requires { Knows (view self.now false) (IsUsed frame) }
        ensures inactive { (told : Bool) → Tells (view self.now told) (λ l.
            (ahead behind : List ℕ) → l.inactive ≡ ahead ++ frame ∷ behind
            → result ≡ slice_get (reverse ahead) 0) }
        ensures active { (told : Bool) → Tells (view self.now told) (λ l.
            (ahead behind : List ℕ) → l.active ≡ ahead ++ frame ∷ behind
            → result ≡ slice_get (reverse ahead) 0) };

    /// How many writes are in flight.
    fn flight_len(&self) -> u32
        ensures { (told : Bool) → Tells (view self.now told) (λ l. result ≡ length l.flight) };

    // ---- steps

    /// Caches a frame at the slot that is given next. None exactly where none may be given: nothing
    /// changes then.
    fn put(&mut self, frame: u32) -> Option<Slot>
        requires { Knows (view self.old false) (MayPut frame) }
        ensures slot { (told : Bool) → let old = view self.old told in Tells old (λ l.
            MayPut frame l → MatchOption result (no_slot old.setting old.closing l ≡ true)
            (λ s. may_give old.setting old.closing l s ≡ true)) }
        ensures puts { (told : Bool) → Makes (view self.old told) (view self.new told)
            (MayPut frame) (put_notes frame result) }
        ensures stays { (told : Bool) → Leaves (view self.old told) (view self.new told) };

    /// Each entry of a frame becomes the slot at which it is cached. No page of it is locked.
    fn unmap(&mut self, frame: u32, slot: Slot) -> Result<(), AllocError>
        requires may { Knows (view self.old false) (MayUnmap frame slot) }
        requires unlocked { (view self.old false).locked frame ≡ false }
        ensures makes { OnOk result ((told : Bool) → Makes (view self.old told) (view self.new told)
            (MayUnmap frame slot) (Unmapped frame ∷ [])) }
        ensures stays { (told : Bool) → Leaves (view self.old told) (view self.new told) };

    /// Puts the write of the slot at which a frame is cached last in flight.
    fn start(&mut self, frame: u32, slot: Slot)
        requires { Knows (view self.old false) (MayStart frame slot) }
        ensures makes { (told : Bool) → Makes (view self.old told) (view self.new told)
            (MayStart frame slot) (Started slot ∷ []) }
        ensures stays { (told : Bool) → Leaves (view self.old told) (view self.new told) };

    /// Ends the first write in flight. None exactly where none is in flight.
    fn finish(&mut self) -> Option<WriteEnd>
        requires { Knows (view self.old false) Always }
        ensures first { (told : Bool) → Tells (view self.old told) (IsFirst result) }
        ensures ends { (told : Bool) → Makes (view self.old told) (view self.new told) Always
            (notes_of_end result) }
        ensures stays { (told : Bool) → Leaves (view self.old told) (view self.new told) };

    /// Takes the slot at which a frame is cached out of the cache.
    fn drop_slot(&mut self, frame: u32, slot: Slot)
        requires { Knows (view self.old false) (MayDrop frame slot) }
        ensures makes { (told : Bool) → Makes (view self.old told) (view self.new told)
            (MayDrop frame slot) (Dropped slot ∷ []) }
        ensures stays { (told : Bool) → Leaves (view self.old told) (view self.new told) };

    /// Keeps a frame in use as referenced where an entry of it is seen: it goes to the head of
    /// active, and is not seen any more. Answers whether that is so; where it isn't, no ledger
    /// changes.
    fn keep_referenced(&mut self, frame: u32) -> bool
        requires { Knows (view self.old false) (IsUsed frame) }
        ensures is { (told : Bool) → Tells (view self.old told)
            (λ l. result ≡ is_referenced l frame) }
        ensures makes { (told : Bool) → Makes (view self.old told) (view self.new told)
            (IsUsed frame) (referenced_notes frame result) }
        ensures stays { (told : Bool) → Leaves (view self.old told) (view self.new told) };

    /// Moves a frame in use to the head of the list that the cause names: any but `Referenced`,
    /// for which `keep_referenced` is.
    fn keep(&mut self, frame: u32, cause: Cause)
        requires used { Knows (view self.old false) (IsUsed frame) }
        requires other { cause ≡ Cause.Referenced → ⊥ }
        ensures makes { (told : Bool) → Makes (view self.old told) (view self.new told)
            (IsUsed frame) (Kept frame cause ∷ []) }
        ensures stays { (told : Bool) → Leaves (view self.old told) (view self.new told) };

    /// Moves a frame in use to the head of inactive. It is not seen any more.
    fn age(&mut self, frame: u32)
        requires { Knows (view self.old false) (IsUsed frame) }
        ensures makes { (told : Bool) → Makes (view self.old told) (view self.new told)
            (IsUsed frame) (Aged frame ∷ []) }
        ensures stays { (told : Bool) → Leaves (view self.old told) (view self.new told) };

    // In all memories that it stands for, the frames of locked pages are those of its view.
    ghost locks: { (s : Self) (told : Bool) → let now = view s told in Tells now (λ l. (w : World)
        (r : Rmap) → now.claims w r l → now.locked ≡ is_locked w l) };
}
