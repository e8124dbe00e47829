//! A memory system that can also bring the pages of slots back to their entries.

ghost use Rattle.std.specs.Prelude.{◌≡◌, ◌∷◌, ◌<◌, ◌^◌, [], length, nat_lt, None, Some, IfOk};
ghost use Rattle.std.specs.Prelude.{IfSome};
ghost use Rattle.std.specs.Prelude.{Bool, true, false};
ghost use Rattle.std.specs.List.{AllByRecursion};
ghost use Rattle.av_base.specs.Limits.{top_page};
ghost use Rattle.av_base.specs.Page.{address_of};
ghost use Rattle.av_io.specs.Count.{Rose};
ghost use Rattle.av_trace.specs.declared.note.Note.TheVariants.{Mapped};
ghost use Rattle.av_plain.specs.Ledger.{frame_at, is_free, keys_of_slot, slot_count};
ghost use Rattle.av_evict.specs.System.{Always, Knows, Makes, Stays, Tells};
ghost use Rattle.av_swapoff.specs.System.{AreUsers, MayLoad, MayMap, load_notes};

use av_base::Slot;
use av_evict::System;
use std::alloc::{AllocError, Global};

/// What a swapoff asks of a memory system beside its single steps.
pub trait SlotSystem: System {
    /// The frame that caches a slot.
    fn frame(&self, slot: Slot) -> Option<u32>
        ensures { (told : Bool) → Tells (Self.view self.now told) (λ l. result ≡ frame_at l slot) };

    /// Whether a slot is in use: an entry names it, or a frame caches it.
    fn is_in_use(&self, slot: Slot) -> bool
        ensures { (told : Bool) → Tells (Self.view self.now told)
            (λ l. result ≡ nat_lt 0 (slot_count l slot)) };

    /// By page, a user of each slot of an area: process and page of an entry that names the slot,
    /// or the frame that caches it.
    fn users(&self, alloc: Global, area: u8) -> Result<Vec<Option<(u16, u64)>>, AllocError>
        requires { Knows (Self.view self.now false) Always }
        ensures users { IfOk result (λ users. (told : Bool) → let now = Self.view self.now told in
            Tells now (AreUsers now.setting area users.items)) }
        ensures few { IfOk result (λ users. length users.items < 2 ^ 32) };

    /// Process and page of each entry that names a cached slot, by process and then by page.
    fn namers(&self, alloc: Global, slot: Slot, frame: u32) -> Result<Vec<(u16, u64)>, AllocError>
        requires { Knows (Self.view self.now false) (λ l. frame_at l slot ≡ Some frame) }
        ensures keys { IfOk result (λ keys. (told : Bool) → Tells (Self.view self.now told)
            (λ l. keys.items ≡ keys_of_slot l slot)) }
        ensures below { IfOk result (λ keys. AllByRecursion (λ key. key.1 < top_page) keys.items) };

    /// The entry of a page, which names a cached slot, names its frame.
    fn map(&mut self, key: (u16, u64), slot: Slot, frame: u32)
        requires { Knows (Self.view self.old false) (MayMap slot frame key) }
        ensures makes { (told : Bool) → Makes (Self.view self.old told) (Self.view self.new told)
            (MayMap slot frame key) (Mapped key.0 (address_of key.1) frame ∷ []) }
        ensures stays { (told : Bool) → Stays (Self.view self.old told) (Self.view self.new told) };

    /// Reads the page of a slot, which the entry of `user` names, into the frame that is taken
    /// next, and caches it there. None where the device failed: then nothing else changes.
    fn load(&mut self, slot: Slot, user: (u16, u64)) -> Option<u32>
        requires { let old = Self.view self.old false in Knows old (MayLoad old.setting slot user) }
        ensures frame { IfSome result (λ f. (told : Bool) → let old = Self.view self.old told in
            Tells old (λ l. MayLoad old.setting slot user l
            → (f < old.setting.frames) × (is_free l f ≡ true))) }
        ensures loads { (told : Bool) → let old = Self.view self.old told in
            Makes old (Self.view self.new told) (MayLoad old.setting slot user)
            (load_notes slot result) }
        ensures cause { result ≡ None → (told : Bool) →
            Rose (Self.view self.old told).failures (Self.view self.new told).failures }
        ensures stays { (told : Bool) → Stays (Self.view self.old told) (Self.view self.new told) };
}
