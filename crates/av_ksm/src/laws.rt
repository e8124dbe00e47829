//! What stands after a frame was merged, and after a page has joined it.

ghost use Rattle.std.specs.Prelude.{◌≡◌, ◌<◌, ℕ, Bool, true, Option, T};
ghost use Rattle.std.specs.FinMap.Entries.{is_sorted};
ghost use Rattle.av_base.specs.Keys.{key_cmp};
ghost use Rattle.av_base.specs.Page.{page_of, page_size};
ghost use Rattle.av_trace.specs.declared.note.Note.TheVariants.{Joined, Shared};
ghost use Rattle.av_plain.specs.Areas.{at_root, item_of, rmap_after_note};
ghost use Rattle.av_plain.specs.Event.{Noted, after_note};
ghost use Rattle.av_plain.specs.Ledger.{Setting, is_merged};
ghost use Rattle.av_swap_laws.specs.Held.{Held, IsHeld, Steps};
ghost use Rattle.av_swap_laws.specs.May.{AreOnce};
ghost use Rattle.av_ksm.specs.Join.{HasOwn, view_joined, view_shared};

/// The frame of a page is merged: its home becomes its first item, at the root.
pub fn frames_are_shared()
    ensures { (m : Setting) (closing : Option ℕ) (old : Held) → IsHeld m old → (p page f : ℕ)
        (seen : Bool)
        → T (is_sorted key_cmp old.ledger.entries) → AreOnce old.ledger
        → HasOwn old.ledger (p, page) f seen
        → Steps m closing (Noted (Shared f)) old (record old {
          view = view_shared p page f seen (at_root old.rmap.anons (old.rmap.homes f)) old.view;
          ledger = after_note (Shared f) old.ledger;
          rmap = rmap_after_note old.ledger (Shared f) old.rmap;
        }) }
{}

/// A page joins a merged frame that holds the same as its own, which is free then where no other
/// entry names it.
pub fn pages_join()
    ensures { (m : Setting) (closing : Option ℕ) (old : Held) → IsHeld m old → (p a f g : ℕ)
        (seen : Bool)
        → T (is_sorted key_cmp old.ledger.entries) → AreOnce old.ledger
        → HasOwn old.ledger (p, page_of a) g seen → is_merged old.ledger f ≡ true → g < m.frames
        → ((i : ℕ) → i < page_size → old.view.bytes f i ≡ old.view.bytes g i)
        → Steps m closing (Noted (Joined p a f)) old (record old {
          view = view_joined p (page_of a) f g (item_of old.rmap (p, page_of a)) old.view;
          ledger = after_note (Joined p a f) old.ledger;
          rmap = rmap_after_note old.ledger (Joined p a f) old.rmap;
        }) }
{}
