//! How a page comes in: a free frame takes the page of a slot and gets a home, and the entries that
//! named the slot name the frame.

ghost use Rattle.std.specs.Prelude.{◌≡◌, if◌then◌else◌, ◌==◌, ◌<◌, ℕ, false, true, List, [], ◌∷◌};
ghost use Rattle.std.specs.Prelude.{Option, Some, IfSome, IsSomeAnd, T, slice_index};
ghost use Rattle.std.specs.FinMap.Entries.{is_sorted};
ghost use Rattle.av_base.specs.Keys.{Key, key_cmp};
ghost use Rattle.av_base.specs.Page.{page_of, page_size};
ghost use Rattle.av_base.specs.Words.{is_in, with_at};
ghost use Rattle.av_base.specs.declared.slot.Slot.{Slot};
ghost use Rattle.av_vma.specs.Index.{index_of};
ghost use Rattle.av_trace.specs.declared.note.Note.TheVariants.{Loaded, Mapped};
ghost use Rattle.av_plain.specs.Areas.{Rmap, home_for, rmap_after_note, root_of};
ghost use Rattle.av_plain.specs.Covered.{AreSlotsCovered, IsOfSlot};
ghost use Rattle.av_plain.specs.Device.{Device};
ghost use Rattle.av_plain.specs.Event.{Noted, after_note};
ghost use Rattle.av_plain.specs.Ledger.{InSlot, Ledger, Setting, entry, frame_at, is_free};
ghost use Rattle.av_plain.specs.Ledger.{keys_of_slot, slot_entries};
ghost use Rattle.av_plain.specs.Load.{with_loads};
ghost use Rattle.av_plain.specs.Stands.{IsOver};
ghost use Rattle.av_swap_laws.specs.Held.{Held, IsHeld, Steps};
ghost use Rattle.av_swap_laws.specs.May.{AreOnce, MayComeIn};
ghost use Rattle.av_swap_laws.specs.Steps.{view_load, view_map};

/// The first of the free frames takes the page of a slot that is not cached.
pub fn slots_are_loaded()
    ensures { (m : Setting) (closing : Option ℕ) (old : Held) → IsHeld m old → (f : ℕ) (s : Slot)
        (left : List ℕ) (held : ℕ → ℕ) → T (is_sorted key_cmp old.ledger.entries)
        → AreOnce old.ledger → MayComeIn old.ledger f s → IsOver m old.device
        → old.view.free ≡ f ∷ left → is_in f left ≡ false
        → IfSome old.device.pages (λ told.
        (i : ℕ) → i < page_size → held i ≡ slice_index (told s.area s.page) i)
        → Steps m closing (Noted (Loaded s f)) old (record old {
          view = view_load f s left held (home_for old.rmap (keys_of_slot old.ledger s)) old.view;
          world = with_loads m old.world old.ledger (Noted (Loaded s f) ∷ []);
          ledger = after_note (Loaded s f) old.ledger;
          rmap = rmap_after_note old.ledger (Loaded s f) old.rmap;
        }) }
{}

/// A read of the device fails: it has its pages still, and what the free frame holds that was to
/// take one is nobody's.
pub fn reads_may_fail()
    ensures { (m : Setting) (old : Held) → IsHeld m old → (f : ℕ) (held : ℕ → ℕ) (d : Device)
        → is_free old.ledger f ≡ true → d.pages ≡ old.device.pages
        → IsHeld m (record old {
          view = record old.view { bytes = with_at f held old.view.bytes };
          device = d;
        }) }
{}

/// An entry that named a cached slot names its frame.
pub fn entries_are_mapped()
    ensures { (m : Setting) (closing : Option ℕ) (old : Held) → IsHeld m old → (p a f : ℕ)
        (s : Slot)
        → T (is_sorted key_cmp old.ledger.entries) → AreOnce old.ledger
        → entry old.ledger (p, page_of a) ≡ Some (InSlot s) → frame_at old.ledger s ≡ Some f
        → Steps m closing (Noted (Mapped p a f)) old (record old {
          view = view_map p (page_of a) f s old.view;
          ledger = after_note (Mapped p a f) old.ledger;
        }) }
{}

/// The home of a frame that takes the page of a slot goes by any page whose entry names the slot:
/// the area has an own anon_vma, and the home is there where that is the only page, else at its
/// root, each time at the linear index of the page.
pub fn homes_go_by_any_page()
    ensures { (l : Ledger) (r : Rmap) (s : Slot) (k : Key) → T (is_sorted key_cmp l.entries)
        → AreSlotsCovered l r → IsOfSlot l s k
        → IsSomeAnd (r.areas k.0 k.1) (λ area. IsSomeAnd area.anon (λ own.
        home_for r (keys_of_slot l s)
        ≡ Some (if slot_entries l s == 1 then own else root_of r.anons own, index_of area k.1))) }
{}
