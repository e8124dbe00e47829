//! How a page is made ready: its area is prepared, and it gets the page of zeros, its first frame
//! or a copy.

ghost use Rattle.std.specs.Prelude.{◌≡◌, ℕ, Bool, false, true, List, ◌∷◌, Option, Some, IsSome};
ghost use Rattle.std.specs.Prelude.{◌<◌, IsSomeAnd, T};
ghost use Rattle.std.specs.FinMap.Entries.{is_sorted};
ghost use Rattle.av_base.specs.Keys.{key_cmp};
ghost use Rattle.av_base.specs.Page.{page_of};
ghost use Rattle.av_base.specs.Words.{is_in};
ghost use Rattle.av_vma.specs.Pages.{AreLaid, home_of};
ghost use Rattle.av_vma.specs.declared.area.Area.{Area};
ghost use Rattle.av_trace.specs.declared.note.Note.TheVariants.{Copied, New, Zeroed};
ghost use Rattle.av_plain.specs.Areas.{Anons, at_home, prepare_page};
ghost use Rattle.av_plain.specs.Event.{Noted, after_note};
ghost use Rattle.av_plain.specs.Ledger.{InFrame, IsBlank, Setting, entry, is_free};
ghost use Rattle.av_swap_laws.specs.Held.{Held, IsHeld, Steps};
ghost use Rattle.av_swap_laws.specs.May.{AreOnce, KeepsUse, LosesUse};
ghost use Rattle.av_swap_laws.specs.Steps.{view_copy, view_copy_last, view_new, view_zero};

/// A page gets the page of zeros.
pub fn pages_get_zeros()
    ensures { (m : Setting) (closing : Option ℕ) (old : Held) → IsHeld m old → (p a : ℕ)
        → T (is_sorted key_cmp old.ledger.entries)
        → IsBlank (entry old.ledger (p, page_of a))
        → Steps m closing (Noted (Zeroed p a)) old (record old {
          view = view_zero p (page_of a) old.view;
          ledger = after_note (Zeroed p a) old.ledger;
        }) }
{}

/// A page gets its first frame; its area has been prepared.
pub fn pages_get_frames()
    ensures { (m : Setting) (closing : Option ℕ) (old : Held) → IsHeld m old → (p a f : ℕ)
        (left : List ℕ) (write : Bool) → T (is_sorted key_cmp old.ledger.entries)
        → AreOnce old.ledger → is_free old.ledger f ≡ true → old.view.free ≡ f ∷ left
        → is_in f left ≡ false → IsBlank (entry old.ledger (p, page_of a))
        → IsSomeAnd (old.rmap.areas p (page_of a)) (λ area. IsSome area.anon)
        → Steps m closing (Noted (New p a f)) old (record old {
          view = view_new p (page_of a) f write left (λ _. 0)
              (home_of (page_of a) (old.rmap.areas p (page_of a))) old.view;
          ledger = after_note (New p a f) old.ledger;
          rmap = at_home f (p, page_of a) old.rmap;
        }) }
{}

/// A page gets a copy of its frame, where another entry names that or its slot.
pub fn frames_are_copied()
    ensures { (m : Setting) (closing : Option ℕ) (old : Held) → IsHeld m old → (p a f : ℕ)
        (left : List ℕ) (write : Bool) → T (is_sorted key_cmp old.ledger.entries)
        → AreOnce old.ledger → is_free old.ledger f ≡ true → old.view.free ≡ f ∷ left
        → is_in f left ≡ false → (g : ℕ) (seen : Bool)
        → entry old.ledger (p, page_of a) ≡ Some (InFrame g seen) → KeepsUse old.ledger g
        → Steps m closing (Noted (Copied p a f)) old (record old {
          view = view_copy p (page_of a) g f write left
              (home_of (page_of a) (old.rmap.areas p (page_of a))) old.view;
          ledger = after_note (Copied p a f) old.ledger;
          rmap = at_home f (p, page_of a) old.rmap;
        }) }
{}

/// A page gets a copy of its frame, of which it was the last use: so it is with a merged frame.
/// That frame is free then, in front of all others.
pub fn last_copies_free_frames()
    ensures { (m : Setting) (closing : Option ℕ) (old : Held) → IsHeld m old → (p a f : ℕ)
        (left : List ℕ) (write : Bool) → T (is_sorted key_cmp old.ledger.entries)
        → AreOnce old.ledger → is_free old.ledger f ≡ true → old.view.free ≡ f ∷ left
        → is_in f left ≡ false → (g : ℕ) (seen : Bool)
        → entry old.ledger (p, page_of a) ≡ Some (InFrame g seen) → LosesUse old.ledger g
        → g < m.frames
        → Steps m closing (Noted (Copied p a f)) old (record old {
          view = view_copy_last p (page_of a) g f write left
              (home_of (page_of a) (old.rmap.areas p (page_of a))) old.view;
          ledger = after_note (Copied p a f) old.ledger;
          rmap = at_home f (p, page_of a) old.rmap;
        }) }
{}

/// An area of a process is prepared: areas and anon_vmas change, and nothing else.
pub fn pages_are_prepared()
    ensures { (m : Setting) (old : Held) → IsHeld m old → (p page : ℕ)
        (areas : ℕ → Option (List Area)) (anons : Anons) → AreLaid (old.rmap.areas p)
        → IsHeld m (record old {
          view = record old.view { areas = areas; anons = anons };
          rmap = prepare_page p page old.rmap;
        }) }
{}
