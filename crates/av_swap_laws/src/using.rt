//! How a page is used: read or written in place.

ghost use Rattle.std.specs.Prelude.{◌≡◌, ◌==◌, ◌&&◌, ℕ, Bool, false, true, Option, Some, T};
ghost use Rattle.std.specs.FinMap.Entries.{is_sorted};
ghost use Rattle.av_vma.specs.Pages.{home_of};
ghost use Rattle.av_plain.specs.Areas.{at_home};
ghost use Rattle.av_plain.specs.Event.{Used, after_use};
ghost use Rattle.av_plain.specs.Fault.{asks_copy};
ghost use Rattle.av_base.specs.Keys.{key_cmp};
ghost use Rattle.av_plain.specs.Ledger.{InFrame, IsBlank, Setting, entry};
ghost use Rattle.av_plain.specs.Stands.{AreasStand};
ghost use Rattle.av_plain.specs.World.{Holds};
ghost use Rattle.av_plain.specs.World.{World, pages};
ghost use Rattle.av_swap_laws.specs.Held.{Held, IsHeld, Steps};
ghost use Rattle.av_swap_laws.specs.May.{AreOnce};
ghost use Rattle.av_swap_laws.specs.Steps.{view_seen, view_written};

/// A page is read that has no frame: nothing changes.
pub fn pages_of_zeros_are_read()
    ensures { (m : Setting) (closing : Option ℕ) (old : Held) → IsHeld m old → (p page : ℕ)
        → IsBlank (entry old.ledger (p, page)) → Steps m closing (Used false (p, page)) old old }
{}

/// A page is read whose entry names a frame.
pub fn pages_are_read()
    ensures { (m : Setting) (closing : Option ℕ) (old : Held) → IsHeld m old → (p page f : ℕ)
        (seen write : Bool) → T (is_sorted key_cmp old.ledger.entries)
        → entry old.ledger (p, page) ≡ Some (InFrame f seen)
        → (write ≡ true → asks_copy old.ledger f ≡ false)
        → Steps m closing (Used false (p, page)) old (record old {
          view = view_seen p page f write old.view;
          ledger = after_use false (p, page) old.ledger;
        }) }
{}

/// A page is written in place, whether its frame is cached or not: the memories have these bytes of
/// it then.
pub fn pages_are_written()
    ensures { (m : Setting) (closing : Option ℕ) (old : Held) → IsHeld m old → (p page f : ℕ)
        (seen write : Bool) (held : ℕ → ℕ) (w : World)
        → T (is_sorted key_cmp old.ledger.entries) → AreOnce old.ledger
        → entry old.ledger (p, page) ≡ Some (InFrame f seen) → asks_copy old.ledger f ≡ false
        → Holds (pages w p page) held
        → ((q o : ℕ) → (q == p && o == page) ≡ false → pages w q o ≡ pages old.world q o)
        → (AreasStand old.view old.world → AreasStand old.view w)
        → Steps m closing (Used true (p, page)) old (record old {
          view = view_written p page f write held (home_of page (old.rmap.areas p page)) old.view;
          world = w;
          ledger = after_use true (p, page) old.ledger;
          rmap = at_home f (p, page) old.rmap;
        }) }
{}
