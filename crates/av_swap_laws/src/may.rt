//! When a step may be made: soundness and the definitions' own tests give what `specs/May` asks.

ghost use Rattle.std.specs.Prelude.{◌≡◌, ◌≤◌, ◌<◌, ℕ, Bool, false, true, List, ◌∷◌, Option, Some};
ghost use Rattle.std.specs.Prelude.{None};
ghost use Rattle.av_base.specs.Words.{is_in};
ghost use Rattle.av_base.specs.declared.slot.Slot.{Slot};
ghost use Rattle.av_plain.specs.Choice.{ListsFree};
ghost use Rattle.av_plain.specs.Fault.{is_unneeded};
ghost use Rattle.av_plain.specs.Ledger.{Ledger, Setting, frame_at, in_flight, is_free, is_orphan};
ghost use Rattle.av_plain.specs.Ledger.{is_stale, may_give, slot_of};
ghost use Rattle.av_plain.specs.Sound.{IsSoundBut, flights, listings, mergings, uses};
ghost use Rattle.av_swap_laws.specs.May.{AreOnce, MayLeave, MayComeIn, MayGoOut};

/// Where the definitions ask for a step, soundness gives what it needs: of a frame that is put, a
/// slot that is loaded, one that is dropped, and of flight.
pub fn steps_may_be_made()
    ensures { (m : Setting) (excuse : Slot → ℕ) (l : Ledger) → IsSoundBut m excuse l
        → AreOnce l
        × ((f : ℕ) → 0 < listings l f → 0 < uses l f)
        × ((closing : Option ℕ) (f : ℕ) (s : Slot) → slot_of l f ≡ None
        → may_give m closing l s ≡ true → 0 < uses l f → mergings l f ≡ 0 → MayGoOut l f s)
        × ((f : ℕ) (s : Slot) → frame_at l s ≡ None → is_free l f ≡ true → MayComeIn l f s)
        × ((f : ℕ) (s : Slot) → frame_at l s ≡ Some f → f < m.frames)
        × ((f : ℕ) (s : Slot) → slot_of l f ≡ Some s → frame_at l s ≡ Some f)
        × ((s : Slot) → flights l s ≤ 1) }
{}

/// The first of the free frames is one of the machine's, and is listed only once.
pub fn the_first_is_free()
    ensures { (m : Setting) (l : Ledger) (f : ℕ) (left : List ℕ) → ListsFree m l (f ∷ left)
        → (is_free l f ≡ true) × (f < m.frames) × (is_in f left ≡ false) }
{}

/// Each test of the definitions for a `drop` says that the slot may be dropped.
pub fn drops_may_be_made()
    ensures { (m : Setting) (l : Ledger) (s : Slot) → (is_orphan l s ≡ true → MayLeave l s)
        × ((write came : Bool) → is_unneeded m write came l s ≡ true → MayLeave l s)
        × (is_stale l s ≡ false → in_flight l s ≡ false → MayLeave l s) }
{}
