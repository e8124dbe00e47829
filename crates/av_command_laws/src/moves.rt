//! The next frame that goes down.

ghost use Rattle.std.specs.Prelude.{◌≡◌, ◌<◌, ℕ, Some, false, true};
ghost use Rattle.av_trace.specs.declared.note.Note.TheVariants.{Moved};
ghost use Rattle.av_plain.specs.Compact.{next_move};
ghost use Rattle.av_plain.specs.Ledger.{Ledger, Setting, is_free};

/// The next move is that of the greatest frame in use to the least that is free, where that is
/// below it.
pub fn the_greatest_goes_to_the_least()
    ensures { (m : Setting) (l : Ledger) (from to : ℕ) → to < from → from < m.frames
        → is_free l to ≡ true → is_free l from ≡ false
        → ((f : ℕ) → f < to → is_free l f ≡ false)
        → ((f : ℕ) → from < f → f < m.frames → is_free l f ≡ true)
        → next_move m l ≡ Some (Moved from to) }
{}
