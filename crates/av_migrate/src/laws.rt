//! What stands after a frame has gone over to another, and after the free ones are put in order.

ghost use Rattle.std.specs.Prelude.{ℕ, Option};
ghost use Rattle.av_trace.specs.declared.note.Note.TheVariants.{Moved};
ghost use Rattle.av_plain.specs.Areas.{rmap_after_note};
ghost use Rattle.av_plain.specs.Event.{FreeSorted, Noted, after_note};
ghost use Rattle.av_plain.specs.Ledger.{Setting};
ghost use Rattle.av_plain.specs.Sound.{IsSound};
ghost use Rattle.av_swap_laws.specs.Held.{Held, IsHeld, Steps};
ghost use Rattle.av_migrate.specs.Move.{MayMove, view_moved, view_ordered};

/// A frame in use goes over to a free one, with its home or its items: locked, merged or in flight,
/// it is all the same.
pub fn frames_go_over()
    ensures { (m : Setting) (closing : Option ℕ) (old : Held) → IsHeld m old → (from to : ℕ)
        → IsSound m old.ledger → MayMove m old.ledger from to
        → Steps m closing (Noted (Moved from to)) old (record old {
          view = view_moved from to old.view;
          ledger = after_note (Moved from to) old.ledger;
          rmap = rmap_after_note old.ledger (Moved from to) old.rmap;
        }) }
{}

/// The list of free frames is put in order.
pub fn free_frames_are_ordered()
    ensures { (m : Setting) (closing : Option ℕ) (old : Held) → IsHeld m old
        → Steps m closing FreeSorted old (record old { view = view_ordered old.view }) }
{}
