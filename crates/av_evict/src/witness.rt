//! That the steps of a memory system can be met.

ghost use Rattle.std.specs.Prelude.{ℕ, List, Option};
ghost use Rattle.av_trace.specs.declared.note.Note.{Note};
ghost use Rattle.av_plain.specs.Areas.{Rmap};
ghost use Rattle.av_plain.specs.Choice.{Free};
ghost use Rattle.av_plain.specs.Device.{Calls};
ghost use Rattle.av_plain.specs.Ledger.{Ledger, Setting};
ghost use Rattle.av_plain.specs.World.{World};
ghost use Rattle.av_evict.specs.Witness.{CanBeMet, TakesNext};

/// What a step has to do is never more than can be done: from each ledger, and for each note that
/// takes the frame or slot that comes next, or none, there is a system that has done it.
pub fn steps_can_be_met()
    ensures { (m : Setting) (closing : Option ℕ) (first : Option (ℕ → List ℕ)) (free : Free)
        (calls : Calls) (w : World) (r : Rmap) (l : Ledger) (note : Note)
        → TakesNext m closing l free note → CanBeMet m closing first free calls w r l note }
{}
