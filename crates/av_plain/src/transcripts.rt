//! What whole transcripts leave, and that a run is one of them.

ghost use Rattle.std.specs.Prelude.{List, []};
ghost use Rattle.av_plain.specs.World.{World};
ghost use Rattle.av_plain.specs.Ledger.{Ledger, Setting, first_ledger};
ghost use Rattle.av_plain.specs.Transcript.{Exchange, State, IsLegalFrom, IsRun};
ghost use Rattle.av_plain.specs.Sound.{AllSound};

/// What a legal transcript leaves, from no process on, is sound.
pub fn transcripts_are_sound()
    ensures { (m : Setting) (exchanges : List Exchange) (w : World) (l : Ledger)
        → IsLegalFrom m [] first_ledger exchanges w l → AllSound m w l }
{}

/// A run, in which also the choice of frames and slots, the areas and the anon_vmas count, is a
/// legal transcript.
pub fn runs_are_legal()
    ensures { (m : Setting) (old : State) (exchanges : List Exchange) (new : State)
        → IsRun m old exchanges new
        → IsLegalFrom m old.world old.ledger exchanges new.world new.ledger }
{}
