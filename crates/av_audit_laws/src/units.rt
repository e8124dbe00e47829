//! What stands in a transcript for one command, and for several.

ghost use Rattle.std.specs.Prelude.{◌≡◌, ℕ, List};
ghost use Rattle.av_trace.specs.declared.command.Command.{Command};
ghost use Rattle.av_trace.specs.declared.reply.Reply.{Reply};
ghost use Rattle.av_plain.specs.World.{World};
ghost use Rattle.av_plain.specs.Ledger.{Ledger, Setting};
ghost use Rattle.av_plain.specs.Event.{Event};
ghost use Rattle.av_plain.specs.Step.{IsLegal};
ghost use Rattle.av_audit_laws.specs.Unit.{AreUnits, IsTranscript, Leaves};

/// A reply tells its events: it is legal by one list of them at most, whatever the memories, the
/// ledger and the devices, and whether memories and ledger are sound or not.
pub fn replies_tell_events()
    ensures { (m : Setting) (w : World) (l : Ledger) (command : Command) (reply : Reply)
        (events others : List Event) → IsLegal m w l command reply events
        → IsLegal m w l command reply others → events ≡ others }
{}

/// A unit, the text of one reply, leaves one ledger and one memories, whatever replies it may be
/// read as: so who judges has no choice, and never goes back.
pub fn units_leave_one()
    ensures { (m : Setting) (w : World) (l : Ledger) (command : Command) (unit : List ℕ)
        (w' other : World) (l' another : Ledger)
        → Leaves m w l command unit w' l' → Leaves m w l command unit other another
        → (w' ≡ other) × (l' ≡ another) }
{}

/// Units that are legal in turn, each for its command, are the texts of a legal transcript, and
/// those of a legal transcript are legal in turn.
pub fn transcripts_are_judged()
    ensures legal { (m : Setting) (w : World) (l : Ledger) (commands : List Command)
        (units : List (List ℕ)) (w' : World) (l' : Ledger)
        → AreUnits m w l commands units w' l' → IsTranscript m w l commands units w' l' }
    ensures units { (m : Setting) (w : World) (l : Ledger) (commands : List Command)
        (units : List (List ℕ)) (w' : World) (l' : Ledger)
        → IsTranscript m w l commands units w' l' → AreUnits m w l commands units w' l' }
{}
