//! Which events commands have that no note tells.

ghost use Rattle.std.specs.Prelude.{◌≡◌, List, [], true};
ghost use Rattle.av_trace.specs.declared.command.Command.{Command};
ghost use Rattle.av_trace.specs.declared.reply.Reply.{Reply};
ghost use Rattle.av_plain.specs.World.{World};
ghost use Rattle.av_plain.specs.Ledger.{Ledger, Setting};
ghost use Rattle.av_plain.specs.Event.{Event, note_events};
ghost use Rattle.av_plain.specs.Step.{IsLegal};
ghost use Rattle.av_laws.specs.Events.{is_told, is_without_events};

/// A report, a spawn and an mprotect have no events. Those of `reclaim`, `age`, `complete` and
/// `merge` are their notes.
pub fn events_are_told()
    ensures none { (m : Setting) (w : World) (l : Ledger) (command : Command) (reply : Reply)
        (events : List Event) → is_without_events command ≡ true
        → IsLegal m w l command reply events → events ≡ [] }
    ensures notes { (m : Setting) (w : World) (l : Ledger) (command : Command) (reply : Reply)
        (events : List Event) → is_told command ≡ true
        → IsLegal m w l command reply events → events ≡ note_events reply.notes }
{}
