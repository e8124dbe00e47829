//! What soundness is: it stays after each legal reply, and says what it is to say. And what is said
//! of merged frames by what stands for a state.

ghost use Rattle.std.specs.Prelude.{List};
ghost use Rattle.av_trace.specs.declared.command.Command.{Command};
ghost use Rattle.av_trace.specs.declared.reply.Reply.{Reply};
ghost use Rattle.av_plain.specs.World.{World};
ghost use Rattle.av_plain.specs.Ledger.{Ledger, Setting};
ghost use Rattle.av_plain.specs.Event.{Event, after_all};
ghost use Rattle.av_plain.specs.Step.{IsLegal, next_world};
ghost use Rattle.av_plain.specs.Sound.{AllSound, SaysSound};
ghost use Rattle.av_plain.specs.Device.{Device};
ghost use Rattle.av_plain.specs.Stands.{SaysMerged, Stands, View};
ghost use Rattle.av_plain.specs.Transcript.{State};

/// Sound memories and a sound ledger are so after every legal reply, a refusal too.
pub fn soundness_stays()
    ensures { (m : Setting) (w : World) (l : Ledger) (command : Command) (reply : Reply) (events :
        List Event)
        → AllSound m w l → IsLegal m w l command reply events
        → AllSound m (next_world m w l events command reply.answer) (after_all l events) }
{}

/// Soundness is kept by counts. In plain sentences it says this, and so that no more entries name a
/// frame that isn't merged than processes live, and a merged one than they have pages below the
/// top.
pub fn what_sound_says()
    ensures { (m : Setting) (w : World) (l : Ledger) → AllSound m w l → SaysSound m w l }
{}

/// What stands for a state has items exactly for the merged frames, and no home for these.
pub fn what_stands_says()
    ensures { (m : Setting) (v : View) (device : Device) (s : State)
        → Stands m v device s → SaysMerged v s.ledger }
{}
