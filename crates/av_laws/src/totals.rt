//! Numbers that add up: those of an out-of-memory, and those of `stat`.

ghost use Rattle.std.specs.Prelude.{◌≡◌, ℕ, ◌+◌, List};
ghost use Rattle.av_trace.specs.declared.command.Command.{Command};
ghost use Rattle.av_trace.specs.declared.reply.OutOf.{OutOf};
ghost use Rattle.av_trace.specs.declared.reply.Answer.TheVariants.{NoFrame, Oom};
ghost use Rattle.av_trace.specs.declared.reply.Reply.{Reply};
ghost use Rattle.av_plain.specs.World.{World};
ghost use Rattle.av_plain.specs.Ledger.{Ledger, Setting};
ghost use Rattle.av_plain.specs.Event.{Event};
ghost use Rattle.av_plain.specs.Report.{totals};
ghost use Rattle.av_plain.specs.Step.{IsLegal};
ghost use Rattle.av_plain.specs.Sound.{AllSound};

/// The five numbers of an out-of-memory are all frames: pinned, locked, merged, not cached, and
/// cached. So are those of a swapoff that found no frame.
pub fn numbers_add_up()
    ensures access { (m : Setting) (w : World) (l : Ledger) (command : Command) (reply : Reply)
        (events : List Event) (k : ℕ) (out : OutOf) (shown : List ℕ)
        → AllSound m w l → IsLegal m w l command reply events → reply.answer ≡ Oom k out shown
        → out.pinned + out.locked + out.ksm + out.noslot + out.fault ≡ m.frames }
    ensures swapoff { (m : Setting) (w : World) (l : Ledger) (command : Command) (reply : Reply)
        (events : List Event) (out : OutOf)
        → AllSound m w l → IsLegal m w l command reply events → reply.answer ≡ NoFrame out
        → out.pinned + out.locked + out.ksm + out.noslot + out.fault ≡ m.frames }
{}

/// Each frame is free, active or inactive, and so the numbers of `stat` add up.
pub fn totals_add_up()
    ensures { (m : Setting) (w : World) (l : Ledger) → AllSound m w l
        → (totals m w l).free + (totals m w l).active + (totals m w l).inactive
        ≡ (totals m w l).frames }
{}
