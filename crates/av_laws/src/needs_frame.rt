//! Accesses that need no frame are never out of memory.

ghost use Rattle.std.specs.Prelude.{◌≡◌, ℕ, false, length, List};
ghost use Rattle.av_trace.specs.declared.command.Command.TheVariants.{Read, Write};
ghost use Rattle.av_trace.specs.declared.reply.OutOf.{OutOf};
ghost use Rattle.av_trace.specs.declared.reply.Answer.TheVariants.{Oom};
ghost use Rattle.av_trace.specs.declared.reply.Reply.{Reply};
ghost use Rattle.av_plain.specs.World.{World};
ghost use Rattle.av_plain.specs.Ledger.{Ledger, Setting};
ghost use Rattle.av_plain.specs.Event.{Event};
ghost use Rattle.av_plain.specs.Step.{IsLegal};
ghost use Rattle.av_plain.specs.Sound.{AllSound};
ghost use Rattle.av_laws.specs.NeedsFrame.{AreInPlace, NoneWantsFrame};

/// A read whose pages need no frame, none of them being on the device alone, is never out of
/// memory.
pub fn reads_in_memory_are_served()
    ensures { (m : Setting) (w : World) (l : Ledger) (p a n : ℕ) (reply : Reply)
        (events : List Event) (k : ℕ) (out : OutOf) (shown : List ℕ) → NoneWantsFrame false l p a n
        → IsLegal m w l (Read p a n) reply events → reply.answer ≡ Oom k out shown → ⊥ }
{}

/// A write whose pages each have a frame for themselves is never out of memory: no other entry
/// names it, and none names the slot at which it is cached.
pub fn writes_in_place_are_served()
    ensures { (m : Setting) (w : World) (l : Ledger) (p a : ℕ) (bytes : List ℕ) (reply : Reply)
        (events : List Event) (k : ℕ) (out : OutOf) (shown : List ℕ)
        → AllSound m w l → AreInPlace l p a (length bytes)
        → IsLegal m w l (Write p a bytes) reply events → reply.answer ≡ Oom k out shown → ⊥ }
{}
