//! Worked examples for flags: what a child gets of a page with two, what nobody needs, and pages
//! with several that move.

ghost use Rattle.std.specs.Prelude.{[], ◌∷◌, None, Some};
ghost use Rattle.av_base.specs.Flags.{no_flags};
ghost use Rattle.av_trace.specs.declared.advice.Advice.TheVariants.{DontNeed};
ghost use Rattle.av_trace.specs.declared.command.Command.TheVariants.{Fork, Madvise, Mremap};
ghost use Rattle.av_trace.specs.declared.mode.Mode.TheVariants.{MayMove};
ghost use Rattle.av_trace.specs.declared.reply.Answer.TheVariants.{Done};
ghost use Rattle.av_plain.specs.Ledger.{first_ledger};
ghost use Rattle.av_laws.specs.Examples.{AreRefused, LeavesBytes, machine};
ghost use Rattle.av_laws.specs.Flags.{LeavesFlags, left_out, locked, three_written};
ghost use Rattle.av_examples.specs.Flags.{left_out_and_wiped};

/// A page that is left out and wiped doesn't go to a child. Pages that nobody needs are zeros, also
/// where the advice is answered `ok`. Pages of several flags move together.
pub fn pages_follow_their_flags()
    ensures left_out { LeavesFlags (three_written left_out_and_wiped no_flags no_flags).world
        (Fork 1 2) Done 2 0x7fffffffc
        (None ∷ []) }
    ensures answered_ok { LeavesBytes (three_written no_flags no_flags no_flags).world
        (Madvise 1 0x7fffffffc000 4096 DontNeed) Done 1 0x7fffffffc000
        (Some 0 ∷ []) }
    ensures two_flags { AreRefused (machine 4) (three_written left_out locked no_flags).world
        first_ledger
        ((Mremap 1 0x7fffffffc000 8192 12288 MayMove, None) ∷ []) }
{}
