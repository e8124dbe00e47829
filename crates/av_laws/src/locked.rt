//! The frames of locked pages stay.

ghost use Rattle.std.specs.Prelude.{◌≡◌, ℕ, List, false, true, IsSomeAnd};
ghost use Rattle.std.specs.List.{list_any};
ghost use Rattle.av_trace.specs.declared.command.Command.{Command};
ghost use Rattle.av_trace.specs.declared.command.Command.TheVariants.{Compact};
ghost use Rattle.av_trace.specs.declared.reply.Reply.{Reply};
ghost use Rattle.av_base.specs.Keys.{Key};
ghost use Rattle.av_plain.specs.Event.{Event, after_all};
ghost use Rattle.av_plain.specs.Ledger.{Ledger, Setting, entry, names_frame};
ghost use Rattle.av_plain.specs.Sound.{AllSound};
ghost use Rattle.av_plain.specs.Step.{IsLegal};
ghost use Rattle.av_plain.specs.World.{World, is_locked_page, pages};
ghost use Rattle.av_laws.specs.Locked.{
  AllSpareLocked,
  frame_after,
  is_copy_of,
  memories_in,
  moves_frames,
  takes_pages_of,
};

/// No frame is unmapped that the entry of a locked page names. The entry of such a page goes on
/// naming its frame, unless a note copies the page, or the command is one of its process that takes
/// pages away, moves them, or maps others in their place. A compaction moves frames, those of
/// locked pages too, and each entry goes along with its frame. So it is in every legal transcript,
/// whoever wrote it: what it leaves is sound (`transcripts_are_sound` of `av_plain`).
pub fn locked_frames_stay()
    ensures unmaps_none { (m : Setting) (w : World) (l : Ledger) (command : Command)
        (reply : Reply) (events : List Event) → IsLegal m w l command reply events
        → AllSpareLocked (memories_in w command) l events }
    ensures entries_stay { (m : Setting) (w : World) (l : Ledger) (command : Command)
        (reply : Reply) (events : List Event) (k : Key) (f : ℕ) → AllSound m w l
        → IsLegal m w l command reply events
        → is_locked_page (pages (memories_in w command) k.0 k.1) ≡ true
        → takes_pages_of k.0 command ≡ false → moves_frames command ≡ false
        → list_any (is_copy_of k) reply.notes ≡ false
        → IsSomeAnd (entry l k) (λ e. names_frame f e ≡ true)
        → IsSomeAnd (entry (after_all l events) k) (λ e. names_frame f e ≡ true) }
    ensures entries_go_along { (m : Setting) (w : World) (l : Ledger) (reply : Reply)
        (events : List Event) (k : Key) (f : ℕ) → IsLegal m w l Compact reply events
        → IsSomeAnd (entry l k) (λ e. names_frame f e ≡ true)
        → IsSomeAnd (entry (after_all l events) k)
        (λ e. names_frame (frame_after reply.notes f) e ≡ true) }
{}
