//! Worked examples for lines: what one says (and nothing else, since a line has one meaning), the
//! texts of commands, what an entry's answer is, and what the row of an area is.

ghost use Rattle.std.specs.Prelude.{◌≡◌, [], ◌∷◌, false, true, map, None, Some, codes};
ghost use Rattle.av_trace.specs.declared.command.Command.TheVariants.{Compact, Fork, Madvise};
ghost use Rattle.av_trace.specs.declared.command.Command.TheVariants.{Merge, Mlock, Mremap};
ghost use Rattle.av_trace.specs.declared.command.Command.TheVariants.{Munlock};
ghost use Rattle.av_trace.specs.declared.mode.Mode.TheVariants.{Plain};
ghost use Rattle.av_trace.specs.declared.row.Row.TheVariants.{Area};
ghost use Rattle.av_trace.specs.declared.reply.Answer.TheVariants.{EntryFrame, Oom};
ghost use Rattle.av_trace.specs.Command.{line_of};
ghost use Rattle.av_trace.specs.Line.{Says};
ghost use Rattle.av_trace.specs.Reply.{answer_line};
ghost use Rattle.av_trace.specs.Row.{row_line};
ghost use Rattle.av_laws.specs.Examples.{read_write};
ghost use Rattle.av_base.specs.Flags.{no_flags};
ghost use Rattle.av_trace.specs.declared.advice.Advice.TheVariants.{DoFork, DontFork, DontNeed};
ghost use Rattle.av_trace.specs.declared.advice.Advice.TheVariants.{KeepOnFork, Mergeable};
ghost use Rattle.av_trace.specs.declared.advice.Advice.TheVariants.{Unmergeable, WipeOnFork};
ghost use Rattle.av_trace.specs.declared.note.Cause.TheVariants.{Ksm, Locked};
ghost use Rattle.av_trace.specs.declared.note.Note.TheVariants.{Joined, Kept, Moved, Shared};
ghost use Rattle.av_trace.specs.Note.{note_line};
ghost use Rattle.av_laws.specs.Flags.{all_set, wiped_off};

/// A fork's line has the parent before the child, and an mremap's the old length before the new.
pub fn lines_say()
    ensures parent_first { Says (codes "fork 1 2") (Some (Fork 1 2)) }
    ensures old_first { Says (codes "mremap 1 10000 4096 8192")
        (Some (Mremap 1 0x10000 4096 8192 Plain)) }
{}

/// The texts of advice, locks, merging and compaction.
pub fn texts_stand()
    ensures advice_last { line_of (Madvise 1 0x10000 4096 DontNeed)
        ≡ codes "madvise 1 10000 4096 dontneed" }
    ensures other_advice { map (λ advice. line_of (Madvise 1 0 4096 advice))
        (DontFork ∷ DoFork ∷ WipeOnFork ∷ KeepOnFork ∷ Mergeable ∷ Unmergeable ∷ [])
        ≡ map codes ("madvise 1 0 4096 dontfork" ∷ "madvise 1 0 4096 dofork"
        ∷ "madvise 1 0 4096 wipeonfork" ∷ "madvise 1 0 4096 keeponfork"
        ∷ "madvise 1 0 4096 mergeable" ∷ "madvise 1 0 4096 unmergeable" ∷ []) }
    ensures locks { line_of (Mlock 1 0x10000 8192) ≡ codes "mlock 1 10000 8192" }
    ensures unlocks { line_of (Munlock 1 0x10000 8192) ≡ codes "munlock 1 10000 8192" }
    ensures merges { line_of Merge ≡ codes "merge" }
    ensures compacts { line_of Compact ≡ codes "compact" }
{}

/// The words of what is done to frames, each with what it is done to before what it leads to.
pub fn notes_say()
    ensures shared { note_line (Shared 3) ≡ codes "share 3" }
    ensures joined { note_line (Joined 2 0x11000 3) ≡ codes "join 2 11000 3" }
    ensures moved { note_line (Moved 3 0) ≡ codes "move 3 0" }
    ensures kept_locked { note_line (Kept 0 Locked) ≡ codes "keep 0 locked" }
    ensures kept_merged { note_line (Kept 0 Ksm) ≡ codes "keep 0 ksm" }
{}

/// An entry's answer has the slot at which its frame is cached, or that it is merged. The numbers
/// of an out-of-memory stand in one order, those of locked and merged frames only above 0, before
/// the bytes that a read has shown.
pub fn answers_say()
    ensures entry { answer_line
        (EntryFrame 5 false (Some (record { area = 3; page = 70 })) false)
        ≡ codes "frame 5 old cached 3:70" }
    ensures all_locked { answer_line
        (Oom 0 (record { pinned = 0; noslot = 0; fault = 0; locked = 2; ksm = 0 }) [])
        ≡ codes "oom 0 pinned=0 noslot=0 fault=0 locked=2" }
    ensures none_locked { answer_line
        (Oom 0 (record { pinned = 1; noslot = 1; fault = 0; locked = 0; ksm = 0 }) [])
        ≡ codes "oom 0 pinned=1 noslot=1 fault=0" }
    ensures all_numbers { answer_line
        (Oom 1 (record { pinned = 1; noslot = 2; fault = 3; locked = 4; ksm = 5 }) (0 ∷ []))
        ≡ codes "oom 1 pinned=1 noslot=2 fault=3 locked=4 ksm=5 00" }
    ensures merged_alone { answer_line
        (Oom 0 (record { pinned = 0; noslot = 0; fault = 0; locked = 0; ksm = 2 }) [])
        ≡ codes "oom 0 pinned=0 noslot=0 fault=0 ksm=2" }
    ensures merged_entry { answer_line (EntryFrame 0 false None true) ≡ codes "frame 0 old ksm" }
{}

/// An area's row has addresses and offset in hexadecimal digits, its anon_vmas in decimal ones.
pub fn rows_say()
    ensures in_digits { row_line
        (Area 0x10000 0x11000 read_write 16 (Some 10) (9 ∷ 10 ∷ []) no_flags)
        ≡ codes "10000-11000 rw- off=10 own=10 chain=9,10" }
    ensures flagged { row_line (Area 0x7fffffffd000 0x7fffffffe000 read_write 0x7fffffffd None []
        wiped_off)
        ≡ codes "7fffffffd000-7fffffffe000 rw- off=7fffffffd own=- chain=- wipeonfork" }
    ensures all_flags { row_line (Area 0x10000 0x11000 read_write 16 None [] all_set)
        ≡ codes "10000-11000 rw- off=10 own=- chain=- dontfork wipeonfork locked mergeable" }
{}
