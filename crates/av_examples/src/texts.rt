//! Worked examples for texts: that of each kind of answer, note and row, of a whole reply, of
//! several, and of each command that stands in no other example.

ghost use Rattle.std.specs.Prelude.{◌≡◌, [], ◌∷◌, codes, false, true, map, None, Some};
ghost use Rattle.av_trace.specs.declared.command.Command.TheVariants.{
  Age,
  Areas as AsksAreas,
  Complete,
  Entry as AsksEntry,
  Exit,
  Fork,
  Maps,
  Mmap,
  Mprotect,
  Mremap,
  Munmap,
  Read,
  Reclaim,
  Rmap as AsksRmap,
  Slot as AsksSlot,
  Spawn,
  Stat,
  Swapoff,
  Swapon,
  Write,
};
ghost use Rattle.av_trace.specs.declared.mode.Mode.TheVariants.{
  DontUnmap,
  Fixed as FixedAt,
  MayMove,
};
ghost use Rattle.av_trace.specs.declared.note.Cause.TheVariants.{
  NoSlot,
  Referenced,
  WriteStarted,
  Writeback,
};
ghost use Rattle.av_trace.specs.declared.note.Note.TheVariants.{
  Aged,
  Copied,
  Dropped,
  Failed,
  Kept,
  Loaded,
  Mapped,
  New,
  Put,
  Started,
  Unmapped,
  Written,
  Zeroed,
};
ghost use Rattle.av_trace.specs.declared.place.Place.TheVariants.{At, Auto, Fixed, NoReplace};
ghost use Rattle.av_trace.specs.declared.reply.Answer.TheVariants.{
  AreaList,
  Bus,
  Counted,
  Data,
  Done,
  EntryEmpty,
  EntryFrame,
  EntrySlot,
  EntryZero,
  MapAt,
  NoFrame,
  NoWalk,
  On,
  Refused,
  Runs,
  Segv,
  SlotBad,
  SlotCount,
  Walk,
};
ghost use Rattle.av_trace.specs.declared.reply.Errno.TheVariants.{
  Eagain,
  Ebusy,
  Eexist,
  Efault,
  Einval,
  Eio,
  Enomem,
  Eperm,
  Esrch,
};
ghost use Rattle.av_trace.specs.declared.row.Row.TheVariants.{Area, Entry, Run};
ghost use Rattle.av_trace.specs.Command.{IsInRange, line_of};
ghost use Rattle.av_trace.specs.Line.{Says};
ghost use Rattle.av_trace.specs.Note.{note_line};
ghost use Rattle.av_trace.specs.Print.{text_of};
ghost use Rattle.av_trace.specs.Reply.{answer_line};
ghost use Rattle.av_trace.specs.Row.{row_line};
ghost use Rattle.av_plain.specs.Transcript.{text_of_run};
ghost use Rattle.av_laws.specs.Examples.{execute_only, no_access, read_only, read_write};
ghost use Rattle.av_laws.specs.Examples.{reply_with, slot, with_rows_of, write_only};
ghost use Rattle.av_laws.specs.Flags.{left_out, locked, wiped_off};
ghost use Rattle.av_examples.specs.Areas.{mergeable};
ghost use Rattle.av_examples.specs.Texts.{all_numbers, slot_of_3, two_lines};

/// Each kind of answer has its words, each error its name, and numbers stand in one order. Bytes are
/// hexadecimal digits, and so are addresses; all other numbers are decimal.
pub fn answers_have_words()
    ensures errors { map (λ error. answer_line (Refused error))
        (Eperm ∷ Esrch ∷ Eio ∷ Eagain ∷ Enomem ∷ Efault ∷ Ebusy ∷ Eexist ∷ Einval ∷ [])
        ≡ map codes ("err EPERM" ∷ "err ESRCH" ∷ "err EIO" ∷ "err EAGAIN" ∷ "err ENOMEM"
        ∷ "err EFAULT" ∷ "err EBUSY" ∷ "err EEXIST" ∷ "err EINVAL" ∷ []) }
    ensures of_commands { map answer_line
        (Done ∷ MapAt 0x7fffffffe000 ∷ Data (0 ∷ 0x41 ∷ 255 ∷ []) ∷ On 70 3
        ∷ NoFrame (record { pinned = 1; noslot = 2; fault = 3; locked = 4; ksm = 5 }) ∷ [])
        ≡ map codes ("ok" ∷ "map 7fffffffe000" ∷ "data 0041ff" ∷ "on 70 3"
        ∷ "err ENOMEM pinned=1 noslot=2 fault=3 locked=4 ksm=5" ∷ []) }
    ensures stopped { map answer_line
        (Segv 12 [] ∷ Segv 2 (7 ∷ 8 ∷ []) ∷ Bus 12 [] ∷ Bus 1 (9 ∷ []) ∷ [])
        ≡ map codes ("segv 12" ∷ "segv 2 0708" ∷ "bus 12" ∷ "bus 1 09" ∷ []) }
    ensures of_reports { map answer_line (Runs 12 ∷ AreaList 13 ∷ Walk 14 15 ∷ NoWalk ∷ [])
        ≡ map codes ("runs 12" ∷ "areas 13" ∷ "frame 14 maps 15" ∷ "none" ∷ []) }
    ensures of_entries { map answer_line
        (EntryEmpty ∷ EntryZero ∷ EntryFrame 12 true None false
        ∷ EntryFrame 12 false (Some slot_of_3) true ∷ EntrySlot slot_of_3 None
        ∷ EntrySlot slot_of_3 (Some 12) ∷ [])
        ≡ map codes ("empty" ∷ "zero" ∷ "frame 12 seen" ∷ "frame 12 old cached 3:70 ksm"
        ∷ "slot 3:70" ∷ "slot 3:70 cached 12" ∷ []) }
    ensures of_slots { map answer_line
        (SlotBad slot_of_3 ∷ SlotCount slot_of_3 12 None ∷ SlotCount slot_of_3 0 (Some 13) ∷ [])
        ≡ map codes ("slot 3:70 bad" ∷ "slot 3:70 count 12" ∷ "slot 3:70 count 0 cached 13" ∷ []) }
    ensures of_stat { answer_line (Counted all_numbers) ≡ codes
        "stat frames=1 free=2 active=3 inactive=4 flight=5 slots=6 freeslots=7 procs=8" }
{}

/// Each kind of note has its word, and what it is done to before what it leads to.
pub fn notes_have_words()
    ensures of_pages { map note_line
        (Zeroed 12 0x10000 ∷ New 12 0x10000 13 ∷ Copied 12 0x10000 13 ∷ Mapped 12 0x10000 13 ∷ [])
        ≡ map codes ("zero 12 10000" ∷ "new 12 10000 13" ∷ "copy 12 10000 13" ∷ "map 12 10000 13"
        ∷ []) }
    ensures of_slots { map note_line
        (Loaded slot_of_3 13 ∷ Put 13 slot_of_3 ∷ Started slot_of_3 ∷ Written slot_of_3
        ∷ Failed slot_of_3 ∷ Dropped slot_of_3 ∷ [])
        ≡ map codes ("load 3:70 13" ∷ "put 13 3:70" ∷ "start 3:70" ∷ "done 3:70" ∷ "fail 3:70"
        ∷ "drop 3:70" ∷ []) }
    ensures of_frames { map note_line
        (Unmapped 13 ∷ Aged 13 ∷ Kept 13 Referenced ∷ Kept 13 Writeback ∷ Kept 13 NoSlot
        ∷ Kept 13 WriteStarted ∷ [])
        ≡ map codes ("unmap 13" ∷ "age 13" ∷ "keep 13 referenced" ∷ "keep 13 writeback"
        ∷ "keep 13 noslot" ∷ "keep 13 started" ∷ []) }
{}

/// The row of `maps` has addresses and a protection, that of `rmap` a process and an address. Each
/// flag of an area has its word.
pub fn rows_have_words()
    ensures of_runs { map row_line
        (Run 0x10000 0x11000 read_only ∷ Run 0x10000 0x11000 write_only
        ∷ Run 0x10000 0x11000 execute_only ∷ [])
        ≡ map codes ("10000-11000 r--" ∷ "10000-11000 -w-" ∷ "10000-11000 --x" ∷ []) }
    ensures of_flags { map (λ flags. row_line (Area 0x10000 0x11000 no_access 16 None [] flags))
        (left_out ∷ wiped_off ∷ locked ∷ mergeable ∷ [])
        ≡ map codes ("10000-11000 --- off=10 own=- chain=- dontfork"
        ∷ "10000-11000 --- off=10 own=- chain=- wipeonfork"
        ∷ "10000-11000 --- off=10 own=- chain=- locked"
        ∷ "10000-11000 --- off=10 own=- chain=- mergeable" ∷ []) }
    ensures of_walks { row_line (Entry 12 0x10000) ≡ codes "12 10000" }
{}

/// A reply is its answer, and then each note or row on a line of its own, behind a space. A run
/// writes the texts of its replies in order, and each line ends with a newline alone.
pub fn replies_are_lines()
    ensures notes { text_of (reply_with Done (Aged 1 ∷ Dropped (slot 2) ∷ []))
        ≡ codes "ok\n age 1\n drop 0:2\n" }
    ensures rows { text_of (with_rows_of (Walk 3 2) (Entry 1 0x10000 ∷ Entry 2 0x10000 ∷ []))
        ≡ codes "frame 3 maps 2\n 1 10000\n 2 10000\n" }
    ensures in_order { text_of_run two_lines ≡ codes "ok\n age 1\nnone\n" }
{}

/// The line of each command has its name and its words in order: addresses and bytes are
/// hexadecimal digits, and all other numbers are decimal.
pub fn commands_have_lines()
    ensures of_processes { map line_of
        (Spawn 12 ∷ Fork 12 13 ∷ Exit 12 ∷ Maps 12 ∷ AsksAreas 12 ∷ [])
        ≡ map codes ("spawn 12" ∷ "fork 12 13" ∷ "exit 12" ∷ "maps 12" ∷ "areas 12" ∷ []) }
    ensures of_mappings { map line_of
        (Mmap 12 4096 read_write Auto ∷ Mmap 12 4096 read_only (At 0x10000)
        ∷ Mmap 12 4096 no_access (Fixed 0x10000) ∷ Mmap 12 4096 read_write (NoReplace 0x10000)
        ∷ Munmap 12 0x10000 4096 ∷ Mprotect 12 0x10000 4096 read_only ∷ [])
        ≡ map codes ("mmap 12 4096 rw-" ∷ "mmap 12 4096 r-- at 10000"
        ∷ "mmap 12 4096 --- fixed 10000" ∷ "mmap 12 4096 rw- noreplace 10000"
        ∷ "munmap 12 10000 4096" ∷ "mprotect 12 10000 4096 r--" ∷ []) }
    ensures of_moves { map (λ mode. line_of (Mremap 12 0x10000 4096 8192 mode))
        (MayMove ∷ FixedAt 0x20000 ∷ DontUnmap None ∷ DontUnmap (Some 0x20000) ∷ [])
        ≡ map codes ("mremap 12 10000 4096 8192 maymove" ∷ "mremap 12 10000 4096 8192 fixed 20000"
        ∷ "mremap 12 10000 4096 8192 dontunmap"
        ∷ "mremap 12 10000 4096 8192 dontunmap 20000" ∷ []) }
    ensures of_accesses { map line_of
        (Read 12 0x10000 13 ∷ Write 12 0x10000 (0x41 ∷ 0 ∷ []) ∷ AsksRmap 12 0x10000
        ∷ AsksEntry 12 0x10000 ∷ [])
        ≡ map codes ("read 12 10000 13" ∷ "write 12 10000 4100" ∷ "rmap 12 10000"
        ∷ "entry 12 10000" ∷ []) }
    ensures of_swap { map line_of
        (Swapon 3 None ∷ Swapon 3 (Some 12) ∷ Swapoff 3 ∷ AsksSlot 3 70 ∷ Reclaim 12 ∷ Age 12
        ∷ Complete 12 ∷ Stat ∷ [])
        ≡ map codes ("swapon 3" ∷ "swapon 3 prio 12" ∷ "swapoff 3" ∷ "slot 3 70" ∷ "reclaim 12"
        ∷ "age 12" ∷ "complete 12" ∷ "stat" ∷ []) }
{}

/// A read is of 4,096 bytes at most.
pub fn reads_have_a_length()
    ensures most { Says (codes "read 1 10000 4096") (Some (Read 1 0x10000 4096)) }
    ensures more { IsInRange (Read 1 0x10000 4097) → ⊥ }
{}
