//! Worked examples for flags of pages: what advice and locks leave, what a fork makes of flags,
//! what moves with pages, how areas are cut and joined, and which frames stay.

ghost use Rattle.std.specs.Prelude.{◌≡◌, [], ◌∷◌, false, true, None, Some};
ghost use Rattle.av_base.specs.Flags.{no_flags};
ghost use Rattle.av_base.specs.declared.flags.Flag.TheVariants as flags;
ghost use Rattle.av_trace.specs.declared.advice.Advice.TheVariants.{
  DoFork,
  DontFork,
  DontNeed,
  KeepOnFork,
  Mergeable,
  Unmergeable,
  WipeOnFork,
};
ghost use Rattle.av_trace.specs.declared.command.Command.TheVariants.{
  Fork,
  Madvise,
  Mlock,
  Mremap,
  Munlock,
  Reclaim,
};
ghost use Rattle.av_trace.specs.declared.mode.Mode.TheVariants.{DontUnmap, MayMove};
ghost use Rattle.av_trace.specs.declared.note.Cause.TheVariants.{Locked};
ghost use Rattle.av_trace.specs.declared.note.Note.TheVariants.{
  Dropped,
  Kept,
  New,
  Put,
  Started,
  Unmapped,
  Written,
};
ghost use Rattle.av_trace.specs.declared.reply.Answer.TheVariants.{Done, MapAt, Oom, Refused};
ghost use Rattle.av_trace.specs.declared.reply.Errno.TheVariants.{Einval, Enomem};
ghost use Rattle.av_plain.specs.Areas.{no_anons};
ghost use Rattle.av_plain.specs.Event.{FlagSet, Forked, Noted, Used, Zapped};
ghost use Rattle.av_plain.specs.Fault.{Starved};
ghost use Rattle.av_plain.specs.Ledger.{first_ledger};
ghost use Rattle.av_plain.specs.Lock.{accesses_of};
ghost use Rattle.av_laws.specs.Areas.{area, four};
ghost use Rattle.av_laws.specs.Examples.{
  AreRefused,
  ComesBy,
  IsServed,
  LeavesBytes,
  machine,
  read_write,
  reply_with,
  slot,
  with_swap,
};
ghost use Rattle.av_laws.specs.Flags.{
  CutsAreas,
  LeavesFlags,
  NotShown,
  all_set,
  both_locked,
  flagged,
  four_kinds,
  left_out,
  locked,
  none_written,
  one_locked,
  refusals_of_advice,
  refusals_of_locks,
  three_written,
  wiped_off,
};

/// Advice and locks are refused by the first test that holds, and by none where each just doesn't
/// hold.
pub fn flags_are_refused()
    ensures refusals_of_advice { AreRefused (machine 4)
        (three_written no_flags no_flags no_flags).world
        (three_written no_flags no_flags no_flags).ledger refusals_of_advice }
    ensures refusals_of_locks { AreRefused (machine 4)
        (three_written no_flags no_flags no_flags).world
        (three_written no_flags no_flags no_flags).ledger refusals_of_locks }
    ensures nothing_at_the_end { AreRefused (machine 4)
        (three_written no_flags no_flags no_flags).world first_ledger
        ((Mlock 1 0xffffffffffffffff 0, None) ∷ (Munlock 1 0xffffffffffffffff 0, None) ∷ []) }
    ensures past_the_end { AreRefused (machine 4)
        (three_written no_flags no_flags no_flags).world first_ledger
        ((Mlock 1 0xffffffffffffe001 4096, Some Einval)
        ∷ (Mlock 1 0xffffffffffffe000 4096, None) ∷ []) }
    ensures more_than_may { AreRefused (machine 4)
        (three_written no_flags no_flags no_flags).world first_ledger
        ((Mlock 1 0x10001 67108864, Some Enomem) ∷ []) }
{}

/// Each word of advice is about one flag, and sets or clears it; the others stay.
pub fn advice_is_about_one_flag()
    ensures forks_again { LeavesFlags (three_written all_set all_set all_set).world
        (Madvise 1 0x7fffffffc000 4096 DoFork) Done 1 0x7fffffffc
        (Some (record all_set { dont_fork = false }) ∷ []) }
    ensures kept_again { LeavesFlags (three_written all_set all_set all_set).world
        (Madvise 1 0x7fffffffc000 4096 KeepOnFork) Done 1 0x7fffffffc
        (Some (record all_set { wipe_on_fork = false }) ∷ []) }
    ensures not_merged { LeavesFlags (three_written all_set all_set all_set).world
        (Madvise 1 0x7fffffffc000 4096 Unmergeable) Done 1 0x7fffffffc
        (Some (record all_set { mergeable = false }) ∷ []) }
    ensures may_be_merged { LeavesFlags (three_written no_flags no_flags no_flags).world
        (Madvise 1 0x7fffffffc000 4096 Mergeable) Done 1 0x7fffffffc
        (Some (record no_flags { mergeable = true }) ∷ []) }
{}

/// Advice goes over all mapped pages of a range, but that nothing is needed goes to a locked page;
/// it leaves zeros there. A lock goes to a hole, over each page that a byte of the range is on. A
/// child doesn't get the pages that are left out, zeros in those that are wiped, and no lock. Pages
/// that an mremap adds have the last one's flags, and those that it leaves aren't locked.
pub fn flags_follow()
    ensures over_a_hole { LeavesFlags (three_written no_flags no_flags no_flags).world
        (Madvise 1 0x7fffffffb000 8192 DontFork) (Refused Enomem) 1 0x7fffffffb
        (None ∷ Some left_out ∷ Some no_flags ∷ []) }
    ensures zeros_over_a_hole { LeavesBytes (three_written no_flags no_flags no_flags).world
        (Madvise 1 0x7fffffffb000 8192 DontNeed) (Refused Enomem) 1 0x7fffffffc000
        (Some 0 ∷ []) }
    ensures zeros_to_locked { LeavesBytes (three_written no_flags locked no_flags).world
        (Madvise 1 0x7fffffffb000 16384 DontNeed) (Refused Einval) 1 0x7fffffffc000
        (Some 0 ∷ []) }
    ensures none_behind_locked { LeavesBytes (three_written no_flags locked no_flags).world
        (Madvise 1 0x7fffffffb000 16384 DontNeed) (Refused Einval) 1 0x7fffffffe000
        (Some 3 ∷ []) }
    ensures none_where_bad { LeavesBytes (three_written no_flags no_flags no_flags).world
        (Madvise 1 0x7fffffffc001 4096 DontNeed) (Refused Einval) 1 0x7fffffffc000
        (Some 1 ∷ []) }
    ensures locked_to_hole { LeavesFlags (three_written no_flags no_flags no_flags).world
        (Mlock 1 0x7fffffffd000 16384) (Refused Enomem) 1 0x7fffffffc
        (Some no_flags ∷ Some locked ∷ Some locked ∷ []) }
    ensures too_many { LeavesFlags (three_written no_flags no_flags no_flags).world
        (Mlock 1 0x7fffffffc000 67108865) (Refused Enomem) 1 0x7fffffffc
        (Some no_flags ∷ []) }
    ensures of_bytes { LeavesFlags (three_written locked locked locked).world
        (Munlock 1 0x7fffffffcfff 2) Done 1 0x7fffffffc
        (Some no_flags ∷ Some no_flags ∷ Some locked ∷ []) }
    ensures with_flags { LeavesFlags (three_written left_out wiped_off locked).world (Fork 1 2)
        Done 2 0x7fffffffc
        (None ∷ Some wiped_off ∷ Some no_flags ∷ []) }
    ensures zeros_in_child { LeavesBytes (three_written left_out wiped_off no_flags).world
        (Fork 1 2) Done 2 0x7fffffffd000
        (Some 0 ∷ []) }
    ensures whole_in_child { LeavesBytes (three_written left_out wiped_off no_flags).world
        (Fork 1 2) Done 2 0x7fffffffe000
        (Some 3 ∷ []) }
    ensures merged_in_child { LeavesFlags
        (three_written (record all_set { dont_fork = false }) no_flags no_flags).world (Fork 1 2)
        Done 2 0x7fffffffc
        (Some (record no_flags { wipe_on_fork = true; mergeable = true }) ∷ []) }
    ensures added { LeavesFlags (three_written left_out locked no_flags).world
        (Mremap 1 0x7fffffffc000 8192 12288 MayMove) (MapAt 0x10000) 1 0x10
        (Some left_out ∷ Some locked ∷ Some locked ∷ []) }
    ensures left { LeavesFlags (three_written left_out locked no_flags).world
        (Mremap 1 0x7fffffffc000 8192 8192 (DontUnmap (Some 0x10000))) (MapAt 0x10000) 1 0x7fffffffc
        (Some left_out ∷ Some no_flags ∷ []) }
{}

/// Entries go where nothing is needed, up to a locked page. A flag is set or cleared over a hole,
/// too. An mlock brings its pages in, each as if it was written, or read where it can't be, once
/// all are locked; where one isn't mapped none comes. How much it has brought in counts from the
/// first page. A lock is set or cleared up to a hole. A child inherits the entries of the pages
/// that go over whole.
pub fn flags_are_told()
    ensures entry_goes { ComesBy (machine 4) (three_written no_flags no_flags no_flags)
        (Madvise 1 0x7fffffffb000 8192 DontNeed)
        (reply_with (Refused Enomem) [])
        (Zapped (1, 0x7fffffffc) ∷ []) }
    ensures flag_is_set { ComesBy (machine 4) (three_written no_flags no_flags no_flags)
        (Madvise 1 0x7fffffffd000 4095 WipeOnFork)
        (reply_with Done [])
        (FlagSet 1 0x7fffffffd 1 flags.WipeOnFork true ∷ []) }
    ensures entries_to_locked { ComesBy (machine 4) (three_written no_flags locked no_flags)
        (Madvise 1 0x7fffffffb000 16384 DontNeed)
        (reply_with (Refused Einval) [])
        (Zapped (1, 0x7fffffffc) ∷ []) }
    ensures flag_over_a_hole { ComesBy (machine 4) (three_written no_flags no_flags no_flags)
        (Madvise 1 0x7fffffffb000 8192 DontFork)
        (reply_with (Refused Enomem) [])
        (FlagSet 1 0x7fffffffb 2 flags.DontFork true ∷ []) }
    ensures flag_is_cleared { ComesBy (machine 4) (three_written no_flags left_out no_flags)
        (Madvise 1 0x7fffffffd000 4096 DoFork)
        (reply_with Done [])
        (FlagSet 1 0x7fffffffd 1 flags.DontFork false ∷ []) }
    ensures brought_in { ComesBy (with_swap 2 4 3) none_written (Mlock 1 0x7fffffffcfff 1)
        (reply_with Done (New 1 0x7fffffffc000 0 ∷ []))
        (FlagSet 1 0x7fffffffc 1 flags.Locked true ∷ Noted (New 1 0x7fffffffc000 0)
        ∷ Used true (1, 0x7fffffffc) ∷ []) }
    ensures by_protection { accesses_of four_kinds 0x10 4
        ≡ (false, 0x11) ∷ (true, 0x12) ∷ (false, 0x13) ∷ [] }
    ensures from_the_page { ComesBy (with_swap 1 4 3) none_written (Mlock 1 0x7fffffffcfff 2)
        (reply_with
        (Oom 4096 (record { pinned = 0; noslot = 0; fault = 0; locked = 1; ksm = 0 }) [])
        (New 1 0x7fffffffc000 0 ∷ []))
        (FlagSet 1 0x7fffffffc 2 flags.Locked true ∷ Noted (New 1 0x7fffffffc000 0)
        ∷ Used true (1, 0x7fffffffc) ∷ []) }
    ensures not_all_mapped { ComesBy (with_swap 2 4 3) none_written (Mlock 1 0x7fffffffe000 8192)
        (reply_with (Refused Enomem) [])
        (FlagSet 1 0x7fffffffe 1 flags.Locked true ∷ []) }
    ensures unlocked { ComesBy (machine 4) (three_written locked locked locked)
        (Munlock 1 0x7fffffffcfff 2)
        (reply_with Done [])
        (FlagSet 1 0x7fffffffc 2 flags.Locked false ∷ []) }
    ensures unlocked_to_hole { ComesBy (machine 4) (three_written locked locked locked)
        (Munlock 1 0x7fffffffe000 8192)
        (reply_with (Refused Enomem) [])
        (FlagSet 1 0x7fffffffe 1 flags.Locked false ∷ []) }
    ensures inherited { ComesBy (machine 4) (three_written left_out wiped_off no_flags) (Fork 1 2)
        (reply_with Done [])
        (Forked 1 2 (0x7fffffffe ∷ []) ∷ []) }
{}

/// A flag that is set inside an area cuts it, unless it is set already, and where it is cleared the
/// parts join.
pub fn flags_cut_areas()
    ensures flagged_inside { CutsAreas four no_anons 0x11 2 flags.DontFork true
        (area 0x10 0x11 read_write ∷ flagged 0x11 0x13 left_out ∷ area 0x13 0x14 read_write ∷ []) }
    ensures set_already { CutsAreas (flagged 0x10 0x14 left_out ∷ []) no_anons 0x11 2
        flags.DontFork true (flagged 0x10 0x14 left_out ∷ []) }
    ensures joined_again { CutsAreas
        (area 0x10 0x11 read_write ∷ flagged 0x11 0x13 left_out ∷ area 0x13 0x14 read_write ∷ [])
        no_anons 0x11 2 flags.DontFork false four }
{}

/// A pass leaves the frames of locked pages alone, and reclaim keeps them; where all are locked
/// there is no frame, and they are counted.
pub fn locked_frames_are_spared()
    ensures spared_in_pass { IsServed (with_swap 2 4 3) one_locked true 1
        (Put 1 (slot 1) ∷ Unmapped 1 ∷ Started (slot 1) ∷ Written (slot 1) ∷ Dropped (slot 1)
        ∷ New 1 0x7fffffffe000 1 ∷ []) None }
    ensures reclaimed { ComesBy (with_swap 2 4 3) one_locked (Reclaim 1)
        (reply_with Done (Kept 0 Locked ∷ []))
        (Noted (Kept 0 Locked) ∷ []) }
    ensures all_locked { IsServed (with_swap 2 4 3) both_locked false 1 []
        (Some (Starved (record { pinned = 0; noslot = 0; fault = 0; locked = 2; ksm = 0 }))) }
{}

/// A row of `areas` has the flags of the area's pages, and no other; and its chain rises, so that
/// no anon_vma stands twice in it.
pub fn rows_show_flags()
    ensures shown_without { NotShown left_out no_flags [] }
    ensures shown_with_one { NotShown no_flags left_out [] }
    ensures falling { NotShown no_flags no_flags (1 ∷ 0 ∷ []) }
    ensures repeated { NotShown no_flags no_flags (0 ∷ 0 ∷ []) }
{}
