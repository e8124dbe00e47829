//! Worked examples of single commands: what they are refused for, what they answer, which events
//! they have, and what is left.

ghost use Rattle.std.specs.Prelude.{◌≡◌, [], ◌∷◌, false, true, map, None, Some};
ghost use Rattle.av_trace.specs.declared.place.Place.TheVariants.{At, Auto, Fixed, NoReplace};
ghost use Rattle.av_trace.specs.declared.command.Command.TheVariants.{
  Spawn,
  Fork,
  Exit,
  Mmap,
  Munmap,
  Mprotect,
  Read,
  Write,
  Maps,
  Areas as AsksAreas,
  Rmap as AsksRmap,
  Entry as AsksEntry,
  Stat,
};
ghost use Rattle.av_trace.specs.declared.reply.Errno.TheVariants.{Enomem, Esrch};
ghost use Rattle.av_trace.specs.declared.note.Note.TheVariants.{
  Zeroed,
  New,
  Copied,
  Loaded,
  Mapped,
  Put,
  Unmapped,
  Started,
  Failed,
  Dropped,
};
ghost use Rattle.av_trace.specs.declared.row.Row.TheVariants.{Area as AreaRow, Entry, Run};
ghost use Rattle.av_trace.specs.declared.reply.Answer.TheVariants.{
  AreaList,
  Done,
  MapAt,
  Data,
  Refused,
  Segv,
  Bus,
  Oom,
  EntryEmpty,
  EntryFrame,
  EntrySlot,
  EntryZero,
  Runs,
  Walk,
  NoWalk,
  Counted,
};
ghost use Rattle.av_plain.specs.Choice.{ChoosesAll};
ghost use Rattle.av_plain.specs.Access.{Stopped, read_answer};
ghost use Rattle.av_plain.specs.Fault.{Lost, Starved};
ghost use Rattle.av_plain.specs.Event.{Forked, Noted, Used, Zapped};
ghost use Rattle.av_plain.specs.Ledger.{InFrame, InSlot, first_ledger};
ghost use Rattle.av_plain.specs.Place.{Goes, is_room};
ghost use Rattle.av_plain.specs.Step.{IsLegal, uses_device};
ghost use Rattle.av_plain.specs.World.{allows, pages, zeros};
ghost use Rattle.av_laws.specs.Examples.{
  AreRefused,
  Comes,
  ComesBy,
  IsServed,
  LeavesAlive,
  LeavesBytes,
  LeavesProts,
  MayCome,
  MayNotCome,
  after_fork,
  all_kinds,
  at_rest,
  cached_for_two,
  crowd,
  execute_only,
  in_swap_cache,
  in_writeback,
  machine,
  no_access,
  one_written,
  only_frames,
  orphan,
  paged_out,
  read_only,
  read_write,
  refusals,
  refusals_in_a_crowd,
  refusals_of_areas,
  reply_with,
  second_out,
  slot,
  slot_shared,
  taken_and_freed,
  two_kinds,
  two_written,
  with_device,
  with_hole,
  with_rows_of,
  with_swap,
  without_device,
  write_only,
  zero_read,
};
ghost use Rattle.av_laws.specs.Pairs.{with_frames};
ghost use Rattle.av_laws.specs.SwapSteps.{third_bad, third_bad_on};
ghost use Rattle.av_base.specs.Flags.{no_flags};

/// Commands are refused by the first test that holds, and by none where each just doesn't hold.
pub fn commands_are_refused()
    ensures refusals { AreRefused (machine 4) at_rest.world at_rest.ledger refusals }
    ensures refusals_in_a_crowd { AreRefused (machine 4) (crowd 4096) first_ledger
        refusals_in_a_crowd }
    ensures room_for_one { AreRefused (machine 4) (crowd 4095) first_ledger
        ((Spawn 4096, None) ∷ []) }
    ensures refusals_of_areas { AreRefused third_bad [] third_bad_on refusals_of_areas }
{}

/// A mapping has room at free pages between the lowest and the top. A hint where it has none is as
/// if it weren't there: then the mapping goes to the greatest place that is free.
pub fn mappings_have_room()
    ensures rooms { map (is_room (pages at_rest.world 1) 2)
        (0xf ∷ 0x10 ∷ 0x7fffffffc ∷ 0x7fffffffd ∷ 0x7fffffffe ∷ 0x7ffffffff ∷ [])
        ≡ false ∷ true ∷ true ∷ false ∷ false ∷ false ∷ [] }
    ensures automatic { Goes (pages at_rest.world 1) 1 Auto (Some 0x7fffffffd) }
    ensures named { Goes (pages at_rest.world 1) 1 (NoReplace 0x20000) (Some 0x20) }
    ensures hint_taken { Goes (pages at_rest.world 1) 2 (At 0x30fff) (Some 0x30) }
    ensures hint_over { Goes (pages at_rest.world 1) 1 (At 0x7fffffffe000) (Some 0x7fffffffd) }
{}

/// The memories after a command: bytes are stored at their place, in one process, and those alone
/// that were served; what is mapped over another page is zeros, and what is unmapped is gone; a
/// child has its parent's memory. A page may be read where its protection says anything, and
/// written where it says so.
pub fn memories_follow()
    ensures readable { map (allows false)
        (read_write ∷ read_only ∷ no_access ∷ write_only ∷ execute_only ∷ [])
        ≡ true ∷ true ∷ false ∷ true ∷ true ∷ [] }
    ensures writable { map (allows true)
        (read_write ∷ read_only ∷ no_access ∷ write_only ∷ execute_only ∷ [])
        ≡ true ∷ false ∷ false ∷ true ∷ false ∷ [] }
    ensures stored { LeavesBytes at_rest.world (Write 1 0x7fffffffe005 (0x41 ∷ 0x42 ∷ [])) Done
        1 0x7fffffffe004
        (Some 0 ∷ Some 0x41 ∷ Some 0x42 ∷ Some 0 ∷ []) }
    ensures apart { LeavesBytes (after_fork []).world (Write 1 0x7fffffffe000 (8 ∷ [])) Done
        2 0x7fffffffe000
        (Some 7 ∷ []) }
    ensures stored_in_part { LeavesBytes ((1, two_kinds) ∷ [])
        (Write 1 0x7fffffffdffe (1 ∷ 2 ∷ 3 ∷ 4 ∷ [])) (Segv 2 []) 1 0x7fffffffdffe
        (Some 1 ∷ Some 2 ∷ Some 0 ∷ Some 0 ∷ []) }
    ensures stored_to_lost { LeavesBytes ((1, two_kinds) ∷ [])
        (Write 1 0x7fffffffcffe (1 ∷ 2 ∷ 3 ∷ 4 ∷ [])) (Bus 2 []) 1 0x7fffffffcffe
        (Some 1 ∷ Some 2 ∷ Some 0 ∷ Some 0 ∷ []) }
    ensures stored_to_starved { LeavesBytes ((1, two_kinds) ∷ [])
        (Write 1 0x7fffffffcffe (1 ∷ 2 ∷ 3 ∷ 4 ∷ []))
        (Oom 2 (record { pinned = 0; noslot = 1; fault = 0; locked = 0; ksm = 0 }) [])
        1 0x7fffffffcffe
        (Some 1 ∷ Some 2 ∷ Some 0 ∷ Some 0 ∷ []) }
    ensures mapped_over { LeavesBytes two_written.world
        (Mmap 1 4096 read_only (Fixed 0x7fffffffd000)) (MapAt 0x7fffffffd000)
        1 0x7fffffffd000
        (Some 0 ∷ []) }
    ensures unmapped { LeavesBytes two_written.world (Munmap 1 0x7fffffffd000 4095) Done
        1 0x7fffffffdfff
        (None ∷ Some 7 ∷ []) }
    ensures forked { LeavesBytes two_written.world (Fork 1 2) Done 2 0x7fffffffe000 (Some 7 ∷ []) }
    ensures both_protected { LeavesProts ((1, two_kinds) ∷ [])
        (Mprotect 1 0x7fffffffc000 4097 read_only) Done 1 0x7fffffffc
        (Some read_only ∷ Some read_only ∷ []) }
    ensures one_protected { LeavesProts ((1, two_kinds) ∷ [])
        (Mprotect 1 0x7fffffffc000 1 read_only) Done 1 0x7fffffffc
        (Some read_only ∷ Some read_write ∷ []) }
    ensures up_to_hole { LeavesProts ((1, with_hole) ∷ [])
        (Mprotect 1 0x7fffffffc000 12288 no_access) (Refused Enomem) 1 0x7fffffffc
        (Some no_access ∷ None ∷ Some read_only ∷ []) }
    ensures wrapped { LeavesProts ((1, with_hole) ∷ [])
        (Mprotect 1 0x7fffffffc000 18446603336221208577 no_access) (Refused Enomem) 1 0x7fffffffc
        (Some read_write ∷ []) }
    ensures spawned { LeavesAlive (crowd 1) (Spawn 2) Done (1 ∷ 2 ∷ []) }
    ensures ended { LeavesAlive (crowd 3) (Exit 2) Done (1 ∷ 3 ∷ []) }
    ensures made_by_none { LeavesAlive (crowd 1) (Write 2 0x10000 (1 ∷ [])) (Refused Esrch)
        (1 ∷ []) }
{}

/// A page is served with the notes that it needs: the page of zeros for a read, a frame for a
/// write, a copy where another entry names its frame, or its slot. A slot is dropped at a write,
/// unless it is in flight or another entry names it; at a read it stays while swap isn't full.
/// Without a frame the page isn't served, though it may have come in before: the frame that is to
/// be copied is the pinned one, and the others are counted behind the pass.
pub fn pages_are_served()
    ensures zero_page { IsServed (machine 4) at_rest false 1 (Zeroed 1 0x7fffffffe000 ∷ []) None }
    ensures new_page { IsServed (machine 4) at_rest true 1 (New 1 0x7fffffffe000 0 ∷ []) None }
    ensures zero_again { IsServed (machine 4) zero_read false 1 [] None }
    ensures new_over_zero { IsServed (machine 4) zero_read true 1
        (New 1 0x7fffffffe000 0 ∷ []) None }
    ensures read_together { IsServed (machine 4) (after_fork []) false 2 [] None }
    ensures copied { IsServed (machine 4) (after_fork []) true 1
        (Copied 1 0x7fffffffe000 1 ∷ []) None }
    ensures loaded { IsServed (with_swap 4 8 7) (paged_out 7 []) true 1
        (Loaded (slot 1) 0 ∷ Mapped 1 0x7fffffffe000 0 ∷ Dropped (slot 1) ∷ []) None }
    ensures kept_in_swap { IsServed (with_swap 4 8 7) (paged_out 7 []) false 1
        (Loaded (slot 1) 0 ∷ Mapped 1 0x7fffffffe000 0 ∷ []) None }
    ensures copied_from_slot { IsServed (with_swap 4 8 7) slot_shared true 2
        (Loaded (slot 1) 0 ∷ Mapped 2 0x7fffffffe000 0 ∷ Copied 2 0x7fffffffe000 1 ∷ []) None }
    ensures dropped { IsServed (with_swap 4 8 7) in_swap_cache true 1 (Dropped (slot 1) ∷ []) None }
    ensures mapped_again { IsServed (with_swap 4 8 7) in_writeback true 1
        (Mapped 1 0x7fffffffe000 0 ∷ []) None }
    ensures named_by_other { IsServed (with_swap 4 2 1) (cached_for_two 1 (InSlot (slot 1))) false 1
        (Mapped 1 0x7fffffffe000 0 ∷ []) None }
    ensures starved { IsServed (with_swap 0 8 7) (paged_out 7 []) false 1 []
        (Some (Starved (record { pinned = 0; noslot = 0; fault = 0; locked = 0; ksm = 0 }))) }
    ensures lost_without_frame { IsServed (with_swap 0 8 7) (paged_out 7 []) false 1 []
        (Some Lost) → ⊥ }
    ensures cached_lost { IsServed (with_swap 4 8 7) in_writeback false 1 [] (Some Lost) → ⊥ }
    ensures mapped_lost { IsServed (with_swap 4 8 7) in_swap_cache false 1 [] (Some Lost) → ⊥ }
    ensures no_copy { IsServed (with_swap 1 8 7) slot_shared true 2
        (Loaded (slot 1) 0 ∷ Mapped 2 0x7fffffffe000 0 ∷ [])
        (Some (Starved (record { pinned = 1; noslot = 0; fault = 0; locked = 0; ksm = 0 }))) }
    ensures starved_behind_pass { IsServed (with_swap 1 8 7) one_written true 1
        (Put 0 (slot 1) ∷ Unmapped 0 ∷ Started (slot 1) ∷ Failed (slot 1) ∷ [])
        (Some (Starved (record { pinned = 0; noslot = 0; fault = 1; locked = 0; ksm = 0 }))) }
{}

/// An access that is served whole shows its bytes, or is done, and its pages are used behind their
/// notes. Else it stops at the first page that isn't served, which isn't used, and tells or shows
/// the bytes before it: its protection denies it, the device doesn't give it, or there is no frame
/// for it.
pub fn accesses_stop()
    ensures read_whole { ComesBy (with_swap 4 8 7) in_swap_cache (Read 1 0x7fffffffe000 2)
        (reply_with (Data (7 ∷ 0 ∷ [])) [])
        (Used false (1, 0x7fffffffe) ∷ []) }
    ensures written_whole { ComesBy (with_swap 4 8 7) in_swap_cache
        (Write 1 0x7fffffffe000 (8 ∷ []))
        (reply_with Done (Dropped (slot 1) ∷ []))
        (Noted (Dropped (slot 1)) ∷ Used true (1, 0x7fffffffe) ∷ []) }
    ensures denied { IsLegal (machine 4) ((1, two_kinds) ∷ []) first_ledger
        (Write 1 0x7fffffffdffe (1 ∷ 2 ∷ 3 ∷ 4 ∷ []))
        (reply_with (Segv 2 []) (New 1 0x7fffffffd000 0 ∷ []))
        (Noted (New 1 0x7fffffffd000 0) ∷ Used true (1, 0x7fffffffd) ∷ []) }
    ensures read_past { Comes (machine 4) at_rest (Read 1 0x7fffffffefff 2)
        (reply_with (Segv 1 (0 ∷ [])) (Zeroed 1 0x7fffffffe000 ∷ [])) }
    ensures lost { ComesBy (with_swap 4 8 7) (second_out (0 ∷ [])) (Read 1 0x7fffffffdfff 2)
        (reply_with (Bus 1 (0 ∷ [])) (Zeroed 1 0x7fffffffd000 ∷ []))
        (Noted (Zeroed 1 0x7fffffffd000) ∷ Used false (1, 0x7fffffffd) ∷ []) }
    ensures starved_at_second { IsLegal (machine 1) two_written.world
        (with_frames (((1, 0x7fffffffd), InFrame 0 true) ∷ []) (0 ∷ []))
        (Write 1 0x7fffffffdfff (1 ∷ 2 ∷ []))
        (reply_with
        (Oom 1 (record { pinned = 0; noslot = 1; fault = 0; locked = 0; ksm = 0 }) [])
        [])
        (Used true (1, 0x7fffffffd) ∷ []) }
    ensures starved_behind { read_answer 0x7fffffffdfff
        (Stopped 0x7fffffffe
        (Starved (record { pinned = 0; noslot = 1; fault = 0; locked = 0; ksm = 0 }))) (0 ∷ [])
        ≡ Oom 1 (record { pinned = 0; noslot = 1; fault = 0; locked = 0; ksm = 0 }) (0 ∷ []) }
{}

/// The entries of a range or a process go, by rising page, and each drops the slot that it leaves
/// as an orphan. A child inherits each page with an entry.
pub fn entries_go()
    ensures both_go { ComesBy (machine 4) two_written (Munmap 1 0x7fffffffd000 4097)
        (reply_with Done [])
        (Zapped (1, 0x7fffffffd) ∷ Zapped (1, 0x7fffffffe) ∷ []) }
    ensures first_goes { ComesBy (machine 4) two_written
        (Mmap 1 4096 read_write (Fixed 0x7fffffffd000))
        (reply_with (MapAt 0x7fffffffd000) [])
        (Zapped (1, 0x7fffffffd) ∷ []) }
    ensures own_goes { ComesBy (machine 4) (after_fork (1 ∷ 2 ∷ 3 ∷ [])) (Exit 1)
        (reply_with Done [])
        (Zapped (1, 0x7fffffffe) ∷ []) }
    ensures orphan_goes { ComesBy (with_swap 4 8 7) in_swap_cache (Exit 1)
        (reply_with Done (Dropped (slot 1) ∷ []))
        (Zapped (1, 0x7fffffffe) ∷ Noted (Dropped (slot 1)) ∷ []) }
    ensures orphan_of_two { ComesBy (with_swap 4 8 7) (cached_for_two 7 (InFrame 0 true)) (Exit 1)
        (reply_with Done [])
        (Zapped (1, 0x7fffffffe) ∷ []) }
    ensures inherited { ComesBy (machine 4) two_written (Fork 1 2) (reply_with Done [])
        (Forked 1 2 (0x7fffffffd ∷ 0x7fffffffe ∷ []) ∷ []) }
{}

/// `maps` shows the longest runs with one protection; `areas` ranges that cover the pages, each
/// with a chain that rises; `rmap` each entry of the frame of a page's entry, if that names one;
/// `entry` what a page's entry is, with the slot at which its frame is cached, or the frame that
/// caches its slot; `stat` how many there are of all.
pub fn reports_show()
    ensures two_runs { MayCome (machine 4) ((1, two_kinds) ∷ []) first_ledger (Maps 1)
        (with_rows_of (Runs 2)
        (Run 0x7fffffffc000 0x7fffffffe000 read_write
        ∷ Run 0x7fffffffe000 0x7ffffffff000 read_only ∷ [])) }
    ensures one_area { Comes (machine 4) at_rest (AsksAreas 1)
        (with_rows_of (AreaList 1)
        (AreaRow 0x7fffffffe000 0x7ffffffff000 read_write 5 None [] no_flags ∷ [])) }
    ensures chain_falls { MayNotCome (machine 4) at_rest.world first_ledger (AsksAreas 1)
        (with_rows_of (AreaList 1)
        (AreaRow 0x7fffffffe000 0x7ffffffff000 read_write 5 (Some 1) (1 ∷ 0 ∷ []) no_flags
        ∷ [])) }
    ensures chain_stands { MayNotCome (machine 4) at_rest.world first_ledger (AsksAreas 1)
        (with_rows_of (AreaList 1)
        (AreaRow 0x7fffffffe000 0x7ffffffff000 read_write 5 (Some 0) (0 ∷ 0 ∷ []) no_flags
        ∷ [])) }
    ensures walk_of_two { Comes (machine 4) (after_fork []) (AsksRmap 2 0x7fffffffe123)
        (with_rows_of (Walk 0 2) (Entry 1 0x7fffffffe000 ∷ Entry 2 0x7fffffffe000 ∷ [])) }
    ensures no_walk { Comes (with_swap 4 8 7) in_writeback (AsksRmap 1 0x7fffffffe000)
        (reply_with NoWalk []) }
    ensures none_shown { Comes (machine 4) at_rest (AsksEntry 1 0x7fffffffe123)
        (reply_with EntryEmpty []) }
    ensures zero_shown { MayCome (machine 4) ((1, λ page. Some (zeros read_only)) ∷ []) all_kinds
        (AsksEntry 1 0x16fff)
        (reply_with EntryZero []) }
    ensures old_shown { Comes (machine 4) (after_fork []) (AsksEntry 2 0x7fffffffe000)
        (reply_with (EntryFrame 0 false None false) []) }
    ensures cached_shown { Comes (with_swap 4 8 7) in_swap_cache (AsksEntry 1 0x7fffffffe000)
        (reply_with (EntryFrame 0 true (Some (slot 1)) false) []) }
    ensures slot_shown { Comes (with_swap 4 8 7) in_writeback (AsksEntry 1 0x7fffffffe000)
        (reply_with (EntrySlot (slot 1) (Some 0)) []) }
    ensures slot_alone { Comes (with_swap 4 8 7) (paged_out 7 []) (AsksEntry 1 0x7fffffffe000)
        (reply_with (EntrySlot (slot 1) None) []) }
    ensures counted { MayCome (with_swap 9 8 7) (crowd 6) all_kinds Stat
        (reply_with (Counted (record {
          frames = 9;
          free = 4;
          active = 2;
          inactive = 3;
          flight = 1;
          slots = 7;
          free_slots = 5;
          processes = 6;
        })) []) }
{}

/// Commands that read the device or write to it are those that access pages, complete writes or
/// turn areas on and off; no other uses it, though `reclaim` names slots.
pub fn some_commands_use_the_device()
    ensures used { map uses_device with_device ≡ map (λ _. true) with_device }
    ensures not_used { map uses_device without_device ≡ map (λ _. false) without_device }
{}

/// The frame that is taken is the first of the free ones, and one that has become free goes in
/// front.
pub fn frames_are_chosen()
    ensures taken_and_freed { ChoosesAll (machine 3) None first_ledger taken_and_freed
        (only_frames (0 ∷ 1 ∷ 2 ∷ []))
        (only_frames (1 ∷ 0 ∷ 2 ∷ [])) }
    ensures dropped_and_freed { ChoosesAll (machine 6) None orphan (Noted (Dropped (slot 1)) ∷ [])
        (only_frames (2 ∷ []))
        (only_frames (5 ∷ 2 ∷ [])) }
{}
