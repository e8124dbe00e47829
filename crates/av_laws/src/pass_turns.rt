//! Worked examples of the direct pass: whose turn it is, what a turn is, and when the pass ends.

ghost use Rattle.std.specs.Prelude.{◌≡◌, [], ◌∷◌, true, false, Some, None};
ghost use Rattle.av_trace.specs.declared.command.Command.TheVariants.{Read};
ghost use Rattle.av_trace.specs.declared.note.Note.TheVariants.{
  Put,
  Unmapped,
  Started,
  Written,
  Failed,
  Dropped,
};
ghost use Rattle.av_plain.specs.Event.{note_events};
ghost use Rattle.av_plain.specs.Fault.{sparing};
ghost use Rattle.av_plain.specs.Ledger.{InFrame, InSlot, first_ledger};
ghost use Rattle.av_plain.specs.Pass.{frames_in_turn};
ghost use Rattle.av_plain.specs.Step.{IsLegal, causes};
ghost use Rattle.av_laws.specs.Examples.{bad_first, full, slot, with_swap};
ghost use Rattle.av_laws.specs.PassTurns.{
  Passes,
  all_readable,
  both_cached,
  both_in_flight,
  failure_first,
  last_cached,
  lost_reply,
  one_frame_two_areas,
  orphan_before_another,
  orphan_in_flight,
  third_out,
  to_lower_area,
};
ghost use Rattle.av_laws.specs.Several.{with_lists};
ghost use Rattle.av_laws.specs.Slots.{lower_in_use};

/// Inactive frames have their turns before active ones, and these have theirs. One that is pinned
/// has none, and those behind it have theirs.
pub fn frames_have_their_turns()
    ensures inactive_first { Passes (with_swap 2 8 7) None
        (both_cached false (InSlot (slot 1)) (1 ∷ []) (0 ∷ []))
        (Dropped (slot 1) ∷ []) }
    ensures active_too { Passes (with_swap 2 8 7) None
        (both_cached false (InSlot (slot 1)) (1 ∷ 0 ∷ []) [])
        (Dropped (slot 1) ∷ []) }
    ensures all_but_the_pinned { frames_in_turn (sparing [] first_ledger (Some 1))
        (with_lists (3 ∷ 2 ∷ []) (1 ∷ 0 ∷ []))
        ≡ 0 ∷ 2 ∷ 3 ∷ [] }
{}

/// A cached frame is unmapped too, and written where it is stale, before it is dropped.
pub fn cached_frames_are_unmapped_and_written()
    ensures stale_frame_written { Passes (with_swap 2 8 7) None
        (both_cached true (InSlot (slot 1)) [] (1 ∷ 0 ∷ []))
        (Started (slot 1) ∷ Written (slot 1) ∷ Dropped (slot 1) ∷ []) }
    ensures cached_frame_unmapped { Passes (with_swap 2 8 7) None
        (both_cached false (InFrame 0 true) [] (1 ∷ 0 ∷ []))
        (Unmapped 0 ∷ Dropped (slot 1) ∷ []) }
{}

/// The pass goes on past a frame that has no slot, and past one whose write fails; it ends where a
/// frame is free once all writes in flight have ended, those behind one that frees a frame too. A
/// swap area that is closing has no slot.
pub fn passes_end_with_a_free_frame()
    ensures past_stuck_frame { Passes (with_swap 2 2 1) None (last_cached 1)
        (Dropped (slot 1) ∷ []) }
    ensures past_failure { Passes (with_swap 2 8 7) None (last_cached 7) failure_first }
    ensures freed_by_completion { Passes (with_swap 2 8 7) None orphan_in_flight
        (Written (slot 1) ∷ Dropped (slot 1) ∷ []) }
    ensures write_behind_ends { Passes (with_swap 2 8 7) None orphan_before_another
        (Written (slot 1) ∷ Dropped (slot 1) ∷ Written (slot 2) ∷ []) }
    ensures all_completed { Passes (with_swap 2 8 7) None both_in_flight
        (Written (slot 1) ∷ Written (slot 2) ∷ Dropped (slot 2) ∷ []) }
    ensures none_while_closing { Passes bad_first (Some 0) full.ledger [] }
{}

/// No pass goes past a clean frame, none ends with a write that failed while a frame has its turn
/// still, and none puts a frame at a slot of an area that is closing, though another area has
/// slots.
pub fn changed_passes_are_refused()
    ensures clean_passed_over { Passes (with_swap 2 8 7) None
        (both_cached false (InSlot (slot 1)) [] (1 ∷ 0 ∷ []))
        (Dropped (slot 2) ∷ []) → ⊥ }
    ensures given_up_after_failure { Passes (with_swap 2 8 7) None (last_cached 7)
        (Put 0 (slot 2) ∷ Unmapped 0 ∷ Started (slot 2) ∷ Failed (slot 2) ∷ []) → ⊥ }
    ensures slot_while_closing { Passes one_frame_two_areas (Some 0) (lower_in_use 1)
        to_lower_area → ⊥ }
{}

/// A page may be lost behind a pass that frees a frame for it. Then the device failed once more
/// than writes failed.
pub fn pages_are_lost_behind_a_pass()
    ensures lost_behind_pass { IsLegal (with_swap 2 8 7) all_readable third_out (Read 1 0x10000 1)
        lost_reply (note_events lost_reply.notes) }
    ensures lost_and_failed { causes lost_reply ≡ 2 }
{}
