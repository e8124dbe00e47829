//! Worked steps of swap: single commands that meet several frames, slots or areas.

ghost use Rattle.std.specs.Prelude.{◌≡◌, [], ◌∷◌, false, true, Some, None};
ghost use Rattle.av_trace.specs.declared.command.Command.TheVariants.{
  Age,
  Complete,
  Reclaim,
  Slot as AsksSlot,
  Swapoff,
  Swapon,
};
ghost use Rattle.av_trace.specs.declared.note.Cause.TheVariants.{Referenced, WriteStarted};
ghost use Rattle.av_trace.specs.declared.note.Note.TheVariants.{
  Aged,
  Dropped,
  Failed,
  Kept,
  Mapped,
  Started,
  Unmapped,
  Written,
};
ghost use Rattle.av_trace.specs.declared.reply.Answer.TheVariants.{
  Done,
  NoFrame,
  On,
  Refused,
  SlotBad,
  SlotCount,
};
ghost use Rattle.av_trace.specs.declared.reply.Errno.TheVariants.{Einval, Eio};
ghost use Rattle.av_plain.specs.Event.{TurnedOff, TurnedOn, after_notes, note_events};
ghost use Rattle.av_plain.specs.Fault.{Touches};
ghost use Rattle.av_plain.specs.Ledger.{InFrame, first_ledger, is_full};
ghost use Rattle.av_plain.specs.Reclaim.{cause_of, leave_notes};
ghost use Rattle.av_plain.specs.Step.{IsLegal, closing_swap_area};
ghost use Rattle.av_plain.specs.Swapoff.{Closed, NoRoom, Unread, close_answer, sparing_area};
ghost use Rattle.av_laws.specs.Examples.{
  MayCome,
  MayNotCome,
  cached_out,
  machine,
  paged_out,
  reply_with,
  slot,
  swap_area,
  untold,
  with_swap,
};
ghost use Rattle.av_laws.specs.PassTurns.{
  all_readable,
  both_cached,
  last_cached,
  no_frame_spared,
  one_frame_two_areas,
  third_out,
};
ghost use Rattle.av_laws.specs.Slots.{lower_in_use, slot_at, two_swaps};
ghost use Rattle.av_laws.specs.SwapSteps.{
  ClaimsAfterWrite,
  Ends,
  OtherAreaGives,
  both_written,
  cached_by_first,
  cached_by_second,
  cached_there_fails,
  counted_behind_pass,
  first_emptied,
  found_when_full,
  four_inactive,
  four_reclaimed,
  mapped_when_full,
  none_in_use,
  numbers,
  one_out,
  other_area_fills,
  page_in,
  page_in_and_drop,
  seen_without_slot,
  third_bad,
  third_bad_on,
  three_active,
  to_other_area,
  two_emptied,
  two_flying,
  two_kept,
  two_slots,
  unmapped_in_turn,
  upper_in_flight,
};

/// Frames are reclaimed and aged from the tail, each by what those before it left. One whose write
/// is in flight is kept for that, though it was read since; one with two entries is referenced by
/// the second alone. One that is referenced and has no slot to go to is kept as referenced. A
/// cached one isn't kept for the write of another slot, nor where swap is full. A clean frame is
/// unmapped and dropped, a stale one is unmapped and its write begins.
pub fn frames_are_reclaimed_from_the_tail()
    ensures four_reclaimed { MayCome (with_swap 4 3 2) [] four_inactive (Reclaim 4)
        (reply_with Done four_reclaimed) }
    ensures two_reclaimed { MayCome (with_swap 4 3 2) [] four_inactive (Reclaim 2)
        (reply_with Done two_kept) }
    ensures seen_kept { MayCome (machine 1) [] seen_without_slot (Reclaim 1)
        (reply_with Done (Kept 0 Referenced ∷ [])) }
    ensures clean_beside_a_write { cause_of (with_swap 2 8 7) (no_frame_spared None) third_out 0
        ≡ None }
    ensures clean_when_full { cause_of (with_swap 2 2 1) (no_frame_spared None) (last_cached 1) 1
        ≡ None }
    ensures clean_reclaimed { MayCome (with_swap 2 8 7) []
        (both_cached false (InFrame 0 false) [] (1 ∷ 0 ∷ []))
        (Reclaim 1)
        (reply_with Done (Unmapped 0 ∷ Dropped (slot 1) ∷ [])) }
    ensures stale_frame_is_written { leave_notes
        (both_cached true (InFrame 0 false) [] (1 ∷ 0 ∷ []))
        0 (slot 1)
        ≡ Unmapped 0 ∷ Started (slot 1) ∷ Kept 0 WriteStarted ∷ [] }
    ensures two_aged { IsLegal (with_swap 4 3 2) [] three_active (Age 2)
        (reply_with Done (Aged 0 ∷ Aged 1 ∷ []))
        (note_events (Aged 0 ∷ Aged 1 ∷ [])) }
{}

/// The writes that are completed are the first in flight, in the order in which they began; where
/// fewer are in flight, all of them, also those behind one that fails.
pub fn the_first_writes_are_completed()
    ensures first_completed { IsLegal (with_swap 4 3 2) [] two_flying (Complete 1)
        (reply_with Done (Written (slot 2) ∷ []))
        (note_events (Written (slot 2) ∷ [])) }
    ensures both_completed { MayCome (with_swap 4 3 2) [] two_flying (Complete 5)
        (reply_with Done both_written) }
    ensures failed_stays { MayCome (with_swap 4 3 2) [] two_flying (Complete 1)
        (reply_with Done (Failed (slot 2) ∷ [])) }
    ensures second_too { MayNotCome (with_swap 4 3 2) [] two_flying (Complete 1)
        (reply_with Done both_written) }
    ensures second_left_in_flight { MayNotCome (with_swap 4 3 2) [] two_flying (Complete 5)
        (reply_with Done (Failed (slot 2) ∷ [])) }
{}

/// The slots of an area that is turned off are emptied, the least first, once the writes in flight
/// have ended, those to other areas too. Each page at a slot is mapped, by process and then
/// address, to the frame that caches the slot or, where none does, one that takes its page. A frame
/// that has to go for that goes to another area, or to the slot at which it is cached, though that
/// is still to be emptied.
///
/// A page is unread at no slot but the least in use. It ends only at one that is in no frame: there
/// none is free behind the pass, or one is and the device does not give the page. Then the area
/// stays on, and else it is off.
pub fn slots_are_emptied_in_turn()
    ensures two_emptied { MayCome (with_swap 4 3 2) [] two_slots (Swapoff 0)
        (reply_with Done two_emptied) }
    ensures upper_write_ends { MayCome two_swaps [] upper_in_flight (Swapoff 0)
        (reply_with Done (Written (slot_at 1 1) ∷ [])) }
    ensures other_area_fills { MayCome one_frame_two_areas [] (lower_in_use 1) (Swapoff 0)
        (reply_with Done other_area_fills) }
    ensures other_area_gives { OtherAreaGives }
    ensures second_closes { closing_swap_area (Swapoff 1) ≡ Some 1 }
    ensures second_is_spared { (sparing_area [] 1 first_ledger).closing ≡ Some 1 }
    ensures left_named { Ends (with_swap 4 3 2) (after_notes two_slots first_emptied) [] Closed
        → ⊥ }
    ensures cached_unread { Ends (with_swap 4 3 2) (after_notes two_slots first_emptied) [] Unread
        → ⊥ }
    ensures later_unread { Ends (with_swap 4 3 2) cached_by_first [] Unread → ⊥ }
    ensures unread_behind_pass { Ends one_frame_two_areas (lower_in_use 1) to_other_area Unread }
    ensures starved_behind_pass { Ends one_frame_two_areas (lower_in_use 1) to_other_area
        (NoRoom (numbers 1 0)) → ⊥ }
    ensures counted_behind_pass { Ends one_frame_two_areas (lower_in_use 1) counted_behind_pass
        (NoRoom (numbers 0 1)) }
    ensures cached_there_fails { Ends (with_swap 1 3 2) (cached_by_second true) cached_there_fails
        (NoRoom (numbers 0 1)) }
    ensures unread_without_frame { Ends (with_swap 1 3 2) (cached_by_second true)
        cached_there_fails Unread → ⊥ }
    ensures unread_is_told { close_answer Unread ≡ Refused Eio }
    ensures turned_off { IsLegal (with_swap 4 3 2) [] none_in_use (Swapoff 0) (reply_with Done [])
        (TurnedOff 0 ∷ []) }
    ensures unmapped_in_turn { IsLegal (with_swap 1 3 2) [] (cached_by_second false) (Swapoff 0)
        (reply_with (NoFrame (numbers 1 0)) unmapped_in_turn)
        (note_events unmapped_in_turn) }
    ensures unread_stays_on { IsLegal (with_swap 4 8 7) (paged_out 7 []).world
        (paged_out 7 []).ledger (Swapoff 0)
        (reply_with (Refused Eio) []) [] }
{}

/// `slot` tells a bad page and the count of a slot, and refuses page 0, a page past the header's
/// and an area that is off. Where headers aren't told, a page may be bad or past the header's, but
/// not a slot in use; and one past the device's pages is refused.
pub fn slots_are_told()
    ensures bad_page { MayCome third_bad [] third_bad_on (AsksSlot 0 3)
        (reply_with (SlotBad (slot 3)) []) }
    ensures last_slot { MayCome third_bad [] third_bad_on (AsksSlot 0 7)
        (reply_with (SlotCount (slot 7) 0 None) []) }
    ensures header_page { MayCome third_bad [] third_bad_on (AsksSlot 0 0)
        (reply_with (Refused Einval) []) }
    ensures past_header { MayCome third_bad [] third_bad_on (AsksSlot 0 8)
        (reply_with (Refused Einval) []) }
    ensures off_area { MayCome third_bad [] first_ledger (AsksSlot 0 1)
        (reply_with (Refused Einval) []) }
    ensures used_counted { MayCome untold [] (paged_out 7 []).ledger (AsksSlot 0 1)
        (reply_with (SlotCount (slot 1) 1 None) []) }
    ensures cached_counted { MayCome (with_swap 4 8 7) [] (cached_out false false).ledger
        (AsksSlot 0 1)
        (reply_with (SlotCount (slot 1) 2 (Some 0)) []) }
    ensures unused_bad { MayCome untold [] (paged_out 7 []).ledger (AsksSlot 0 2)
        (reply_with (SlotBad (slot 2)) []) }
    ensures unused_outside { MayCome untold [] (paged_out 7 []).ledger (AsksSlot 0 2)
        (reply_with (Refused Einval) []) }
    ensures used_bad { MayNotCome untold [] (paged_out 7 []).ledger (AsksSlot 0 1)
        (reply_with (SlotBad (slot 1)) []) }
    ensures used_outside { MayNotCome untold [] (paged_out 7 []).ledger (AsksSlot 0 1)
        (reply_with (Refused Einval) []) }
    ensures past_device { MayNotCome untold [] (paged_out 7 []).ledger (AsksSlot 0 8)
        (reply_with (SlotCount (slot 8) 0 None) []) }
{}

/// `swapon` refuses an area without a device, or without a page, before anything is read of it.
/// Else its page 0 isn't read, or is no header, and no area is on; or it is one and its numbers are
/// told: those of the area that is asked for, and this one is on. Where headers aren't told, these
/// may be any numbers, but for no slots.
pub fn areas_are_turned_on()
    ensures no_device { MayCome third_bad [] first_ledger (Swapon 3 None)
        (reply_with (Refused Einval) []) }
    ensures no_pages { MayCome third_bad [] first_ledger (Swapon 1 None)
        (reply_with (Refused Einval) []) }
    ensures no_device_unread { MayNotCome third_bad [] first_ledger (Swapon 3 None)
        (reply_with (Refused Eio) []) }
    ensures no_pages_unread { MayNotCome third_bad [] first_ledger (Swapon 1 None)
        (reply_with (Refused Eio) []) }
    ensures unread_header { IsLegal third_bad [] first_ledger (Swapon 0 None)
        (reply_with (Refused Eio) []) [] }
    ensures wrong_header { IsLegal third_bad [] first_ledger (Swapon 2 None)
        (reply_with (Refused Einval) []) [] }
    ensures header { MayCome third_bad [] first_ledger (Swapon 0 None) (reply_with (On 6 1) []) }
    ensures second_area { IsLegal two_swaps [] first_ledger (Swapon 1 None)
        (reply_with (On 7 0) [])
        (TurnedOn 1 (swap_area 7 0) ∷ []) }
    ensures untold_header { MayCome untold [] first_ledger (Swapon 0 None)
        (reply_with (On 6 1) []) }
    ensures untold_wrong_header { MayCome untold [] first_ledger (Swapon 0 None)
        (reply_with (Refused Einval) []) }
    ensures untold_without_slots { MayNotCome untold [] first_ledger (Swapon 0 None)
        (reply_with (On 0 0) []) }
{}

/// A slot is dropped behind a load where swap is full then, though it wasn't before the page came
/// in; and not where half of it is free then. So it is at a page that is mapped to the frame that
/// caches its slot. A read that finds the page in its frame drops nothing, however full swap is.
pub fn full_is_asked_at_the_drop()
    ensures full_at_the_drop { Touches (with_swap 1 4 3) all_readable (one_out 3) false (1, 0x10)
        page_in_and_drop None }
    ensures half_full_at_the_drop { is_full (with_swap 1 5 4) (after_notes (one_out 4) page_in)
        ≡ false }
    ensures found_when_full { Touches (with_swap 1 2 1) all_readable found_when_full false (1, 0x10)
        [] None }
    ensures mapped_when_full { Touches (with_swap 1 2 1) all_readable mapped_when_full false
        (1, 0x10)
        (Mapped 1 0x10000 0 ∷ Dropped (slot 1) ∷ []) None }
{}

/// A page that is written is loaded first: so the bytes that were written are claimed, and around
/// them none are where the device doesn't tell its pages.
pub fn written_bytes_are_claimed()
    ensures written_after_load { ClaimsAfterWrite untold 0x7fffffffe000 (Some 9) }
    ensures around_unclaimed { ClaimsAfterWrite untold 0x7fffffffe001 None }
    ensures around_told { ClaimsAfterWrite (with_swap 4 8 7) 0x7fffffffe001 (Some 0) }
{}
