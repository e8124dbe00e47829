//! Worked examples for slots: which one is given next, and what an area has that is turned on.

ghost use Rattle.std.specs.Prelude.{◌≡◌, [], ◌∷◌, Some, None, pos, negsuc};
ghost use Rattle.av_trace.specs.declared.command.Command.TheVariants.{Swapon};
ghost use Rattle.av_trace.specs.declared.reply.Answer.TheVariants.{On};
ghost use Rattle.av_plain.specs.Event.{TurnedOn};
ghost use Rattle.av_plain.specs.Ledger.{InSlot};
ghost use Rattle.av_plain.specs.Step.{IsLegal};
ghost use Rattle.av_plain.specs.Swapon.{priority_of};
ghost use Rattle.av_laws.specs.Examples.{reply_with, slot, swap_area, with_slots, with_swap};
ghost use Rattle.av_laws.specs.Slots.{
  AreaGives,
  MayBeFresh,
  MayChoose,
  MayNotBeFresh,
  MayNotChoose,
  cached_and_named,
  lower_given,
  lower_in_use,
  no_slot_yet,
  none_on,
  one_put,
  puts,
  puts_after_drop,
  puts_after_fail,
  puts_after_zap,
  puts_again,
  puts_then,
  puts_when_on_again,
  slot_at,
  some_given,
  some_out,
  three_in_use,
  turn_on,
  two_swaps,
  upper_before_lower,
};

/// Slots are given in turn: one that came back is given again only when its cluster has none in
/// use.
pub fn slots_are_given_in_turn()
    ensures put_in_turn { MayChoose (with_swap 4 8 7) None three_in_use (puts (slot 3))
        (with_slots 8 [] 0 (3 ∷ [])) }
    ensures put_again { MayChoose (with_swap 4 8 7) None three_in_use (puts_again (slot 1))
        (with_slots 8 [] 0 (3 ∷ [])) }
    ensures second_cluster { MayChoose (with_swap 4 300 299) None none_on (puts_then (slot 256))
        no_slot_yet }
{}

/// A slot comes back when nothing names it any more: when its last entry goes, and not when its
/// write fails, nor when it is dropped while an entry names it.
pub fn slots_come_back()
    ensures zapped_last { MayChoose (with_swap 4 8 7) None (some_out 1) (puts_after_zap (slot 1))
        (some_given 1) }
    ensures zapped_first { MayChoose (with_swap 4 8 7) None (some_out 2) (puts_after_zap (slot 3))
        (some_given 2) }
    ensures still_named { MayChoose (with_swap 4 8 7) None cached_and_named
        (puts_after_drop (slot 2))
        (with_slots 8 [] 1 (2 ∷ 3 ∷ [])) }
    ensures not_written { MayChoose (with_swap 4 8 7) None three_in_use (puts_after_fail (slot 2))
        (with_slots 8 [] 0 (3 ∷ [])) }
{}

/// The first area that is on, isn't closing and has a free slot gives it, where all have the same
/// priority; and where there is none no slot is given.
pub fn the_first_area_gives()
    ensures lower_gives { MayChoose two_swaps None (lower_in_use 1) (one_put (slot_at 0 2))
        (lower_given 1) }
    ensures upper_gives { MayChoose two_swaps None (lower_in_use 2) (one_put (slot_at 1 1))
        (lower_given 2) }
    ensures past_a_closing { MayChoose two_swaps (Some 0) (lower_in_use 1) (one_put (slot_at 1 1))
        (lower_given 1) }
    ensures from_none { MayNotChoose two_swaps (Some 1) (lower_in_use 2) (one_put (slot_at 1 1))
        (lower_given 2) }
{}

/// Of the areas that can give a slot the one with the greatest priority gives it, of equal ones the
/// first: not one that is closing, nor one that is full, however great its priority. One that was
/// turned on without a priority comes behind all that have one. So a frame is put at no slot of
/// another area.
pub fn priorities_decide()
    ensures greatest_gives { AreaGives None []
        (pos 3 ∷ pos 1 ∷ pos 2 ∷ pos 7 ∷ pos 4 ∷ pos 0 ∷ pos 5 ∷ pos 6 ∷ []) (Some 3) }
    ensures last_may_give { AreaGives None []
        (pos 0 ∷ pos 1 ∷ pos 2 ∷ pos 3 ∷ pos 4 ∷ pos 5 ∷ pos 6 ∷ pos 7 ∷ []) (Some 7) }
    ensures first_of_equals { AreaGives None []
        (pos 3 ∷ pos 5 ∷ pos 2 ∷ pos 5 ∷ pos 4 ∷ pos 0 ∷ pos 5 ∷ pos 1 ∷ []) (Some 1) }
    ensures greatest_is_closing { AreaGives (Some 3) []
        (pos 3 ∷ pos 1 ∷ pos 2 ∷ pos 7 ∷ pos 4 ∷ pos 0 ∷ pos 5 ∷ pos 6 ∷ []) (Some 7) }
    ensures greatest_is_full { AreaGives None (((1, 0x10), InSlot (slot_at 3 1)) ∷ [])
        (pos 3 ∷ pos 1 ∷ pos 2 ∷ pos 7 ∷ pos 4 ∷ pos 0 ∷ pos 5 ∷ pos 6 ∷ []) (Some 7) }
    ensures none_is_least { AreaGives None []
        (negsuc 0 ∷ negsuc 0 ∷ negsuc 0 ∷ negsuc 0 ∷ negsuc 0 ∷ pos 0 ∷ []) (Some 5) }
    ensures not_by_digits { AreaGives None [] (pos 9 ∷ pos 10 ∷ pos 11 ∷ []) (Some 2) }
    ensures put_at_greatest { MayChoose two_swaps None upper_before_lower (one_put (slot_at 1 1))
        (lower_given 0) }
    ensures put_at_lesser { MayNotChoose two_swaps None upper_before_lower (one_put (slot_at 0 1))
        (lower_given 0) }
    ensures put_while_closing { MayChoose two_swaps (Some 1) upper_before_lower
        (one_put (slot_at 0 1))
        (lower_given 0) }
    ensures least_priority { priority_of (Some 0) ≡ pos 0 }
    ensures greatest_priority { priority_of (Some 32767) ≡ pos 32767 }
    ensures with_priority { IsLegal (with_swap 4 8 7) [] none_on (Swapon 0 (Some 5))
        (reply_with (On 7 0) [])
        (TurnedOn 0 (record (swap_area 7 0) { priority = pos 5 }) ∷ []) }
    ensures without_priority { IsLegal (with_swap 4 8 7) [] none_on (Swapon 0 None)
        (reply_with (On 7 0) [])
        (TurnedOn 0 (record (swap_area 7 0) { priority = negsuc 0 }) ∷ []) }
{}

/// An area that is turned on has the clusters of its header, as if nothing had been given of it.
/// With other numbers than the header's it isn't turned on. Where headers aren't told, page 0, the
/// slots and the bad pages are all pages of the area, and no more than the device has.
pub fn areas_are_turned_on_anew()
    ensures on_again { MayChoose (with_swap 4 300 299) None none_on (puts_when_on_again (slot 1))
        no_slot_yet }
    ensures fewer_slots { MayNotChoose (with_swap 4 8 7) None none_on (turn_on 0 6 0)
        no_slot_yet }
    ensures more_bad { MayNotChoose (with_swap 4 8 7) None none_on (turn_on 0 7 1) no_slot_yet }
    ensures no_header { MayNotChoose (with_swap 4 8 7) None none_on (turn_on 1 7 0) no_slot_yet }
    ensures adds_up { MayBeFresh 3 4 8 (1 ∷ 2 ∷ 3 ∷ 4 ∷ []) }
    ensures too_short { MayNotBeFresh 3 1 8 (1 ∷ 2 ∷ 3 ∷ 4 ∷ []) }
    ensures too_long { MayNotBeFresh 8 0 9 [] }
    ensures miscounted { MayNotBeFresh 4 3 8 (1 ∷ 2 ∷ 3 ∷ 4 ∷ []) }
{}
