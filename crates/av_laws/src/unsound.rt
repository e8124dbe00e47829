//! Ledgers and memories that are not sound, each for one reason.

ghost use Rattle.std.specs.Prelude.{[], ◌∷◌, false, true};
ghost use Rattle.av_plain.specs.Ledger.{InFrame, InSlot, Zero, first_ledger};
ghost use Rattle.av_laws.specs.Examples.{
  bad_first,
  cached_at,
  crowd,
  machine,
  one_area,
  slot,
  swap_area,
  two_bytes,
};
ghost use Rattle.av_laws.specs.Unsound.{
  Unsound,
  UnsoundAt,
  UnsoundOf,
  at_first_slot,
  both,
  four,
  ledger_of,
  many_areas,
  one_process,
  upper,
};

/// Entries that fall; a slot at two frames and a frame of two slots; a frame that the machine has
/// not; one that stands in no list, in both, or though it is free; a write in flight of a slot that
/// isn't cached, or twice; a cached slot without a use.
pub fn changed_ledgers_are_unsound()
    ensures falling_entries { UnsoundOf
        (((1, 0x7fffffffe), InSlot (slot 1)) ∷ ((1, 0x7fffffffd), Zero) ∷ []) at_first_slot
        (slot 1 ∷ []) (0 ∷ []) }
    ensures slot_at_two_frames { UnsoundOf (upper (InSlot (slot 1)))
        (cached_at 1 0 false ∷ cached_at 1 1 false ∷ []) (slot 1 ∷ []) (0 ∷ 1 ∷ []) }
    ensures frame_of_two_slots { UnsoundOf (upper (InSlot (slot 1)))
        (cached_at 1 0 false ∷ cached_at 2 0 false ∷ []) (slot 1 ∷ slot 2 ∷ []) (0 ∷ []) }
    ensures no_such_frame { UnsoundOf (upper (InSlot (slot 1))) (cached_at 1 4 false ∷ [])
        (slot 1 ∷ []) (4 ∷ []) }
    ensures not_listed { UnsoundOf (upper (InSlot (slot 1))) at_first_slot (slot 1 ∷ []) [] }
    ensures in_both_lists { Unsound four one_process (record
        (ledger_of (upper (InSlot (slot 1))) at_first_slot (slot 1 ∷ []) (0 ∷ [])) {
          active = 0 ∷ [];
        }) }
    ensures free_but_listed { UnsoundOf (upper (InSlot (slot 1))) at_first_slot (slot 1 ∷ [])
        (0 ∷ 1 ∷ []) }
    ensures in_flight_uncached { UnsoundOf (upper (InSlot (slot 1))) at_first_slot
        (slot 1 ∷ slot 2 ∷ []) (0 ∷ []) }
    ensures in_flight_twice { UnsoundOf (upper (InSlot (slot 1))) at_first_slot
        (slot 1 ∷ slot 1 ∷ []) (0 ∷ []) }
    ensures left_over { UnsoundOf [] at_first_slot [] (0 ∷ []) }
{}

/// A process has two entries of one frame, of a frame and of its slot, or of one slot.
pub fn entries_of_one_memory_are_unsound()
    ensures frame_twice { UnsoundOf (both (InFrame 0 true) (InFrame 0 false)) [] [] (0 ∷ []) }
    ensures frame_and_its_slot { UnsoundOf (both (InFrame 0 true) (InSlot (slot 1))) at_first_slot
        [] (0 ∷ []) }
    ensures slot_and_its_frame { UnsoundOf (both (InSlot (slot 1)) (InFrame 0 true)) at_first_slot
        [] (0 ∷ []) }
    ensures slot_twice { UnsoundAt (both (InSlot (slot 1)) (InSlot (slot 1))) }
{}

/// An entry without a page or without a process; a slot of an area that is off, at the header's
/// page, behind the area, or bad; more slots in use than there are; an area that is on and not
/// attached; areas or processes that fall; too many processes.
pub fn changed_memories_are_unsound()
    ensures unmapped { UnsoundAt (((1, 0x10), Zero) ∷ []) }
    ensures of_nobody { UnsoundAt (((2, 0x7fffffffe), Zero) ∷ []) }
    ensures area_off { Unsound four one_process
        (record (ledger_of (upper (InSlot (slot 1))) [] [] []) { on = [] }) }
    ensures header_page { UnsoundAt (upper (InSlot (slot 0))) }
    ensures behind_area { UnsoundAt (upper (InSlot (slot 8))) }
    ensures bad_slot { Unsound bad_first one_process
        (ledger_of (upper (InSlot (slot 1))) [] [] []) }
    ensures too_few_slots { Unsound four one_process
        (record (ledger_of (upper (InSlot (slot 1))) [] [] []) { on = one_area 0 0 }) }
    ensures unattached { Unsound four one_process
        (record first_ledger { on = (1, swap_area 7 0) ∷ [] }) }
    ensures falling_areas { Unsound many_areas one_process
        (record first_ledger { on = (1, swap_area 7 0) ∷ (0, swap_area 7 0) ∷ [] }) }
    ensures falling_processes { Unsound four
        ((2, two_bytes 0 0) ∷ (1, two_bytes 0 0) ∷ []) first_ledger }
    ensures too_many_processes { Unsound (machine 4) (crowd 4097) first_ledger }
{}
