//! Views of a kernel that don't stand for a state.

ghost use Rattle.std.specs.Prelude.{[], ◌∷◌, true, false, None};
ghost use Rattle.av_plain.specs.Device.{no_device};
ghost use Rattle.av_plain.specs.Stands.{Stands};
ghost use Rattle.av_plain.specs.Transcript.{at_first};
ghost use Rattle.av_laws.specs.Areas.{family};
ghost use Rattle.av_laws.specs.Examples.{machine, with_slots};
ghost use Rattle.av_clusters.specs.Clusters.{fresh};
ghost use Rattle.av_laws.specs.Views.{
  NotCovered,
  NotFirst,
  NotFor,
  NotFree,
  NotGiven,
  NotKin,
  NotMarked,
  NotMerged,
  NotOff,
  NotReached,
  NotWritable,
  Refused,
  area,
  cached_state,
  cached_view,
  fewer_slots,
  first_view,
  homes_with,
  items_with,
  merged_view,
  one_anon,
  right,
  swap_device,
  topmost,
  untold_device,
  view_with,
  with_fewer_slots,
};

/// After a fork, a view stands for the state only where it has the bytes of the shared frame, no
/// write bit over it, all entries and counts, the free frames in their order, each of them once, no
/// slots, no other active frames, and the areas of each process that lives: apart, over its pages
/// alone, its own, and with their offsets and flags.
///
/// Before the first command, a view stands for the first state, but not where it has another number
/// of frames, or one of them inactive; nor does it over a device with other sizes, or with headers
/// that aren't told where they were.
pub fn changed_views_do_not_stand()
    ensures first { Stands (machine 4) (first_view 4 []) no_device (at_first (machine 4)) }
    ensures more_frames { NotFirst no_device (first_view 5 []) no_device }
    ensures made_inactive { NotFirst no_device (first_view 4 (0 ∷ [])) no_device }
    ensures other_sizes { NotFirst (untold_device 8) (first_view 4 []) (untold_device 9) }
    ensures other_headers { NotFirst (swap_device 7) (first_view 4 []) (untold_device 8) }
    ensures other_byte { Refused (record right { bytes = λ f i. 0 }) }
    ensures write_bit { Refused (view_with (λ p. topmost p ∷ []) true) }
    ensures no_entry { Refused (record right { table = λ p page. None }) }
    ensures other_count { Refused (record right { maps = λ f. 1 }) }
    ensures other_order { Refused (record right { free = 2 ∷ 1 ∷ 3 ∷ [] }) }
    ensures free_twice { NotFree (1 ∷ 2 ∷ 3 ∷ 3 ∷ []) }
    ensures free_left_out { NotFree (1 ∷ 3 ∷ []) }
    ensures free_in_use { NotFree (0 ∷ 1 ∷ 2 ∷ 3 ∷ []) }
    ensures no_such_frame { NotFree (1 ∷ 2 ∷ 3 ∷ 4 ∷ []) }
    ensures slots_of_none { Refused (record right { slots = λ k. fresh 8 [] }) }
    ensures made_active { Refused (record right { active = 0 ∷ [] }) }
    ensures area_too_long { Refused (view_with (λ p. area 0x7fffffffd 0x7ffffffff p ∷ []) false) }
    ensures area_twice { Refused (view_with (λ p. topmost p ∷ topmost p ∷ []) false) }
    ensures area_of_another { Refused (view_with (λ p. topmost 1 ∷ []) false) }
    ensures other_offset { Refused
        (view_with (λ p. record (topmost p) { pgoff = 0 } ∷ []) false) }
    ensures other_flags { NotMarked }
    ensures areas_of_nobody { Refused (record right { areas = λ p. Some (topmost p ∷ []) }) }
    ensures too_few_processes { Refused (record right { processes = 1 }) }
{}

/// A view stands for the state only where it has the home of each frame, and each entry of the
/// frame, or of the slot that the frame caches, is reached from that.
pub fn unreached_entries_do_not_stand()
    ensures other_home { Refused (record right { homes = homes_with 1 0x7fffffffe }) }
    ensures no_home { NotReached }
    ensures no_home_of_slot { NotCovered }
{}

/// Where areas have an anon_vma, a view stands for the state only where it has as many made, the
/// same ones, each with its root, and the chain that the areas have.
pub fn changed_anon_vmas_do_not_stand()
    ensures other_next { NotKin
        (record (one_anon 0 (0 ∷ [])) { next = 2 }) (one_anon 0 (0 ∷ [])) }
    ensures one_too_many { NotKin family (record (one_anon 0 (0 ∷ [])) { next = 2 }) }
    ensures other_root { NotKin (one_anon 1 (0 ∷ [])) (one_anon 0 (0 ∷ [])) }
    ensures other_chain { NotKin (one_anon 0 (0 ∷ 1 ∷ [])) (one_anon 0 (0 ∷ [])) }
{}

/// A view of a cached page doesn't stand where the device has other bytes than a clean page; where
/// its frame isn't dirty though stale, or has no slot; where the slot isn't found, isn't named,
/// isn't in flight or was given back, also where the state has it so, or where another is given;
/// where an area that is off has pages left, though all are bad; or where an area is on with other
/// numbers than those of its header.
pub fn changed_cached_views_do_not_stand()
    ensures not_written { NotFor (cached_view false false) 9 (cached_state false false) }
    ensures not_dirty { NotFor (record (cached_view false true) { dirty = λ f. false }) 9
        (cached_state false true) }
    ensures no_slot { NotFor (record (cached_view false false) { slot = λ f. None }) 7
        (cached_state false false) }
    ensures not_found { NotFor (record (cached_view false false) { find = λ s. None }) 7
        (cached_state false false) }
    ensures not_named { NotFor (record (cached_view false false) { entries = λ s. 0 }) 7
        (cached_state false false) }
    ensures not_flying { NotFor (record (cached_view true false) { flight = [] }) 9
        (cached_state true false) }
    ensures given_back { NotFor
        (record (cached_view false false) { slots = (with_slots 8 [] 0 []).slots }) 7
        (cached_state false false) }
    ensures none_given { NotGiven 0 }
    ensures another_given { NotGiven 2 }
    ensures left_over { NotOff (fresh 4 (1 ∷ 2 ∷ 3 ∷ [])) }
    ensures other_area { NotFor (record (cached_view false false) { on = fewer_slots }) 7
        (cached_state false false) }
    ensures other_header { NotFor
        (record (cached_view false false) {
          on = fewer_slots;
          slots = (with_slots 7 [] 1 []).slots;
        }) 7
        with_fewer_slots }
{}

/// Where the frame is merged, a view stands for the state only where it has the frame's items, and
/// no home and no write bit for it, also where one entry alone names it. One that isn't merged has
/// no items.
pub fn changed_views_of_merged_frames_do_not_stand()
    ensures other_items { NotMerged (record merged_view { items = items_with 1 0x7fffffffe }) }
    ensures home_beside { NotMerged (record merged_view { homes = homes_with 0 0x7fffffffe }) }
    ensures written_in_place { NotWritable }
    ensures items_of_another { Refused (record right { items = items_with 0 0x7fffffffe }) }
{}
