//! Worked examples with several of a kind that differ: frames in lists, swap areas, pages of a
//! device.

ghost use Rattle.std.specs.Prelude.{◌≡◌, [], ◌∷◌, true, false, None, Some};
ghost use Rattle.av_trace.specs.declared.note.Note.TheVariants.{Kept, New};
ghost use Rattle.av_trace.specs.declared.note.Cause.TheVariants.{NoSlot, Referenced, WriteStarted};
ghost use Rattle.av_plain.specs.Device.{IsSameDevice, headers_of, no_device};
ghost use Rattle.av_plain.specs.Event.{after_note};
ghost use Rattle.av_plain.specs.Ledger.{InFrame, Zero, first_ledger, is_full};
ghost use Rattle.av_plain.specs.Report.{totals};
ghost use Rattle.av_plain.specs.Stands.{HoldsTold, IsClean, IsKept, IsKeptAt};
ghost use Rattle.av_laws.specs.Examples.{cached_out, page_with, paged_out, slot};
ghost use Rattle.av_laws.specs.Pairs.{with_frames};
ghost use Rattle.av_laws.specs.Several.{
  HoldWith,
  after_writing,
  attached_again,
  told_header,
  one_free,
  seven_at,
  two_told,
  two_untold,
  with_lists,
  with_other_page_0,
};
ghost use Rattle.av_laws.specs.Slots.{lower_in_use, slot_at, two_swaps};
ghost use Rattle.av_laws.specs.Views.{cached_view, right, swap_device};

/// A frame that was referenced, or has no slot to go to, goes to the head of active; one whose
/// write started, or that is new, to the head of inactive.
pub fn frames_go_to_the_head()
    ensures to_active_head { after_note (Kept 5 Referenced) (with_lists (7 ∷ 8 ∷ []) (5 ∷ 6 ∷ []))
        ≡ with_lists (5 ∷ 7 ∷ 8 ∷ []) (6 ∷ []) }
    ensures started_to_head { after_note (Kept 6 WriteStarted)
        (with_lists (7 ∷ 8 ∷ []) (5 ∷ 6 ∷ []))
        ≡ with_lists (7 ∷ 8 ∷ []) (6 ∷ 5 ∷ []) }
    ensures new_to_head { after_note (New 1 0x10000 6) (with_frames [] (5 ∷ []))
        ≡ with_frames (((1, 0x10), InFrame 6 false) ∷ []) (6 ∷ 5 ∷ []) }
    ensures stuck_to_active_head { after_note (Kept 6 NoSlot)
        (with_lists (7 ∷ 8 ∷ []) (5 ∷ 6 ∷ []))
        ≡ with_lists (6 ∷ 7 ∷ 8 ∷ []) (5 ∷ []) }
{}

/// All areas that are on count, and not the first one alone.
pub fn all_areas_count()
    ensures not_full { is_full two_swaps (lower_in_use 2) ≡ false }
    ensures full { is_full two_untold one_free ≡ true }
    ensures all_slots { (totals two_swaps [] (lower_in_use 2)).slots ≡ 9 }
    ensures all_free_slots { (totals two_swaps [] (lower_in_use 2)).free_slots ≡ 7 }
{}

/// The device doesn't hold a page at another slot than its own; and so where its frame is cached
/// and clean. Where a frame caches the slot, that has to hold it. Without an entry, or with the
/// zero page, it is zeros.
pub fn pages_are_at_their_own_slots()
    ensures page_at_next_slot { HoldWith 2 (paged_out 7 []) → ⊥ }
    ensures clean_at_next_slot { HoldWith 2 (cached_out false false) → ⊥ }
    ensures cached { IsKeptAt right (swap_device 7) (slot 1) (Some (page_with 7)) (Some 1) → ⊥ }
    ensures no_entry { IsKept right no_device first_ledger None (Some (page_with 7)) → ⊥ }
    ensures zero_page { IsKept right no_device first_ledger (Some Zero) (Some (page_with 7)) → ⊥ }
{}

/// An area has the header on its own page 0, by its own number of pages. A page at one of its slots
/// isn't held by another area's page of that number, nor is its frame clean by that.
pub fn areas_have_pages_of_their_own()
    ensures page_of_other_area { HoldsTold (Some (page_with 7)) two_told (slot_at 1 1) → ⊥ }
    ensures clean_by_other_area { IsClean (cached_view false false) two_told (slot_at 1 1) (Some 0)
        → ⊥ }
    ensures second_header { told_header 1 two_told
        ≡ Some (record { pages = 8; slots = 7; bad = [] }) }
{}

/// A device that has other bytes at its slots is still the same one, and so where these were to be
/// written. It isn't where a byte of page 0 is another, though its header says the same, nor where
/// page 0 was to be written; where an area has another size, or was to be attached again; or where
/// its count of failures fell.
pub fn devices_stay_the_same()
    ensures other_slots { IsSameDevice (seven_at 1) (seven_at 2) }
    ensures other_page_0 { IsSameDevice (swap_device 9) with_other_page_0 → ⊥ }
    ensures same_header { headers_of with_other_page_0 ≡ headers_of (swap_device 9) }
    ensures slot_written { IsSameDevice (swap_device 9) (after_writing 2) }
    ensures header_written { IsSameDevice (swap_device 9) (after_writing 0) → ⊥ }
    ensures attached_again { IsSameDevice (swap_device 9) attached_again → ⊥ }
    ensures other_sizes { IsSameDevice (swap_device 9)
        (record (swap_device 9) { sizes = λ k. None }) → ⊥ }
    ensures fewer_failures { IsSameDevice
        (record (swap_device 9) { failures = 1 }) (swap_device 9) → ⊥ }
{}
