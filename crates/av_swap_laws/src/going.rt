//! How a page goes out: its frame is put at a slot and unmapped, the write begins and ends, and the
//! slot is dropped. On the way a frame may be kept, or age.

ghost use Rattle.std.specs.Prelude.{◌≡◌, ◌<◌, ℕ, true, List, Option, Some, slice_index};
ghost use Rattle.av_base.specs.Page.{page_size};
ghost use Rattle.av_base.specs.declared.slot.Slot.{Slot};
ghost use Rattle.av_swapdev.specs.Device.{IsWritten};
ghost use Rattle.av_trace.specs.declared.note.Cause.{Cause};
ghost use Rattle.av_trace.specs.declared.note.Note.TheVariants.{Aged, Dropped, Failed, Kept, Put};
ghost use Rattle.av_trace.specs.declared.note.Note.TheVariants.{Started, Unmapped, Written};
ghost use Rattle.av_plain.specs.Choice.{AreaSlots, IsGiven};
ghost use Rattle.av_plain.specs.Device.{Device};
ghost use Rattle.av_plain.specs.Event.{Noted, after_note};
ghost use Rattle.av_plain.specs.Ledger.{Setting, frame_at, slot_of};
ghost use Rattle.av_plain.specs.Sound.{is_there};
ghost use Rattle.av_swap_laws.specs.Held.{Held, IsHeld, Steps};
ghost use Rattle.av_swap_laws.specs.May.{AreOnce, MayLeave, MayGoOut};
ghost use Rattle.av_swap_laws.specs.Steps.{view_done, view_drop, view_fail, view_keep, view_put};
ghost use Rattle.av_swap_laws.specs.Steps.{view_start, view_to_head, view_unmap, view_unseen};

/// A frame is cached at a slot that is given.
pub fn frames_are_put()
    ensures { (m : Setting) (closing : Option ℕ) (old : Held) → IsHeld m old → (f : ℕ) (s : Slot)
        (left : AreaSlots) → MayGoOut old.ledger f s
        → IsGiven m closing old.ledger s old.view.slots left
        → Steps m closing (Noted (Put f s)) old (record old {
          view = view_put f s left old.view;
          ledger = after_note (Put f s) old.ledger;
        }) }
{}

/// Every entry of a cached frame names its slot then.
pub fn frames_are_unmapped()
    ensures { (m : Setting) (closing : Option ℕ) (old : Held) → IsHeld m old → (f : ℕ) (s : Slot)
        → AreOnce old.ledger → slot_of old.ledger f ≡ Some s
        → Steps m closing (Noted (Unmapped f)) old (record old {
          view = view_unmap f s old.view;
          ledger = after_note (Unmapped f) old.ledger;
        }) }
{}

/// A write of a cached slot begins.
pub fn writes_begin()
    ensures { (m : Setting) (closing : Option ℕ) (old : Held) → IsHeld m old → (f : ℕ) (s : Slot)
        → AreOnce old.ledger → frame_at old.ledger s ≡ Some f
        → Steps m closing (Noted (Started s)) old (record old {
          view = view_start f s old.view;
          ledger = after_note (Started s) old.ledger;
        }) }
{}

/// It ends well: the device has the bytes there that the frame has at that time.
pub fn writes_end_well()
    ensures { (m : Setting) (closing : Option ℕ) (old : Held) → IsHeld m old → (f : ℕ) (s : Slot)
        → AreOnce old.ledger → frame_at old.ledger s ≡ Some f → (d : Device) (bytes : List ℕ)
        → IsWritten s.area s.page bytes old.device.pages d.pages
        → ((i : ℕ) → i < page_size → slice_index bytes i ≡ old.view.bytes f i)
        → Steps m closing (Noted (Written s)) old (record old {
          view = view_done f s old.view;
          device = d;
          ledger = after_note (Written s) old.ledger;
        }) }
{}

/// Or it fails, whatever the device has there then.
pub fn writes_fail()
    ensures { (m : Setting) (closing : Option ℕ) (old : Held) → IsHeld m old → (f : ℕ) (s : Slot)
        → AreOnce old.ledger → frame_at old.ledger s ≡ Some f → (d : Device) (bytes : List ℕ)
        → IsWritten s.area s.page bytes old.device.pages d.pages
        → Steps m closing (Noted (Failed s)) old (record old {
          view = view_fail f s old.view;
          device = d;
          ledger = after_note (Failed s) old.ledger;
        }) }
{}

/// A slot is cached no longer: its frame comes free if no entry names it, and so does the slot.
pub fn slots_are_dropped()
    ensures { (m : Setting) (closing : Option ℕ) (old : Held) → IsHeld m old → (f : ℕ) (s : Slot)
        → AreOnce old.ledger → frame_at old.ledger s ≡ Some f → f < m.frames
        → is_there m old.ledger s ≡ true → MayLeave old.ledger s
        → Steps m closing (Noted (Dropped s)) old (record old {
          view = view_drop f s old.view;
          ledger = after_note (Dropped s) old.ledger;
        }) }
{}

/// A frame is kept, for each cause.
pub fn frames_are_kept()
    ensures { (m : Setting) (closing : Option ℕ) (old : Held) → IsHeld m old → (f : ℕ)
        (cause : Cause)
        → Steps m closing (Noted (Kept f cause)) old (record old {
          view = view_keep f cause old.view;
          ledger = after_note (Kept f cause) old.ledger;
        }) }
{}

/// A frame ages.
pub fn frames_age()
    ensures { (m : Setting) (closing : Option ℕ) (old : Held) → IsHeld m old → (f : ℕ)
        → Steps m closing (Noted (Aged f)) old (record old {
          view = view_to_head f (view_unseen f old.view);
          ledger = after_note (Aged f) old.ledger;
        }) }
{}
