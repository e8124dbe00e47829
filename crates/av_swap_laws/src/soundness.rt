//! What is sound stays so after each note, and few entries name a frame and its slot.

ghost use Rattle.std.specs.Prelude.{◌≡◌, ◌+◌, length, if◌then◌else◌, ◌≤◌, ◌<◌, ℕ, Some, None};
ghost use Rattle.av_base.specs.Page.{page_of};
ghost use Rattle.av_base.specs.declared.slot.Slot.{Slot};
ghost use Rattle.av_trace.specs.declared.note.Cause.{Cause};
ghost use Rattle.av_trace.specs.declared.note.Note.TheVariants.{Aged, Dropped, Kept, Loaded};
ghost use Rattle.av_trace.specs.declared.note.Note.TheVariants.{Mapped, Put, Started, Unmapped};
ghost use Rattle.av_plain.specs.Event.{after_note};
ghost use Rattle.av_plain.specs.Ledger.{InSlot, Ledger, Setting, entry, frame_at, map_count};
ghost use Rattle.av_plain.specs.Ledger.{same_slot, slot_entries, slot_of};
ghost use Rattle.av_plain.specs.Sound.{AtPages, IsSoundBut, flights, uses};
ghost use Rattle.av_plain.specs.World.{World};
ghost use Rattle.av_swap_laws.specs.May.{MayComeIn, MayGoOut};

/// A sound ledger is so after each note, but for a slot that is excused until its drop. (That it is
/// after a write ends, with that slot excused, and what takes the excuse away, are laws of the
/// definitions.)
pub fn soundness_goes_on()
    ensures { (m : Setting) (excuse : Slot → ℕ) (l : Ledger) → IsSoundBut m excuse l
        → ((f : ℕ) (s : Slot) → MayGoOut l f s → slot_of l f ≡ None
        → IsSoundBut m excuse (after_note (Put f s) l))
        × ((f : ℕ) (s : Slot) → slot_of l f ≡ Some s
        → IsSoundBut m excuse (after_note (Unmapped f) l))
        × ((f : ℕ) (s : Slot) → frame_at l s ≡ Some f → flights l s ≡ 0
        → IsSoundBut m excuse (after_note (Started s) l))
        × ((s : Slot) → flights l s ≡ 0
        → IsSoundBut m (λ t. if same_slot t s then 0 else excuse t) (after_note (Dropped s) l))
        × ((f : ℕ) (s : Slot) → MayComeIn l f s → 0 < slot_entries l s → f < m.frames
        → IsSoundBut m excuse (after_note (Loaded s f) l))
        × ((p a f : ℕ) (s : Slot) → entry l (p, page_of a) ≡ Some (InSlot s)
        → frame_at l s ≡ Some f → IsSoundBut m excuse (after_note (Mapped p a f) l))
        × ((f : ℕ) (cause : Cause) → 0 < uses l f
        → IsSoundBut m excuse (after_note (Kept f cause) l))
        × ((f : ℕ) → 0 < uses l f → IsSoundBut m excuse (after_note (Aged f) l)) }
{}

/// No more entries name a cached frame and its slot together than processes live, so that counts
/// have room while a frame is unmapped.
pub fn names_are_few()
    ensures { (m : Setting) (excuse : Slot → ℕ) (w : World) (l : Ledger) (f : ℕ) (s : Slot)
        → IsSoundBut m excuse l → AtPages w l → slot_of l f ≡ Some s
        → map_count l f + slot_entries l s ≤ length w }
{}
