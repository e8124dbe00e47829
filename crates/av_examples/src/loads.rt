//! Worked examples for what is claimed over a device that doesn't tell its pages.

ghost use Rattle.std.specs.Prelude.{[], ◌∷◌, Some};
ghost use Rattle.av_trace.specs.declared.note.Note.TheVariants.{
  Failed,
  Mapped,
  Put,
  Started,
  Unmapped,
  Written,
};
ghost use Rattle.av_plain.specs.Event.{Noted};
ghost use Rattle.av_laws.specs.Examples.{one_written, slot, untold};
ghost use Rattle.av_laws.specs.Pairs.{ClaimsAfter};

/// What a page holds is claimed as long as a frame caches it, though it was unmapped, and written
/// well or not.
pub fn cached_pages_are_claimed()
    ensures failed { ClaimsAfter untold one_written
        (Noted (Put 0 (slot 1)) ∷ Noted (Unmapped 0) ∷ Noted (Started (slot 1))
        ∷ Noted (Failed (slot 1)) ∷ Noted (Mapped 1 0x7fffffffd000 0) ∷ [])
        0x7fffffffd000 (Some 5) }
    ensures written { ClaimsAfter untold one_written
        (Noted (Put 0 (slot 1)) ∷ Noted (Unmapped 0) ∷ Noted (Started (slot 1))
        ∷ Noted (Written (slot 1)) ∷ Noted (Mapped 1 0x7fffffffd000 0) ∷ [])
        0x7fffffffd000 (Some 5) }
{}
