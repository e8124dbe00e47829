//! Worked examples for frames that age, are shared, are joined and move.

ghost use Rattle.std.specs.Prelude.{◌≡◌, [], ◌∷◌, false, true, Some};
ghost use Rattle.av_trace.specs.declared.command.Command.TheVariants.{Age};
ghost use Rattle.av_trace.specs.declared.note.Note.TheVariants.{Aged, Joined, Moved, Shared};
ghost use Rattle.av_trace.specs.declared.reply.Answer.TheVariants.{Done};
ghost use Rattle.av_plain.specs.Event.{Noted, after_note};
ghost use Rattle.av_plain.specs.Ledger.{InFrame, entry};
ghost use Rattle.av_plain.specs.Step.{IsLegal};
ghost use Rattle.av_laws.specs.Examples.{machine, reply_with};
ghost use Rattle.av_laws.specs.Frames.{mergeable_pages, one_merged, three_pages};
ghost use Rattle.av_examples.specs.Frames.{
  all_pages_locked,
  cached_in,
  first_shared,
  merged_at_0,
};

/// An `age` takes merged frames, and those of locked pages, as others; and then their entries are
/// unseen.
pub fn all_frames_age()
    ensures merged { IsLegal (machine 4) mergeable_pages one_merged (Age 1)
        (reply_with Done (Aged 3 ∷ []))
        (Noted (Aged 3) ∷ []) }
    ensures locked { IsLegal (machine 4) all_pages_locked one_merged (Age 1)
        (reply_with Done (Aged 3 ∷ []))
        (Noted (Aged 3) ∷ []) }
    ensures unseen { entry (after_note (Aged 3) one_merged) (1, 0x10) ≡ Some (InFrame 3 false) }
{}

/// A frame that is shared stays where it is in its list, with its seen bits, and so does one that
/// a page joins.
pub fn shared_frames_stay_in_place()
    ensures shared { after_note (Shared 2) three_pages ≡ first_shared }
    ensures joined { (after_note (Joined 2 0x10000 3) one_merged).active ≡ 3 ∷ [] }
{}

/// A frame that moves keeps the seen bits of its entries; a cached one is stale then as before.
pub fn moved_frames_stay_as_they_were()
    ensures seen { after_note (Moved 3 0) one_merged ≡ merged_at_0 }
    ensures stale { after_note (Moved 5 0) (cached_in 5 true) ≡ cached_in 0 true }
    ensures clean { after_note (Moved 5 0) (cached_in 5 false) ≡ cached_in 0 false }
{}
