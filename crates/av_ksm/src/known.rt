//! What a merge has to know of what frames hold, and that it says what a candidate joins.

ghost use Rattle.std.specs.List.{range_with_len};
ghost use Rattle.std.specs.Prelude.{ℕ, Bool, List, [], ◌∷◌, None, filter, map};
ghost use Rattle.av_base.specs.Keys.{Key};
ghost use Rattle.av_plain.specs.Ledger.{Ledger, Setting, is_merged};
ghost use Rattle.av_plain.specs.Merge.{FrameBytes};
ghost use Rattle.av_ksm.specs.Join.{HasOwn};
ghost use Rattle.av_ksm.specs.Known.{Known, Knows, TakesTurn, first_like, known_at_first};

/// Before the first page the merged frames are all that is to be known, the least first.
pub fn merged_frames_are_known_at_first()
    ensures { (m : Setting) (held : FrameBytes) (l : Ledger)
        → Knows m held l [] (known_at_first m l) }
{}

/// The first known frame that holds the same as a candidate's says whether and what the candidate
/// joins. After these notes all is known that is to be known for the next page: the candidate's
/// own frame is one more only where none was known.
pub fn candidates_take_their_turn()
    ensures { (m : Setting) (held : FrameBytes) (l : Ledger) (earlier : List ℕ)
        (known : List Known) → Knows m held l earlier known → (k : Key) (f : ℕ) (seen : Bool)
        → HasOwn l k f seen → TakesTurn m held l earlier known k f (first_like held known f) }
{}
