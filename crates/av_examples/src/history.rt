//! Worked examples for the history of a device: which pages it was asked to write, and in which
//! order.

ghost use Rattle.std.specs.Prelude.{◌≡◌, [], ◌∷◌};
ghost use Rattle.av_trace.specs.declared.note.Note.TheVariants.{Dropped, Failed, Written};
ghost use Rattle.av_plain.specs.Device.{Wrote};
ghost use Rattle.av_plain.specs.Pass.{pages_written};
ghost use Rattle.av_laws.specs.Examples.{slot};
ghost use Rattle.av_examples.specs.History.{third_page, three_pages};

/// Of notes each `done` and each `fail` tells of a page that was to be written, in order. Such a
/// page stands behind those before it, and none is forgotten.
pub fn histories_grow()
    ensures well_and_not { pages_written
        (Written (slot 1) ∷ Dropped (slot 1) ∷ Failed (slot 2) ∷ Written (slot 3) ∷ [])
        ≡ slot 1 ∷ slot 2 ∷ slot 3 ∷ [] }
    ensures in_order { three_pages.written ≡ slot 3 ∷ slot 1 ∷ slot 2 ∷ [] }
    ensures behind_another { Wrote (slot 1 ∷ slot 2 ∷ []) third_page three_pages }
{}
