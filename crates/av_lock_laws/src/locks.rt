//! What completion, a pass and a reclaim leave as it was.

ghost use Rattle.std.specs.Prelude.{◌≡◌, ℕ, Bool, List};
ghost use Rattle.av_base.specs.Keys.{Key};
ghost use Rattle.av_base.specs.declared.slot.Slot.{Slot};
ghost use Rattle.av_trace.specs.declared.note.Note.{Note};
ghost use Rattle.av_plain.specs.Event.{after_notes};
ghost use Rattle.av_plain.specs.Ledger.{Ledger, Setting};
ghost use Rattle.av_plain.specs.Pass.{Completes, IsPass, Spared};
ghost use Rattle.av_plain.specs.Reclaim.{Outcomes};
ghost use Rattle.av_lock_laws.specs.Locks.{has_page};

/// Where writes end, the frames of some pages stay the frames of these pages.
pub fn frames_stay_over_completions()
    ensures { (test : Key → Bool) (l : Ledger) (slots : List Slot) (notes : List Note)
        → Completes l slots notes → has_page test (after_notes l notes) ≡ has_page test l }
{}

/// So they do over a direct pass that spares them.
pub fn frames_stay_over_passes()
    ensures { (test : Key → Bool) (m : Setting) (spared : Spared) (l : Ledger)
        (notes : List Note) → spared.locked ≡ has_page test l → IsPass m spared l notes
        → has_page test (after_notes l notes) ≡ has_page test l }
{}

/// And over a reclaim of any frames that spares them.
pub fn frames_stay_over_reclaims()
    ensures { (test : Key → Bool) (m : Setting) (spared : Spared) (l : Ledger)
        (frames : List ℕ) (notes : List Note) → spared.locked ≡ has_page test l
        → Outcomes m spared l frames notes
        → has_page test (after_notes l notes) ≡ has_page test l }
{}
