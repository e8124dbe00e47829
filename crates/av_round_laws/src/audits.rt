//! Worked examples of what an audit reads and writes. Each stands for a wrong version of a
//! definition, which breaks it.

ghost use Rattle.std.specs.Prelude.{◌≡◌, [], ◌∷◌, codes};
ghost use Rattle.av_audit_input.specs.Trace.{mark};
ghost use Rattle.av_audit_input.specs.Unit.{most_bytes};
ghost use Rattle.av_audit_run.specs.Transcript.{IsFinding};
ghost use Rattle.av_audit_run.specs.declared.transcript.Finding.TheVariants.{Illegal};
ghost use Rattle.av_laws.specs.Examples.{machine};
ghost use Rattle.av_replay.specs.Audit.{legal_text};

/// The mark behind a trace, the most bytes of a transcript, and what is written of one that is
/// legal. The first reply has the number 1: behind no command none is legal.
pub fn audits_have_words_and_numbers()
    ensures mark { mark ≡ codes "%%" }
    ensures most_bytes { most_bytes ≡ 4294967296 }
    ensures legal { legal_text ≡ codes "legal\n" }
    ensures first_reply { IsFinding (Illegal 1) (machine 4) [] (codes "ok\n" ∷ []) }
{}
