//! Laws of what an audit finds.

ghost use Rattle.std.specs.Prelude.{◌≡◌, ◌<◌, ℕ, List, Some, length};
ghost use Rattle.av_ports.specs.Ports.{PortsView};
ghost use Rattle.av_trace.specs.declared.command.Command.{Command};
ghost use Rattle.av_plain.specs.Ledger.{Setting};
ghost use Rattle.av_audit_input.specs.Unit.{units_of};
ghost use Rattle.av_audit_input.specs.declared.input_err.InputErr.{InputErr};
ghost use Rattle.av_audit_run.specs.Transcript.{AreLegal, Audits, BreaksOff, IsAuditOf, IsWrong};
ghost use Rattle.av_audit_run.specs.Transcript.{StopsAt};
ghost use Rattle.av_audit_run.specs.declared.transcript.Finding.{Finding};

/// Units that are legal for the commands, one for each, have no first one that is wrong: none that
/// isn't legal, is wanting or comes behind the last command. So an audit that ends with the one
/// could not have ended with the other.
pub fn legal_or_stopped()
    ensures { (m : Setting) (commands : List Command) (units : List (List ℕ)) (number : ℕ)
        → AreLegal m commands units → StopsAt m commands units number IsWrong → ⊥ }
{}

/// Units that are wrong are so from one number on: so the reply that is named is the first.
pub fn stopped_once()
    ensures { (m : Setting) (commands : List Command) (units : List (List ℕ)) (number other : ℕ)
        → StopsAt m commands units number IsWrong → StopsAt m commands units other IsWrong
        → number ≡ other }
{}

/// An audit that breaks off behind the trace has passed over no unit that is wrong: it took fewer
/// units than up to the first, and of one more a part or all, which it didn't judge.
pub fn breaks_come_before_what_is_wrong()
    ensures { (error : InputErr) (m : Setting) (commands : List Command) (content rest : List ℕ)
        (new : PortsView) (number : ℕ) → (h : BreaksOff error m commands (Some content) rest new)
        → StopsAt m commands (units_of content) number IsWrong → length h.units < number }
{}

/// What an audit finds is so of all units of the transcript, where the source tells what it has
/// left: that is a trace, up to its mark or the end, and behind it the transcript.
pub fn audits_of_inputs()
    ensures { (finding : Finding) (m : Setting) (old new : PortsView) (content : List ℕ)
        → Audits finding m old new → old.source.left ≡ Some content
        → IsAuditOf finding m content }
{}
