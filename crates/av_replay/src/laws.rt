//! Laws of the headline.

ghost use Rattle.std.specs.Prelude.{◌≡◌, ℕ, List, [], ◌∷◌, ◌++◌, Option, Some};
ghost use Rattle.av_kernel.specs.Machine.{Machine};
ghost use Rattle.av_trace.specs.declared.command.Command.{Command};
ghost use Rattle.av_plain.specs.Ledger.{Setting};
ghost use Rattle.av_ports.specs.Ports.{PortsView};
ghost use Rattle.av_audit_input.specs.Trace.{IsTrace, all_lines, mark};
ghost use Rattle.av_replay.specs.Audit.{EndsAudit, IsJudged};
ghost use Rattle.av_replay.specs.Replay.{DoesTrace, Headline};
ghost use Rattle.av_replay.specs.Trace.{EndsAtBadLine, EndsAtMostLines, EndsAtRead};
ghost use Rattle.av_replay.specs.Trace.{EndsWithinReply, IsComplete, WritesTranscript, lines_of};
ghost use Rattle.av_replay.specs.declared.status.Status.{Status};

/// What `run` says of a trace: one of at most 2^24 good lines, of a source that tells what is left,
/// is done, or memory runs out, where neither source nor sink fails.
pub fn good_traces_are_done()
    ensures { (n : ℕ) (status : Status) (old new : PortsView) (kernel : Option Machine)
        → Headline n status old new kernel → IsComplete status old new }
{}

/// A run that is done has written the text of a legal run of the trace's lines, and nothing else,
/// where the source tells what it has left and the sink what it holds.
pub fn done_runs_write_their_transcript()
    ensures { (n : ℕ) (old new : PortsView) (kernel : Option Machine) (content before : List ℕ)
        → Headline n Status.Done old new kernel
        → old.source.left ≡ Some content → old.sink.held ≡ Some before
        → WritesTranscript n old.device (lines_of content) before new.sink.held }
{}

/// A run that ends at a bad line has written, over such a source and sink, the text of a legal run
/// of the lines before it, and nothing else; and that line is the first that isn't good.
pub fn bad_lines_end_runs()
    ensures { (n number : ℕ) (old new : PortsView) (kernel : Option Machine)
        (content before : List ℕ) → Headline n (Status.BadLine number) old new kernel
        → old.source.left ≡ Some content → old.sink.held ≡ Some before
        → EndsAtBadLine n number old.device (lines_of content) before new.sink.held }
{}

/// A run that ends since the trace has too many lines has written, over such a source and sink, the
/// text of a legal run of the first 2^24 lines, and nothing else.
pub fn lines_are_done_up_to_the_most()
    ensures { (n : ℕ) (old new : PortsView) (kernel : Option Machine) (content before : List ℕ)
        → Headline n Status.TooMany old new kernel
        → old.source.left ≡ Some content → old.sink.held ≡ Some before
        → EndsAtMostLines n old.device (lines_of content) before new.sink.held }
{}

/// A run whose read failed has written, over such a source and sink, the text of a legal run of the
/// lines that were read to their newline, and nothing else, and keeps nothing of it back. Which
/// read fails no one knows before. So it was like that at each: a person at a terminal has the
/// reply to each whole line before the next is waited for.
pub fn replies_are_out_before_a_read()
    ensures { (n : ℕ) (old new : PortsView) (kernel : Option Machine) (content before : List ℕ)
        → DoesTrace n Status.ReadFault old new kernel
        → old.source.left ≡ Some content → old.sink.held ≡ Some before
        → EndsAtRead n old.device content new.source.left before new.sink.held
        new.sink.kept_back }
{}

/// A run whose write failed has written, over such a source and sink, the text of a legal run of
/// the lines that were done, but for the reply to the last of them, which is cut short.
pub fn failed_writes_cut_the_last_reply()
    ensures { (n : ℕ) (old new : PortsView) (kernel : Option Machine) (content before : List ℕ)
        → Headline n Status.WriteFault old new kernel
        → old.source.left ≡ Some content → old.sink.held ≡ Some before
        → EndsWithinReply n old.device (lines_of content) before new.sink.held }
{}

/// What `run` says of an audit: the transcript behind a good trace and its mark, of a source that
/// tells what is left, is judged, all of it, where neither source nor sink fails; or it is too
/// long, or memory runs out.
pub fn good_traces_are_judged()
    ensures { (m : Setting) (status : Status) (lines : List (List ℕ)) (commands : List Command)
        (transcript : List ℕ) (old new : PortsView) → EndsAudit status m old new
        → IsTrace lines commands
        → old.source.left ≡ Some (all_lines (lines ++ mark ∷ []) ++ transcript)
        → IsJudged status m commands transcript old new }
{}
