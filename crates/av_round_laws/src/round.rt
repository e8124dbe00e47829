//! What a run wrote is audited.

ghost use Rattle.std.specs.Prelude.{ℕ, List};
ghost use Rattle.av_plain.specs.Device.{Device};
ghost use Rattle.av_replay.specs.declared.status.Status.{Status};
ghost use Rattle.av_round_laws.specs.Round.{AuditEnds, FindsLegal, RunWrites, SayAlike};
ghost use Rattle.av_round_laws.specs.Round.{input_of};

/// What a run that is done wrote is a legal transcript of its trace to an audit with as many frames
/// over such a device: the audit writes `legal`, unless memory is wanting, its source or its sink
/// failed, once and counted, or the transcript has more than 2^32 bytes. So it finds no reply that
/// isn't legal, and no bad line of the trace.
///
/// This is so where the run's source told the trace, its sink what was written, and its device the
/// pages. The devices are compared as they are after the calls: page 0 of an area stays as it was
/// when the area was attached.
pub fn done_runs_are_found_legal()
    ensures { (frames : ℕ) (trace transcript : List ℕ) (status : Status) (device other : Device)
        → RunWrites frames trace transcript device
        → (audit : AuditEnds frames (input_of trace transcript) status other)
        → SayAlike device other → FindsLegal status transcript audit.old audit.new }
{}
