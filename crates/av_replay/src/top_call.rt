//! The top call.

ghost use Rattle.std.specs.Prelude.{◌≡◌, ◌≢◌, None, is_some, map};
ghost use Rattle.std.specs.Prelude.{string_bytes};
ghost use Rattle.av_io.specs.Count.{Rose};
ghost use Rattle.av_plain.specs.Device.{seen_by};
ghost use Rattle.av_replay.specs.Attach.{HasNone};
ghost use Rattle.av_replay.specs.KernelPorts.{ports_by};
ghost use Rattle.av_replay.specs.Replay.{can_go_on};
ghost use Rattle.av_replay.specs.TopCall.{AskForAudit, AskForLoad, AttachesFewerAsked, DoesAsked};
ghost use Rattle.av_replay.specs.TopCall.{RefusesWords};
ghost use Rattle.av_replay.specs.TopCall.{status_of};

use crate::audit_over::audit_over;
use crate::outcome::Outcome;
use crate::over::run_over;
use crate::progress::Progress;
use crate::status::Status;
use crate::work_over::work_over;
use av_io::{Sink, Source};
use av_swapdev::SwapDev;
use av_words::{Asked, WordsErr, read_words};
use std::alloc::Global;

/// How a run ends whose words could not be read.
fn refuse_words(error: WordsErr) -> Outcome
    ensures { result ≡ record { status = status_of error; kernel = None } }
{
    let status = match error {
        WordsErr::Usage => Status::Usage,
        WordsErr::Memory => Status::Memory,
    };
    Outcome {
        status,
        kernel: None,
    }
}

/// Runs the program on the command line's words, which are `run` or `audit` and the number of
/// frames, or `work`, a seed, a number of lines and one of frames; and then the names of swap
/// areas, if there are some. The device has none before.
///
/// `audit` reads a trace, the line `%%` and a transcript, and judges that by the definitions alone,
/// over areas of which sizes and page 0 decide: `legal` is written where it is, and else the status
/// tells the first reply that isn't.
///
/// `work` reads nothing. It makes its lines from the seed, each when it is done, writes none of
/// their replies, and in the end a summary: what the kernel that is handed back counted, and what
/// `stat` would answer. Where memory is wanting before every line is done nothing is written. How
/// many lines are still to be made is told to `progress`, of which no clause speaks.
///
/// Of `run` this is true.
/// The swap areas are attached before anything is read; where memory is wanting for one, nothing is
/// read or written. Each line of the source is read whole and done, and its text written, before
/// the next line is taken. The source is read in pieces, each time only when no whole line is left
/// of the last piece. There is one flush of the sink for each read, and nothing is kept back when a
/// read is waited for; and one more in the end, but after a call that failed. A flush that fails
/// ends the run as a failed write does; where memory is wanting, the last one may fail beside that.
/// (By the clauses one flush that fails may be told as want of memory: no status tells them apart.)
///
/// What `does` says, by the status: what was read, done and written, over the device with the areas
/// that the words name; what the kernel handed back stands for, with the device as it is then; that
/// what failed is what the status tells of; and that no text was kept back while a read was waited
/// for, nor is in the end, unless the sink failed, or memory was wanting before its first call, or
/// for the words.
///
/// The other clauses: for a load nothing is read (`unread`). Bad words, and they alone, are a usage
/// error, unless memory was wanting for them (`usage`); then nothing is attached, read or written
/// (`nothing`). An area can't be attached only where the device failed, or, for an audit, its page
/// 0 can't be read (`fault`); then those are attached whose names stand before the first that
/// failed (`fewer`). A kernel is handed back exactly where there is one to go on with (`kernel`),
/// and none after an audit (`none`).
pub fn run<S: Source, K: Sink, D: SwapDev, P: Progress>(
    alloc: Global,
    words: &[String],
    source: &mut S,
    sink: &mut K,
    dev: &mut D,
    progress: &mut P,
) -> Outcome
    requires none { HasNone (D.sizes dev.old) }
    ensures does { let at = ports_by S.view K.view D.sizes D.pages D.failures D.history in
        result.status ≢ Status.Usage → result.status ≢ Status.AttachFault
        → DoesAsked (map string_bytes words.now) result.status
        (at source.old sink.old dev.old) (at source.new sink.new dev.new) result.kernel }
    ensures unread { AskForLoad (map string_bytes words.now) → source.new ≡ source.old }
    ensures usage { RefusesWords result.status (map string_bytes words.now) }
    ensures nothing { result.status ≡ Status.Usage
        → (source.new ≡ source.old) × (sink.new ≡ sink.old) × (dev.new ≡ dev.old) }
    ensures fault { result.status ≡ Status.AttachFault →
        Rose (D.failures dev.old) (D.failures dev.new)
        × (source.new ≡ source.old) × (sink.new ≡ sink.old) }
    ensures fewer { result.status ≡ Status.AttachFault
        → AttachesFewerAsked (map string_bytes words.now)
        (seen_by D.sizes D.pages D.failures D.history dev.old)
        (seen_by D.sizes D.pages D.failures D.history dev.new) }
    ensures kernel { (AskForAudit (map string_bytes words.now) → ⊥)
        → is_some result.kernel ≡ can_go_on result.status }
    ensures none { AskForAudit (map string_bytes words.now) → result.kernel ≡ None }
{
    let (asked, names) = match read_words(alloc, words) {
        Ok(read) => read,
        Err(error) => return refuse_words(error),
    };
    match asked {
        Asked::Run { frames } => run_over(alloc, frames, &names, source, sink, dev),
        Asked::Work {
            seed,
            lines,
            frames,
        } => work_over(alloc, seed, lines, frames, &names, sink, dev, progress),
        Asked::Audit { frames } => audit_over(alloc, frames, &names, source, sink, dev),
    }
}
