//! A load over the swap areas that the words name.

ghost use Rattle.std.specs.Prelude.{◌≡◌, ◌≢◌, ◌≤◌, false, is_some, length, map};
ghost use Rattle.av_io.specs.Count.{Rose};
ghost use Rattle.av_plain.specs.Device.{setting_of, seen_by};
ghost use Rattle.av_plain.specs.Report.{totals as totals_of};
ghost use Rattle.av_plain.specs.Transcript.{State};
ghost use Rattle.av_kernel.specs.Kernel.{Stands};
ghost use Rattle.av_replay.specs.Attach.{AttachesFewer, HasNone};
ghost use Rattle.av_replay.specs.Over.{WorksOver};
ghost use Rattle.av_replay.specs.Replay.{can_go_on};
ghost use Rattle.av_replay.specs.Summary.{SumsUp, summary_text};
ghost use Rattle.av_words.specs.Words.{most_load, most_names};

use crate::kernel_ports::LentPorts;
use crate::outcome::{Outcome, hand_back};
use crate::over::run_over;
use crate::progress::Progress;
use crate::status::Status;
use crate::summary::sum_up;
use crate::work::{NullSink, WorkSource};
use av_io::{Sink, Source};
use av_kernel::Kernel;
use av_swapdev::SwapDev;
use std::alloc::Global;

/// Writes the summary of a load of so many lines, which this kernel did, with these as one value.
fn sum_up_over<S: Source, K: Sink, D: SwapDev>(
    alloc: Global,
    lines: u64,
    kernel: &Kernel,
    source: &mut S,
    sink: &mut K,
    dev: &mut D,
) -> Status
    requires unspent { kernel.now.spent ≡ false }
    ensures sums { let d = seen_by D.sizes D.pages D.failures D.history dev.old in (s : State)
        → Stands kernel.now d s → SumsUp result (K.view sink.old) (K.view sink.new)
        (summary_text lines kernel.now.tally (totals_of
        (setting_of kernel.now.frames d) s.world s.ledger)) }
    ensures same { let d = seen_by D.sizes D.pages D.failures D.history in d dev.new ≡ d dev.old }
{
    let mut ports = LentPorts { source, sink, dev };
    sum_up(alloc, lines, kernel, &mut ports)
}

/// Attaches the swap areas of these names, runs a load of so many lines from a seed on over them,
/// and writes its summary. Each line that is made is told.
pub fn work_over<K: Sink, D: SwapDev, P: Progress>(
    alloc: Global,
    seed: u64,
    lines: u32,
    frames: u32,
    names: &[&str],
    sink: &mut K,
    dev: &mut D,
    progress: &mut P,
) -> Outcome
    requires few { length names.now ≤ most_names }
    requires lines { lines ≤ most_load }
    requires none { HasNone (D.sizes dev.old) }
    ensures worked { let d = seen_by D.sizes D.pages D.failures D.history in
        result.status ≢ Status.AttachFault → WorksOver seed lines frames
        (map (λ name. name.now) names.now) result.status (K.view sink.old) (K.view sink.new)
        (d dev.old) (d dev.new) result.kernel }
    ensures begun { result.status ≢ Status.Usage }
    ensures fault { result.status ≡ Status.AttachFault →
        Rose (D.failures dev.old) (D.failures dev.new)
        × (sink.new ≡ sink.old) }
    ensures fewer { result.status ≡ Status.AttachFault →
        AttachesFewer (map (λ name. name.now) names.now)
        (seen_by D.sizes D.pages D.failures D.history dev.old)
        (seen_by D.sizes D.pages D.failures D.history dev.new) }
    ensures kernel { is_some result.kernel ≡ can_go_on result.status }
{
    let mut source = WorkSource::new(names.len(), seed, lines, progress);
    let mut unkept = NullSink::new();
    let Outcome { status, kernel } = run_over(alloc, frames, names, &mut source, &mut unkept, dev);
    // Its lines are commands, and neither source nor sink fails: so where there is a kernel to go
    // on with every line was done.
    let Some(kernel) = kernel else {
        return Outcome {
            status,
            kernel: None,
        };
    };
    let all_lines = names.len() as u64 + 2 + u64::from(lines);
    let status = sum_up_over(alloc, all_lines, &kernel, &mut source, sink, dev);
    hand_back(status, kernel)
}
