//! A run over the swap areas that the words name.

ghost use Rattle.std.specs.Prelude.{◌≡◌, ◌≢◌, ◌≤◌, is_some, length, map};
ghost use Rattle.av_io.specs.Count.{Rose};
ghost use Rattle.av_plain.specs.Device.{seen_by};
ghost use Rattle.av_swapdev.specs.Device.{most_areas};
ghost use Rattle.av_step.specs.Step.{sizes_of};
ghost use Rattle.av_replay.specs.Attach.{AttachesFewer, HasNone};
ghost use Rattle.av_replay.specs.Over.{ReplaysOver};
ghost use Rattle.av_replay.specs.KernelPorts.{ports_by};
ghost use Rattle.av_replay.specs.Replay.{IsAtStart, DoesTrace, can_go_on, kernel_at};

use crate::attach::attach_all;
use crate::kernel_ports::LentPorts;
use crate::outcome::{Outcome, hand_back};
use crate::replay::replay;
use crate::status::Status;
use av_io::{Sink, Source};
use av_kernel::Kernel;
use av_swapdev::{AttachErr, SwapDev};
use std::alloc::Global;

/// Replays the trace of a source, with these as one value.
fn replay_over<S: Source, K: Sink, D: SwapDev>(
    alloc: Global,
    kernel: &mut Kernel,
    source: &mut S,
    sink: &mut K,
    dev: &mut D,
) -> Status
    requires { IsAtStart kernel.old (seen_by D.sizes D.pages D.failures D.history dev.old) }
    ensures { let at = ports_by S.view K.view D.sizes D.pages D.failures D.history in
        DoesTrace kernel.old.frames result (at source.old sink.old dev.old)
        (at source.new sink.new dev.new) (kernel_at result kernel.new) }
{
    let mut ports = LentPorts { source, sink, dev };
    replay(alloc, kernel, &mut ports)
}

/// Replays the trace of a source on a new machine of so many frames, over a device whose swap areas
/// have so many pages each.
fn run_trace<S: Source, K: Sink, D: SwapDev>(
    alloc: Global,
    frames: u32,
    pages: &[u32],
    source: &mut S,
    sink: &mut K,
    dev: &mut D,
) -> Outcome
    requires few { length pages.now ≤ most_areas }
    requires attached { D.sizes dev.old ≡ sizes_of pages.now }
    ensures replayed { let at = ports_by S.view K.view D.sizes D.pages D.failures D.history in
        DoesTrace frames result.status (at source.old sink.old dev.old)
        (at source.new sink.new dev.new) result.kernel }
    ensures kernel { is_some result.kernel ≡ can_go_on result.status }
{
    let Ok(mut kernel) = Kernel::new(alloc, frames, pages) else {
        return Outcome {
            status: Status::Memory,
            kernel: None,
        };
    };
    let status = replay_over(alloc, &mut kernel, source, sink, dev);
    hand_back(status, kernel)
}

/// Attaches the swap areas of these names, and replays the trace of a source over them.
pub fn run_over<S: Source, K: Sink, D: SwapDev>(
    alloc: Global,
    frames: u32,
    names: &[&str],
    source: &mut S,
    sink: &mut K,
    dev: &mut D,
) -> Outcome
    requires few { length names.now ≤ most_areas }
    requires none { HasNone (D.sizes dev.old) }
    ensures replayed { let at = ports_by S.view K.view D.sizes D.pages D.failures D.history in
        result.status ≢ Status.AttachFault
        → ReplaysOver frames (map (λ name. name.now) names.now) result.status
        (at source.old sink.old dev.old) (at source.new sink.new dev.new) result.kernel }
    ensures begun { result.status ≢ Status.Usage }
    ensures fault { result.status ≡ Status.AttachFault →
        Rose (D.failures dev.old) (D.failures dev.new)
        × (source.new ≡ source.old) × (sink.new ≡ sink.old) }
    ensures fewer { result.status ≡ Status.AttachFault →
        AttachesFewer (map (λ name. name.now) names.now)
        (seen_by D.sizes D.pages D.failures D.history dev.old)
        (seen_by D.sizes D.pages D.failures D.history dev.new) }
    ensures kernel { is_some result.kernel ≡ can_go_on result.status }
{
    match attach_all(alloc, names, dev) {
        Ok(pages) => run_trace(alloc, frames, &pages, source, sink, dev),
        Err(AttachErr::Failed) => Outcome {
            status: Status::AttachFault,
            kernel: None,
        },
        Err(AttachErr::Memory) => Outcome {
            status: Status::Memory,
            kernel: None,
        },
    }
}
