//! The loop over the lines.
//!
//! There are as many flushes as reads, and one more in the end but after a call that failed. A
//! flush may fail, and no body knows before which read will: so nothing is kept back while any
//! read is waited for. Where memory is wanting the last flush may fail beside that, and is told as
//! want of memory: only a sink that doesn't tell what it holds can fail so, and then the two look
//! alike.

ghost use Rattle.std.specs.Prelude.{◌≡◌, []};
ghost use Rattle.av_ports.specs.Ports.{AreFlushed, AreUnfailed, OnlySink, ReadsOn};
ghost use Rattle.av_replay.specs.Turn.{Finishes};
ghost use Rattle.av_replay.specs.Replay.{
  FailsOnlyAt,
  FlushesLast,
  Headline,
  IsAtStart,
  DoesTrace,
  kernel_at,
  status_at,
};

use crate::kernel_ports::KernelPorts;
use crate::status::Status;
use crate::turn::{Scratch, next_line};
use av_kernel::Kernel;
use av_ports::{Pending, Ports, RunErr, read_on};
use std::alloc::Global;

/// The lines of a trace, at most.
const MOST_LINES: u32 = 1 << 24;

/// The status where the line of this number was not done.
fn status_of(error: RunErr, number: u32) -> Status
    ensures { result ≡ status_at error number }
{
    match error {
        RunErr::BadLine => Status::BadLine(number),
        RunErr::Read => Status::ReadFault,
        RunErr::Write => Status::WriteFault,
        RunErr::Memory => Status::Memory,
    }
}

/// After as many lines as may be: whether a byte of one more comes.
fn finish<P: Ports>(ports: &mut P, pending: &mut Pending) -> Status
    ensures reads { ReadsOn pending.old pending.new (P.view ports.old) (P.view ports.new) }
    ensures finished { Finishes result pending.new (P.view ports.old) (P.view ports.new) }
    ensures unfailed { FailsOnlyAt result (P.view ports.old) (P.view ports.new) }
    ensures flushed { AreFlushed 0 (P.view ports.old) (P.view ports.new) }
    ensures none_kept { result ≡ Status.ReadFault → (P.view ports.new).sink.kept_back ≡ [] }
    ensures kept { P.kept ports.new ≡ P.kept ports.old }
{
    if !pending.as_slice().is_empty() {
        return Status::TooMany;
    }
    match read_on(ports, pending) {
        Ok(0) => Status::Done,
        Ok(_) => Status::TooMany,
        Err(error) => status_of(error, MOST_LINES),
    }
}

/// Does all lines of the source.
fn do_lines<P: KernelPorts>(
    alloc: Global,
    kernel: &mut Kernel,
    ports: &mut P,
    pending: &mut Pending,
    scratch: &mut Scratch,
) -> Status
    requires start { IsAtStart kernel.old (P.view ports.old).device }
    requires pending { pending.old ≡ [] }
    ensures headline { Headline kernel.old.frames result (P.view ports.old) (P.view ports.new)
        (kernel_at result kernel.new) }
    ensures unfailed { FailsOnlyAt result (P.view ports.old) (P.view ports.new) }
    ensures memory { result ≡ Status.Memory → AreUnfailed (P.view ports.old) (P.view ports.new) }
    ensures flushed { AreFlushed 0 (P.view ports.old) (P.view ports.new) }
    ensures none_kept { result ≡ Status.ReadFault → (P.view ports.new).sink.kept_back ≡ [] }
    ensures kept { P.kept ports.new ≡ P.kept ports.old }
{
    for number in 0..MOST_LINES {
        match next_line(alloc, kernel, ports, pending, scratch) {
            Ok(true) => {}
            Ok(false) => return Status::Done,
            Err(error) => return status_of(error, number + 1),
        }
    }
    finish(ports, pending)
}

/// Flushes the sink in the end, and says how the run ended then.
///
/// Where that flush alone fails, the status is `WriteFault`. There is none after a failed write,
/// nor after a failed read: nothing was kept back when that was waited for.
pub fn flush_last<P: Ports>(status: Status, ports: &mut P) -> Status
    ensures last { FlushesLast status result (P.view ports.old).sink (P.view ports.new).sink }
    ensures only { OnlySink (P.view ports.old) (P.view ports.new) }
    ensures kept { P.kept ports.new ≡ P.kept ports.old }
{
    match status {
        Status::ReadFault | Status::WriteFault => status,
        Status::Memory => {
            let _ = ports.flush();
            status
        }
        _ => match ports.flush() {
            Ok(()) => status,
            Err(_) => Status::WriteFault,
        },
    }
}

/// Does all lines of the source, and flushes the sink in the end.
pub fn replay<P: KernelPorts>(alloc: Global, kernel: &mut Kernel, ports: &mut P) -> Status
    requires { IsAtStart kernel.old (P.view ports.old).device }
    ensures replayed { DoesTrace kernel.old.frames result (P.view ports.old) (P.view ports.new)
        (kernel_at result kernel.new) }
    ensures kept { P.kept ports.new ≡ P.kept ports.old }
{
    let Ok(mut pending) = Pending::new(alloc) else {
        return Status::Memory;
    };
    let mut scratch = Scratch::new(alloc);
    let status = do_lines(alloc, kernel, ports, &mut pending, &mut scratch);
    flush_last(status, ports)
}
