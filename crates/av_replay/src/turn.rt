//! One turn of the loop over the lines: a line is read and done, and its text written.
//!
//! Texts aren't gathered over several lines before they go to the sink: where a write fails, the
//! line whose text failed is the last one done.

ghost use Rattle.std.specs.Prelude.{◌≡◌, ◌<◌, ◌^◌, [], OnOk, IfErr};
ghost use Rattle.av_base.specs.Limits.{most_commands};
ghost use Rattle.av_ports.specs.Ports.{AreFlushed, Writes};
ghost use Rattle.av_replay.specs.KernelPorts.{IsAttached, OnlyDevice};
ghost use Rattle.av_replay.specs.Turn.{LeavesSource};
ghost use Rattle.av_ports.specs.Line.{FailsOnly};
ghost use Rattle.av_replay.specs.Turn.{DoesLine, IsNotDone, IsNotAnswered, TakesTurn};

use crate::kernel_ports::KernelPorts;
use av_io::SinkErr;
use av_kernel::Kernel;
use av_line::{LineErr, parse_line_into};
use av_ports::{Pending, RunErr, read_line, write_all};
use av_text::Bytes;
use av_trace::{Command, Reply, reply_text};
use std::alloc::Global;
use std::mem::swap;

/// What the loop over the lines uses again for each line, for the sake of its memory.
#[derive(Drop)]
pub struct Scratch {
    reply: Reply,
    /// The text of the reply.
    text: Bytes,
    /// What the line says.
    meaning: Option<Command>,
    /// For the bytes of a write.
    spare: Bytes,
}

impl Scratch {
    /// Nothing yet.
    pub fn new(alloc: Global) -> Self {
        Scratch {
            reply: Reply::new(alloc),
            text: Bytes::new(alloc),
            meaning: None,
            spare: Bytes::new(alloc),
        }
    }
}

/// Does a line, and makes its reply and the reply's text. What they were before is forgotten.
pub fn do_line<P: KernelPorts>(
    alloc: Global,
    kernel: &mut Kernel,
    ports: &mut P,
    line: &[u8],
    scratch: &mut Scratch,
) -> Result<(), RunErr>
    requires few { kernel.old.steps < most_commands }
    requires attached { IsAttached (P.view ports.old).device kernel.old }
    ensures ok { OnOk result (DoesLine line.now (P.view ports.old).device
        (P.view ports.new).device kernel.old kernel.new scratch.new.text) }
    ensures err { IfErr result (λ e. IsNotDone e line.now (P.view ports.old) (P.view ports.new)
        kernel.old kernel.new) }
    ensures only { OnlyDevice (P.view ports.old) (P.view ports.new) }
    ensures kept { P.kept ports.new ≡ P.kept ports.old }
{
    let Scratch {
        reply,
        text,
        meaning,
        spare,
    } = scratch;
    text.clear();
    match parse_line_into(alloc, line, spare, meaning) {
        Ok(()) => {}
        Err(LineErr::Bad) => return Err(RunErr::BadLine),
        Err(LineErr::Memory) => return Err(RunErr::Memory),
    }
    let Some(command) = meaning else {
        return Ok(());
    };
    ports.answer(alloc, kernel, command, reply)?;
    if let Command::Write { bytes, .. } = command {
        swap(bytes, spare);
    }
    reply_text(reply, text)?;
    Ok(())
}

/// Does a line, and writes the text of its reply.
pub fn answer_line<P: KernelPorts>(
    alloc: Global,
    kernel: &mut Kernel,
    ports: &mut P,
    line: &[u8],
    scratch: &mut Scratch,
) -> Result<(), RunErr>
    requires few { kernel.old.steps < most_commands }
    requires attached { IsAttached (P.view ports.old).device kernel.old }
    ensures does { OnOk result (DoesLine line.now (P.view ports.old).device
        (P.view ports.new).device kernel.old kernel.new scratch.new.text) }
    ensures writes { OnOk result
        (Writes (P.view ports.old).sink (P.view ports.new).sink scratch.new.text) }
    ensures unfailed { OnOk result
        ((P.view ports.new).sink.failures ≡ (P.view ports.old).sink.failures) }
    ensures memory { IfErr result (λ e. e ≡ RunErr.Memory
        → (P.view ports.new).sink.failures ≡ (P.view ports.old).sink.failures) }
    ensures flushes { (P.view ports.new).sink.flushes ≡ (P.view ports.old).sink.flushes }
    ensures err { IfErr result (λ e. IsNotAnswered e line.now (P.view ports.old)
        (P.view ports.new) kernel.old kernel.new) }
    ensures leaves { LeavesSource (P.view ports.old) (P.view ports.new) }
    ensures kept { P.kept ports.new ≡ P.kept ports.old }
{
    do_line(alloc, kernel, ports, line, scratch)?;
    match write_all(ports, scratch.text.as_slice()) {
        Ok(()) => Ok(()),
        Err(SinkErr::Failed) => Err(RunErr::Write),
        Err(SinkErr::Memory) => Err(RunErr::Memory),
    }
}

/// Reads a line and does it, and says whether the input goes on behind it.
pub fn next_line<P: KernelPorts>(
    alloc: Global,
    kernel: &mut Kernel,
    ports: &mut P,
    pending: &mut Pending,
    scratch: &mut Scratch,
) -> Result<bool, RunErr>
    requires few { kernel.old.steps < most_commands }
    requires attached { IsAttached (P.view ports.old).device kernel.old }
    ensures turned { TakesTurn result pending.old pending.new
        (P.view ports.old) (P.view ports.new)
        kernel.old kernel.new }
    ensures unfailed { FailsOnly result (P.view ports.old) (P.view ports.new) }
    ensures flushed { AreFlushed 0 (P.view ports.old) (P.view ports.new) }
    ensures none_kept { IfErr result
        (λ e. e ≡ RunErr.Read → (P.view ports.new).sink.kept_back ≡ []) }
    ensures kept { P.kept ports.new ≡ P.kept ports.old }
{
    let Some(line) = read_line(ports, pending)? else {
        return Ok(false);
    };
    answer_line(
        alloc,
        kernel,
        ports,
        &pending.as_slice()[..line.size],
        scratch,
    )?;
    pending.skip(line.whole);
    Ok(line.whole > line.size)
}
