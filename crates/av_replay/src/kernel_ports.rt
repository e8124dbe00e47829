//! The ports of a run: what it reads and writes, and the device over which a kernel answers.

ghost use Rattle.std.specs.Prelude.{◌≡◌, ◌⊎◌, ◌<◌, true, false, OnOk, OnErr};
ghost use Rattle.std.specs.Borrow.{GName};
ghost use Rattle.av_base.specs.Limits.{most_commands};
ghost use Rattle.av_plain.specs.Transcript.{State};
ghost use Rattle.av_kernel.specs.Kernel.{Counts, IsSpent, Stands, Steps};
ghost use Rattle.av_kernel.specs.Step.{has_device};
ghost use Rattle.av_replay.specs.KernelPorts.{ports_by};
ghost use Rattle.av_replay.specs.KernelPorts.{IsAttached, OnlyDevice};

use av_io::{Failed, Sink, SinkErr, Source};
use av_kernel::Kernel;
use av_ports::Ports;
use av_swapdev::SwapDev;
use av_trace::{Command, Reply};
use std::alloc::{AllocError, Global};

/// Ports over whose device a kernel answers.
pub trait KernelPorts: Ports {
    /// Has a kernel answer a command of the grammar over the device.
    fn answer(
        &mut self,
        alloc: Global,
        kernel: &mut Kernel,
        command: &Command,
        reply: &mut Reply,
    ) -> Result<(), AllocError>
        requires few { kernel.old.steps < most_commands }
        requires attached { IsAttached (Self.view self.old).device kernel.old }
        ensures stands { (s : State) → Stands kernel.old (Self.view self.old).device s → OnOk result
            (Steps kernel.old kernel.new (Self.view self.old).device (Self.view self.new).device s
            command.now reply.new) }
        ensures counts { OnOk result (Counts kernel.old kernel.new reply.new) }
        ensures spent { OnErr result (IsSpent kernel.old kernel.new) }
        ensures only { OnlyDevice (Self.view self.old) (Self.view self.new) }
        ensures leaves_device { (kernel.old.spent ≡ true) ⊎ (has_device command.now ≡ false)
            → (Self.view self.new).device ≡ (Self.view self.old).device }
        ensures kept { Self.kept self.new ≡ Self.kept self.old };
}

/// A source, a sink and a device, lent to a run. (Each has a lifetime of its own: with one for all
/// three no proof is made of a call that takes this value.)
#[derive(Drop)]
pub struct LentPorts<'s, 'k, 'd, S, K, D> {
    pub source: &'s mut S,
    pub sink: &'k mut K,
    pub dev: &'d mut D,
}

impl<'s, 'k, 'd, S: Source, K: Sink, D: SwapDev> Ports for LentPorts<'s, 'k, 'd, S, K, D> {
    ghost view = { λ ports. ports_by S.view K.view D.sizes D.pages D.failures D.history
        ports.source.now ports.sink.now ports.dev.now };

    ghost Kept = { GName × GName × GName };

    ghost kept = { λ ports. (
      ports.source.ghost_name,
      ports.sink.ghost_name,
      ports.dev.ghost_name,
    ) };

    fn read(&mut self, into: &mut [u8]) -> Result<usize, Failed> {
        self.source.read(into)
    }

    fn write(&mut self, piece: &[u8]) -> Result<usize, SinkErr> {
        self.sink.write(piece)
    }

    fn flush(&mut self) -> Result<(), Failed> {
        self.sink.flush()
    }
}

impl<'s, 'k, 'd, S: Source, K: Sink, D: SwapDev> KernelPorts for LentPorts<'s, 'k, 'd, S, K, D> {
    fn answer(
        &mut self,
        alloc: Global,
        kernel: &mut Kernel,
        command: &Command,
        reply: &mut Reply,
    ) -> Result<(), AllocError> {
        kernel.answer(alloc, command, self.dev, reply)
    }
}
