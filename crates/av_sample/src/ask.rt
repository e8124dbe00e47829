//! One line for a kernel.

ghost use Rattle.std.specs.Prelude.{◌≡◌, ◌≤◌, ◌^◌, Option, Some, None, IfOk, IsErrOf};
ghost use Rattle.av_trace.specs.declared.command.Command.{Command as AnyCommand};
ghost use Rattle.av_trace.specs.Line.{Says};
ghost use Rattle.av_plain.specs.Device.{seen_by};
ghost use Rattle.av_plain.specs.Transcript.{State};
ghost use Rattle.av_kernel.specs.Kernel.{Stands};
ghost use Rattle.av_step.specs.Step.{sizes_of};
ghost use Rattle.av_sample.specs.Answers.{Answers};

use av_kernel::Kernel;
use av_line::{LineErr, parse_line};
use av_swapdev::SwapDev;
use av_text::Bytes;
use av_trace::{Command, reply_text};
use std::alloc::Global;

/// A kernel does so many commands at most.
const MOST_COMMANDS: u32 = 1 << 24;

/// Why a line has no reply.
#[derive(Clone, Copy, Drop, Debug, PartialEq, Eq)]
pub enum Unanswered {
    /// The line is empty, or a comment.
    Blank,
    /// The line is no command.
    NoCommand,
    /// The kernel has done as many commands as it may.
    TooMany,
    /// Memory ran out; the command may be done.
    Memory,
}

/// The command that a line says.
pub fn said_command(alloc: Global, line: &[u8]) -> Result<Command, Unanswered>
    ensures says { IfOk result (λ command. Says line.now (Some command)) }
    ensures blank { IsErrOf result Unanswered.Blank → Says line.now None }
    ensures bad { IsErrOf result Unanswered.NoCommand
        → (said : Option AnyCommand) → Says line.now said → ⊥ }
    ensures enough { IsErrOf result Unanswered.TooMany → ⊥ }
{
    match parse_line(alloc, line) {
        Ok(Some(command)) => Ok(command),
        Ok(None) => Err(Unanswered::Blank),
        Err(LineErr::Bad) => Err(Unanswered::NoCommand),
        Err(LineErr::Memory) => Err(Unanswered::Memory),
    }
}

/// Does what a line commands, over the device whose swap areas the kernel has, and gives the
/// reply's text, newlines included.
///
/// Where it refuses a line, or the kernel has done enough, kernel and device are as before.
pub fn ask<D: SwapDev>(
    alloc: Global,
    kernel: &mut Kernel,
    dev: &mut D,
    line: &[u8],
) -> Result<Bytes, Unanswered>
    requires attached { D.sizes dev.old ≡ sizes_of kernel.old.sizes }
    ensures answers { let d = seen_by D.sizes D.pages D.failures D.history in (s : State)
        → Stands kernel.old (d dev.old) s → IfOk result
        (Answers line.now (d dev.old) (d dev.new) s kernel.old kernel.new) }
    ensures blank { IsErrOf result Unanswered.Blank
        → Says line.now None × (kernel.new ≡ kernel.old) × (dev.new ≡ dev.old) }
    ensures bad { IsErrOf result Unanswered.NoCommand
        → ((said : Option AnyCommand) → Says line.now said → ⊥) × (kernel.new ≡ kernel.old)
        × (dev.new ≡ dev.old) }
    ensures enough { IsErrOf result Unanswered.TooMany
        → (2 ^ 24 ≤ kernel.old.steps) × (kernel.new ≡ kernel.old) × (dev.new ≡ dev.old) }
    ensures attached { D.sizes dev.new ≡ sizes_of kernel.new.sizes }
{
    if MOST_COMMANDS <= kernel.steps_done() {
        return Err(Unanswered::TooMany);
    }
    let command = said_command(alloc, line)?;
    let Ok(reply) = kernel.step(alloc, &command, dev) else {
        return Err(Unanswered::Memory);
    };
    let mut text = Bytes::new(alloc);
    match reply_text(&reply, &mut text) {
        Ok(()) => Ok(text),
        Err(_) => Err(Unanswered::Memory),
    }
}
