//! A kernel that is driven command by command, and its tally of replies.

ghost use Rattle.std.specs.Prelude.{◌≡◌, []};
ghost use Rattle.av_step.specs.Step.{sizes_of};

use av_base::Prot;
use av_kernel::*;
use av_lru::Which;
use av_swapdev::{MemDev, SwapDev};
use av_text::Bytes;
use av_trace::{Command, Place, reply_text};
use std::alloc::{AllocError, Global};
use std::test::Fail;

/// A process, a mapping, and a write of a process that does not live.
fn commands_of_test(alloc: Global) -> Result<[Command; 3], AllocError> {
    let mut bytes = Bytes::new(alloc);
    bytes.append(b"A")?;
    let prot = Prot {
        read: true,
        write: true,
        execute: false,
    };
    Ok([
        Command::Spawn { process: 1 },
        Command::Mmap {
            process: 1,
            len: 1,
            prot,
            place: Place::Auto,
        },
        Command::Write {
            process: 2,
            address: 0x1000,
            bytes,
        },
    ])
}

/// Does a command, one of the first three, and puts the text of its reply into
/// `text`.
fn step<D: SwapDev>(
    alloc: Global,
    kernel: &mut Kernel,
    dev: &mut D,
    command: &Command,
    text: &mut Bytes,
) -> Result<bool, AllocError>
    requires { D.sizes dev.old ≡ sizes_of kernel.old.sizes }
    ensures { D.sizes dev.new ≡ sizes_of kernel.new.sizes }
{
    if kernel.steps_done() > 2 {
        return Ok(false);
    }
    let reply = kernel.step(alloc, command, dev)?;
    reply_text(&reply, text)?;
    Ok(true)
}

/// Does the commands, and puts the texts of their replies into `text`.
fn step_all<D: SwapDev>(
    alloc: Global,
    kernel: &mut Kernel,
    dev: &mut D,
    commands: &[Command],
    text: &mut Bytes,
) -> Result<bool, AllocError>
    requires { D.sizes dev.old ≡ sizes_of kernel.old.sizes }
{
    for command in commands {
        if !step(alloc, kernel, dev, command, text)? {
            return Ok(false);
        }
    }
    Ok(true)
}

/// Whether the kernel tells of itself what it is to tell after these commands.
fn tells(kernel: &Kernel) -> bool {
    kernel.steps_done() == 3
        && kernel.tally().refused == 1
        && !kernel.is_spent()
        && kernel.frames().free() == 4
        && kernel.lists().len(Which::Inactive) == 0
        && kernel.areas().count() == 1
        && kernel.swap().all_slots() == 0
}

/// Does the commands in a new kernel without swap areas, puts the texts of their replies into
/// `text`, and says whether they leave such a kernel.
fn drive(
    alloc: Global,
    kernel: &mut Kernel,
    commands: &[Command],
    text: &mut Bytes,
) -> Result<bool, AllocError>
    requires { kernel.old.sizes ≡ [] }
{
    let mut dev = MemDev::new(Vec::new(alloc), Vec::new(alloc));
    Ok(step_all(alloc, kernel, &mut dev, commands, text)? && tells(kernel))
}

/// The same in one of four frames.
fn leave(alloc: Global, commands: &[Command], text: &mut Bytes) -> Result<bool, AllocError> {
    let Ok(mut kernel) = Kernel::new(alloc, 4, &[]) else {
        return Err(AllocError);
    };
    drive(alloc, &mut kernel, commands, text)
}

/// Whether the commands give this text and leave such a kernel.
fn gives(alloc: Global, commands: &[Command], wanted: &[u8]) -> Result<bool, AllocError> {
    let mut text = Bytes::new(alloc);
    Ok(leave(alloc, commands, &mut text)? && text.as_slice() == wanted)
}

/// A first run, a refusal, and what the kernel tells of itself then.
#[test]
fn commands_and_their_tally(rt: HostRuntime) -> Result<(), Fail> {
    let commands = commands_of_test(rt.alloc())?;
    assert!(rt; gives(rt.alloc(), &commands, b"ok\nmap 7fffffffe000\nerr ESRCH\n")?);
    Ok(())
}
