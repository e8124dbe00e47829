//! Which command goes where, and what a refusal replies.

ghost use Rattle.std.specs.Prelude.{◌≡◌, ◌≤◌, OnOk, false, length, true};
ghost use Rattle.av_trace.specs.Reply.{IsCleared, answer_only};
ghost use Rattle.av_trace.specs.declared.reply.Answer.TheVariants.{Refused};
ghost use Rattle.av_swapdev.specs.Device.{most_areas};
ghost use Rattle.av_plain.specs.Device.{IsSameDevice, seen_by};
ghost use Rattle.av_plain.specs.Transcript.{State};
ghost use Rattle.av_mem.specs.Mem.{frame_count, Keeps, IsSteady, IsSteadyAt};
ghost use Rattle.av_step.specs.Step.{Does, DoesBeside, MemSteps, reply_in, sizes_of};
ghost use Rattle.av_kernel.specs.Step.{has_device, is_of_pages};

use crate::advice::madvise;
use crate::lock::{mlock, munlock};
use crate::map::{mmap, mprotect, munmap};
use crate::mremap::mremap;
use crate::process::{exit, fork, spawn};
use av_access::{read, write};
use av_ksm::merge;
use av_mem::Mem;
use av_migrate::compact;
use av_report::{areas, entry, maps, rmap, stat};
use av_step::{Refusal, answer_with};
use av_swap::reclaim::{age, complete, reclaim};
use av_swap::{slot, swapoff, swapon};
use av_swapdev::SwapDev;
use av_text::Bytes;
use av_trace::{Answer, Command, Errno, Reply};
use std::alloc::{AllocError, Global};
use std::mem::swap;

/// Replies to a command, whatever the reply held. Memory may be wanting: then it is the same device
/// and there are as many frames, and nothing else is promised, nor anything of the reply.
///
/// `sizes` says how many pages each attached swap area has. Bytes that a whole read showed give
/// their memory to `spare`, and a read takes that of `spare`.
// Inlined, as `dispatch` and `do_beside` are: one look at the command leads to what does it.
#[inline(always)]
pub fn perform<D: SwapDev>(
    mem: &mut Mem,
    dev: &mut D,
    sizes: &[u32],
    spare: &mut Bytes,
    alloc: Global,
    command: &Command,
    reply: &mut Reply,
) -> Result<(), AllocError>
    requires steady { IsSteadyAt (D.sizes dev.old) mem.old }
    requires attached { D.sizes dev.old ≡ sizes_of sizes.now }
    requires few { length sizes.now ≤ most_areas }
    ensures step { let d = seen_by D.sizes D.pages D.failures D.history in (s : State)
        → Keeps (d dev.old) mem.old s → OnOk result
        (MemSteps (d dev.old) (d dev.new) mem.old mem.new s command.now reply.new) }
    ensures steady { OnOk result (IsSteadyAt (D.sizes dev.old) mem.new) }
    ensures same { let d = seen_by D.sizes D.pages D.failures D.history in
        IsSameDevice (d dev.old) (d dev.new) }
    ensures count { frame_count mem.new ≡ frame_count mem.old }
    ensures leaves_device { has_device command.now ≡ false → dev.new ≡ dev.old }
{
    if let Answer::Data(shown) = &mut reply.answer {
        swap(shown, spare);
    }
    reply.clear();
    match dispatch(mem, dev, sizes, spare, alloc, command, reply) {
        Ok(()) => Ok(()),
        Err(Refusal::Refused(error)) => {
            refuse(reply, error);
            Ok(())
        }
        Err(Refusal::Memory) => Err(AllocError),
    }
}

/// Makes a reply a refusal, whatever it was.
#[inline(always)]
fn refuse(reply: &mut Reply, error: Errno)
    ensures { reply.new ≡ answer_only (Refused error) }
{
    reply.clear();
    answer_with(reply, Answer::Refused(error));
}

/// Does a command, and fills the reply.
#[inline(always)]
fn dispatch<D: SwapDev>(
    mem: &mut Mem,
    dev: &mut D,
    sizes: &[u32],
    spare: &mut Bytes,
    alloc: Global,
    command: &Command,
    reply: &mut Reply,
) -> Result<(), Refusal>
    requires steady { IsSteadyAt (D.sizes dev.old) mem.old }
    requires attached { D.sizes dev.old ≡ sizes_of sizes.now }
    requires few { length sizes.now ≤ most_areas }
    requires cleared { IsCleared reply.old }
    ensures does { let d = seen_by D.sizes D.pages D.failures D.history in
        Does (d dev.old) (d dev.new) mem.old mem.new command.now (reply_in reply.new result) }
    ensures leaves_device { has_device command.now ≡ false → dev.new ≡ dev.old }
{
    match command {
        Command::Read {
            process,
            address,
            len,
        } => read(mem, dev, spare, alloc, *process, *address, *len, reply),
        Command::Write {
            process,
            address,
            bytes,
        } => write(mem, dev, alloc, *process, *address, bytes.as_slice(), reply),
        Command::Mlock {
            process,
            address,
            len,
        } => mlock(mem, dev, alloc, *process, *address, *len, reply),
        Command::Reclaim { frames } => reclaim(mem, dev, *frames, reply),
        Command::Age { frames } => age(mem, dev, *frames, reply),
        Command::Complete { slots } => complete(mem, dev, *slots, reply),
        Command::Swapon { area, priority } => {
            swapon(mem, dev, sizes, alloc, *area, *priority, reply)
        }
        Command::Swapoff { area } => swapoff(mem, dev, alloc, *area, reply),
        _ => do_beside(mem, alloc, command, reply),
    }
}

/// Does a command that isn't handed the device.
#[inline(always)]
fn do_beside(
    mem: &mut Mem,
    alloc: Global,
    command: &Command,
    reply: &mut Reply,
) -> Result<(), Refusal>
    requires steady { IsSteady mem.old }
    requires beside { has_device command.now ≡ false }
    requires cleared { IsCleared reply.old }
    ensures { DoesBeside mem.old mem.new command.now (reply_in reply.new result) }
{
    match command {
        Command::Spawn { process } => spawn(mem, alloc, *process, reply),
        Command::Fork { parent, child } => fork(mem, alloc, *parent, *child, reply),
        Command::Exit { process } => exit(mem, *process, reply),
        Command::Merge => merge(mem, alloc, reply),
        Command::Compact => compact(mem, alloc, reply),
        Command::Maps { process } => maps(mem, *process, reply),
        Command::Areas { process } => areas(mem, alloc, *process, reply),
        Command::Rmap { process, address } => rmap(mem, alloc, *process, *address, reply),
        Command::Entry { process, address } => entry(mem, *process, *address, reply),
        Command::Slot { area, page } => slot(mem, *area, *page, reply),
        Command::Stat => {
            stat(mem, reply);
            Ok(())
        }
        _ => map_or_change(mem, command, reply),
    }
}

/// Does a command that maps, unmaps or changes pages.
#[inline(always)]
fn map_or_change(mem: &mut Mem, command: &Command, reply: &mut Reply) -> Result<(), Refusal>
    requires steady { IsSteady mem.old }
    requires cleared { IsCleared reply.old }
    requires pages { is_of_pages command.now ≡ true }
    ensures { DoesBeside mem.old mem.new command.now (reply_in reply.new result) }
{
    match command {
        Command::Mmap {
            process,
            len,
            prot,
            place,
        } => mmap(mem, *process, *len, *prot, *place, reply),
        Command::Munmap {
            process,
            address,
            len,
        } => munmap(mem, *process, *address, *len, reply),
        Command::Mprotect {
            process,
            address,
            len,
            prot,
        } => mprotect(mem, *process, *address, *len, *prot, reply),
        Command::Mremap {
            process,
            address,
            old_len,
            new_len,
            mode,
        } => mremap(mem, *process, *address, *old_len, *new_len, *mode, reply),
        Command::Madvise {
            process,
            address,
            len,
            advice,
        } => madvise(mem, *process, *address, *len, *advice, reply),
        Command::Munlock {
            process,
            address,
            len,
        } => munlock(mem, *process, *address, *len, reply),
        _ => unreachable!(),
    }
}
