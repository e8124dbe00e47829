//! `mlock` and `munlock`: which pages stay in their frames.

ghost use Rattle.std.specs.Prelude.{◌≡◌, ◌+◌, ◌^◌, ◌<◌, IfOk, false, true, is_some};
ghost use Rattle.av_kernel.specs.Lock.{SetsLock};
ghost use Rattle.av_mem.specs.Mem.{IsSteady, IsSteadyAt, frame_count};
ghost use Rattle.av_plain.specs.Device.{seen_by};
ghost use Rattle.av_plain.specs.Refusal as refusals;
ghost use Rattle.av_spaces.specs.Spaces.{areas_of};
ghost use Rattle.av_step.specs.Step.{Does, DoesBeside, reply_in};
ghost use Rattle.av_trace.specs.Reply.{IsCleared};
ghost use Rattle.av_trace.specs.declared.command.Command.TheVariants as commands;

use av_access::bring_in;
use av_base::{Flag, PAGE_SIZE};
use av_mem::{Mem, lock_range, unlock_range};
use av_merge::Change;
use av_place::{ends_too_high, locks_too_many, pages_met};
use av_step::{Refusal, answer_with, check_lives};
use av_swapdev::SwapDev;
use av_trace::{Answer, Errno, Reply};
use std::alloc::{AllocError, Global};

/// Does an `mlock`: the pages are locked, and then come in. Where one of them isn't mapped, those
/// before the first such one are locked, and none comes in.
pub fn mlock<D: SwapDev>(
    mem: &mut Mem,
    dev: &mut D,
    alloc: Global,
    process: u16,
    address: u64,
    len: u64,
    reply: &mut Reply,
) -> Result<(), Refusal>
    requires steady { IsSteadyAt (D.sizes dev.old) mem.old }
    requires cleared { IsCleared reply.old }
    ensures { let d = seen_by D.sizes D.pages D.failures D.history in Does (d dev.old) (d dev.new)
        mem.old mem.new (commands.Mlock process address len) (reply_in reply.new result) }
{
    check_lives(mem, process)?;
    if ends_too_high(address, len) {
        return Err(Refusal::Refused(Errno::Einval));
    }
    if locks_too_many(address, len) {
        return Err(Refusal::Refused(Errno::Enomem));
    }
    lock_pages(mem, dev, alloc, process, address, len, reply)
}

/// Locks the pages of a range, and then brings them in.
fn lock_pages<D: SwapDev>(
    mem: &mut Mem,
    dev: &mut D,
    alloc: Global,
    process: u16,
    address: u64,
    len: u64,
    reply: &mut Reply,
) -> Result<(), Refusal>
    requires steady { IsSteadyAt (D.sizes dev.old) mem.old }
    requires cleared { IsCleared reply.old }
    requires lives { is_some (areas_of mem.old.spaces.processes process) ≡ true }
    requires low { refusals.ends_too_high address len ≡ false }
    requires few { refusals.locks_too_many address len ≡ false }
    ensures { let d = seen_by D.sizes D.pages D.failures D.history in Does (d dev.old) (d dev.new)
        mem.old mem.new (commands.Mlock process address len) (reply_in reply.new result) }
{
    let (page, pages) = (address / PAGE_SIZE, pages_met(address, len));
    let past = page + pages;
    let reached = set_lock(mem, process, page, pages, true)?;
    if reached < past {
        return Err(Refusal::Refused(Errno::Enomem));
    }
    let answer = bring_in(mem, dev, alloc, process, page, pages, &mut reply.notes)?;
    answer_with(reply, answer);
    Ok(())
}

/// Does a `munlock`: the pages before the first that isn't mapped are locked no more, however often
/// they were locked.
pub fn munlock(
    mem: &mut Mem,
    process: u16,
    address: u64,
    len: u64,
    reply: &mut Reply,
) -> Result<(), Refusal>
    requires steady { IsSteady mem.old }
    requires cleared { IsCleared reply.old }
    ensures { DoesBeside mem.old mem.new (commands.Munlock process address len)
        (reply_in reply.new result) }
{
    check_lives(mem, process)?;
    if ends_too_high(address, len) {
        return Err(Refusal::Refused(Errno::Einval));
    }
    let (page, pages) = (address / PAGE_SIZE, pages_met(address, len));
    let past = page + pages;
    let reached = set_lock(mem, process, page, pages, false)?;
    if reached < past {
        return Err(Refusal::Refused(Errno::Enomem));
    }
    answer_with(reply, Answer::Done);
    Ok(())
}

/// Locks or unlocks the pages of a range before the first that isn't mapped, and tells that one,
/// else the page past them. The entries of locked pages are counted anew.
fn set_lock(
    mem: &mut Mem,
    process: u16,
    page: u64,
    pages: u64,
    set: bool,
) -> Result<u64, AllocError>
    requires steady { IsSteady mem.old }
    requires lives { is_some (areas_of mem.old.spaces.processes process) ≡ true }
    requires low { page + pages < 2 ^ 52 }
    ensures sets { IfOk result (SetsLock set mem.old mem.new process page pages) }
    ensures count { frame_count mem.new ≡ frame_count mem.old }
{
    let past = page + pages;
    unlock_range(mem, process, page, past);
    let change = Change::Flag(Flag::Locked, set);
    let reached = mem
        .spaces
        .modify(&mut mem.anons, process, page, pages, change)?;
    lock_range(mem, process, page, past);
    Ok(reached)
}
