//! Processes: `spawn`, `fork` and `exit`, and the test that one more may come.

ghost use Rattle.std.specs.Prelude.{◌≡◌, Some, None, MatchResult};
ghost use Rattle.av_plain.specs.Refusal.{refusal};
ghost use Rattle.av_mem.specs.Mem.{IsSteady};
ghost use Rattle.av_kernel.specs.Process.{new_tests};
ghost use Rattle.av_step.specs.Step.{DoesBeside, reply_in};
ghost use Rattle.av_trace.specs.Reply.{IsCleared};
ghost use Rattle.av_trace.specs.declared.command.Command.TheVariants as commands;

use av_base::MOST_PROCESSES;
use av_fork::{fork_areas, fork_entries};
use av_mem::{Mem, unlock_range, zap_all};
use av_spaces::Spaces;
use av_step::{Refusal, answer_with, check_lives};
use av_trace::{Answer, Errno, Reply};
use std::alloc::Global;

/// Refuses where the process lives already, or as many live as may.
fn check_new(spaces: &Spaces, process: u16) -> Result<(), Errno>
    ensures { MatchResult result
        (λ _. refusal (new_tests spaces.now.processes process) ≡ None)
        (λ error. refusal (new_tests spaces.now.processes process) ≡ Some error) }
{
    if spaces.lives(process) {
        return Err(Errno::Eexist);
    }
    if spaces.count() >= MOST_PROCESSES {
        return Err(Errno::Eagain);
    }
    Ok(())
}

/// Does a `spawn`: the process lives then, without any page.
// Inlined: what it does is less than a call.
#[inline(always)]
pub fn spawn(mem: &mut Mem, alloc: Global, process: u16, reply: &mut Reply) -> Result<(), Refusal>
    requires steady { IsSteady mem.old }
    requires cleared { IsCleared reply.old }
    ensures { DoesBeside mem.old mem.new (commands.Spawn process) (reply_in reply.new result) }
{
    check_new(&mem.spaces, process)?;
    mem.tables.spawn(alloc, process)?;
    mem.spaces.spawn(process)?;
    answer_with(reply, Answer::Done);
    Ok(())
}

/// Does a `fork`: the child lives then, with those of the parent's pages that aren't left out. It
/// has their areas, and their entries but for those that are wiped.
pub fn fork(
    mem: &mut Mem,
    alloc: Global,
    parent: u16,
    child: u16,
    reply: &mut Reply,
) -> Result<(), Refusal>
    requires steady { IsSteady mem.old }
    requires cleared { IsCleared reply.old }
    ensures { DoesBeside mem.old mem.new (commands.Fork parent child) (reply_in reply.new result) }
{
    check_lives(mem, parent)?;
    check_new(&mem.spaces, child)?;
    fork_areas(mem, parent, child)?;
    mem.tables.spawn(alloc, child)?;
    fork_entries(mem, alloc, parent, child)?;
    answer_with(reply, Answer::Done);
    Ok(())
}

/// Does an `exit`: its entries, its page table and its areas go. The frames that no other process
/// has become free, and the slots that nothing uses any more are dropped.
pub fn exit(mem: &mut Mem, process: u16, reply: &mut Reply) -> Result<(), Refusal>
    requires steady { IsSteady mem.old }
    requires cleared { IsCleared reply.old }
    ensures { DoesBeside mem.old mem.new (commands.Exit process) (reply_in reply.new result) }
{
    check_lives(mem, process)?;
    unlock_range(mem, process, 0, u64::MAX);
    zap_all(mem, process, &mut reply.notes)?;
    mem.tables.exit(process);
    mem.spaces.exit(&mut mem.anons, process);
    answer_with(reply, Answer::Done);
    Ok(())
}
