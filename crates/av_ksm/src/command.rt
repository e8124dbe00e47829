//! The command `merge`.

ghost use Rattle.av_trace.specs.Reply.{IsCleared};
ghost use Rattle.av_trace.specs.declared.command.Command.TheVariants as commands;
ghost use Rattle.av_mem.specs.Mem.{IsSteady};
ghost use Rattle.av_step.specs.Step.{DoesBeside, reply_in};

use crate::merging::merge_pages;
use av_mem::Mem;
use av_step::{Refusal, answer_with};
use av_trace::{Answer, Reply};
use std::alloc::Global;

/// Does a `merge`: candidates with equal bytes have one frame then. The notes tell which frames are
/// merged, and which pages join them.
pub fn merge(mem: &mut Mem, alloc: Global, reply: &mut Reply) -> Result<(), Refusal>
    requires steady { IsSteady mem.old }
    requires cleared { IsCleared reply.old }
    ensures { DoesBeside mem.old mem.new commands.Merge (reply_in reply.new result) }
{
    merge_pages(mem, alloc, &mut reply.notes)?;
    answer_with(reply, Answer::Done);
    Ok(())
}
