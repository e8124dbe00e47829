//! Pages go to their slots ahead of need: `reclaim`, `age` and `complete`.

ghost use Rattle.av_trace.specs.Reply.{IsCleared};
ghost use Rattle.av_trace.specs.declared.command.Command.TheVariants as commands;
ghost use Rattle.av_plain.specs.Device.{seen_by};
ghost use Rattle.av_mem.specs.Mem.{IsSteadyAt};
ghost use Rattle.av_step.specs.Step.{Does, reply_in};

use av_mem::Mem;
use av_step::{Refusal, answer_with};
use av_swapdev::SwapDev;
use av_trace::{Answer, Reply};

/// Does a `reclaim`: each of the last `frames` frames of inactive is kept, or goes to its slot. The
/// notes say what became of each.
pub fn reclaim<D: SwapDev>(
    mem: &mut Mem,
    dev: &mut D,
    frames: u16,
    reply: &mut Reply,
) -> Result<(), Refusal>
    requires steady { IsSteadyAt (D.sizes dev.old) mem.old }
    requires cleared { IsCleared reply.old }
    ensures { let d = seen_by D.sizes D.pages D.failures D.history in Does (d dev.old) (d dev.new)
        mem.old mem.new (commands.Reclaim frames) (reply_in reply.new result) }
{
    av_reclaim::reclaim(mem, dev, u32::from(frames), &mut reply.notes)?;
    answer_with(reply, Answer::Done);
    Ok(())
}

/// Does an `age`: each of the last `frames` frames of active goes to inactive, unseen.
pub fn age<D: SwapDev>(
    mem: &mut Mem,
    dev: &mut D,
    frames: u16,
    reply: &mut Reply,
) -> Result<(), Refusal>
    requires steady { IsSteadyAt (D.sizes dev.old) mem.old }
    requires cleared { IsCleared reply.old }
    ensures { let d = seen_by D.sizes D.pages D.failures D.history in Does (d dev.old) (d dev.new)
        mem.old mem.new (commands.Age frames) (reply_in reply.new result) }
{
    av_reclaim::age(mem, dev, u32::from(frames), &mut reply.notes)?;
    answer_with(reply, Answer::Done);
    Ok(())
}

/// Does a `complete`: the first `slots` writes in flight end, well or not.
pub fn complete<D: SwapDev>(
    mem: &mut Mem,
    dev: &mut D,
    slots: u16,
    reply: &mut Reply,
) -> Result<(), Refusal>
    requires steady { IsSteadyAt (D.sizes dev.old) mem.old }
    requires cleared { IsCleared reply.old }
    ensures { let d = seen_by D.sizes D.pages D.failures D.history in Does (d dev.old) (d dev.new)
        mem.old mem.new (commands.Complete slots) (reply_in reply.new result) }
{
    av_reclaim::complete(mem, dev, u32::from(slots), &mut reply.notes)?;
    answer_with(reply, Answer::Done);
    Ok(())
}
