//! The command `compact`.

ghost use Rattle.std.specs.Prelude.{◌≡◌, ◌<◌, OnOk};
ghost use Rattle.av_mem.specs.Between.{HasBetween};
ghost use Rattle.av_mem.specs.Mem.{IsSteady, frame_count};
ghost use Rattle.av_migrate.specs.Compact.{AddsMoves};
ghost use Rattle.av_step.specs.Step.{DoesBeside, reply_in};
ghost use Rattle.av_trace.specs.Reply.{IsCleared};
ghost use Rattle.av_trace.specs.declared.command.Command.TheVariants as commands;

use crate::compacting::compact_frames;
use av_base::Steps;
use av_mem::Mem;
use av_step::{Refusal, answer_with};
use av_trace::{Answer, Notes, Reply};
use std::alloc::{AllocError, Global};
use std::marker::Brand;
use std::sync::ledger::{Blank, Ledger};

/// Does a `compact`: the frames in use are the lowest ones then, and the free ones rise. The notes
/// say which frame went where.
pub fn compact(mem: &mut Mem, alloc: Global, reply: &mut Reply) -> Result<(), Refusal>
    requires steady { IsSteady mem.old }
    requires cleared { IsCleared reply.old }
    ensures { DoesBeside mem.old mem.new commands.Compact (reply_in reply.new result) }
{
    add_moves::<Brand>(mem, alloc, &mut reply.notes, Blank::new(1))?;
    answer_with(reply, Answer::Done);
    Ok(())
}

/// Moves the frames, the walks counted by a ledger of these steps. Nobody reads those of a command.
fn add_moves<L: Ledger>(
    mem: &mut Mem,
    alloc: Global,
    notes: &mut Notes,
    blank: Blank,
) -> Result<(), AllocError>
    requires between { HasBetween mem.old }
    requires name { blank.name ≡ L.name }
    requires parts { blank.parts ≡ L.parts }
    requires some { 0 < blank.parts }
    ensures adds { OnOk result (AddsMoves mem.old mem.new notes.old notes.new) }
    ensures count { frame_count mem.new ≡ frame_count mem.old }
{
    let mut steps = Steps::<L>::open(blank);
    compact_frames(mem, alloc, notes, &mut steps)
}
