//! A compaction: one frame goes down after the other, until those in use are the lowest.

ghost use Rattle.std.specs.Prelude.{◌≡◌, OnOk};
ghost use Rattle.av_mem.specs.Between.{HasBetween};
ghost use Rattle.av_mem.specs.Mem.{frame_count};
ghost use Rattle.av_migrate.specs.Compact.{CompactsInSteps};

use crate::moving::move_frame;
use crate::next::next_move;
use av_base::Steps;
use av_mem::Mem;
use av_trace::{Note, Notes};
use std::alloc::{AllocError, Global};
use std::sync::ledger::Ledger;

/// Makes the frames in use the lowest ones: the greatest in use goes over to the least that is
/// free, until they pass each other. Then the list of free ones rises. A note of each move is
/// added. What is locked, merged or in flight moves too.
///
/// It takes the steps of the walks of the frames that move. Each frame is looked at once or twice,
/// and at each move a page is copied. Of 16,384 frames, half of them free and scattered, some 4,100
/// move.
///
/// Without memory part of the moves may be done.
pub fn compact_frames<L: Ledger>(
    mem: &mut Mem,
    alloc: Global,
    notes: &mut Notes,
    steps: &mut Steps<L>,
) -> Result<(), AllocError>
    requires { HasBetween mem.old }
    ensures compacts { OnOk result
        (CompactsInSteps mem.old mem.new notes.old notes.new steps.old steps.new) }
    ensures count { frame_count mem.new ≡ frame_count mem.old }
{
    let mut low = 0;
    let mut past = mem.frames.count();
    while let Some((from, to)) = next_move(&mem.frames, low, past) {
        move_frame(mem, alloc, from, to, steps)?;
        notes.push(Note::Moved { from, to })?;
        low = to + 1;
        past = from;
    }
    mem.frames.order_free();
    Ok(())
}
