//! The walk from a frame to the entries that name it.

ghost use Rattle.std.specs.Prelude.{◌≡◌, ◌+◌, ◌<◌, IfOk, OnErr, OnOk};
ghost use Rattle.std.specs.List.{AllByRecursion};
ghost use Rattle.av_base.specs.Limits.{top_page};
ghost use Rattle.av_plain.specs.Device.{Device};
ghost use Rattle.av_plain.specs.Ledger.{walk as walk_of};
ghost use Rattle.av_plain.specs.Transcript.{State};
ghost use Rattle.av_mem.specs.Mem.{frame_count, IsSteady, Keeps};
ghost use Rattle.av_mem.specs.Walk.{areas_of_frame};

use crate::mem::Mem;
use av_base::Steps;
use av_rmap::merged::walk_merged;
use av_rmap::sorted::walk_frame;
use av_rmap::stores::Stores;
use std::alloc::{AllocError, Global};
use std::sync::ledger::Ledger;

/// Process and page of each entry that names the frame, by process and then by page. It takes
/// exactly as many steps as areas that are linked to the anon_vma of the frame's home hold its
/// index, or of a merged one so many item by item; without memory none.
///
/// It is one call of `walk_frame` or `walk_merged`, whose looks at an entry are no more than its
/// steps.
pub fn walk<L: Ledger>(
    mem: &Mem,
    alloc: Global,
    frame: u32,
    steps: &mut Steps<L>,
) -> Result<Vec<(u16, u64)>, AllocError>
    requires steady { IsSteady mem.now }
    requires in_range { frame < frame_count mem.now }
    ensures keys { (d : Device) (s : State) → Keeps d mem.now s
        → IfOk result (λ keys. keys.items ≡ walk_of s.ledger frame) }
    ensures below { IfOk result (λ keys. AllByRecursion (λ key. key.1 < top_page) keys.items) }
    ensures counted { OnOk result
        (steps.new ≡ steps.old + areas_of_frame mem.now frame) }
    ensures kept { OnErr result (steps.new ≡ steps.old) }
{
    let stores = Stores {
        areas: mem.spaces.by_number(),
        anons: &mem.anons,
        tables: &mem.tables,
    };
    let count = mem.frames.maps(frame);
    if mem.items.is_merged(frame) {
        return walk_merged(alloc, &stores, frame, mem.items.of(frame), count, steps);
    }
    walk_frame(alloc, &stores, frame, mem.frames.home(frame), count, steps)
}
