//! How a frame goes over to another: with its entries, its slot, its place in its list, its items
//! and all that is kept of it.

ghost use Rattle.std.specs.Prelude.{◌≡◌, ◌+◌, ◌<◌, OnErr, OnOk, false, true};
ghost use Rattle.av_base.specs.Words.{is_in};
ghost use Rattle.av_pagetable.specs.Entries.{entry_at, has, with_entry};
ghost use Rattle.av_mem.specs.Mem.{IsSteady, frame_count, locks_of, view};
ghost use Rattle.av_mem.specs.Steps.{KeepsBut};
ghost use Rattle.av_mem.specs.Walk.{areas_of_frame};
ghost use Rattle.av_migrate.specs.Move.{locks_moved, view_moved};
ghost use Rattle.av_migrate.specs.Point.{with_frame, with_frame_at};

use av_base::Steps;
use av_mem::Mem;
use av_mem::walk::walk;
use av_pagetable::{PageTable, Pte, Tables};
use std::alloc::{AllocError, Global};
use std::sync::ledger::Ledger;

/// A frame in use goes over to a free one. Its entries are found by its walk alone, with exactly
/// the steps of that; without memory for it all stays.
///
/// It costs its walk and the copy of a page, wherever that one stands in the list of free ones.
pub fn move_frame<L: Ledger>(
    mem: &mut Mem,
    alloc: Global,
    from: u32,
    to: u32,
    steps: &mut Steps<L>,
) -> Result<(), AllocError>
    requires steady { IsSteady mem.old }
    requires in_range { (from < frame_count mem.old) × (to < frame_count mem.old) }
    requires used { is_in from (view mem.old).free ≡ false }
    requires free { is_in to (view mem.old).free ≡ true }
    ensures moved { OnOk result (view mem.new ≡ view_moved from to (view mem.old)) }
    ensures counted { OnOk result (steps.new ≡ steps.old + areas_of_frame mem.old from) }
    ensures parts { OnOk result (KeepsBut (locks_moved from to (locks_of mem.old))
        mem.old mem.new) }
    ensures none { OnErr result (mem.new ≡ mem.old) }
{
    let keys = walk(mem, alloc, from, steps)?;
    point_all(&mut mem.tables, &keys, to);
    mem.swap.rename(&mem.frames, from, to);
    mem.lists.rename(from, to);
    mem.items.rename(from, to);
    mem.frames.relocate(from, to);
    Ok(())
}

/// The entries of frames at these keys name this frame, seen and written as they were.
fn point_all(tables: &mut Tables<PageTable>, keys: &[(u16, u64)], frame: u32)
    ensures entries { entry_at tables.new ≡ with_frame_at keys.now frame (entry_at tables.old) }
    ensures processes { has tables.new ≡ has tables.old }
{
    for key in keys {
        point(tables, *key, frame);
    }
}

/// The entry of a page, if it is that of a frame, names this frame.
fn point(tables: &mut Tables<PageTable>, key: (u16, u64), frame: u32)
    ensures entries { entry_at tables.new ≡ with_entry key.0 key.1
        (with_frame frame (entry_at tables.old key.0 key.1)) (entry_at tables.old) }
    ensures processes { has tables.new ≡ has tables.old }
{
    if let Pte::Here { write, seen, .. } = tables.get(key.0, key.1) {
        let entry = Pte::Here { frame, write, seen };
        tables.change(key.0, key.1, entry);
    }
}
