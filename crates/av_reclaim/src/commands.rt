//! The commands of reclaim, and the search for a free frame, over the memory system and its device.

ghost use Rattle.std.specs.Prelude.{◌≡◌, IfOk, None, []};
ghost use Rattle.av_trace.specs.declared.reply.Answer.TheVariants.{Done};
ghost use Rattle.av_plain.specs.Device.{IsSameDevice, seen_by};
ghost use Rattle.av_plain.specs.Event.{note_events};
ghost use Rattle.av_plain.specs.Fault.{sparing};
ghost use Rattle.av_plain.specs.Pass.{Seeks};
ghost use Rattle.av_plain.specs.Reclaim.{Ages, CompletesFirst, Reclaims};
ghost use Rattle.av_evict.specs.Pass.{IsEnd, IsNext};
ghost use Rattle.av_mem.specs.Between.{IsBetween, WhateverStood};
ghost use Rattle.av_mem.specs.Mem.{frame_count, view};
ghost use Rattle.av_reclaim.specs.Commands.{AddsNotes, HasAdded};

use crate::driver::Driver;
use av_evict::SeekEnd;
use av_mem::Mem;
use av_swapdev::SwapDev;
use av_trace::Notes;
use std::alloc::AllocError;

/// Reclaims the last `count` frames of inactive, or all where there are fewer, and adds the notes
/// of what became of each. After want of memory it is the same device, and there are as many
/// frames.
pub fn reclaim<D: SwapDev>(
    mem: &mut Mem,
    dev: &mut D,
    count: u32,
    notes: &mut Notes,
) -> Result<(), AllocError>
    requires { IsBetween (D.sizes dev.old) mem.old }
    ensures { let d = seen_by D.sizes D.pages D.failures D.history in AddsNotes
        (λ m w l added. Reclaims m w l count (note_events added) Done [])
        (d dev.old) (d dev.new) mem.old mem.new notes.old notes.new result }
{
    let mut driver = Driver { mem, dev };
    av_evict::reclaim(&mut driver, count, notes)?;
    Ok(())
}

/// Moves the last `count` frames of active to inactive, or all where there are fewer, and adds a
/// note of each. After want of memory as `reclaim`.
pub fn age<D: SwapDev>(
    mem: &mut Mem,
    dev: &mut D,
    count: u32,
    notes: &mut Notes,
) -> Result<(), AllocError>
    requires { IsBetween (D.sizes dev.old) mem.old }
    ensures { let d = seen_by D.sizes D.pages D.failures D.history in AddsNotes
        (λ m w l added. Ages l count (note_events added) Done [])
        (d dev.old) (d dev.new) mem.old mem.new notes.old notes.new result }
{
    let mut driver = Driver { mem, dev };
    av_evict::age(&mut driver, count, notes)?;
    Ok(())
}

/// Completes the first `count` writes in flight, or all where there are fewer, and adds the notes
/// of how each ended. After want of memory as `reclaim`.
pub fn complete<D: SwapDev>(
    mem: &mut Mem,
    dev: &mut D,
    count: u32,
    notes: &mut Notes,
) -> Result<(), AllocError>
    requires { IsBetween (D.sizes dev.old) mem.old }
    ensures { let d = seen_by D.sizes D.pages D.failures D.history in AddsNotes
        (λ m w l added. CompletesFirst l count (note_events added) Done [])
        (d dev.old) (d dev.new) mem.old mem.new notes.old notes.new result }
{
    let mut driver = Driver { mem, dev };
    av_evict::complete(&mut driver, count, notes)?;
    Ok(())
}

/// Finds a free frame, behind a direct pass exactly where none is free, and adds the notes of the
/// pass, which leaves the pinned frame alone. After want of memory as `reclaim`.
pub fn seek<D: SwapDev>(
    mem: &mut Mem,
    dev: &mut D,
    pinned: Option<u32>,
    notes: &mut Notes,
) -> Result<SeekEnd, AllocError>
    requires { IsBetween (D.sizes dev.old) mem.old }
    ensures seeks { IfOk result (λ end. WhateverStood
        (seen_by D.sizes D.pages D.failures D.history dev.old)
        (seen_by D.sizes D.pages D.failures D.history dev.new) mem.old (λ d d' w r l.
        HasAdded (λ m w l added. Seeks m (sparing w l pinned) l added
        × IsEnd m (sparing w l pinned) end l added)
        d d' mem.old mem.new w r l notes.old notes.new)) }
    ensures next { IfOk result (λ end. IsNext end (view mem.new).free) }
    ensures same { IsSameDevice (seen_by D.sizes D.pages D.failures D.history dev.old)
        (seen_by D.sizes D.pages D.failures D.history dev.new) }
    ensures count { frame_count mem.new ≡ frame_count mem.old }
{
    let mut driver = Driver { mem, dev };
    let end = av_evict::seek(&mut driver, pinned, notes)?;
    Ok(end)
}
