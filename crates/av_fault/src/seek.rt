//! What comes before a frame is taken.

ghost use Rattle.std.specs.Prelude.{◌≡◌, IfOk};
ghost use Rattle.av_plain.specs.Device.{IsSameDevice, seen_by};
ghost use Rattle.av_mem.specs.Between.{WhateverStood, IsBetween};
ghost use Rattle.av_mem.specs.Mem.{frame_count};
ghost use Rattle.av_fault.specs.Seek.{HasSought};

use av_evict::SeekEnd;
use av_mem::Mem;
use av_swapdev::SwapDev;
use av_trace::{Notes, OutOf};
use std::alloc::AllocError;

/// What was found.
#[derive(Clone, Copy, Drop)]
pub(crate) enum Got {
    /// A frame is free.
    Frame,
    /// None is, and these are the numbers of the out-of-memory.
    Out(OutOf),
}

/// Seeks a frame that may be taken, behind a direct pass exactly where none is free. The pass
/// leaves the pinned frame alone, and its notes are added.
pub(crate) fn seek<D: SwapDev>(
    mem: &mut Mem,
    dev: &mut D,
    pinned: Option<u32>,
    notes: &mut Notes,
) -> Result<Got, AllocError>
    requires between { IsBetween (D.sizes dev.old) mem.old }
    ensures sought { IfOk result (λ got. WhateverStood
        (seen_by D.sizes D.pages D.failures D.history dev.old)
        (seen_by D.sizes D.pages D.failures D.history dev.new) mem.old
        (λ d d' w r l. HasSought d d' mem.old mem.new w r l pinned notes.old notes.new got)) }
    ensures same { IsSameDevice (seen_by D.sizes D.pages D.failures D.history dev.old)
        (seen_by D.sizes D.pages D.failures D.history dev.new) }
    ensures count { frame_count mem.new ≡ frame_count mem.old }
{
    match av_reclaim::seek(mem, dev, pinned, notes)? {
        SeekEnd::Frame(_) => Ok(Got::Frame),
        SeekEnd::Out(out) => Ok(Got::Out(out)),
    }
}
