//! The command: the area closes, is emptied, and goes off, or stays on.

ghost use Rattle.std.specs.Prelude.{◌≡◌, IfOk, Some, false, true};
ghost use Rattle.av_base.specs.declared.slot.Slot.{Slot};
ghost use Rattle.av_plain.specs.Device.{IsSameDevice, as_told, seen_by};
ghost use Rattle.av_swapcache.specs.Swap.{count_of, is_on, shown};
ghost use Rattle.av_mem.specs.Between.{WhateverStood, IsBetween};
ghost use Rattle.av_mem.specs.Mem.{frame_count};
ghost use Rattle.av_swapoff.specs.Command.{
  DoesClosing,
  HasEmptied,
  HasTurnedOff,
  IsClosingOver,
  after_closing,
};

use crate::empty::{EmptyEnd, empty};
use av_mem::Mem;
use av_reclaim::Driver;
use av_swapcache::Swap;
use av_swapdev::SwapDev;
use av_trace::Notes;
use std::alloc::{AllocError, Global};

/// Turns a swap area off that is on: all writes in flight end, each of its slots in use goes back
/// to its entries, and the notes of that are added. It stays on where a page can't be had, and what
/// came back before stays so. After want of memory it is the same device, and there are as many
/// frames.
pub fn swapoff<D: SwapDev>(
    alloc: Global,
    mem: &mut Mem,
    dev: &mut D,
    area: u8,
    notes: &mut Notes,
) -> Result<EmptyEnd, AllocError>
    requires between { IsBetween (D.sizes dev.old) mem.old }
    requires on { is_on (shown mem.old.swap) area ≡ true }
    ensures turned { IfOk result (λ end. WhateverStood
        (seen_by D.sizes D.pages D.failures D.history dev.old)
        (seen_by D.sizes D.pages D.failures D.history dev.new) mem.old (λ d d' w r l.
        HasTurnedOff d d' mem.old mem.new w r l area notes.old notes.new end)) }
    ensures same { IsSameDevice (seen_by D.sizes D.pages D.failures D.history dev.old)
        (seen_by D.sizes D.pages D.failures D.history dev.new) }
    ensures count { frame_count mem.new ≡ frame_count mem.old }
{
    mem.swap.close(area);
    let end = empty_area(alloc, mem, dev, area, notes)?;
    end_closing(&mut mem.swap, area, end);
    Ok(end)
}

/// Empties an area that is closing, over the memory system and its device.
fn empty_area<D: SwapDev>(
    alloc: Global,
    mem: &mut Mem,
    dev: &mut D,
    area: u8,
    notes: &mut Notes,
) -> Result<EmptyEnd, AllocError>
    requires { IsClosingOver (as_told false
        (seen_by D.sizes D.pages D.failures D.history dev.old)) area mem.old }
    ensures emptied { IfOk result (λ end. DoesClosing area
        (seen_by D.sizes D.pages D.failures D.history dev.old)
        (seen_by D.sizes D.pages D.failures D.history dev.new) mem.old (λ d d' w r l.
        HasEmptied d d' mem.old mem.new w r l area notes.old notes.new end)) }
    ensures same { IsSameDevice (seen_by D.sizes D.pages D.failures D.history dev.old)
        (seen_by D.sizes D.pages D.failures D.history dev.new) }
    ensures count { frame_count mem.new ≡ frame_count mem.old }
{
    let mut driver = Driver { mem, dev };
    let end = empty(alloc, &mut driver, area, notes)?;
    Ok(end)
}

/// Turns the area that is closing off where it is empty, else lets it give its slots again.
fn end_closing(swap: &mut Swap, area: u8, end: EmptyEnd)
    requires on { is_on (shown swap.old) area ≡ true }
    requires closing { (shown swap.old).closing ≡ Some area }
    requires unused { end ≡ EmptyEnd.Empty → (s : Slot) → s.area ≡ area
        → count_of (shown swap.old) s ≡ 0 }
    ensures { shown swap.new ≡ after_closing area end (shown swap.old) }
{
    match end {
        EmptyEnd::Empty => swap.remove(area),
        EmptyEnd::NoFrame(_) | EmptyEnd::NoPage => swap.reopen(),
    }
}
