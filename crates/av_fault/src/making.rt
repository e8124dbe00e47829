//! A page gets the page of zeros, its first frame, or a copy of its frame.

ghost use Rattle.std.specs.Prelude.{◌≡◌, Bool, true, false, IfOk};
ghost use Rattle.av_pagetable.specs.Entries.{entry_at};
ghost use Rattle.av_pagetable.specs.declared.pte.Pte.TheVariants as Pte;
ghost use Rattle.av_plain.specs.Areas.{Rmap};
ghost use Rattle.av_plain.specs.Device.{Device, IsSameDevice, seen_by};
ghost use Rattle.av_plain.specs.Ledger.{Ledger};
ghost use Rattle.av_plain.specs.World.{World};
ghost use Rattle.av_spaces.specs.Spaces.{pages_of};
ghost use Rattle.av_vma.specs.Pages.{home_of};
ghost use Rattle.av_mem.specs.Mem.{frame_count, view};
ghost use Rattle.av_mem.specs.Between.{WhateverStood, IsBetween, KeepsBetween};
ghost use Rattle.av_fault.specs.Making.{HasMade, IsBare, IsMapped};
ghost use Rattle.av_fault.specs.Using.{IsHere, asks_copy_in};

use crate::fault::{Stop, Touched};
use crate::seek::{Got, seek};
use av_base::PAGE_SIZE;
use av_mem::Mem;
use av_mem::entries::{take_frame_for_copy, take_frame_of_zeros};
use av_pagetable::Pte;
use av_swapdev::SwapDev;
use av_trace::{Note, Notes};
use std::alloc::AllocError;

/// Gives a page without an entry the page of zeros, for a read.
pub(crate) fn make_zero(
    mem: &mut Mem,
    key: (u16, u64),
    notes: &mut Notes,
) -> Result<Touched, AllocError>
    requires mapped { IsMapped mem.old key }
    requires bare { entry_at mem.old.tables key.0 key.1 ≡ Pte.Empty }
    ensures made { IfOk result (λ touched. (d : Device) (w : World) (r : Rmap) (l : Ledger)
        → KeepsBetween d mem.old w r l
        → HasMade d d mem.old mem.new w r l false false key notes.old notes.new touched) }
    ensures count { frame_count mem.new ≡ frame_count mem.old }
{
    mem.tables.set(key.0, key.1, Pte::Zero)?;
    notes.push(Note::Zeroed {
        process: key.0,
        address: PAGE_SIZE * key.1,
    })?;
    Ok(Touched::Zeros)
}

/// Gives a page without a frame one of zeros, for a write; its area prepares its anon_vma.
pub(crate) fn make_new<D: SwapDev>(
    mem: &mut Mem,
    dev: &mut D,
    key: (u16, u64),
    notes: &mut Notes,
) -> Result<Touched, AllocError>
    requires between { IsBetween (D.sizes dev.old) mem.old }
    requires mapped { IsMapped mem.old key }
    requires bare { IsBare (entry_at mem.old.tables key.0 key.1) }
    ensures made { IfOk result (λ touched. WhateverStood
        (seen_by D.sizes D.pages D.failures D.history dev.old)
        (seen_by D.sizes D.pages D.failures D.history dev.new) mem.old (λ d d' w r l.
        HasMade d d' mem.old mem.new w r l true false key notes.old notes.new touched)) }
    ensures same { IsSameDevice (seen_by D.sizes D.pages D.failures D.history dev.old)
        (seen_by D.sizes D.pages D.failures D.history dev.new) }
    ensures count { frame_count mem.new ≡ frame_count mem.old }
{
    if let Got::Out(out) = seek(mem, dev, None, notes)? {
        return Ok(Touched::Stopped(Stop::Starved(out)));
    }
    let home = mem.spaces.prepare(&mut mem.anons, key.0, key.1)?;
    let frame = take_frame_of_zeros(mem, key, home)?;
    notes.push(Note::New {
        process: key.0,
        address: PAGE_SIZE * key.1,
        frame,
    })?;
    Ok(Touched::Ready(frame))
}

/// Gives a page a copy of its frame, which another entry names, or its slot, or which is merged.
pub(crate) fn make_copy<D: SwapDev>(
    mem: &mut Mem,
    dev: &mut D,
    key: (u16, u64),
    from: u32,
    home: Option<(u64, u64)>,
    notes: &mut Notes,
) -> Result<Touched, AllocError>
    requires between { IsBetween (D.sizes dev.old) mem.old }
    requires here { IsHere mem.old key from false }
    requires shared { asks_copy_in (view mem.old) from ≡ true }
    requires home { home ≡ home_of key.1 (pages_of mem.old.spaces.processes key.0 key.1) }
    ensures made { IfOk result (λ touched. WhateverStood
        (seen_by D.sizes D.pages D.failures D.history dev.old)
        (seen_by D.sizes D.pages D.failures D.history dev.new) mem.old (λ d d' w r l.
        (came : Bool)
        → HasMade d d' mem.old mem.new w r l true came key notes.old notes.new touched)) }
    ensures same { IsSameDevice (seen_by D.sizes D.pages D.failures D.history dev.old)
        (seen_by D.sizes D.pages D.failures D.history dev.new) }
    ensures count { frame_count mem.new ≡ frame_count mem.old }
{
    if let Got::Out(out) = seek(mem, dev, Some(from), notes)? {
        return Ok(Touched::Stopped(Stop::Starved(out)));
    }
    let frame = take_frame_for_copy(mem, key, from, home);
    notes.push(Note::Copied {
        process: key.0,
        address: PAGE_SIZE * key.1,
        frame,
    })?;
    Ok(Touched::Ready(frame))
}
