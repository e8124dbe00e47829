//! A page that has a frame is read or written.

ghost use Rattle.std.specs.Prelude.{◌≡◌, ◌<◌, ◌∷◌, [], Bool, true, false, is_some, IfOk, OnOk};
ghost use Rattle.av_pagetable.specs.Entries.{entry_at};
ghost use Rattle.av_pagetable.specs.declared.pte.Pte.TheVariants as Pte;
ghost use Rattle.av_plain.specs.Areas.{Rmap};
ghost use Rattle.av_plain.specs.Device.{Device, IsSameDevice, seen_by};
ghost use Rattle.av_plain.specs.Event.{Used};
ghost use Rattle.av_plain.specs.Fault.{asks_copy as asks_copy_by};
ghost use Rattle.av_plain.specs.Ledger.{Ledger, slot_of};
ghost use Rattle.av_plain.specs.World.{World};
ghost use Rattle.av_spaces.specs.Spaces.{pages_of};
ghost use Rattle.av_vma.specs.Pages.{home_of};
ghost use Rattle.av_mem.specs.Mem.{HasItems, frame_count, view};
ghost use Rattle.av_mem.specs.Steps.{KeepsParts};
ghost use Rattle.av_mem.specs.Between.{WhateverStood, HasBetween, HasDone, IsBetween, KeepsBetween};
ghost use Rattle.av_fault.specs.Making.{HasMade};
ghost use Rattle.av_fault.specs.Using.{HasDropped, HasDroppedFull, IsHere, asks_copy_in};

use crate::fault::Touched;
use crate::making::make_copy;
use av_mem::Mem;
use av_mem::entries::accessed_entry;
use av_swapdev::SwapDev;
use av_trace::{Note, Notes};
use std::alloc::AllocError;

/// Marks the frame of a page as accessed, by a read.
pub(crate) fn read_frame(mem: &mut Mem, key: (u16, u64), frame: u32, write: bool, seen: bool)
    requires { entry_at mem.old.tables key.0 key.1 ≡ Pte.Here frame write seen }
    ensures read { (d : Device) (w : World) (r : Rmap) (l : Ledger) → KeepsBetween d mem.old w r l
        → HasDone d d mem.old mem.new w r l (Used false key ∷ []) }
    ensures here { entry_at mem.new.tables key.0 key.1 ≡ Pte.Here frame write true }
    ensures count { frame_count mem.new ≡ frame_count mem.old }
{
    if !seen {
        mem.tables
            .change(key.0, key.1, accessed_entry(frame, write));
    }
}

/// Makes a page ready that may be read and has come in: its frame is marked as accessed, and the
/// slot of that is dropped where it is needed no more and swap is full.
pub(crate) fn read_in(
    mem: &mut Mem,
    key: (u16, u64),
    frame: u32,
    notes: &mut Notes,
) -> Result<Touched, AllocError>
    requires between { HasBetween mem.old }
    requires here { entry_at mem.old.tables key.0 key.1 ≡ Pte.Here frame false false }
    ensures made { IfOk result (λ touched. (d : Device) (w : World) (r : Rmap) (l : Ledger)
        → KeepsBetween d mem.old w r l
        → HasMade d d mem.old mem.new w r l false true key notes.old notes.new touched) }
    ensures count { frame_count mem.new ≡ frame_count mem.old }
{
    drop_where_full(mem, frame, notes)?;
    read_frame(mem, key, frame, false, false);
    Ok(Touched::Ready(frame))
}

/// Makes a page ready that may be written and has this frame: a copy where others have the frame or
/// its slot or it is merged, else its own, whose slot is dropped where it is needed no more. What
/// it has is at home there then. Where the entry is settled, it is marked as written already.
pub(crate) fn write_frame<D: SwapDev>(
    mem: &mut Mem,
    dev: &mut D,
    key: (u16, u64),
    frame: u32,
    settled: bool,
    home: Option<(u64, u64)>,
    notes: &mut Notes,
) -> Result<Touched, AllocError>
    requires between { IsBetween (D.sizes dev.old) mem.old }
    requires here { IsHere mem.old key frame settled }
    requires home { home ≡ home_of key.1 (pages_of mem.old.spaces.processes key.0 key.1) }
    ensures made { IfOk result (λ touched. WhateverStood
        (seen_by D.sizes D.pages D.failures D.history dev.old)
        (seen_by D.sizes D.pages D.failures D.history dev.new) mem.old (λ d d' w r l.
        (came : Bool)
        → HasMade d d' mem.old mem.new w r l true came key notes.old notes.new touched)) }
    ensures same { IsSameDevice (seen_by D.sizes D.pages D.failures D.history dev.old)
        (seen_by D.sizes D.pages D.failures D.history dev.new) }
    ensures count { frame_count mem.new ≡ frame_count mem.old }
{
    if !settled && asks_copy(mem, frame) {
        return make_copy(mem, dev, key, frame, home, notes);
    }
    let cached = drop_unneeded(mem, frame, notes)?;
    write_own(mem, key, frame, settled, home, cached);
    Ok(Touched::Ready(frame))
}

/// Whether a write to the frame has to copy it: another entry names it, or an entry names the slot
/// at which it is cached, or it is merged.
fn asks_copy(mem: &Mem, frame: u32) -> bool
    requires itemed { HasItems mem.now }
    requires in_range { frame < frame_count mem.now }
    ensures { result ≡ asks_copy_in (view mem.now) frame }
{
    if mem.frames.maps(frame) > 1 {
        return true;
    }
    let named = match mem.frames.slot(frame) {
        Some(slot) => mem.swap.entries(slot) > 0,
        None => false,
    };
    named || mem.is_merged(frame)
}

/// Drops the slot at which a frame is cached where no entry names the slot and it isn't in flight.
/// Tells whether the frame is still cached.
pub(crate) fn drop_unneeded(
    mem: &mut Mem,
    frame: u32,
    notes: &mut Notes,
) -> Result<bool, AllocError>
    requires between { HasBetween mem.old }
    requires in_use { 0 < (view mem.old).maps frame }
    ensures dropped { IfOk result (λ cached. (d : Device) (w : World) (r : Rmap) (l : Ledger)
        → KeepsBetween d mem.old w r l
        → HasDropped d mem.old mem.new w r l frame notes.old notes.new cached) }
    ensures entries { entry_at mem.new.tables ≡ entry_at mem.old.tables }
    ensures parts { KeepsParts mem.old mem.new }
{
    let Some(slot) = mem.frames.slot(frame) else {
        return Ok(false);
    };
    if mem.swap.in_flight(slot) || mem.swap.entries(slot) > 0 {
        return Ok(true);
    }
    mem.drop_slot(frame, slot);
    notes.push(Note::Dropped(slot))?;
    Ok(false)
}

/// The same, but only where swap is full.
fn drop_where_full(mem: &mut Mem, frame: u32, notes: &mut Notes) -> Result<(), AllocError>
    requires between { HasBetween mem.old }
    requires in_use { 0 < (view mem.old).maps frame }
    ensures dropped { OnOk result ((d : Device) (w : World) (r : Rmap) (l : Ledger)
        → KeepsBetween d mem.old w r l
        → HasDroppedFull d mem.old mem.new w r l frame notes.old notes.new) }
    ensures entries { entry_at mem.new.tables ≡ entry_at mem.old.tables }
    ensures count { frame_count mem.new ≡ frame_count mem.old }
{
    if !mem.swap.full() {
        return Ok(());
    }
    let _cached = drop_unneeded(mem, frame, notes)?;
    Ok(())
}

/// Marks the frame of a page as written in place; it is at home there then, and where it is cached
/// it is dirty.
fn write_own(
    mem: &mut Mem,
    key: (u16, u64),
    frame: u32,
    settled: bool,
    home: Option<(u64, u64)>,
    cached: bool,
)
    requires here { IsHere mem.old key frame settled }
    requires in_range { frame < frame_count mem.old }
    requires home { home ≡ home_of key.1 (pages_of mem.old.spaces.processes key.0 key.1) }
    ensures written { (d : Device) (w : World) (r : Rmap) (l : Ledger)
        → KeepsBetween d mem.old w r l → asks_copy_by l frame ≡ false
        → cached ≡ is_some (slot_of l frame)
        → HasDone d d mem.old mem.new w r l (Used true key ∷ []) }
    ensures here { entry_at mem.new.tables key.0 key.1 ≡ Pte.Here frame true true }
    ensures count { frame_count mem.new ≡ frame_count mem.old }
{
    if !settled {
        mem.tables.change(key.0, key.1, accessed_entry(frame, true));
    }
    mem.frames.set_home(frame, home);
    if cached {
        mem.frames.set_dirty(frame, true);
    }
}
