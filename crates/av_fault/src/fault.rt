//! Making a page ready for an access, and the bit that marks it as accessed.

ghost use Rattle.std.specs.Prelude.{◌≡◌, ◌<◌, Bool, true, false, is_some, IfOk, IfSome, IsSome};
ghost use Rattle.av_base.specs.Limits.{top_page};
ghost use Rattle.av_mem.specs.Mem.{frame_count, ranges_of, IsSteadyAt};
ghost use Rattle.av_plain.specs.Device.{as_told, IsSameDevice, seen_by};
ghost use Rattle.av_plain.specs.Stands.{prot_of};
ghost use Rattle.av_plain.specs.World.{allows};
ghost use Rattle.av_spaces.specs.Spaces.{pages_of};
ghost use Rattle.av_vma.specs.Pages.{AreLaid, IsWhole, home_of};
ghost use Rattle.av_mem.specs.Between.{WhateverStood, IsBetween};
ghost use Rattle.av_fault.specs.Fault.{HasTouched, MakesReady, is_permitted};
ghost use Rattle.av_fault.specs.Making.{IsMapped};

use crate::coming::come_in;
use crate::making::{make_new, make_zero};
use crate::using::{read_frame, read_in, write_frame};
use av_base::Prot;
use av_mem::Mem;
use av_pagetable::Pte;
use av_swapdev::SwapDev;
use av_trace::{Notes, OutOf};
use av_vma::{Area, home};
use std::alloc::AllocError;

/// Why an access stopped at a page.
#[derive(Clone, Copy, Drop, Debug, PartialEq, Eq)]
pub enum Stop {
    /// The page is not mapped, or its protection does not allow the access.
    Denied,
    /// The page is on the device alone, and the device did not give it.
    Lost,
    /// A frame is wanted and none is free, and a direct pass freed none.
    Starved(OutOf),
}

/// What a page has for an access.
#[derive(Clone, Copy, Drop, Debug, PartialEq, Eq)]
pub enum Touched {
    /// A frame, which a write has for itself.
    Ready(u32),
    /// The page of zeros, at a read.
    Zeros,
    /// Nothing: the access ends before it.
    Stopped(Stop),
}

/// Makes a page ready for a read or a write, marks it as accessed, and adds the notes of what it
/// took.
#[inline(always)]
pub fn touch<D: SwapDev>(
    mem: &mut Mem,
    dev: &mut D,
    process: u16,
    page: u64,
    write: bool,
    notes: &mut Notes,
) -> Result<Touched, AllocError>
    requires { IsSteadyAt (D.sizes dev.old) mem.old }
    ensures ready { (told : Bool) → MakesReady
        (as_told told (seen_by D.sizes D.pages D.failures D.history dev.old))
        (as_told told (seen_by D.sizes D.pages D.failures D.history dev.new))
        mem.old mem.new write (process, page) notes.old notes.new result }
{
    let Some(area) = area_for(mem, process, page, write) else {
        return Ok(Touched::Stopped(Stop::Denied));
    };
    let key = (process, page);
    let home = home(&area, page);
    if write {
        touch_to_write(mem, dev, key, home, notes)
    } else {
        touch_to_read(mem, dev, key, home, notes)
    }
}

/// The area that holds a page, where its protection allows the access.
// An area that is handed up is copied twice, so this is made one with its caller.
#[inline(always)]
fn area_for(mem: &Mem, process: u16, page: u64, write: bool) -> Option<Area>
    ensures permitted { is_some result ≡ is_permitted write (prot_of (ranges_of
        mem.now.spaces.processes process) page) }
    ensures here { IfSome result (λ area. pages_of mem.now.spaces.processes process page
        ≡ Some area) }
    ensures below { IsSome result → page < top_page }
    ensures laid { AreLaid (pages_of mem.now.spaces.processes process) }
{
    let area = mem.spaces.area(process, page)?;
    permits(area.prot, write).then_some(area)
}

/// Whether a protection allows the access.
fn permits(prot: Prot, write: bool) -> bool
    ensures { result ≡ allows write prot }
{
    if write {
        prot.writable()
    } else {
        prot.readable()
    }
}

/// Makes a page ready that may be read: the page of zeros where it has no entry, the frame of its
/// slot, or else what it has. A slot that is needed no more is dropped where swap is full.
fn touch_to_read<D: SwapDev>(
    mem: &mut Mem,
    dev: &mut D,
    key: (u16, u64),
    home: Option<(u64, u64)>,
    notes: &mut Notes,
) -> Result<Touched, AllocError>
    requires between { IsBetween (D.sizes dev.old) mem.old }
    requires mapped { IsMapped mem.old key }
    requires permitted { is_permitted false
        (prot_of (ranges_of mem.old.spaces.processes key.0) key.1) ≡ true }
    requires home { home ≡ home_of key.1 (pages_of mem.old.spaces.processes key.0 key.1) }
    ensures touched { IfOk result (λ touched. WhateverStood
        (seen_by D.sizes D.pages D.failures D.history dev.old)
        (seen_by D.sizes D.pages D.failures D.history dev.new) mem.old (λ d d' w r l.
        HasTouched d d' mem.old mem.new w r l false key notes.old notes.new touched)) }
    ensures same { IsSameDevice (seen_by D.sizes D.pages D.failures D.history dev.old)
        (seen_by D.sizes D.pages D.failures D.history dev.new) }
    ensures count { frame_count mem.new ≡ frame_count mem.old }
{
    match mem.tables.get(key.0, key.1) {
        Pte::Empty => make_zero(mem, key, notes),
        Pte::Zero => Ok(Touched::Zeros),
        Pte::Here { frame, write, seen } => {
            read_frame(mem, key, frame, write, seen);
            Ok(Touched::Ready(frame))
        }
        Pte::Away { slot } => match come_in(mem, dev, key, slot, home, notes)? {
            Ok(frame) => read_in(mem, key, frame, notes),
            Err(stop) => Ok(Touched::Stopped(stop)),
        },
    }
}

/// Makes a page ready that may be written: a frame of zeros, or the frame that it has or that its
/// slot has, or a copy of that where others have it too, or it is merged.
fn touch_to_write<D: SwapDev>(
    mem: &mut Mem,
    dev: &mut D,
    key: (u16, u64),
    home: Option<(u64, u64)>,
    notes: &mut Notes,
) -> Result<Touched, AllocError>
    requires between { IsBetween (D.sizes dev.old) mem.old }
    requires mapped { IsMapped mem.old key }
    requires permitted { is_permitted true
        (prot_of (ranges_of mem.old.spaces.processes key.0) key.1) ≡ true }
    requires home { home ≡ home_of key.1 (pages_of mem.old.spaces.processes key.0 key.1) }
    ensures touched { IfOk result (λ touched. WhateverStood
        (seen_by D.sizes D.pages D.failures D.history dev.old)
        (seen_by D.sizes D.pages D.failures D.history dev.new) mem.old (λ d d' w r l.
        HasTouched d d' mem.old mem.new w r l true key notes.old notes.new touched)) }
    ensures same { IsSameDevice (seen_by D.sizes D.pages D.failures D.history dev.old)
        (seen_by D.sizes D.pages D.failures D.history dev.new) }
    ensures count { frame_count mem.new ≡ frame_count mem.old }
{
    match mem.tables.get(key.0, key.1) {
        Pte::Empty | Pte::Zero => make_new(mem, dev, key, notes),
        Pte::Here { frame, write, seen } => {
            write_frame(mem, dev, key, frame, write && seen, home, notes)
        }
        Pte::Away { slot } => match come_in(mem, dev, key, slot, home, notes)? {
            Ok(frame) => write_frame(mem, dev, key, frame, false, home, notes),
            Err(stop) => Ok(Touched::Stopped(stop)),
        },
    }
}
