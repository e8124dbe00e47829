//! A page comes in whose entry names a slot.

ghost use Rattle.std.specs.Prelude.{◌≡◌, false, IfOk};
ghost use Rattle.av_pagetable.specs.Entries.{entry_at};
ghost use Rattle.av_pagetable.specs.declared.pte.Pte.TheVariants as Pte;
ghost use Rattle.av_plain.specs.Device.{IsSameDevice, seen_by};
ghost use Rattle.av_spaces.specs.Spaces.{pages_of};
ghost use Rattle.av_vma.specs.Pages.{home_of};
ghost use Rattle.av_mem.specs.Mem.{frame_count};
ghost use Rattle.av_mem.specs.Between.{WhateverStood, IsBetween};
ghost use Rattle.av_fault.specs.Coming.{Comes, Fetches, HasCome};

use crate::fault::Stop;
use crate::seek::{Got, seek};
use av_base::{PAGE_SIZE, Slot};
use av_mem::Mem;
use av_swapdev::SwapDev;
use av_trace::{Note, Notes};
use std::alloc::AllocError;

/// The entry of a page that names a slot names the frame that caches it, into which the slot's page
/// is read from the device where none does; the frame, or why not.
pub(crate) fn come_in<D: SwapDev>(
    mem: &mut Mem,
    dev: &mut D,
    key: (u16, u64),
    slot: Slot,
    home: Option<(u64, u64)>,
    notes: &mut Notes,
) -> Result<Result<u32, Stop>, AllocError>
    requires between { IsBetween (D.sizes dev.old) mem.old }
    requires away { entry_at mem.old.tables key.0 key.1 ≡ Pte.Away slot }
    requires home { home ≡ home_of key.1 (pages_of mem.old.spaces.processes key.0 key.1) }
    ensures come { IfOk result (λ came. WhateverStood
        (seen_by D.sizes D.pages D.failures D.history dev.old)
        (seen_by D.sizes D.pages D.failures D.history dev.new) mem.old (λ d d' w r l.
        HasCome (λ m w l added came. Comes m w l key slot added came)
        d d' mem.old mem.new w r l notes.old notes.new came)) }
    ensures here { IfOk result (λ came. IfOk came (λ f.
        entry_at mem.new.tables key.0 key.1 ≡ Pte.Here f false false)) }
    ensures same { IsSameDevice (seen_by D.sizes D.pages D.failures D.history dev.old)
        (seen_by D.sizes D.pages D.failures D.history dev.new) }
    ensures count { frame_count mem.new ≡ frame_count mem.old }
{
    match fetch(mem, dev, key, slot, home, notes)? {
        Ok(frame) => {
            mem.map(key.0, key.1, slot, frame);
            notes.push(Note::Mapped {
                process: key.0,
                address: PAGE_SIZE * key.1,
                frame,
            })?;
            Ok(Ok(frame))
        }
        Err(stop) => Ok(Err(stop)),
    }
}

/// The frame that caches the slot of a page, into which the slot's page is read where none does.
fn fetch<D: SwapDev>(
    mem: &mut Mem,
    dev: &mut D,
    key: (u16, u64),
    slot: Slot,
    home: Option<(u64, u64)>,
    notes: &mut Notes,
) -> Result<Result<u32, Stop>, AllocError>
    requires between { IsBetween (D.sizes dev.old) mem.old }
    requires away { entry_at mem.old.tables key.0 key.1 ≡ Pte.Away slot }
    requires home { home ≡ home_of key.1 (pages_of mem.old.spaces.processes key.0 key.1) }
    ensures fetched { IfOk result (λ came. WhateverStood
        (seen_by D.sizes D.pages D.failures D.history dev.old)
        (seen_by D.sizes D.pages D.failures D.history dev.new) mem.old (λ d d' w r l.
        HasCome (λ m w l added came. Fetches m w l slot added came)
        d d' mem.old mem.new w r l notes.old notes.new came)) }
    ensures same { IsSameDevice (seen_by D.sizes D.pages D.failures D.history dev.old)
        (seen_by D.sizes D.pages D.failures D.history dev.new) }
    ensures count { frame_count mem.new ≡ frame_count mem.old }
{
    if let Some(frame) = mem.swap.find(slot) {
        return Ok(Ok(frame));
    }
    if let Got::Out(out) = seek(mem, dev, None, notes)? {
        return Ok(Err(Stop::Starved(out)));
    }
    let home = mem.home_to_load(slot, home);
    match mem.load(slot, home, dev) {
        Ok(frame) => {
            notes.push(Note::Loaded { slot, frame })?;
            Ok(Ok(frame))
        }
        Err(_) => Ok(Err(Stop::Lost)),
    }
}
