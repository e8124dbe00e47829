//! A frame goes out to a slot and comes back; a slot in flight goes over to another frame; an area
//! goes on, is closed, and goes off.

ghost use Rattle.std.specs.Prelude.{◌≡◌, ℕ, None, Some, true, IfSome, IfOk};
ghost use Rattle.av_base.specs.declared.slot.Slot.{Slot as AnySlot};
ghost use Rattle.av_swapcache.specs.Swap.{HasAreas, IsUncached, fresh, shown};
ghost use Rattle.av_tests.specs.Swapcache.{AreKept, IsIdle, Serves};

use crate::swapdev::{header, is_attached};
use av_base::Slot;
use av_frames::Frames;
use av_swapcache::{Finished, Swap, SwapOn};
use av_swapdev::{Header, MemDev, PAGE_LEN, SwapDev};
use std::alloc::{AllocError, Global};

/// The slot that a fresh area gives first.
const FIRST: Slot = Slot { area: 0, page: 1 };

/// Puts a cached slot in flight, and writes the first there.
fn write<D: SwapDev>(
    swap: &mut Swap,
    frames: &mut Frames,
    slot: Slot,
    dev: &mut D,
) -> Option<Finished>
    requires areas { HasAreas (D.sizes dev.old) (shown swap.old) }
    ensures kept { AreKept (shown swap.old) (shown swap.new) }
    ensures same_sizes { D.sizes dev.new ≡ D.sizes dev.old }
{
    if swap.frames() != frames.count() || swap.in_flight(slot) {
        return None;
    }
    let frame = swap.find(slot)?;
    swap.start(frames, frame, slot);
    swap.finish(frames, dev)
}

/// Takes a cached slot off the cache, and says whether it is in use then.
fn drop_slot(swap: &mut Swap, frames: &mut Frames, slot: Slot) -> Option<bool>
    ensures same_on { (shown swap.new).on ≡ (shown swap.old).on }
    ensures spare { (f : ℕ) → IsUncached (shown swap.old) f → IsUncached (shown swap.new) f }
{
    if swap.frames() != frames.count() || swap.in_flight(slot) {
        return None;
    }
    let frame = swap.find(slot)?;
    swap.drop_ref(frames, frame, slot);
    Some(swap.is_in_use(slot))
}

/// Has so many entries name a slot that is in use and has none.
fn name(swap: &mut Swap, slot: Slot, entries: u32) -> bool
    ensures kept { AreKept (shown swap.old) (shown swap.new) }
{
    if swap.entries(slot) != 0 || !swap.is_in_use(slot) {
        return false;
    }
    swap.entry_up(slot, entries).is_ok() && swap.entries(slot) == entries
}

/// Takes frame 0 out to a slot that so many entries name then, and off the cache.
fn goes_out<D: SwapDev>(
    swap: &mut Swap,
    frames: &mut Frames,
    dev: &mut D,
    entries: u32,
) -> Option<Slot>
    requires { IsIdle (D.sizes dev.old) (shown swap.old) }
    ensures { IfSome result (λ _. Serves (D.sizes dev.new) 1 (shown swap.new)) }
{
    if swap.frames() != frames.count() || swap.frames() == 0 {
        return None;
    }
    let slot = swap.put(frames, 0)?;
    if !name(swap, slot, entries)
        || write(swap, frames, slot, dev) != Some(Finished::Done { slot, frame: 0 })
        || drop_slot(swap, frames, slot) != Some(true)
    {
        return None;
    }
    Some(slot)
}

/// Whether a slot that entries name comes back to frame 1, fails to be written again, and is given
/// back when no entry names it.
fn comes_back<D: SwapDev>(swap: &mut Swap, frames: &mut Frames, slot: Slot, dev: &mut D) -> bool
    requires { Serves (D.sizes dev.old) 1 (shown swap.old) }
{
    if swap.frames() != frames.count()
        || swap.frames() < 2
        || swap.entries(slot) == 0
        || swap.find(slot).is_some()
        || swap.load(frames, slot, 1, dev).is_err()
    {
        return false;
    }
    let frame = 1;
    let entries = swap.entries(slot);
    if write(swap, frames, slot, dev) != Some(Finished::Failed { slot, frame })
        || drop_slot(swap, frames, slot) != Some(true)
        || !swap.is_in_use(slot)
        || swap.entries(slot) != entries
    {
        return false;
    }
    swap.entry_down(slot, entries);
    !swap.is_in_use(slot) && swap.all_free_slots() == swap.all_slots()
}

/// Whether the slot that is cached at frame 0 goes over to frame 1, where none is.
fn goes_over(swap: &mut Swap, frames: &Frames) -> bool
    requires { IsUncached (shown swap.old) 1 }
{
    if swap.frames() != frames.count() || swap.frames() < 2 {
        return false;
    }
    let Some(slot) = frames.slot(0) else {
        return false;
    };
    if swap.find(slot) != Some(0) {
        return false;
    }
    swap.rename(frames, 0, 1);
    swap.find(slot) == Some(1)
}

/// Whether a slot that is put at frame 0 goes over to frame 1 in flight.
fn flies_over(swap: &mut Swap, frames: &mut Frames) -> bool
    requires { (slot : AnySlot) → (shown swap.old).find slot ≡ None }
{
    if swap.frames() != frames.count() || swap.frames() == 0 {
        return false;
    }
    let Some(slot) = swap.put(frames, 0) else {
        return false;
    };
    if swap.find(slot) != Some(0) || swap.in_flight(slot) {
        return false;
    }
    swap.start(frames, 0, slot);
    goes_over(swap, frames) && swap.in_flight(slot)
}

/// Turns area 0 on, of eight pages.
fn turn_on<D: SwapDev>(alloc: Global, swap: &mut Swap, dev: &mut D) -> Result<bool, AllocError>
    requires { shown swap.old ≡ fresh 2 }
    ensures { IfOk result (λ on. on ≡ true → IsIdle (D.sizes dev.new) (shown swap.new)) }
{
    if !is_attached(dev, "area", 8) {
        return Ok(false);
    }
    let header = Header {
        pages: 8,
        slots: 7,
        bad: 0,
    };
    Ok(swap.swapon(alloc, 0, 8, -1, dev)? == SwapOn::On(header))
}

/// Whether a frame goes out and comes back.
fn goes<D: SwapDev>(
    alloc: Global,
    swap: &mut Swap,
    frames: &mut Frames,
    dev: &mut D,
) -> Result<bool, AllocError>
    requires { shown swap.old ≡ fresh 2 }
{
    if !turn_on(alloc, swap, dev)? {
        return Ok(false);
    }
    let Some(slot) = goes_out(swap, frames, dev, 65) else {
        return Ok(false);
    };
    Ok(slot == FIRST && comes_back(swap, frames, slot, dev))
}

/// Whether area 0 goes on, is closed, opened again, and goes off.
fn goes_on_and_off<D: SwapDev>(
    alloc: Global,
    swap: &mut Swap,
    dev: &mut D,
) -> Result<bool, AllocError>
    requires { shown swap.old ≡ fresh 2 }
{
    if !turn_on(alloc, swap, dev)? || !swap.is_on(0) || swap.closing().is_some() {
        return Ok(false);
    }
    swap.close(0);
    let closed = swap.closing();
    swap.reopen();
    if closed != Some(0) || !swap.is_on(0) || swap.closing().is_some() {
        return Ok(false);
    }
    swap.close(0);
    swap.remove(0);
    Ok(!swap.is_on(0) && swap.closing().is_none() && swap.all_slots() == 0)
}

/// One area of eight pages, the first a header. The call of this number fails.
fn eight_pages(alloc: Global, failing: u64) -> Result<MemDev, AllocError> {
    let mut pages = vec![in alloc; [0; PAGE_LEN]; 8]?;
    pages[0] = header(true, 1, 7, &[]);
    Ok(MemDev::new(vec![in alloc; pages]?, vec![in alloc; failing]?))
}

#[test]
fn a_frame_goes_out_and_comes_back(rt: HostRuntime) -> Result<(), AllocError> {
    // The area is attached, its header read, a slot written and read, and then not written.
    let mut dev = eight_pages(rt.alloc(), 5)?;
    let mut swap = Swap::new(rt.alloc(), 2)?;
    let mut frames = Frames::new(rt.alloc(), 2)?;
    assert!(rt; goes(rt.alloc(), &mut swap, &mut frames, &mut dev)?);
    Ok(())
}

/// Whether a slot in flight goes over to another frame.
fn goes_on_and_over<D: SwapDev>(
    alloc: Global,
    swap: &mut Swap,
    frames: &mut Frames,
    dev: &mut D,
) -> Result<bool, AllocError>
    requires { shown swap.old ≡ fresh 2 }
{
    if !turn_on(alloc, swap, dev)? {
        return Ok(false);
    }
    Ok(flies_over(swap, frames))
}

#[test]
fn a_slot_in_flight_goes_over_to_another_frame(rt: HostRuntime) -> Result<(), AllocError> {
    let mut dev = eight_pages(rt.alloc(), 9)?;
    let mut swap = Swap::new(rt.alloc(), 2)?;
    let mut frames = Frames::new(rt.alloc(), 2)?;
    assert!(rt; goes_on_and_over(rt.alloc(), &mut swap, &mut frames, &mut dev)?);
    Ok(())
}

#[test]
fn an_area_goes_on_and_off(rt: HostRuntime) -> Result<(), AllocError> {
    let mut dev = eight_pages(rt.alloc(), 9)?;
    let mut swap = Swap::new(rt.alloc(), 2)?;
    assert!(rt; goes_on_and_off(rt.alloc(), &mut swap, &mut dev)?);
    Ok(())
}
