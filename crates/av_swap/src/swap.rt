//! Swap areas come on and go off, and what is asked of their slots: `swapon`, `swapoff` and
//! `slot`.

ghost use Rattle.std.specs.Prelude.{◌≡◌, ◌<◌, ◌≤◌, false, true, length, slice_get, unwrap_or};
ghost use Rattle.std.specs.Prelude.{MatchResult, Some};
ghost use Rattle.av_plain.specs.Device.{seen_by};
ghost use Rattle.av_swapcache.specs.Swap.{IsPage, header_at, shown as shown_swap};
ghost use Rattle.av_swapdev.specs.Device.{most_areas};
ghost use Rattle.av_trace.specs.Reply.{IsCleared};
ghost use Rattle.av_trace.specs.declared.command.Command.TheVariants as commands;
ghost use Rattle.av_trace.specs.declared.reply.Errno.TheVariants as errors;
ghost use Rattle.av_plain.specs.Swapoff.{close_answer};
ghost use Rattle.av_plain.specs.Swapon.{priority_of as priority_asked};
ghost use Rattle.av_swapoff.specs.Empty.{close_of};
ghost use Rattle.av_mem.specs.Mem.{IsSteady, IsSteadyAt};
ghost use Rattle.av_step.specs.Step.{Does, DoesBeside, reply_in, sizes_of};
ghost use Rattle.av_swap.specs.Swap.{has_page, on_answer as answer_of_on, page_answer};

use av_base::Slot;
use av_mem::Mem;
use av_step::{Refusal, answer_with};
use av_swapcache::SwapOn;
use av_swapdev::SwapDev;
use av_swapoff::EmptyEnd;
use av_trace::{Answer, Errno, Reply};
use std::alloc::Global;

/// The priority of a swap area for which none is asked: it is less than each that is.
const NO_PRIORITY: i32 = -1;

/// Does a `swapon`: the swap area is on then, with the slots of its header and this priority.
/// `sizes` says how many pages each attached area has.
pub fn swapon<D: SwapDev>(
    mem: &mut Mem,
    dev: &mut D,
    sizes: &[u32],
    alloc: Global,
    area: u8,
    priority: Option<u16>,
    reply: &mut Reply,
) -> Result<(), Refusal>
    requires steady { IsSteadyAt (D.sizes dev.old) mem.old }
    requires attached { D.sizes dev.old ≡ sizes_of sizes.now }
    requires few { length sizes.now ≤ most_areas }
    requires cleared { IsCleared reply.old }
    ensures { let d = seen_by D.sizes D.pages D.failures D.history in Does (d dev.old) (d dev.new)
        mem.old mem.new (commands.Swapon area priority) (reply_in reply.new result) }
{
    let pages = pages_of(sizes, area)?;
    let came = mem
        .swap
        .swapon(alloc, area, pages, priority_of(priority), dev)?;
    answer_with(reply, on_answer(came));
    Ok(())
}

/// The priority of an area, by the one that is asked for.
fn priority_of(asked: Option<u16>) -> i32
    ensures { result ≡ priority_asked asked }
{
    match asked {
        Some(priority) => i32::from(priority),
        None => NO_PRIORITY,
    }
}

/// How many pages a swap area has. Refuses where it isn't attached, or has none.
fn pages_of(sizes: &[u32], area: u8) -> Result<u32, Errno>
    ensures { MatchResult result
        (λ pages. (0 < pages) × (slice_get sizes.now area ≡ Some pages))
        (λ error. (unwrap_or (slice_get sizes.now area) 0 ≡ 0) × (error ≡ errors.Einval)) }
{
    match sizes.get(area as usize) {
        Some(pages) if *pages > 0 => Ok(*pages),
        _ => Err(Errno::Einval),
    }
}

/// What a `swapon` answers, by what came of it.
fn on_answer(came: SwapOn) -> Answer
    ensures { result ≡ answer_of_on came }
{
    match came {
        SwapOn::On(header) => Answer::On {
            slots: header.slots,
            bad: header.bad,
        },
        SwapOn::Busy => Answer::Refused(Errno::Ebusy),
        SwapOn::Io => Answer::Refused(Errno::Eio),
        SwapOn::Bad(_) => Answer::Refused(Errno::Einval),
    }
}

/// Does a `swapoff`: each page in a slot of the area comes back to its entries, and the area is off
/// then. It stays on where a page can't be had.
pub fn swapoff<D: SwapDev>(
    mem: &mut Mem,
    dev: &mut D,
    alloc: Global,
    area: u8,
    reply: &mut Reply,
) -> Result<(), Refusal>
    requires steady { IsSteadyAt (D.sizes dev.old) mem.old }
    requires cleared { IsCleared reply.old }
    ensures { let d = seen_by D.sizes D.pages D.failures D.history in Does (d dev.old) (d dev.new)
        mem.old mem.new (commands.Swapoff area) (reply_in reply.new result) }
{
    if !mem.swap.is_on(area) {
        return Err(Refusal::Refused(Errno::Einval));
    }
    let end = av_swapoff::swapoff(alloc, mem, dev, area, &mut reply.notes)?;
    answer_with(reply, end_answer(end));
    Ok(())
}

/// What a `swapoff` answers, by how the emptying of the area ended.
fn end_answer(end: EmptyEnd) -> Answer
    ensures { result ≡ close_answer (close_of end) }
{
    match end {
        EmptyEnd::Empty => Answer::Done,
        EmptyEnd::NoFrame(out) => Answer::NoFrame(out),
        EmptyEnd::NoPage => Answer::Refused(Errno::Eio),
    }
}

/// Does a `slot`: how many entries name a slot, with the frame that caches it counted too, and
/// which that is; or that the page is bad.
pub fn slot(mem: &Mem, area: u8, page: u32, reply: &mut Reply) -> Result<(), Refusal>
    requires steady { IsSteady mem.now }
    requires cleared { IsCleared reply.old }
    ensures { DoesBeside mem.now mem.now (commands.Slot area page) (reply_in reply.new result) }
{
    mem.swap.keeps();
    check_slot(mem, area, page)?;
    answer_with(reply, slot_answer(mem, Slot { area, page }));
    Ok(())
}

/// Refuses where the area is off, or the page is its header's or past its end.
fn check_slot(mem: &Mem, area: u8, page: u32) -> Result<(), Errno>
    ensures { MatchResult result
        (λ _. has_page (header_at (shown_swap mem.now.swap) area) page ≡ true)
        (λ error. (has_page (header_at (shown_swap mem.now.swap) area) page ≡ false)
        × (error ≡ errors.Einval)) }
{
    if !mem.swap.is_on(area) || page == 0 || page >= mem.swap.pages(area) {
        return Err(Errno::Einval);
    }
    Ok(())
}

/// What a page of a swap area that is on is.
fn slot_answer(mem: &Mem, slot: Slot) -> Answer
    requires { IsPage (shown_swap mem.now.swap) slot }
    ensures { result ≡ page_answer (shown_swap mem.now.swap) slot }
{
    if mem.swap.bad(slot) {
        return Answer::SlotBad(slot);
    }
    Answer::SlotCount {
        slot,
        count: mem.swap.count(slot),
        cached: mem.swap.find(slot),
    }
}
