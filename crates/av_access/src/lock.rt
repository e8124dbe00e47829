//! Pages that come in, and no byte of them is read or stored.

ghost use Rattle.std.specs.Prelude.{◌≡◌, ◌+◌, ◌^◌, ◌<◌, IfOk, option_and_then};
ghost use Rattle.av_plain.specs.Device.{IsSameDevice, seen_by};
ghost use Rattle.av_plain.specs.Lock.{access_of};
ghost use Rattle.av_plain.specs.Transcript.{State};
ghost use Rattle.av_plain.specs.World.{pages as pages_of};
ghost use Rattle.av_mem.specs.Mem.{frame_count, Keeps};
ghost use Rattle.av_spaces.specs.Spaces as spaces;
ghost use Rattle.av_access.specs.Access.{HasServed, IsBroughtIn};
ghost use Rattle.av_access.specs.Lock.{access_in};
ghost use Rattle.av_step.specs.Step.{IsSteadyFor};

use crate::access::{AccessEnd, write_answer};
use crate::page::serve_page;
use av_base::PAGE_SIZE;
use av_fault::Stop;
use av_mem::Mem;
use av_swapdev::SwapDev;
use av_trace::{Answer, Notes};
use std::alloc::{AllocError, Global};

/// Accesses pages in turn, up to the first that is not served: a page that may be written as a
/// write does, else one that may be read as a read does, else not at all. The answer is that of a
/// write from the first page on.
pub fn bring_in<D: SwapDev>(
    mem: &mut Mem,
    dev: &mut D,
    alloc: Global,
    process: u16,
    from: u64,
    pages: u64,
    notes: &mut Notes,
) -> Result<Answer, AllocError>
    requires steady { IsSteadyFor (D.sizes dev.old) process mem.old }
    requires low { from + pages < 2 ^ 52 }
    ensures in_turn { let d = seen_by D.sizes D.pages D.failures D.history in (s : State)
        → Keeps (d dev.old) mem.old s → IfOk result
        (IsBroughtIn (d dev.old) (d dev.new) s mem.new process from pages notes.old notes.new) }
    ensures steady { IfOk result (λ answer. IsSteadyFor (D.sizes dev.old) process mem.new) }
    ensures same { let d = seen_by D.sizes D.pages D.failures D.history in
        IsSameDevice (d dev.old) (d dev.new) }
    ensures count { frame_count mem.new ≡ frame_count mem.old }
{
    let past = from + pages;
    let mut page = from;
    while page < past {
        if let Some(stop) = bring_in_page(mem, dev, process, page, notes)? {
            let ended = AccessEnd {
                stop: Some(stop),
                served: (PAGE_SIZE * (page - from)) as usize,
            };
            return Ok(write_answer(alloc, ended));
        }
        page += 1;
    }
    Ok(Answer::Done)
}

/// Accesses a page as it may be. None where it is served, or may not be accessed at all.
fn bring_in_page<D: SwapDev>(
    mem: &mut Mem,
    dev: &mut D,
    process: u16,
    page: u64,
    notes: &mut Notes,
) -> Result<Option<Stop>, AllocError>
    requires steady { IsSteadyFor (D.sizes dev.old) process mem.old }
    ensures in_turn { let d = seen_by D.sizes D.pages D.failures D.history in (s : State)
        → Keeps (d dev.old) mem.old s → IfOk result (λ stop.
        HasServed (d dev.old) (d dev.new) s mem.new process
        (access_of page (pages_of s.world process page)) (λ w. w) notes.old notes.new stop page) }
    ensures steady { IfOk result (λ stop. IsSteadyFor (D.sizes dev.old) process mem.new) }
    ensures same { let d = seen_by D.sizes D.pages D.failures D.history in
        IsSameDevice (d dev.old) (d dev.new) }
    ensures count { frame_count mem.new ≡ frame_count mem.old }
{
    match allowed_access(mem, process, page) {
        Some(write) => serve_page(mem, dev, process, page, write, notes),
        None => Ok(None),
    }
}

/// How a page comes in: true as a write does, false as a read. None where it may not be accessed.
fn allowed_access(mem: &Mem, process: u16, page: u64) -> Option<bool>
    ensures { result ≡ option_and_then access_in (spaces.pages_of mem.now.spaces.processes process
        page) }
{
    let area = mem.spaces.area(process, page)?;
    if area.prot.writable() {
        return Some(true);
    }
    area.prot.readable().then_some(false)
}
