//! A fault at a page that is not mapped.

ghost use Rattle.av_mem.specs.Mem.{Keeps};
ghost use Rattle.av_plain.specs.Device.{Device, setting_of};
ghost use Rattle.av_plain.specs.Transcript.{at_first};

use av_fault::*;
use av_mem::Mem;
use av_swapdev::MemDev;
use av_trace::Notes;
use std::alloc::{AllocError, Global};
use std::test::Fail;

/// Whether a page that isn't mapped is not made ready in a new memory system of two frames, and
/// takes none.
fn is_stopped(alloc: Global, mem: &mut Mem) -> Result<bool, AllocError>
    requires { (d : Device) → Keeps d mem.old (at_first (setting_of 2 d)) }
{
    if mem.frames.free() != 2 || mem.spaces.count() != 0 {
        return Ok(false);
    }
    let mut notes = Notes::new(alloc);
    let mut dev = MemDev::new(Vec::new(alloc), Vec::new(alloc));
    let touched = touch(mem, &mut dev, 1, 16, true, &mut notes)?;
    Ok(touched == Touched::Stopped(Stop::Denied) && mem.frames.free() == 2)
}

/// The same in one.
fn is_stopped_in_new(alloc: Global) -> Result<bool, AllocError> {
    let Ok(mut mem) = Mem::new(alloc, 2) else {
        return Err(AllocError);
    };
    is_stopped(alloc, &mut mem)
}

/// In a new memory system all frames are free, and a page that isn't mapped takes none.
#[test]
fn a_page_that_is_not_mapped_is_not_ready(rt: HostRuntime) -> Result<(), Fail> {
    assert!(rt; is_stopped_in_new(rt.alloc())?);
    Ok(())
}
