//! Reads and writes of a piece of one page.

ghost use Rattle.std.specs.Prelude.{◌≡◌, ◌+◌, ◌^◌, ◌<◌, ◌≤◌, length, true, replicate, ◌++◌, IfOk};
ghost use Rattle.std.specs.Prelude.{OnOk, []};
ghost use Rattle.std.specs.List.{AllByRecursion};
ghost use Rattle.av_base.specs.Page.{page_size};
ghost use Rattle.av_plain.specs.Device.{IsSameDevice, seen_by};
ghost use Rattle.av_plain.specs.Transcript.{State};
ghost use Rattle.av_mem.specs.Mem.{frame_count, Keeps};
ghost use Rattle.av_access.specs.Page.{IsPageStep, IsPageRead};
ghost use Rattle.av_step.specs.Step.{IsSteadyFor};

use av_base::PAGE_SIZE;
use av_fault::{Stop, Touched, touch};
use av_mem::Mem;
use av_swapdev::SwapDev;
use av_text::Bytes;
use av_trace::Notes;
use std::alloc::AllocError;

/// Writes a piece of a page, and adds the notes of what it took. None where it is served.
pub fn write_page<D: SwapDev>(
    mem: &mut Mem,
    dev: &mut D,
    process: u16,
    page: u64,
    at: usize,
    piece: &[u8],
    notes: &mut Notes,
) -> Result<Option<Stop>, AllocError>
    requires steady { IsSteadyFor (D.sizes dev.old) process mem.old }
    requires some { 1 ≤ length piece.now }
    requires fits { at + length piece.now ≤ page_size }
    ensures step { let d = seen_by D.sizes D.pages D.failures D.history in (s : State)
        → Keeps (d dev.old) mem.old s → IfOk result
        (IsPageStep (d dev.old) (d dev.new) s mem.new true process page at piece.now
        notes.old notes.new) }
    ensures steady { IfOk result (λ stop. IsSteadyFor (D.sizes dev.old) process mem.new) }
    ensures same { let d = seen_by D.sizes D.pages D.failures D.history in
        IsSameDevice (d dev.old) (d dev.new) }
    ensures count { frame_count mem.new ≡ frame_count mem.old }
{
    match touch(mem, dev, process, page, true, notes)? {
        Touched::Ready(frame) => {
            mem.frames.write_at(frame, at, piece);
            Ok(None)
        }
        Touched::Stopped(stop) => Ok(Some(stop)),
        Touched::Zeros => unreachable!(),
    }
}

/// Adds a piece of a page to what is shown, and the notes of what it took. None where it is served.
pub fn read_page<D: SwapDev>(
    mem: &mut Mem,
    dev: &mut D,
    process: u16,
    page: u64,
    at: usize,
    len: usize,
    shown: &mut Bytes,
    notes: &mut Notes,
) -> Result<Option<Stop>, AllocError>
    requires steady { IsSteadyFor (D.sizes dev.old) process mem.old }
    requires some { 1 ≤ len }
    requires fits { at + len ≤ page_size }
    ensures step { let d = seen_by D.sizes D.pages D.failures D.history in (s : State)
        → Keeps (d dev.old) mem.old s → IfOk result
        (IsPageRead (d dev.old) (d dev.new) s mem.new process page at len
        notes.old notes.new shown.old shown.new) }
    ensures steady { IfOk result (λ stop. IsSteadyFor (D.sizes dev.old) process mem.new) }
    ensures same { let d = seen_by D.sizes D.pages D.failures D.history in
        IsSameDevice (d dev.old) (d dev.new) }
    ensures count { frame_count mem.new ≡ frame_count mem.old }
{
    match touch(mem, dev, process, page, false, notes)? {
        Touched::Ready(frame) => {
            append_piece(shown, &mem.frames.bytes(frame)[at..at + len])?;
            Ok(None)
        }
        Touched::Zeros => {
            append_zeros(shown, len)?;
            Ok(None)
        }
        Touched::Stopped(stop) => Ok(Some(stop)),
    }
}

/// Accesses a page, and leaves its bytes; adds the notes of what it took. None where it is served.
pub fn serve_page<D: SwapDev>(
    mem: &mut Mem,
    dev: &mut D,
    process: u16,
    page: u64,
    write: bool,
    notes: &mut Notes,
) -> Result<Option<Stop>, AllocError>
    requires steady { IsSteadyFor (D.sizes dev.old) process mem.old }
    ensures step { let d = seen_by D.sizes D.pages D.failures D.history in (s : State)
        → Keeps (d dev.old) mem.old s → IfOk result
        (IsPageStep (d dev.old) (d dev.new) s mem.new write process page 0 [] notes.old notes.new) }
    ensures steady { IfOk result (λ stop. IsSteadyFor (D.sizes dev.old) process mem.new) }
    ensures same { let d = seen_by D.sizes D.pages D.failures D.history in
        IsSameDevice (d dev.old) (d dev.new) }
    ensures count { frame_count mem.new ≡ frame_count mem.old }
{
    match touch(mem, dev, process, page, write, notes)? {
        Touched::Ready(_frame) => Ok(None),
        Touched::Zeros => Ok(None),
        Touched::Stopped(stop) => Ok(Some(stop)),
    }
}

/// Adds a piece of a page.
fn append_piece(shown: &mut Bytes, piece: &[u8]) -> Result<(), AllocError>
    ensures shown { OnOk result (shown.new ≡ shown.old ++ piece.now) }
    ensures bytes { AllByRecursion (λ b. b < 2 ^ 8) piece.now }
{
    shown.append(piece)
}

/// Adds this many zeros.
fn append_zeros(shown: &mut Bytes, len: usize) -> Result<(), AllocError>
    requires { len ≤ page_size }
    ensures { OnOk result (shown.new ≡ shown.old ++ replicate len 0) }
{
    // Not a local: the function that this becomes a part of would pay for it at each entry.
    static ZEROS: [u8; PAGE_SIZE as usize] = [0; PAGE_SIZE as usize];
    shown.append(&ZEROS[..len])
}
