//! A program that uses the crates as a library: it gives a kernel a few lines, and another one with
//! a swap area some more, and prints each reply with how many frames are free then. An auditor
//! judges replies that another program may have given.
//!
//! What is proved: `ask` answers a line with the text of a legal reply to what the line commands,
//! the kernel stands for the state that this leaves, and each refusal comes only where it is due.
//! `judge_line` says of the text of a reply whether it is legal for what the line commands.
//! What is printed is only tested, by the file `stdout` beside `src/`.
#![tactic(auto)]

ghost use Rattle.std.specs.Prelude.{◌≡◌};
ghost use Rattle.av_audit.specs.Judge.{machine_of};
ghost use Rattle.av_audit.specs.Swap.{FitsWords};
ghost use Rattle.av_step.specs.Step.{sizes_of};

mod ask;
mod judging;

use crate::ask::ask;
use crate::judging::judge_line;
use av_audit::{Auditor, Verdict};
use av_audit_machine::Head;
use av_kernel::Kernel;
use av_replay::attach_all;
use av_swapdev::{MemDev, PAGE_LEN, SwapDev};
use std::process::ExitCode;

/// A page fault, two frames, and their end.
const FAULTS: [&str; 5] = [
    "spawn 1",
    "mmap 1 8192 rw-",
    "read 1 7fffffffd000 2",
    "write 1 7fffffffdfff 4142",
    "exit 1",
];

/// A page goes to its slot.
const SWAP: [&str; 8] = [
    "swapon 0",
    "spawn 1",
    "mmap 1 4096 rw-",
    "write 1 7fffffffe000 41",
    "reclaim 1",
    "age 1",
    "reclaim 1",
    "complete 1",
];

/// Lines, and what a program replied: the last reply shows a byte that was never stored.
const REPLIED: [(&str, &str); 5] = [
    ("swapon 0", "on 3 0\n"),
    ("spawn 1", "ok\n"),
    ("mmap 1 4096 rw-", "map 7fffffffe000\n"),
    ("write 1 7fffffffe000 41", "ok\n new 1 7fffffffe000 2\n"),
    ("read 1 7fffffffe000 1", "data 42\n"),
];

/// Gives a line to a kernel, and prints what it answers and how many frames are free then. None
/// where something fails.
fn show<D: SwapDev>(rt: &HostRuntime, kernel: &mut Kernel, dev: &mut D, line: &str) -> Option<()>
    requires { D.sizes dev.old ≡ sizes_of kernel.old.sizes }
    ensures { D.sizes dev.new ≡ sizes_of kernel.new.sizes }
{
    let text = ask(rt.alloc(), kernel, dev, line.as_bytes()).ok()?;
    let reply = str::from_utf8(text.as_slice()).ok()?;
    let free = kernel.frames().free();
    print!(rt; "{line}: {free} frames free\n{reply}").ok()
}

/// Gives the lines to a kernel, up to the first that fails.
fn show_all<D: SwapDev>(
    rt: &HostRuntime,
    kernel: &mut Kernel,
    dev: &mut D,
    lines: &[&str],
) -> Option<()>
    requires { D.sizes dev.old ≡ sizes_of kernel.old.sizes }
{
    for line in lines {
        show(rt, kernel, dev, line)?;
    }
    Some(())
}

/// Gives the lines to a machine of four frames without swap area.
fn show_on_four(rt: &HostRuntime) -> Option<()> {
    let Ok(mut kernel) = Kernel::new(rt.alloc(), 4, &[]) else {
        return None;
    };
    let mut dev = MemDev::new(Vec::new(rt.alloc()), Vec::new(rt.alloc()));
    show_all(rt, &mut kernel, &mut dev, &FAULTS)
}

/// The first page of a swap area of four pages, as `mkswap` writes it.
fn header() -> [u8; PAGE_LEN] {
    let mut page = [0; PAGE_LEN];
    page[1024] = 1;
    page[1028] = 3;
    page[PAGE_LEN - 10..].copy_from_slice(b"SWAPSPACE2");
    page
}

/// Attaches a swap area, and gives the lines to a machine of four frames that has it.
fn show_on_swap(rt: &HostRuntime) -> Option<()> {
    let mut area = vec![in rt.alloc(); [0; PAGE_LEN]; 4].ok()?;
    area[0] = header();
    let areas = vec![in rt.alloc(); area].ok()?;
    let mut dev = MemDev::new(areas, Vec::new(rt.alloc()));
    let pages = attach_all(rt.alloc(), &["swap"], &mut dev).ok()?;
    let Ok(mut kernel) = Kernel::new(rt.alloc(), 4, &pages) else {
        return None;
    };
    show_all(rt, &mut kernel, &mut dev, &SWAP)
}

/// Judges a reply, and prints what is said of it. None where something fails.
fn show_verdict(rt: &HostRuntime, auditor: &mut Auditor, line: &str, text: &str) -> Option<()>
    requires { FitsWords (machine_of auditor.old) }
    ensures { machine_of auditor.new ≡ machine_of auditor.old }
{
    let verdict = judge_line(rt.alloc(), auditor, line.as_bytes(), text.as_bytes()).ok()?;
    let word = match verdict {
        Verdict::Legal => "legal",
        Verdict::Illegal => "not legal",
    };
    print!(rt; "{line}: {word}\n{text}").ok()
}

/// Judges the replies on a machine of four frames whose swap area has this page 0.
fn show_judged(rt: &HostRuntime) -> Option<()> {
    let heads = [Head {
        pages: 4,
        first: &header(),
    }];
    let Ok(mut auditor) = Auditor::new(rt.alloc(), 4, &heads) else {
        return None;
    };
    for (line, text) in &REPLIED {
        show_verdict(rt, &mut auditor, line, text)?;
    }
    Some(())
}

/// Shows each of them.
fn show_each(rt: &HostRuntime) -> Option<()> {
    show_on_four(rt)?;
    show_on_swap(rt)?;
    show_judged(rt)
}

fn main(rt: HostRuntime) -> ExitCode {
    match show_each(&rt) {
        Some(()) => ExitCode::from(0),
        None => ExitCode::from(1),
    }
}
