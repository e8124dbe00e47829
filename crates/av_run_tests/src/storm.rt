//! As many processes as may live, all of which name one slot.

use crate::row::{Row, Turns};
use crate::rows::page_out;
use crate::runs::{Run, ends_so, run_of, steps_of};
use av_text::Bytes;
use av_text::number::add_decimal;
use std::alloc::{AllocError, Global};
use std::test::Fail;

/// So many processes live at most.
const MOST_ALIVE: u64 = 4096;

/// Adds the line that forks a process from the first one, and its reply.
fn add_fork(
    alloc: Global,
    child: u64,
    lines: &mut Vec<u8>,
    replies: &mut Vec<u8>,
) -> Result<(), AllocError> {
    let mut number = Bytes::new(alloc);
    add_decimal(&mut number, child)?;
    lines.extend_from_slice(b"fork 1 ")?;
    lines.extend_from_slice(number.as_slice())?;
    lines.extend_from_slice(b"\n")?;
    let reply: &[u8] = if child <= MOST_ALIVE {
        b"ok\n"
    } else {
        b"err EAGAIN\n"
    };
    replies.extend_from_slice(reply)
}

/// Adds the lines that fork from the first process until no more may live, with their replies, and
/// one that tells how many entries name the slot of its page then.
fn add_forks(alloc: Global, lines: &mut Vec<u8>, replies: &mut Vec<u8>) -> Result<(), AllocError> {
    for child in 2..MOST_ALIVE + 2 {
        add_fork(alloc, child, lines, replies)?;
    }
    lines.extend_from_slice(b"slot 0 1\n")?;
    replies.extend_from_slice(b"slot 0:1 count 4096\n")
}

/// Whether forks of a process whose page is in swap go until no more may live, and one slot has an
/// entry of each process then.
fn goes(alloc: Global, row: &Row) -> Result<bool, AllocError> {
    let mut turns = Turns::of(alloc, row.turns)?;
    let steps = turns.heads.len().saturating_add(MOST_ALIVE as usize + 1);
    add_forks(alloc, &mut turns.heads.bytes, &mut turns.replies.bytes)?;
    let run = run_of(row.words, row.areas, &turns.heads.bytes);
    let run = Run {
        steps: steps_of(steps),
        text: &turns.replies.bytes,
        ..run
    };
    ends_so(alloc, &run)
}

#[test]
fn as_many_processes_as_may_live(rt: HostRuntime) -> Result<(), Fail> {
    assert!(rt; goes(rt.alloc(), &page_out())?);
    Ok(())
}
