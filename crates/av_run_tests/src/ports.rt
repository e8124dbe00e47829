//! Sources and sinks whose calls fail, each in turn; and such that give and take one byte a call.

use crate::row::{Row, Turns};
use crate::rows::*;
use crate::runs::{Run, ends_so, run_of, steps_of};
use av_replay::Status;
use std::alloc::{AllocError, Global};
use std::test::Fail;

/// Whether a run whose source fails at its call of this number ends so, with so many replies. The
/// source gives one byte a call, or all that there is room for.
fn reads_so(
    alloc: Global,
    run: &Run<'_>,
    turns: &Turns,
    slow_source: bool,
    failing: usize,
    status: Status,
    replies: usize,
) -> Result<bool, AllocError> {
    let run = Run {
        read_fails: failing as u64,
        slow_source,
        status,
        steps: steps_of(replies),
        text: turns.replies.first(replies),
        ..*run
    };
    ends_so(alloc, &run)
}

/// Whether a run whose sink fails at its call of this number ends so: so many lines are done, and
/// the text is written. The sink takes one byte a call, or the whole piece.
fn writes_so(
    alloc: Global,
    run: &Run<'_>,
    slow_sink: bool,
    failing: usize,
    lines: usize,
    text: &[u8],
) -> Result<bool, AllocError> {
    let run = Run {
        write_fails: failing as u64,
        slow_sink,
        status: Status::WriteFault,
        steps: steps_of(lines),
        text,
        ..*run
    };
    ends_so(alloc, &run)
}

/// Whether a row's run ends as it has to where a call of the source fails that gives everything.
/// The first call does so, and the second one tells the end.
fn goes_at_whole_reads(alloc: Global, run: &Run<'_>, turns: &Turns) -> Result<bool, AllocError> {
    let all = turns.heads.len();
    Ok(
        reads_so(alloc, run, turns, false, 1, Status::ReadFault, 0)?
            && reads_so(alloc, run, turns, false, 2, Status::ReadFault, all)?
            && reads_so(alloc, run, turns, false, 3, Status::Done, all)?,
    )
}

/// The same where each call gives a byte: the lines done are those whose newline was taken before.
fn goes_at_slow_reads(alloc: Global, run: &Run<'_>, turns: &Turns) -> Result<bool, AllocError> {
    for taken in 0..turns.heads.bytes.len() {
        let done = turns.heads.whole_within(taken);
        let call = taken.saturating_add(1);
        if !reads_so(alloc, run, turns, true, call, Status::ReadFault, done)? {
            return Ok(false);
        }
    }
    reads_so(alloc, run, turns, true, 0, Status::Done, turns.heads.len())
}

/// Whether a row's run ends as it has to where a call of the sink fails that takes a whole piece:
/// the line whose text failed is the last one done.
fn goes_at_whole_writes(alloc: Global, run: &Run<'_>, turns: &Turns) -> Result<bool, AllocError> {
    for done in 0..turns.heads.len() {
        let line = done.saturating_add(1);
        if !writes_so(alloc, run, false, line, line, turns.replies.first(done))? {
            return Ok(false);
        }
    }
    Ok(true)
}

/// The same where each call takes a byte.
fn goes_at_slow_writes(alloc: Global, run: &Run<'_>, turns: &Turns) -> Result<bool, AllocError> {
    for written in 0..turns.replies.bytes.len() {
        let call = written.saturating_add(1);
        let line = turns.replies.whole_within(written).saturating_add(1);
        if !writes_so(alloc, run, true, call, line, turns.replies.front(written))? {
            return Ok(false);
        }
    }
    Ok(true)
}

/// Whether a row's run is done where its sink takes one byte a call, and none fails.
fn goes_slowly(alloc: Global, run: &Run<'_>, turns: &Turns) -> Result<bool, AllocError> {
    let run = Run {
        slow_sink: true,
        steps: steps_of(turns.heads.len()),
        text: &turns.replies.bytes,
        ..*run
    };
    ends_so(alloc, &run)
}

/// Whether a row's run ends as it has to at each call of its source and of its sink that fails.
fn goes_at_each_call(alloc: Global, run: &Run<'_>, turns: &Turns) -> Result<bool, AllocError> {
    Ok(
        goes_at_whole_reads(alloc, run, turns)?
            && goes_at_slow_reads(alloc, run, turns)?
            && goes_at_whole_writes(alloc, run, turns)?
            && goes_at_slow_writes(alloc, run, turns)?
            && goes_slowly(alloc, run, turns)?,
    )
}

/// The same of a row.
fn row_goes(alloc: Global, row: &Row) -> Result<bool, AllocError> {
    let turns = Turns::of(alloc, row.turns)?;
    let run = run_of(row.words, row.areas, &turns.heads.bytes);
    goes_at_each_call(alloc, &run, &turns)
}

#[test]
fn each_call_of_a_source_and_of_a_sink_fails(rt: HostRuntime) -> Result<(), Fail> {
    assert!(rt; row_goes(rt.alloc(), &first_path())?);
    assert!(rt; row_goes(rt.alloc(), &direct_pass())?);
    Ok(())
}
