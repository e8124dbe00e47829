//! A device whose calls fail, each in turn, and one that gives back other pages than it was given.
//! A machine's device is attached by its first call, and its header is read by the second.

use crate::row::{Row, Texts, Turns, replies_of};
use crate::rows::*;
use crate::runs::{Run, ends_so, run_of, steps_of};
use av_replay::Status;
use std::alloc::{AllocError, Global};
use std::test::Fail;

/// Whether a run gives these replies, but for those of the changes that stand below a call, or
/// below `lies` where that is 0.
fn replies_so(
    alloc: Global,
    run: &Run<'_>,
    own: &Texts,
    changes: &str,
    call: u64,
) -> Result<bool, AllocError> {
    let replies = replies_of(alloc, own, changes, call)?;
    let run = Run {
        steps: steps_of(replies.len()),
        text: &replies.bytes,
        ..*run
    };
    ends_so(alloc, &run)
}

/// Whether it does where this call of the device fails.
fn goes_at(
    alloc: Global,
    run: &Run<'_>,
    own: &Texts,
    changes: &str,
    call: u64,
) -> Result<bool, AllocError> {
    let calls = [call];
    let run = Run {
        dev_fails: &calls,
        ..*run
    };
    replies_so(alloc, &run, own, changes, call)
}

/// Whether nothing is done where the first call of the device fails, which attaches the area.
fn is_unattached(alloc: Global, run: &Run<'_>) -> Result<bool, AllocError> {
    let mut run = *run;
    run.dev_fails = &[1];
    run.status = Status::AttachFault;
    ends_so(alloc, &run)
}

/// Whether a row's run goes as the row says where no call of the device fails, where its first one
/// does, and where each of the others does.
fn goes_at_each_call(
    alloc: Global,
    row: &Row,
    run: &Run<'_>,
    own: &Texts,
) -> Result<bool, AllocError> {
    if !replies_so(alloc, run, own, "", 0)? || !is_unattached(alloc, run)? {
        return Ok(false);
    }
    for call in 2..row.calls.saturating_add(1) {
        if !goes_at(alloc, run, own, row.changes, call)? {
            return Ok(false);
        }
    }
    Ok(true)
}

/// Whether a row's run, over a device that lies, goes as the row says: only bytes that came from
/// the device are others.
fn goes_over_lies(
    alloc: Global,
    row: &Row,
    run: &Run<'_>,
    own: &Texts,
) -> Result<bool, AllocError> {
    let mut run = *run;
    run.lies = true;
    replies_so(alloc, &run, own, row.changes, 0)
}

/// Whether a row goes so, over a device that lies, or one whose calls fail.
fn row_goes(alloc: Global, row: &Row, lies: bool) -> Result<bool, AllocError> {
    let turns = Turns::of(alloc, row.turns)?;
    let run = run_of(row.words, row.areas, &turns.heads.bytes);
    if lies {
        goes_over_lies(alloc, row, &run, &turns.replies)
    } else {
        goes_at_each_call(alloc, row, &run, &turns.replies)
    }
}

/// Whether each row with a swap area does.
fn rows_go(alloc: Global, lies: bool) -> Result<bool, AllocError> {
    Ok(
        row_goes(alloc, &page_out_and_in(), lies)?
            && row_goes(alloc, &written_on_its_way(), lies)?
            && row_goes(alloc, &exit_on_its_way(), lies)?
            && row_goes(alloc, &direct_pass(), lies)?
            && row_goes(alloc, &one_frame(), lies)?
            && row_goes(alloc, &swapoff(), lies)?
            && row_goes(alloc, &fork_of_a_slot(), lies)?
            && row_goes(alloc, &slot_of_many(), lies)?,
    )
}

#[test]
fn each_call_of_a_device_fails(rt: HostRuntime) -> Result<(), Fail> {
    assert!(rt; rows_go(rt.alloc(), false)?);
    Ok(())
}

#[test]
fn a_device_gives_back_other_pages(rt: HostRuntime) -> Result<(), Fail> {
    assert!(rt; rows_go(rt.alloc(), true)?);
    Ok(())
}
