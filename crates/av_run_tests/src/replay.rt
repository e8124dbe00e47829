//! How runs end: by their words, their lines, and the call of a port that fails.

use crate::runs::{NOTHING, Run, ends_so};
use av_replay::Status;
use std::test::Fail;

const TRACE: &[u8] = b"spawn 1\nmmap 1 4096 rw-\nwrite 1 7fffffffe005 41\nread 1 7fffffffe004 3\n";

const TEXT: &[u8] = b"ok\nmap 7fffffffe000\nok\n new 1 7fffffffe000 0\ndata 004100\n";

/// A run of the trace on four frames, in which nothing fails.
const WHOLE: Run<'static> = Run {
    words: &["run", "4"],
    trace: TRACE,
    steps: Some(4),
    text: TEXT,
    ..NOTHING
};

/// Runs, with how they end.
const CASES: [Run<'static>; 11] = [
    WHOLE,
    Run {
        read_fails: 1,
        status: Status::ReadFault,
        steps: Some(0),
        text: b"",
        ..WHOLE
    },
    Run {
        write_fails: 2,
        status: Status::WriteFault,
        steps: Some(2),
        text: b"ok\n",
        ..WHOLE
    },
    Run {
        words: &["run", "4", "-x"],
        status: Status::Usage,
        steps: None,
        text: b"",
        ..WHOLE
    },
    Run {
        words: &["run", "4", "a", "b", "c", "d", "e", "f", "g", "h", "i"],
        status: Status::Usage,
        steps: None,
        text: b"",
        ..WHOLE
    },
    Run {
        words: &["run", "4", "s0"],
        dev_fails: &[1],
        status: Status::AttachFault,
        steps: None,
        text: b"",
        ..WHOLE
    },
    Run {
        words: &["run", "4", "s0"],
        trace: b"",
        steps: Some(0),
        text: b"",
        ..WHOLE
    },
    Run {
        words: &["run", "4", "s0"],
        dev_fails: &[2],
        ..WHOLE
    },
    // A load reads nothing: no read of it can fail.
    Run {
        words: &["work", "0", "1", "4"],
        read_fails: 1,
        steps: Some(3),
        text: b"lines 3\nok 1\nmap 2\ndata 0\non 0\nerr 0\nsegv 0\nbus 0\noom 0\n\
stat frames=4 free=4 active=0 inactive=0 flight=0 slots=0 freeslots=0 procs=1\n",
        ..WHOLE
    },
    Run {
        words: &["work", "0", "1", "4"],
        write_fails: 1,
        status: Status::WriteFault,
        steps: Some(3),
        text: b"",
        ..WHOLE
    },
    Run {
        words: &["work", "00", "1", "4"],
        status: Status::Usage,
        steps: None,
        text: b"",
        ..WHOLE
    },
];

#[test]
fn runs_and_their_ends(rt: HostRuntime) -> Result<(), Fail> {
    for run in &CASES {
        assert!(rt; ends_so(rt.alloc(), run)?);
    }
    Ok(())
}
