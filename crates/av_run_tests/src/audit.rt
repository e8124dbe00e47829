//! How audits end: legal, or at the first reply that isn't.

use crate::runs::{NOTHING, Run, ends_so};
use av_replay::Status;
use std::test::Fail;

const READ: &[u8] = b"spawn 1\nmmap 1 4096 rw-\nread 1 7fffffffe000 1\n%%\n\
ok\nmap 7fffffffe000\ndata 00\n zero 1 7fffffffe000\n";

/// A transcript that is legal.
const LEGAL: Run<'static> = Run {
    words: &["audit", "4"],
    trace: READ,
    text: b"legal\n",
    ..NOTHING
};

/// Audits, with how they end.
const CASES: [Run<'static>; 13] = [
    LEGAL,
    Run {
        slow_source: true,
        slow_sink: true,
        ..LEGAL
    },
    Run {
        trace: b"",
        ..LEGAL
    },
    Run {
        trace: b"spawn 1\nmmap 1 4096 rw-\nwrite 1 7fffffffe000 41\n%%\n\
ok\nmap 7fffffffe000\nok\n new 1 7fffffffe000 3\n",
        ..LEGAL
    },
    Run {
        trace: b"spawn 1\nmmap 1 4096 rw-\nwrite 1 7fffffffe000 41\n%%\n\
ok\nmap 7fffffffe000\nok\n new 1 7fffffffe000 4\n",
        status: Status::Illegal(3),
        text: b"",
        ..LEGAL
    },
    // Another byte; a note that is wanting; no newline; another address.
    Run {
        trace: b"spawn 1\nmmap 1 4096 rw-\nread 1 7fffffffe000 1\n%%\n\
ok\nmap 7fffffffe000\ndata 01\n zero 1 7fffffffe000\n",
        status: Status::Illegal(3),
        text: b"",
        ..LEGAL
    },
    Run {
        trace: b"spawn 1\nmmap 1 4096 rw-\nread 1 7fffffffe000 1\n%%\n\
ok\nmap 7fffffffe000\ndata 00\n",
        status: Status::Illegal(3),
        text: b"",
        ..LEGAL
    },
    Run {
        trace: b"spawn 1\nmmap 1 4096 rw-\nread 1 7fffffffe000 1\n%%\n\
ok\nmap 7fffffffe000\ndata 00\n zero 1 7fffffffe000",
        status: Status::Illegal(3),
        text: b"",
        ..LEGAL
    },
    Run {
        trace: b"spawn 1\nmmap 1 4096 rw-\nread 1 7fffffffe000 1\n%%\n\
ok\nmap 7fffffffd000\ndata 00\n zero 1 7fffffffe000\n",
        status: Status::Illegal(2),
        text: b"",
        ..LEGAL
    },
    // A reply that is wanting, one too many, and none at all, without the mark.
    Run {
        trace: b"spawn 1\nmmap 1 4096 rw-\nread 1 7fffffffe000 1\n%%\n\
ok\nmap 7fffffffe000\n",
        status: Status::Illegal(3),
        text: b"",
        ..LEGAL
    },
    Run {
        trace: b"spawn 1\nmmap 1 4096 rw-\nread 1 7fffffffe000 1\n%%\n\
ok\nmap 7fffffffe000\ndata 00\n zero 1 7fffffffe000\nok\n",
        status: Status::Illegal(4),
        text: b"",
        ..LEGAL
    },
    Run {
        trace: b"spawn 1\n",
        status: Status::Illegal(1),
        text: b"",
        ..LEGAL
    },
    // A bad line ends the audit before the transcript.
    Run {
        trace: b"spawn 1\nspawn\n%%\nok\nok\n",
        status: Status::BadLine(2),
        text: b"",
        ..LEGAL
    },
];

#[test]
fn audits_and_their_ends(rt: HostRuntime) -> Result<(), Fail> {
    for run in &CASES {
        assert!(rt; ends_so(rt.alloc(), run)?);
    }
    Ok(())
}
