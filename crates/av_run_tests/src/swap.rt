//! Runs over a swap area in memory, some of whose calls fail. A machine's device is attached by its
//! first call, and its header is read by the second.

use crate::runs::{NOTHING, Run, ends_so};
use av_replay::Status;
use std::test::Fail;

/// Runs over one swap area, with how they end.
const CASES: [Run<'static>; 4] = [
    Run {
        words: &["run", "4", "s0"],
        areas: &[8],
        trace: b"swapon 0\nswapon 0\nswapon 0\n",
        dev_fails: &[2],
        status: Status::Done,
        steps: Some(3),
        text: b"err EIO\non 7 0\nerr EBUSY\n",
        first_bytes: &[0, 0, 0, 0, 0, 0, 0, 0],
        ..NOTHING
    },
    // A write fails, and the page is written again. A spoilt page of this device has each bit
    // inverted.
    Run {
        words: &["run", "4", "s0"],
        areas: &[4],
        trace: b"swapon 0\nspawn 1\nmmap 1 4096 rw-\nwrite 1 7fffffffe000 01\nreclaim 1\nage 1\n\
reclaim 1\ncomplete 1\nread 1 7fffffffe000 1\nage 1\nreclaim 1\nage 1\nreclaim 1\ncomplete 1\n\
reclaim 1\nread 1 7fffffffe000 1\n",
        dev_fails: &[3],
        status: Status::Done,
        steps: Some(16),
        text: b"on 3 0\nok\nmap 7fffffffe000\nok\n new 1 7fffffffe000 0\n\
ok\n keep 0 referenced\nok\n age 0\n\
ok\n put 0 0:1\n unmap 0\n start 0:1\n keep 0 started\nok\n fail 0:1\n\
data 01\n map 1 7fffffffe000 0\nok\n\
ok\n keep 0 referenced\nok\n age 0\n\
ok\n unmap 0\n start 0:1\n keep 0 started\nok\n done 0:1\n\
ok\n drop 0:1\ndata 01\n load 0:1 0\n map 1 7fffffffe000 0\n",
        first_bytes: &[0, 1, 0, 0],
        ..NOTHING
    },
    // A pass in vain, one that frees the frame, and a read that fails behind it.
    Run {
        words: &["run", "1", "s0"],
        areas: &[4],
        trace: b"swapon 0\nspawn 1\nmmap 1 8192 rw-\nwrite 1 7fffffffd000 01\n\
write 1 7fffffffe000 02\nread 1 7fffffffd000 1\nwrite 1 7fffffffe000 02\n\
read 1 7fffffffd000 1\nread 1 7fffffffd000 1\n",
        dev_fails: &[3, 6],
        status: Status::Done,
        steps: Some(9),
        text: b"on 3 0\nok\nmap 7fffffffd000\nok\n new 1 7fffffffd000 0\n\
oom 0 pinned=0 noslot=0 fault=1\n put 0 0:1\n unmap 0\n start 0:1\n fail 0:1\n\
data 01\n map 1 7fffffffd000 0\n\
ok\n unmap 0\n start 0:1\n done 0:1\n drop 0:1\n new 1 7fffffffe000 0\n\
bus 0\n put 0 0:2\n unmap 0\n start 0:2\n done 0:2\n drop 0:2\n\
data 01\n load 0:1 0\n map 1 7fffffffd000 0\n drop 0:1\n",
        first_bytes: &[0, 1, 2, 0],
        ..NOTHING
    },
    // A load of one line, which is drawn of 0: a page is mapped. The trace isn't read.
    Run {
        words: &["work", "0", "1", "4", "s0"],
        areas: &[8],
        trace: b"spawn 1\n",
        dev_fails: &[],
        status: Status::Done,
        steps: Some(4),
        text: b"lines 4\nok 1\nmap 2\ndata 0\non 1\nerr 0\nsegv 0\nbus 0\noom 0\n\
stat frames=4 free=4 active=0 inactive=0 flight=0 slots=7 freeslots=7 procs=1\n",
        first_bytes: &[0, 0, 0, 0, 0, 0, 0, 0],
        ..NOTHING
    },
];

#[test]
fn runs_over_a_device_that_fails(rt: HostRuntime) -> Result<(), Fail> {
    for run in &CASES {
        assert!(rt; ends_so(rt.alloc(), run)?);
    }
    Ok(())
}
