//! Lines at each edge of the grammar's limits. (`.ci/statuses` has as many lines as there may be.)

use crate::row::Turns;
use crate::runs::{NOTHING, Run, ends_so, steps_of};
use av_replay::Status;
use std::alloc::{AllocError, Global};
use std::test::Fail;

/// The first line of each trace of these tests.
const FIRST: &[u8] = b"spawn 1\n";

/// Second lines, each behind `> `, with the reply to it below, or `bad` where it is no command.
const LINES: &str = "> read 1 ffffffffffffffff 2
segv 0
> read 1 0 1
segv 0
> read 1 00 1
bad
> read 1 10000000000000000 1
bad
> read 1 FF 1
bad
> read 1 0x1 1
bad
> mmap 1 4096 rw- fixed 10000000000000000
bad
> munmap 1 fffffffffffff000 4096
err EINVAL
> mprotect 1 fffffffffffff000 4096 r--
err ENOMEM
> mmap 1 0 rw-
err EINVAL
> mmap 1 18446744073709551615 rw-
err ENOMEM
> mmap 1 18446744073709551616 rw-
bad
> mmap 1 04096 rw-
bad
> mmap 1 +1 rw-
bad
> mremap 1 0 18446744073709551615 4096
err EINVAL
> mremap 1 0 18446744073709551616 4096
bad
> spawn 0
bad
> spawn 32767
ok
> spawn 32768
bad
> spawn 01
bad
> fork 1 32767
ok
> fork 32767 1
err ESRCH
> fork 1 65537
bad
> read 1 10000 0
bad
> read 1 10000 4096
segv 0
> read 1 10000 4097
bad
> write 1 0 0
bad
> write 1 0 AB
bad
> write 1 0 00
segv 0
> write 1 0 000
bad
> write 1 0\x20
bad
> reclaim 0
bad
> reclaim 1
ok
> reclaim 16384
ok
> reclaim 16385
bad
> age 0
bad
> age 16384
ok
> age 16385
bad
> complete 0
bad
> complete 16384
ok
> complete 16385
bad
> swapon 7
err EINVAL
> swapon 8
bad
> swapon 00
bad
> swapon 7 prio 0
err EINVAL
> swapon 7 prio 32767
err EINVAL
> swapon 7 prio 32768
bad
> swapon 7 prio 00
bad
> swapoff 7
err EINVAL
> swapoff 8
bad
> slot 7 4294967295
err EINVAL
> slot 7 4294967296
bad
> slot 8 0
bad
> mmap 1 4096 ---
map 7fffffffe000
> mmap 1 4096 rwx
map 7fffffffe000
> mmap 1 4096 wrx
bad
> mmap 1 4096 rw
bad
> mmap 1 4096 rw-x
bad
> mprotect 1 10000 0 RW-
bad
> stat
stat frames=4 free=4 active=0 inactive=0 flight=0 slots=0 freeslots=0 procs=1
> stat\x20
bad
>  stat
bad
> spawn  2
bad
> spawn\t2
bad
> maps
bad
> maps 1 1
bad
> rmap 1 10000
err EFAULT
> mremap 1 10000 4096 8192 dontunmap fixed
bad
> frobnicate 1
bad
>\x20
> #
";

/// A line between two texts: so many times the same byte.
#[derive(Clone, Copy)]
struct Long {
    before: &'static str,
    byte: u8,
    count: usize,
    after: &'static str,
    status: Status,
    steps: usize,
    text: &'static str,
}

/// Lines as long as they may be, and longer by the least that there is.
const LONG: [Long; 6] = [
    Long {
        before: "spawn 1\nmmap 1 4096 rw- fixed 10000\nwrite 1 10000 ",
        byte: b'a',
        count: 8192,
        after: "\nread 1 10fff 1\n",
        status: Status::Done,
        steps: 4,
        text: "ok\nmap 10000\nok\n new 1 10000 0\ndata aa\n",
    },
    Long {
        before: "spawn 1\nwrite 1 10000 ",
        byte: b'a',
        count: 8194,
        after: "\n",
        status: Status::BadLine(2),
        steps: 1,
        text: "ok\n",
    },
    Long {
        before: "",
        byte: b'#',
        count: 8448,
        after: "\nspawn 1\n",
        status: Status::Done,
        steps: 1,
        text: "ok\n",
    },
    Long {
        before: "",
        byte: b'#',
        count: 8448,
        after: "",
        status: Status::Done,
        steps: 0,
        text: "",
    },
    Long {
        before: "",
        byte: b'#',
        count: 8449,
        after: "",
        status: Status::BadLine(1),
        steps: 0,
        text: "",
    },
    Long {
        before: "spawn 1\n",
        byte: b'#',
        count: 8449,
        after: "\n",
        status: Status::BadLine(2),
        steps: 1,
        text: "ok\n",
    },
];

/// Two texts, one behind the other.
fn concat(alloc: Global, front: &[u8], back: &[u8]) -> Result<Vec<u8>, AllocError> {
    let mut both = Vec::from_slice(alloc, front)?;
    both.extend_from_slice(back)?;
    Ok(both)
}

/// Whether a run of this trace, on four frames, ends so.
fn goes_so<'a>(
    alloc: Global,
    trace: &'a [u8],
    status: Status,
    steps: usize,
    text: &'a [u8],
) -> Result<bool, AllocError> {
    let run = Run {
        words: &["run", "4"],
        trace,
        status,
        steps: steps_of(steps),
        text,
        ..NOTHING
    };
    ends_so(alloc, &run)
}

/// Whether a line behind the first one is the bad one.
fn is_bad(alloc: Global, line: &[u8]) -> Result<bool, AllocError> {
    let trace = concat(alloc, FIRST, line)?;
    goes_so(alloc, &trace, Status::BadLine(2), 1, b"ok\n")
}

/// Whether it has this reply, which only a comment has not.
fn has_reply(alloc: Global, line: &[u8], reply: &[u8]) -> Result<bool, AllocError> {
    let trace = concat(alloc, FIRST, line)?;
    let text = concat(alloc, b"ok\n", reply)?;
    let steps = if reply.is_empty() { 1 } else { 2 };
    goes_so(alloc, &trace, Status::Done, steps, &text)
}

/// Whether each of these lines is the bad one, or has its reply.
fn are_answered(alloc: Global, lines: &Turns) -> Result<bool, AllocError> {
    for number in 0..lines.heads.len() {
        let line = lines.heads.get(number);
        let reply = lines.replies.get(number);
        let is_so = if reply == b"bad\n".as_slice() {
            is_bad(alloc, line)?
        } else {
            has_reply(alloc, line, reply)?
        };
        if !is_so {
            return Ok(false);
        }
    }
    Ok(true)
}

#[test]
fn lines_at_the_edges(rt: HostRuntime) -> Result<(), Fail> {
    let lines = Turns::of(rt.alloc(), LINES)?;
    assert!(rt; lines.heads.len() == 71 && are_answered(rt.alloc(), &lines)?);
    // It ends in a byte that no text of lines shows.
    assert!(rt; is_bad(rt.alloc(), b"spawn 2\r\n")?);
    Ok(())
}

/// Whether a trace with such a line ends as it says.
fn is_read(alloc: Global, long: &Long) -> Result<bool, AllocError> {
    let mut trace = Vec::from_slice(alloc, long.before.as_bytes())?;
    trace.extend_from_slice(&vec![in alloc; long.byte; long.count]?)?;
    trace.extend_from_slice(long.after.as_bytes())?;
    goes_so(alloc, &trace, long.status, long.steps, long.text.as_bytes())
}

#[test]
fn lines_as_long_as_may_be(rt: HostRuntime) -> Result<(), Fail> {
    for long in &LONG {
        assert!(rt; is_read(rt.alloc(), long)?);
    }
    Ok(())
}
