//! Runs over several swap areas: which name becomes which of them, and which gives a slot first.

use crate::runs::{ends_so, run_of};
use std::test::Fail;

/// The second area has the greater priority, and gives its slots first; the first one gives where
/// it is full, and where it closes. A page that is wanted then has no room where both are.
const TRACE: &str = "swapon 0
swapon 1 prio 5
spawn 1
mmap 1 16384 rw-
write 1 7fffffffb000 01
write 1 7fffffffc000 02
write 1 7fffffffd000 03
write 1 7fffffffe000 04
swapoff 1
munmap 1 7fffffffd000 8192
swapoff 1
read 1 7fffffffb000 1
munmap 1 7fffffffc000 4096
read 1 7fffffffb000 1
";

const REPLIES: &str = "on 1 0
on 2 0
ok
map 7fffffffb000
ok
 new 1 7fffffffb000 0
ok
 put 0 1:1
 unmap 0
 start 1:1
 done 1:1
 drop 1:1
 new 1 7fffffffc000 0
ok
 put 0 1:2
 unmap 0
 start 1:2
 done 1:2
 drop 1:2
 new 1 7fffffffd000 0
ok
 put 0 0:1
 unmap 0
 start 0:1
 done 0:1
 drop 0:1
 new 1 7fffffffe000 0
err ENOMEM pinned=0 noslot=1 fault=0
ok
ok
 load 1:1 0
 map 1 7fffffffb000 0
 drop 1:1
 put 0 0:1
 unmap 0
 start 0:1
 done 0:1
 drop 0:1
 load 1:2 0
 map 1 7fffffffc000 0
 drop 1:2
oom 0 pinned=0 noslot=1 fault=0
ok
data 01
 load 0:1 0
 map 1 7fffffffb000 0
 drop 0:1
";

#[test]
fn the_greatest_priority_gives_first(rt: HostRuntime) -> Result<(), Fail> {
    let mut run = run_of(&["run", "1", "s0", "s1"], &[2, 3], TRACE.as_bytes());
    run.steps = Some(14);
    run.text = REPLIES.as_bytes();
    assert!(rt; ends_so(rt.alloc(), &run)?);
    Ok(())
}
