//! Runs that the tests share, and what changes in them where a call of the device fails.
//!
//! All of it was written by hand or comes from a plain program of the same behaviour, whose calls
//! failed in the same places. None of it comes from the program that is tested.
//!
//! A long text costs in each function that names it, when that is proved. So one function gives it.

use crate::row::Row;

const FIRST_PATH: Row = Row {
    words: &["run", "4"],
    areas: &[],
    turns: "> spawn 1
ok
> mmap 1 4096 rw-
map 7fffffffe000
> write 1 7fffffffe005 41
ok
 new 1 7fffffffe000 0
> read 1 7fffffffe004 3
data 004100
",
    calls: 0,
    changes: "",
};

/// A first run: a page that is written and read.
pub fn first_path() -> Row {
    FIRST_PATH
}

const PAGE_OUT_AND_IN: Row = Row {
    words: &["run", "4", "s0"],
    areas: &[8],
    turns: "> swapon 0
on 7 0
> spawn 1
ok
> mmap 1 4096 rw-
map 7fffffffe000
> write 1 7fffffffe000 0a
ok
 new 1 7fffffffe000 0
> mremap 1 7fffffffe000 4096 4096 fixed 10000000
map 10000000
> areas 1
areas 1
 10000000-10001000 rw- off=7fffffffe own=0 chain=0
> mremap 1 10000000 4096 4096 fixed 20000000
map 20000000
> reclaim 1
ok
 keep 0 referenced
> age 1
ok
 age 0
> reclaim 1
ok
 put 0 0:1
 unmap 0
 start 0:1
 keep 0 started
> complete 1
ok
 done 0:1
> reclaim 1
ok
 drop 0:1
> read 1 20000000 1
data 0a
 load 0:1 0
 map 1 20000000 0
> mmap 1 4096 rw-
map 7fffffffe000
> mremap 1 7fffffffe000 4096 4096 fixed 30000000
map 30000000
> areas 1
areas 2
 20000000-20001000 rw- off=7fffffffe own=0 chain=0
 30000000-30001000 rw- off=30000 own=- chain=-
",
    calls: 4,
    changes: "> 2 0
err EIO
> 2 9
ok
 keep 0 noslot
> 2 10
ok
> 2 11
ok
> 2 12
data 0a
> 3 10
ok
 fail 0:1
> 3 11
ok
 start 0:1
 keep 0 started
> 3 12
data 0a
 map 1 20000000 0
> 4 12
bus 0
> lies 12
data f5
 load 0:1 0
 map 1 20000000 0
",
};

/// A page that is moved, goes out, and comes in again where it is now.
pub fn page_out_and_in() -> Row {
    PAGE_OUT_AND_IN
}

const WRITTEN_ON_ITS_WAY: Row = Row {
    words: &["run", "4", "s0"],
    areas: &[8],
    turns: "> swapon 0
on 7 0
> spawn 1
ok
> mmap 1 4096 rw-
map 7fffffffe000
> write 1 7fffffffe000 01
ok
 new 1 7fffffffe000 0
> reclaim 1
ok
 keep 0 referenced
> age 1
ok
 age 0
> reclaim 1
ok
 put 0 0:1
 unmap 0
 start 0:1
 keep 0 started
> write 1 7fffffffe000 02
ok
 map 1 7fffffffe000 0
> complete 1
ok
 done 0:1
> reclaim 1
ok
 keep 0 referenced
> age 1
ok
 age 0
> reclaim 1
ok
 unmap 0
 start 0:1
 keep 0 started
> complete 1
ok
 done 0:1
> reclaim 1
ok
 drop 0:1
> read 1 7fffffffe000 1
data 02
 load 0:1 0
 map 1 7fffffffe000 0
",
    calls: 5,
    changes: "> 2 0
err EIO
> 2 6
ok
 keep 0 noslot
> 2 7
ok
> 2 8
ok
> 2 9
ok
> 2 11
ok
 keep 0 noslot
> 2 12
ok
> 2 13
ok
> 2 14
data 02
> 3 8
ok
 fail 0:1
> 4 12
ok
 fail 0:1
> 4 13
ok
 start 0:1
 keep 0 started
> 4 14
data 02
 map 1 7fffffffe000 0
> 5 14
bus 0
> lies 14
data fd
 load 0:1 0
 map 1 7fffffffe000 0
",
};

/// A page that is written while its slot is in flight.
pub fn written_on_its_way() -> Row {
    WRITTEN_ON_ITS_WAY
}

const EXIT_ON_ITS_WAY: Row = Row {
    words: &["run", "4", "s0"],
    areas: &[8],
    turns: "> swapon 0
on 7 0
> spawn 1
ok
> mmap 1 4096 rw-
map 7fffffffe000
> write 1 7fffffffe000 01
ok
 new 1 7fffffffe000 0
> reclaim 1
ok
 keep 0 referenced
> age 1
ok
 age 0
> reclaim 1
ok
 put 0 0:1
 unmap 0
 start 0:1
 keep 0 started
> slot 0 1
slot 0:1 count 2 cached 0
> exit 1
ok
> slot 0 1
slot 0:1 count 1 cached 0
> stat
stat frames=4 free=3 active=0 inactive=1 flight=1 slots=7 freeslots=6 procs=0
> complete 1
ok
 done 0:1
 drop 0:1
> stat
stat frames=4 free=4 active=0 inactive=0 flight=0 slots=7 freeslots=7 procs=0
",
    calls: 3,
    changes: "> 2 0
err EIO
> 2 6
ok
 keep 0 noslot
> 2 7
err EINVAL
> 2 9
err EINVAL
> 2 10
stat frames=4 free=4 active=0 inactive=0 flight=0 slots=0 freeslots=0 procs=0
> 2 11
ok
> 2 12
stat frames=4 free=4 active=0 inactive=0 flight=0 slots=0 freeslots=0 procs=0
> 3 11
ok
 fail 0:1
 drop 0:1
",
};

/// A process that ends while its page is on its way out.
pub fn exit_on_its_way() -> Row {
    EXIT_ON_ITS_WAY
}

const DIRECT_PASS: Row = Row {
    words: &["run", "2", "s0"],
    areas: &[2],
    turns: "> swapon 0
on 1 0
> spawn 1
ok
> mmap 1 12288 rw-
map 7fffffffc000
> write 1 7fffffffc000 01
ok
 new 1 7fffffffc000 0
> write 1 7fffffffd000 02
ok
 new 1 7fffffffd000 1
> write 1 7fffffffe000 03
ok
 put 0 0:1
 unmap 0
 start 0:1
 done 0:1
 drop 0:1
 new 1 7fffffffe000 0
> fork 1 2
ok
> read 1 7fffffffc000 1
oom 0 pinned=0 noslot=2 fault=0
> munmap 1 7fffffffd000 4096
ok
> munmap 2 7fffffffd000 4096
ok
> read 1 7fffffffc000 1
data 01
 load 0:1 1
 map 1 7fffffffc000 1
> mmap 1 4096 rw-
map 7fffffffd000
> write 1 7fffffffd000 05
ok
 unmap 1
 drop 0:1
 new 1 7fffffffd000 1
> write 1 7fffffffe000 04
oom 0 pinned=1 noslot=1 fault=0
",
    calls: 4,
    changes: "> 2 0
err EIO
> 2 5
oom 0 pinned=0 noslot=2 fault=0
> 2 7
data 01
> 2 10
data 01
> 2 12
ok
 new 1 7fffffffd000 1
> 2 13
oom 0 pinned=0 noslot=2 fault=0
> 3 5
oom 0 pinned=0 noslot=1 fault=1
 put 0 0:1
 unmap 0
 start 0:1
 fail 0:1
> 3 7
data 01
 map 1 7fffffffc000 0
> 3 10
data 01
> 3 12
ok
 new 1 7fffffffd000 1
> 3 13
ok
 unmap 0
 start 0:1
 done 0:1
 drop 0:1
 new 1 7fffffffe000 0
> 4 10
bus 0
> 4 12
ok
 new 1 7fffffffd000 1
> lies 10
data fe
 load 0:1 1
 map 1 7fffffffc000 1
",
};

/// Direct passes over two frames and one slot.
pub fn direct_pass() -> Row {
    DIRECT_PASS
}

const ONE_FRAME: Row = Row {
    words: &["run", "1", "s0"],
    areas: &[4],
    turns: "> swapon 0
on 3 0
> spawn 1
ok
> mmap 1 8192 rw-
map 7fffffffd000
> write 1 7fffffffd000 01
ok
 new 1 7fffffffd000 0
> write 1 7fffffffe000 02
ok
 put 0 0:1
 unmap 0
 start 0:1
 done 0:1
 drop 0:1
 new 1 7fffffffe000 0
> read 1 7fffffffd000 1
data 01
 put 0 0:2
 unmap 0
 start 0:2
 done 0:2
 drop 0:2
 load 0:1 0
 map 1 7fffffffd000 0
 drop 0:1
> write 1 7fffffffe000 02
ok
 put 0 0:3
 unmap 0
 start 0:3
 done 0:3
 drop 0:3
 load 0:2 0
 map 1 7fffffffe000 0
 drop 0:2
> read 1 7fffffffd000 1
data 01
 put 0 0:1
 unmap 0
 start 0:1
 done 0:1
 drop 0:1
 load 0:3 0
 map 1 7fffffffd000 0
 drop 0:3
> read 1 7fffffffd000 1
data 01
",
    calls: 9,
    changes: "> 2 0
err EIO
> 2 4
oom 0 pinned=0 noslot=1 fault=0
> 2 5
data 01
> 2 6
oom 0 pinned=0 noslot=1 fault=0
> 2 7
data 01
> 3 4
oom 0 pinned=0 noslot=0 fault=1
 put 0 0:1
 unmap 0
 start 0:1
 fail 0:1
> 3 5
data 01
 map 1 7fffffffd000 0
> 3 6
ok
 unmap 0
 start 0:1
 done 0:1
 drop 0:1
 new 1 7fffffffe000 0
> 3 7
data 01
 put 0 0:2
 unmap 0
 start 0:2
 done 0:2
 drop 0:2
 load 0:1 0
 map 1 7fffffffd000 0
 drop 0:1
> 4 5
oom 0 pinned=0 noslot=0 fault=1
 put 0 0:2
 unmap 0
 start 0:2
 fail 0:2
> 4 6
ok
 map 1 7fffffffe000 0
 drop 0:2
> 4 7
data 01
 put 0 0:3
 unmap 0
 start 0:3
 done 0:3
 drop 0:3
 load 0:1 0
 map 1 7fffffffd000 0
 drop 0:1
> 5 5
bus 0
 put 0 0:2
 unmap 0
 start 0:2
 done 0:2
 drop 0:2
> 5 6
ok
 load 0:2 0
 map 1 7fffffffe000 0
 drop 0:2
> 5 7
data 01
 put 0 0:3
 unmap 0
 start 0:3
 done 0:3
 drop 0:3
 load 0:1 0
 map 1 7fffffffd000 0
 drop 0:1
> 6 6
oom 0 pinned=0 noslot=0 fault=1
 put 0 0:3
 unmap 0
 start 0:3
 fail 0:3
> 6 7
data 01
 map 1 7fffffffd000 0
 drop 0:3
> 7 6
bus 0
 put 0 0:3
 unmap 0
 start 0:3
 done 0:3
 drop 0:3
> 7 7
data 01
 load 0:3 0
 map 1 7fffffffd000 0
 drop 0:3
> 8 7
oom 0 pinned=0 noslot=0 fault=1
 put 0 0:1
 unmap 0
 start 0:1
 fail 0:1
> 8 8
data 01
 start 0:1
 done 0:1
 drop 0:1
 load 0:3 0
 map 1 7fffffffd000 0
 drop 0:3
> 9 7
bus 0
 put 0 0:1
 unmap 0
 start 0:1
 done 0:1
 drop 0:1
> 9 8
data 01
 load 0:3 0
 map 1 7fffffffd000 0
 drop 0:3
> lies 5
data fe
 put 0 0:2
 unmap 0
 start 0:2
 done 0:2
 drop 0:2
 load 0:1 0
 map 1 7fffffffd000 0
 drop 0:1
",
};

/// Two pages that take turns in one frame.
pub fn one_frame() -> Row {
    ONE_FRAME
}

const SWAPOFF: Row = Row {
    words: &["run", "1", "s0"],
    areas: &[4],
    turns: "> swapon 0
on 3 0
> spawn 1
ok
> mmap 1 8192 rw-
map 7fffffffd000
> write 1 7fffffffd000 01
ok
 new 1 7fffffffd000 0
> write 1 7fffffffe000 02
ok
 put 0 0:1
 unmap 0
 start 0:1
 done 0:1
 drop 0:1
 new 1 7fffffffe000 0
> swapoff 0
err ENOMEM pinned=0 noslot=1 fault=0
> swapon 0
err EBUSY
> munmap 1 7fffffffe000 4096
ok
> swapoff 0
ok
 load 0:1 0
 map 1 7fffffffd000 0
 drop 0:1
> read 1 7fffffffd000 1
data 01
> swapoff 0
err EINVAL
",
    calls: 4,
    changes: "> 2 0
err EIO
> 2 4
oom 0 pinned=0 noslot=1 fault=0
> 2 5
err EINVAL
> 2 6
on 3 0
> 2 8
ok
> 3 4
oom 0 pinned=0 noslot=0 fault=1
 put 0 0:1
 unmap 0
 start 0:1
 fail 0:1
> 3 5
ok
 map 1 7fffffffd000 0
 drop 0:1
> 3 6
on 3 0
> 3 8
ok
> 4 8
err EIO
> 4 9
data 01
 load 0:1 0
 map 1 7fffffffd000 0
> 4 10
ok
 drop 0:1
> lies 9
data fe
",
};

/// An area that is turned off: in vain first, and then with room.
pub fn swapoff() -> Row {
    SWAPOFF
}

const FORK_OF_A_SLOT: Row = Row {
    words: &["run", "4", "s0"],
    areas: &[8],
    turns: "> swapon 0
on 7 0
> spawn 1
ok
> mmap 1 4096 rw-
map 7fffffffe000
> write 1 7fffffffe000 01
ok
 new 1 7fffffffe000 0
> fork 1 2
ok
> reclaim 1
ok
 keep 0 referenced
> age 1
ok
 age 0
> reclaim 1
ok
 put 0 0:1
 unmap 0
 start 0:1
 keep 0 started
> complete 1
ok
 done 0:1
> reclaim 1
ok
 drop 0:1
> slot 0 1
slot 0:1 count 2
> write 2 7fffffffe000 02
ok
 load 0:1 0
 map 2 7fffffffe000 0
 copy 2 7fffffffe000 1
> entry 1 7fffffffe000
slot 0:1 cached 0
> read 1 7fffffffe000 1
data 01
 map 1 7fffffffe000 0
> entry 1 7fffffffe000
frame 0 seen cached 0:1
> rmap 1 7fffffffe000
frame 0 maps 1
 1 7fffffffe000
> slot 0 1
slot 0:1 count 1 cached 0
",
    calls: 4,
    changes: "> 2 0
err EIO
> 2 7
ok
 keep 0 noslot
> 2 8
ok
> 2 9
ok
> 2 10
err EINVAL
> 2 11
ok
 copy 2 7fffffffe000 1
> 2 12
frame 0 old
> 2 13
data 01
> 2 14
frame 0 seen
> 2 16
err EINVAL
> 3 8
ok
 fail 0:1
> 3 9
ok
 start 0:1
 keep 0 started
> 3 10
slot 0:1 count 3 cached 0
> 3 11
ok
 map 2 7fffffffe000 0
 copy 2 7fffffffe000 1
> 4 11
bus 0
> 4 12
slot 0:1
> 4 13
data 01
 load 0:1 0
 map 1 7fffffffe000 0
> 4 16
slot 0:1 count 2 cached 0
> lies 13
data fe
 map 1 7fffffffe000 0
",
};

/// Two processes that name one slot.
pub fn fork_of_a_slot() -> Row {
    FORK_OF_A_SLOT
}

const SLOT_OF_MANY: Row = Row {
    words: &["run", "4", "s0"],
    areas: &[8],
    turns: "> swapon 0
on 7 0
> spawn 1
ok
> mmap 1 4096 rw-
map 7fffffffe000
> write 1 7fffffffe000 01
ok
 new 1 7fffffffe000 0
> reclaim 1
ok
 keep 0 referenced
> age 1
ok
 age 0
> reclaim 1
ok
 put 0 0:1
 unmap 0
 start 0:1
 keep 0 started
> complete 1
ok
 done 0:1
> reclaim 1
ok
 drop 0:1
> slot 0 1
slot 0:1 count 1
> fork 1 2
ok
> fork 1 3
ok
> fork 1 4
ok
> fork 1 5
ok
> fork 1 6
ok
> fork 1 7
ok
> fork 1 8
ok
> fork 1 9
ok
> fork 1 10
ok
> fork 1 11
ok
> fork 1 12
ok
> fork 1 13
ok
> fork 1 14
ok
> fork 1 15
ok
> fork 1 16
ok
> fork 1 17
ok
> fork 1 18
ok
> fork 1 19
ok
> fork 1 20
ok
> fork 1 21
ok
> fork 1 22
ok
> fork 1 23
ok
> fork 1 24
ok
> fork 1 25
ok
> fork 1 26
ok
> fork 1 27
ok
> fork 1 28
ok
> fork 1 29
ok
> fork 1 30
ok
> fork 1 31
ok
> fork 1 32
ok
> fork 1 33
ok
> fork 1 34
ok
> fork 1 35
ok
> fork 1 36
ok
> fork 1 37
ok
> fork 1 38
ok
> fork 1 39
ok
> fork 1 40
ok
> fork 1 41
ok
> fork 1 42
ok
> fork 1 43
ok
> fork 1 44
ok
> fork 1 45
ok
> fork 1 46
ok
> fork 1 47
ok
> fork 1 48
ok
> fork 1 49
ok
> fork 1 50
ok
> fork 1 51
ok
> fork 1 52
ok
> fork 1 53
ok
> fork 1 54
ok
> fork 1 55
ok
> fork 1 56
ok
> fork 1 57
ok
> fork 1 58
ok
> fork 1 59
ok
> fork 1 60
ok
> fork 1 61
ok
> fork 1 62
ok
> slot 0 1
slot 0:1 count 62
> fork 1 63
ok
> slot 0 1
slot 0:1 count 63
> fork 1 64
ok
> slot 0 1
slot 0:1 count 64
> fork 1 65
ok
> fork 1 66
ok
> slot 0 1
slot 0:1 count 66
> exit 1
ok
> exit 2
ok
> exit 3
ok
> exit 4
ok
> exit 5
ok
> exit 6
ok
> exit 7
ok
> exit 8
ok
> exit 9
ok
> exit 10
ok
> exit 11
ok
> exit 12
ok
> exit 13
ok
> exit 14
ok
> exit 15
ok
> exit 16
ok
> exit 17
ok
> exit 18
ok
> exit 19
ok
> exit 20
ok
> exit 21
ok
> exit 22
ok
> exit 23
ok
> exit 24
ok
> exit 25
ok
> exit 26
ok
> exit 27
ok
> exit 28
ok
> exit 29
ok
> exit 30
ok
> exit 31
ok
> exit 32
ok
> exit 33
ok
> exit 34
ok
> exit 35
ok
> exit 36
ok
> exit 37
ok
> exit 38
ok
> exit 39
ok
> exit 40
ok
> exit 41
ok
> exit 42
ok
> exit 43
ok
> exit 44
ok
> exit 45
ok
> exit 46
ok
> exit 47
ok
> exit 48
ok
> exit 49
ok
> exit 50
ok
> exit 51
ok
> exit 52
ok
> exit 53
ok
> exit 54
ok
> exit 55
ok
> exit 56
ok
> exit 57
ok
> exit 58
ok
> exit 59
ok
> exit 60
ok
> exit 61
ok
> exit 62
ok
> exit 63
ok
> exit 64
ok
> exit 65
ok
> exit 66
ok
> slot 0 1
slot 0:1 count 0
",
    calls: 3,
    changes: "> 2 0
err EIO
> 2 6
ok
 keep 0 noslot
> 2 7
ok
> 2 8
ok
> 2 9
err EINVAL
> 2 71
err EINVAL
> 2 73
err EINVAL
> 2 75
err EINVAL
> 2 78
err EINVAL
> 2 145
err EINVAL
> 3 7
ok
 fail 0:1
> 3 8
ok
 start 0:1
 keep 0 started
> 3 9
slot 0:1 count 2 cached 0
> 3 71
slot 0:1 count 63 cached 0
> 3 73
slot 0:1 count 64 cached 0
> 3 75
slot 0:1 count 65 cached 0
> 3 78
slot 0:1 count 67 cached 0
> 3 145
slot 0:1 count 1 cached 0
",
};

/// A page in swap whose slot more processes name than its byte can count.
pub fn slot_of_many() -> Row {
    SLOT_OF_MANY
}

const PAGE_OUT: Row = Row {
    words: &["run", "4", "s0"],
    areas: &[8],
    turns: "> swapon 0
on 7 0
> spawn 1
ok
> mmap 1 4096 rw-
map 7fffffffe000
> write 1 7fffffffe000 01
ok
 new 1 7fffffffe000 0
> reclaim 1
ok
 keep 0 referenced
> age 1
ok
 age 0
> reclaim 1
ok
 put 0 0:1
 unmap 0
 start 0:1
 keep 0 started
> complete 1
ok
 done 0:1
> reclaim 1
ok
 drop 0:1
",
    calls: 0,
    changes: "",
};

/// A page that goes out.
pub fn page_out() -> Row {
    PAGE_OUT
}
