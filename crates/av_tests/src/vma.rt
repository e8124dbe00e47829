//! Areas are kept by number.

use av_base::{Flags, Prot};
use av_vma::*;
use std::test::Fail;

/// An area of this process.
fn area(pid: u16) -> Area {
    Area {
        pid,
        start: 0x10000,
        end: 0x11000,
        prot: Prot {
            read: true,
            write: false,
            execute: false,
        },
        flags: Flags::NONE,
        pgoff: 16,
        anon: None,
    }
}

#[test]
fn areas_are_kept_by_number(rt: HostRuntime) -> Result<(), Fail> {
    let mut areas = Areas::new(rt.alloc());
    let one = areas.add(area(1))?;
    let two = areas.add(area(2))?;
    areas.change(one, area(3));
    areas.remove(two);
    assert!(rt; areas.get(one).pid == 3);
    Ok(())
}
