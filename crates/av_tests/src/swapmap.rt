//! A slot's count as Linux keeps it: a byte, and digits beside it.

ghost use Rattle.std.specs.Prelude.{◌≡◌, ◌<◌, IfOk};
ghost use Rattle.av_swapmap.specs.Counts.{shown};

use av_swapmap::Counts;
use std::alloc::{AllocError, Global};

/// One slot that so many entries name, and that the swap cache holds or not.
fn slot(alloc: Global, entries: u32, cached: bool) -> Result<Counts, AllocError>
    ensures { IfOk result (λ counts. 0 < (shown counts).pages) }
{
    let mut counts = Counts::new(alloc, 1, &[])?;
    counts.add(0, entries)?;
    counts.set_cached(0, cached);
    Ok(counts)
}

/// The slot's byte, and its digits in the first five continuation pages.
fn digits(counts: &Counts) -> [u8; 6]
    requires { 0 < (shown counts.now).pages }
{
    [
        counts.byte(0),
        counts.digit(0, 1),
        counts.digit(0, 2),
        counts.digit(0, 3),
        counts.digit(0, 4),
        counts.digit(0, 5),
    ]
}

#[test]
fn counts_are_kept_as_linux_keeps_them(rt: HostRuntime) -> Result<(), AllocError> {
    let rows = [
        (0, true, [0x40, 0, 0, 0, 0, 0]),
        (62, false, [0x3e, 0, 0, 0, 0, 0]),
        (62, true, [0x7e, 0, 0, 0, 0, 0]),
        (63, false, [0x80, 0x01, 0, 0, 0, 0]),
        (66, false, [0x83, 0x01, 0, 0, 0, 0]),
        (4096, false, [0x81, 0x41, 0, 0, 0, 0]),
        (8063, false, [0xbe, 0x7f, 0, 0, 0, 0]),
        (8064, false, [0x80, 0x80, 0x01, 0, 0, 0]),
        (0xffff_ffff, true, [0xc3, 0x84, 0x82, 0xc1, 0x20, 0]),
    ];
    for (entries, cached, wanted) in rows {
        assert!(rt; digits(&slot(rt.alloc(), entries, cached)?) == wanted);
    }
    Ok(())
}

/// Has entries come to a slot that none names and the swap cache holds, and go: how many are left
/// of those that came, and the slot's byte when the rest is gone.
fn come_and_go(counts: &mut Counts, page: u32, come: u32, go: u32) -> Result<(u32, u8), AllocError>
    requires { page < (shown counts.old).pages }
{
    if counts.bad(page) {
        return Ok((0, 0));
    }
    counts.set_cached(page, true);
    if counts.bad(page) || counts.get(page) != 0 {
        return Ok((0, 0));
    }
    counts.add(page, come)?;
    if counts.get(page) < go {
        return Ok((0, 0));
    }
    counts.sub(page, go);
    let left = counts.get(page);
    counts.sub(page, left);
    Ok((left, counts.byte(page)))
}

#[test]
fn entries_come_and_go(rt: HostRuntime) -> Result<(), AllocError> {
    let mut counts = Counts::new(rt.alloc(), 3, &[2, 9])?;
    assert!(rt; counts.bad(2) && counts.byte(2) == 0x3f);
    assert!(rt; !counts.bad(1) && !counts.cached(1));
    assert!(rt; come_and_go(&mut counts, 1, 9000, 8900)? == (100, 0x40));
    Ok(())
}
