//! Frames join the two lists, and move in them.

ghost use Rattle.std.specs.Prelude.{◌≡◌, ◌≤◌, [], vec_capacity};

use av_lru::{Lru, Which};
use std::alloc::AllocError;

/// Whether these are the last frames of a list, from the tail on, so many or all.
fn are_tails(lru: &Lru, which: Which, count: u32, found: &mut Vec<u32>, wanted: &[u32]) -> bool
    requires { count ≤ vec_capacity found.old }
    ensures { vec_capacity found.new ≡ vec_capacity found.old }
{
    found.clear();
    lru.tails(which, count, found);
    found.as_slice() == wanted
}

/// Whether four frames that are in no list join and move as they are told to.
fn go_as_told(lru: &mut Lru, found: &mut Vec<u32>) -> bool
    requires fresh { lru.old ≡ record { frames = 4; active = []; inactive = [] } }
    requires room { 4 ≤ vec_capacity found.old }
{
    lru.add(3);
    lru.to_inactive_head(1);
    lru.to_inactive_tail(2);
    if !are_tails(lru, Which::Inactive, 2, found, &[2, 3]) || lru.before(2) != Some(3) {
        return false;
    }
    lru.to_active(3);
    lru.remove(2);
    are_tails(lru, Which::Inactive, 4, found, &[1])
        && are_tails(lru, Which::Active, 4, found, &[3])
        && lru.tail(Which::Active) == Some(3)
        && lru.place(2) == None
        && lru.len(Which::Inactive) == 1
}

/// Whether a frame of the inactive list gives its place to one that is in no list.
fn gives_its_place(lru: &mut Lru, found: &mut Vec<u32>) -> bool
    requires fresh { lru.old ≡ record { frames = 4; active = []; inactive = [] } }
    requires room { 4 ≤ vec_capacity found.old }
{
    lru.add(3);
    lru.to_inactive_head(1);
    lru.to_inactive_tail(2);
    lru.rename(3, 0);
    are_tails(lru, Which::Inactive, 4, found, &[2, 0, 1]) && lru.place(3) == None
}

#[test]
fn a_frame_gives_its_place(rt: HostRuntime) -> Result<(), AllocError> {
    let mut lru = Lru::new(rt.alloc(), 4)?;
    let mut found = Vec::with_capacity(rt.alloc(), 4)?;
    assert!(rt; gives_its_place(&mut lru, &mut found));
    Ok(())
}

#[test]
fn frames_join_and_move(rt: HostRuntime) -> Result<(), AllocError> {
    let mut lru = Lru::new(rt.alloc(), 4)?;
    let mut found = Vec::with_capacity(rt.alloc(), 4)?;
    assert!(rt; go_as_told(&mut lru, &mut found));
    Ok(())
}
