//! Frames: which one is taken next, the bytes of one, and what else is kept of it.

use av_base::{PAGE_SIZE, Slot};
use av_frames::Frames;
use std::alloc::AllocError;

/// Whether these are the frames that are taken next.
fn are_taken(frames: &mut Frames, wanted: &[Option<u32>]) -> bool {
    for frame in wanted {
        if frames.take() != *frame {
            return false;
        }
    }
    true
}

/// Gives a frame back, and says whether it was taken, and is free then.
fn is_given_back(frames: &mut Frames, frame: u32) -> bool {
    if frame >= frames.count() || frames.is_free(frame) {
        return false;
    }
    frames.give(frame);
    frames.is_free(frame)
}

#[test]
fn free_frames_are_a_stack(rt: HostRuntime) -> Result<(), AllocError> {
    let mut frames = Frames::new(rt.alloc(), 3)?;
    assert!(rt; frames.free() == 3);
    assert!(rt; are_taken(&mut frames, &[Some(0), Some(1)]));
    assert!(rt; is_given_back(&mut frames, 0));
    assert!(rt; are_taken(&mut frames, &[Some(0), Some(2), None]));
    Ok(())
}

/// Writes to a frame, and copies it over the next one, which there has to be, before it is made
/// zero.
fn copy_and_zero(frames: &mut Frames, frame: u32) -> bool {
    if frame >= 9 || frame + 1 >= frames.count() {
        return false;
    }
    frames.write_at(frame, 4094, &[7, 8]);
    frames.copy(frame, frame + 1);
    frames.zero(frame);
    true
}

/// The last three bytes of a frame.
fn last_bytes(frames: &Frames, frame: u32) -> Option<[u8; 3]> {
    if frame >= frames.count() {
        return None;
    }
    let bytes = frames.bytes(frame);
    Some([bytes[4093], bytes[4094], bytes[4095]])
}

#[test]
fn bytes_are_written_copied_and_zeroed(rt: HostRuntime) -> Result<(), AllocError> {
    let mut frames = Frames::new(rt.alloc(), 2)?;
    frames.load(1, &[9; PAGE_SIZE as usize]);
    assert!(rt; last_bytes(&frames, 1) == Some([9, 9, 9]));
    assert!(rt; copy_and_zero(&mut frames, 0));
    assert!(rt; last_bytes(&frames, 0) == Some([0, 0, 0]));
    assert!(rt; last_bytes(&frames, 1) == Some([0, 7, 8]));
    Ok(())
}

/// How many entries name a frame that none names, after one more does, and after that one is gone.
fn count_up_and_down(frames: &mut Frames, frame: u32) -> Option<(u64, u64)> {
    if frame >= frames.count() || frames.maps(frame) != 0 {
        return None;
    }
    frames.map_up(frame);
    let up = frames.maps(frame);
    if up == 0 {
        return None;
    }
    frames.map_down(frame);
    Some((up, frames.maps(frame)))
}

/// Sets what is kept of a frame, and says whether it is read back.
fn is_kept(frames: &mut Frames, frame: u32, home: (u64, u64), slot: Slot) -> bool {
    if frame >= frames.count() || frames.dirty(frame) {
        return false;
    }
    frames.set_home(frame, Some(home));
    frames.set_dirty(frame, true);
    frames.set_slot(frame, Some(slot));
    frames.home(frame) == Some(home) && frames.dirty(frame) && frames.slot(frame) == Some(slot)
}

#[test]
fn what_is_kept_of_a_frame(rt: HostRuntime) -> Result<(), AllocError> {
    let mut frames = Frames::new(rt.alloc(), 2)?;
    assert!(rt; count_up_and_down(&mut frames, 1) == Some((1, 0)));
    assert!(rt; is_kept(&mut frames, 1, (3, 5), Slot { area: 2, page: 9 }));
    assert!(rt; is_kept(&mut frames, 0, (3, 6), Slot { area: 0, page: 1 }));
    Ok(())
}

/// Moves what is kept of a frame in use to a free one, and says whether they have changed places.
fn is_moved(frames: &mut Frames, from: u32, to: u32) -> bool {
    if from >= frames.count()
        || to >= frames.count()
        || frames.is_free(from)
        || !frames.is_free(to)
    {
        return false;
    }
    frames.set_home(from, Some((4, 9)));
    frames.relocate(from, to);
    frames.is_free(from) && !frames.is_free(to) && frames.home(to) == Some((4, 9))
}

/// Whether so many frames are locked, and so many of these cached.
fn has_locks(frames: &Frames, locked: u32, cached: u32) -> bool {
    frames.locked_len() == locked && frames.locked_cached_len() == cached
}

/// Locks a frame that isn't, and says whether it is then.
fn lock(frames: &mut Frames, frame: u32) -> bool {
    if frame >= frames.count() || frames.is_locked(frame) {
        return false;
    }
    frames.lock_up(frame);
    frames.is_locked(frame)
}

/// Takes an entry of a locked page away from a frame, and says whether it was the last.
fn unlock(frames: &mut Frames, frame: u32) -> bool {
    if frame >= frames.count() || !frames.is_locked(frame) {
        return false;
    }
    frames.lock_down(frame);
    !frames.is_locked(frame)
}

/// Sets the slot of a frame that has to be there.
fn cache(frames: &mut Frames, frame: u32, slot: Option<Slot>) -> bool {
    let is_there = frame < frames.count();
    if is_there {
        frames.set_slot(frame, slot);
    }
    is_there
}

#[test]
fn locked_frames_are_counted(rt: HostRuntime) -> Result<(), AllocError> {
    let mut frames = Frames::new(rt.alloc(), 3)?;
    let slot = Some(Slot { area: 0, page: 1 });
    assert!(rt; are_taken(&mut frames, &[Some(0), Some(1)]) && has_locks(&frames, 0, 0));
    assert!(rt; lock(&mut frames, 0) && has_locks(&frames, 1, 0));
    assert!(rt; cache(&mut frames, 0, slot) && has_locks(&frames, 1, 1));
    assert!(rt; cache(&mut frames, 1, slot) && has_locks(&frames, 1, 1));
    assert!(rt; lock(&mut frames, 1) && has_locks(&frames, 2, 2));
    assert!(rt; is_moved(&mut frames, 0, 2) && has_locks(&frames, 2, 2));
    assert!(rt; cache(&mut frames, 2, None) && has_locks(&frames, 2, 1));
    assert!(rt; unlock(&mut frames, 2) && has_locks(&frames, 1, 1));
    assert!(rt; unlock(&mut frames, 1) && has_locks(&frames, 0, 0));
    Ok(())
}

#[test]
fn a_frame_moves_and_the_free_ones_are_put_in_order(rt: HostRuntime) -> Result<(), AllocError> {
    let mut frames = Frames::new(rt.alloc(), 4)?;
    frames.load(2, &[9; PAGE_SIZE as usize]);
    assert!(rt; are_taken(&mut frames, &[Some(0), Some(1), Some(2)]));
    assert!(rt; is_given_back(&mut frames, 0) && is_given_back(&mut frames, 1));
    // The free ones were 1, 0 and 3, and are 2, 1 and 3.
    assert!(rt; is_moved(&mut frames, 2, 0));
    assert!(rt; last_bytes(&frames, 0) == Some([9, 9, 9]));
    assert!(rt; frames.first() == Some(2));
    frames.order_free();
    assert!(rt; are_taken(&mut frames, &[Some(1), Some(2), Some(3), None]));
    Ok(())
}
