//! What a pass finds of a frame: whether it has a turn, and how it is counted where none is free.

ghost use Rattle.std.specs.Prelude.{◌≡◌, ◌<◌, Bool, false};
ghost use Rattle.av_plain.specs.Pass.{is_pinned as pins};
ghost use Rattle.av_evict.specs.Standing.{gets_turn as has_a_turn, numbers_of, stands_as};
ghost use Rattle.av_evict.specs.Standing.{stands_unspared};
ghost use Rattle.av_evict.specs.System.{Always, Knows, Tells, spares};

use crate::system::System;
use av_trace::OutOf;

/// The first of these that a frame is.
#[derive(Clone, Copy, Drop)]
pub enum Standing {
    Pinned,
    /// A page of its walk is locked.
    Locked,
    /// Pages with equal bytes share it.
    Merged,
    Uncached,
    Cached,
}

/// What a frame is for a pass that leaves the pinned one alone.
pub fn standing_of<S: System>(system: &S, pinned: Option<u32>, frame: u32) -> Standing
    requires in_range { frame < (S.view system.now false).setting.frames }
    requires stands { Knows (S.view system.now false) Always }
    ensures { (told : Bool) → let now = S.view system.now told in
        Tells now (λ l. result ≡ stands_as (spares now pinned) l frame) }
{
    if is_pinned(pinned, frame) {
        return Standing::Pinned;
    }
    if system.is_locked(frame) {
        return Standing::Locked;
    }
    unspared(system, frame)
}

/// Whether it has a turn.
pub fn gets_turn(standing: Standing) -> bool
    ensures { result ≡ has_a_turn standing }
{
    match standing {
        Standing::Uncached | Standing::Cached => true,
        Standing::Pinned | Standing::Locked | Standing::Merged => false,
    }
}

/// What it adds to the numbers of an out-of-memory.
pub fn counts(standing: Standing) -> OutOf
    ensures { result ≡ numbers_of standing }
{
    let mut out = OutOf {
        pinned: 0,
        noslot: 0,
        fault: 0,
        locked: 0,
        ksm: 0,
    };
    match standing {
        Standing::Pinned => {}
        Standing::Locked => out.locked = 1,
        Standing::Merged => out.ksm = 1,
        Standing::Uncached => out.noslot = 1,
        Standing::Cached => out.fault = 1,
    }
    out
}

// Whether it is the frame that a pass leaves alone.
fn is_pinned(pinned: Option<u32>, frame: u32) -> bool
    ensures { result ≡ pins pinned frame }
{
    match pinned {
        Some(pinned) => pinned == frame,
        None => false,
    }
}

// What a frame is that is neither pinned nor locked.
fn unspared<S: System>(system: &S, frame: u32) -> Standing
    requires in_range { frame < (S.view system.now false).setting.frames }
    requires stands { Knows (S.view system.now false) Always }
    ensures { (told : Bool) → Tells (S.view system.now told)
        (λ l. result ≡ stands_unspared l frame) }
{
    if system.is_merged(frame) {
        return Standing::Merged;
    }
    match system.slot(frame) {
        Some(_slot) => Standing::Cached,
        None => Standing::Uncached,
    }
}
