//! Why no frame could be had: the numbers of an out-of-memory.

ghost use Rattle.std.specs.Prelude.{◌≡◌, Bool, false, nat_lt};
ghost use Rattle.av_plain.specs.Pass.{out_of as numbers};
ghost use Rattle.av_evict.specs.Standing.{cached_count, locked_adds, pinned_adds};
ghost use Rattle.av_evict.specs.System.{Always, Knows, Tells, spares};

use crate::standing::{Standing, counts, standing_of};
use crate::system::System;
use av_trace::OutOf;

/// The numbers that say why no frame is free: of all frames some are merged, others are cached, and
/// the rest have no slot. What the locked frames and the pinned one add to these is taken away.
pub fn out_of<S: System>(system: &S, pinned: Option<u32>) -> OutOf
    requires { Knows (S.view system.now false) Always }
    ensures { (told : Bool) → let now = S.view system.now told in Tells now (λ l.
        result ≡ numbers now.setting (spares now pinned) l) }
{
    let merged = system.merged_len();
    let cached = system.cached_len();
    let rest = system.frames() - merged - cached;
    let held = adds_of_locked(system);
    let less = adds_of_pinned(system, pinned);
    OutOf {
        pinned: u32::from(pinned.is_some()),
        noslot: rest - held.noslot - less.noslot,
        fault: cached - held.fault - less.fault,
        locked: held.locked - less.locked,
        ksm: merged - held.ksm - less.ksm,
    }
}

/// Whether a frame is cached.
pub fn has_cached<S: System>(system: &S) -> bool
    ensures { (told : Bool) → let now = S.view system.now told in Tells now (λ l.
        result ≡ nat_lt 0 (cached_count now.setting l)) }
{
    system.cached_len() > 0
}

// How many frames are locked, and what they would add if they were not.
fn adds_of_locked<S: System>(system: &S) -> OutOf
    requires { Knows (S.view system.now false) Always }
    ensures { (told : Bool) → let now = S.view system.now told in Tells now (λ l.
        result ≡ locked_adds now.setting now.locked l) }
{
    let locked = system.locked_len();
    let fault = system.locked_cached_len();
    let ksm = system.locked_merged_len();
    OutOf {
        pinned: 0,
        noslot: locked - fault - ksm,
        fault,
        locked,
        ksm,
    }
}

// What the pinned frame would add if it were not pinned. Nothing where there is none.
fn adds_of_pinned<S: System>(system: &S, pinned: Option<u32>) -> OutOf
    requires { Knows (S.view system.now false) Always }
    ensures { (told : Bool) → let now = S.view system.now told in Tells now (λ l.
        result ≡ pinned_adds now.setting (spares now pinned) l) }
{
    match pinned {
        Some(frame) if frame < system.frames() => counts(standing_of(system, None, frame)),
        Some(_) | None => counts(Standing::Pinned),
    }
}
