//! The search for a free frame: where none is free, a direct pass, in which the frames in use have
//! their turns.

ghost use Rattle.std.specs.Prelude.{◌≡◌, ◌∷◌, ◌++◌, ℕ, List, slice_get, IfOk, OnOk};
ghost use Rattle.std.specs.Prelude.{Bool, false};
ghost use Rattle.av_plain.specs.Ledger.{has_free as is_any_free};
ghost use Rattle.av_plain.specs.Pass.{IsPass, Seeks};
ghost use Rattle.av_evict.specs.Pass.{AreTurns, IsEnd, IsLanded, IsNext, IsPassed};
ghost use Rattle.av_evict.specs.Pass.{turn_order};
ghost use Rattle.av_evict.specs.Standing.{can_go};
ghost use Rattle.av_evict.specs.Steps.{IsUsed};
ghost use Rattle.av_evict.specs.System.{Always, Gives, IsAt, Knows, Leaves, Tells};
ghost use Rattle.av_evict.specs.System.{spares};

use crate::flight::complete;
use crate::shortage::{has_cached, out_of};
use crate::system::System;
use crate::turn::turn_if_any;
use av_trace::{Notes, OutOf};
use std::alloc::AllocError;

/// How the search for a free frame ends.
#[derive(Clone, Copy, Drop)]
pub enum SeekEnd {
    /// This frame is free, and is the one that is taken next.
    Frame(u32),
    /// None is, and why.
    Out(OutOf),
}

/// Finds a free frame, behind a direct pass exactly where none is free. The pass leaves the pinned
/// frame alone, and those that are locked or merged.
pub fn seek<S: System>(
    system: &mut S,
    pinned: Option<u32>,
    notes: &mut Notes,
) -> Result<SeekEnd, AllocError>
    requires { IsAt (S.view system.old false) Always }
    ensures seeks { IfOk result (λ end. (told : Bool) → let old = S.view system.old told in
        Gives old (S.view system.new told) notes.old notes.new Always (λ l added.
        Seeks old.setting (spares old pinned) l added
        × IsEnd old.setting (spares old pinned) end l added)) }
    ensures next { IfOk result (λ end. (told : Bool) →
        IsNext end (S.view system.new told).free.frames) }
    ensures stays { (told : Bool) → Leaves (S.view system.old told) (S.view system.new told) }
{
    if let Some(frame) = system.free_frame() {
        return Ok(SeekEnd::Frame(frame));
    }
    let end = direct(system, pinned, notes)?;
    Ok(end)
}

// A direct pass: all writes in flight end, and where no frame is free then, the frames in use have
// their turns, but for those that are left alone, until one is free.
fn direct<S: System>(
    system: &mut S,
    pinned: Option<u32>,
    notes: &mut Notes,
) -> Result<SeekEnd, AllocError>
    requires { IsAt (S.view system.old false) Always }
    ensures pass { IfOk result (λ end. (told : Bool) → let old = S.view system.old told in
        Gives old (S.view system.new told) notes.old notes.new Always (λ l added.
        IsPass old.setting (spares old pinned) l added
        × IsEnd old.setting (spares old pinned) end l added)) }
    ensures next { IfOk result (λ end. (told : Bool) →
        IsNext end (S.view system.new told).free.frames) }
    ensures stays { (told : Bool) → Leaves (S.view system.old told) (S.view system.new told) }
{
    pass(system, pinned, notes)?;
    match system.free_frame() {
        Some(frame) => Ok(SeekEnd::Frame(frame)),
        None => Ok(SeekEnd::Out(out_of(system, pinned))),
    }
}

// The pass itself.
fn pass<S: System>(system: &mut S, pinned: Option<u32>, notes: &mut Notes) -> Result<(), AllocError>
    requires { IsAt (S.view system.old false) Always }
    ensures gives { OnOk result ((told : Bool) → let old = S.view system.old told in
        Gives old (S.view system.new told) notes.old notes.new Always
        (IsPassed old.setting (spares old pinned))) }
    ensures stays { (told : Bool) → Leaves (S.view system.old told) (S.view system.new told) }
{
    let flying = system.flight_len();
    complete(system, flying, notes)?;
    if has_free(system) {
        return Ok(());
    }
    turns_if_any(system, pinned, notes)?;
    Ok(())
}

// Whether a frame is free.
fn has_free<S: System>(system: &S) -> bool
    ensures { (told : Bool) → let now = S.view system.now told in
        Tells now (λ l. result ≡ is_any_free now.setting l) }
{
    system.free_frame().is_some()
}

// The frames in use have their turns, unless these would change nothing.
fn turns_if_any<S: System>(
    system: &mut S,
    pinned: Option<u32>,
    notes: &mut Notes,
) -> Result<(), AllocError>
    requires { IsAt (S.view system.old false) IsLanded }
    ensures gives { OnOk result ((told : Bool) → let old = S.view system.old told in
        Gives old (S.view system.new told) notes.old notes.new IsLanded
        (AreTurns old.setting (spares old pinned))) }
    ensures stays { (told : Bool) → Leaves (S.view system.old told) (S.view system.new told) }
{
    if !any_can_go(system) {
        return Ok(());
    }
    turns(system, pinned, notes)?;
    Ok(())
}

// Whether a frame can go to a slot: it is cached at one, or one may be given.
fn any_can_go<S: System>(system: &S) -> bool
    ensures { (told : Bool) → let now = S.view system.now told in Tells now
        (λ l. result ≡ can_go now.setting now.closing l) }
{
    has_cached(system) || system.has_slot()
}

// The frames in use have their turns, but for those that are left alone, until one is free.
fn turns<S: System>(
    system: &mut S,
    pinned: Option<u32>,
    notes: &mut Notes,
) -> Result<(), AllocError>
    requires { IsAt (S.view system.old false) IsLanded }
    ensures gives { OnOk result ((told : Bool) → let old = S.view system.old told in
        Gives old (S.view system.new told) notes.old notes.new IsLanded
        (AreTurns old.setting (spares old pinned))) }
    ensures stays { (told : Bool) → Leaves (S.view system.old told) (S.view system.new told) }
{
    let mut next = first_in_turn(system);
    let all = u64::from(system.inactive_len()) + u64::from(system.active_len());
    for _turn in 0..all {
        let Some(frame) = next else {
            unreachable!();
        };
        let freed = turn_if_any(system, pinned, frame, notes)?;
        if freed {
            return Ok(());
        }
        next = next_in_turn(system, frame);
    }
    Ok(())
}

// The frame whose turn is first: the last of inactive, else the last of active.
fn first_in_turn<S: System>(system: &S) -> Option<u32>
    ensures { (told : Bool) → Tells (S.view system.now told)
        (λ l. result ≡ slice_get (turn_order l) 0) }
{
    match system.last_inactive() {
        Some(frame) => Some(frame),
        None => system.last_active(),
    }
}

// The frame whose turn is next: the one before in its list, and from the head of inactive the last
// of active.
fn next_in_turn<S: System>(system: &S, frame: u32) -> Option<u32>
    requires { Knows (S.view system.now false) (IsUsed frame) }
    ensures { (told : Bool) → Tells (S.view system.now told) (λ l. (ahead behind : List ℕ) →
        turn_order l ≡ ahead ++ frame ∷ behind → result ≡ slice_get behind 0) }
{
    if let Some(before) = system.before(frame) {
        return Some(before);
    }
    if system.is_inactive(frame) {
        return system.last_active();
    }
    None
}
