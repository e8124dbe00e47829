//! A frame's turn in the direct pass.

ghost use Rattle.std.specs.Prelude.{◌≡◌, ◌∷◌, ◌<◌, [], IfOk, Bool, false};
ghost use Rattle.av_trace.specs.declared.note.Note.TheVariants.{Started};
ghost use Rattle.av_plain.specs.Pass.{end_note, is_stuck as has_no_slot};
ghost use Rattle.av_evict.specs.Steps.{closes};
ghost use Rattle.av_evict.specs.System.{Adds, Gives, IsAt, Leaves, Tells, spares};
ghost use Rattle.av_evict.specs.Turn.{IsCleaned, IsEvicted, IsSentTo, IsTurn, IsTurnIfAny};
ghost use Rattle.av_evict.specs.Turn.{MayTurn, MayTurnNow};

use crate::standing::{gets_turn, standing_of};
use crate::steps::{drop_slot, finish_first, send, start};
use crate::system::System;
use av_base::Slot;
use av_trace::Notes;
use std::alloc::AllocError;

/// A frame in use has its turn, unless it is pinned, locked or merged. Whether it is free then.
pub fn turn_if_any<S: System>(
    system: &mut S,
    pinned: Option<u32>,
    frame: u32,
    notes: &mut Notes,
) -> Result<bool, AllocError>
    requires { IsAt (S.view system.old false) (MayTurn frame) }
    ensures gives { IfOk result (λ freed. (told : Bool) → let old = S.view system.old told in
        Gives old (S.view system.new told) notes.old notes.new (MayTurn frame)
        (IsTurnIfAny old.setting (spares old pinned) frame freed)) }
    ensures stays { (told : Bool) → Leaves (S.view system.old told) (S.view system.new told) }
{
    // First of all: of a locked frame that is all which is asked.
    if system.is_locked(frame) {
        return Ok(false);
    }
    // And where slots are wanting, of most others.
    if is_stuck(system, frame) {
        return Ok(false);
    }
    let standing = standing_of(system, pinned, frame);
    if !gets_turn(standing) {
        return Ok(false);
    }
    let freed = turn(system, frame, notes)?;
    Ok(freed)
}

// Whether the frame isn't cached, and no slot may be given.
fn is_stuck<S: System>(system: &S, frame: u32) -> bool
    requires { frame < (S.view system.now false).setting.frames }
    ensures { (told : Bool) → let now = S.view system.now told in
        Tells now (λ l. result ≡ has_no_slot now.setting (closes now.closing) l frame) }
{
    system.slot(frame).is_none() && !system.has_slot()
}

// A frame that is neither locked nor merged has its turn. Whether it is free then.
fn turn<S: System>(system: &mut S, frame: u32, notes: &mut Notes) -> Result<bool, AllocError>
    requires may { IsAt (S.view system.old false) (MayTurnNow frame) }
    requires unlocked { (S.view system.old false).locked frame ≡ false }
    ensures gives { IfOk result (λ freed. (told : Bool) → let old = S.view system.old told in
        Gives old (S.view system.new told) notes.old notes.new (MayTurnNow frame)
        (IsTurn old.setting old.closing frame freed)) }
    ensures stays { (told : Bool) → Leaves (S.view system.old told) (S.view system.new told) }
{
    let Some(slot) = send(system, frame, notes)? else {
        return Ok(false);
    };
    let freed = evict(system, frame, slot, notes)?;
    Ok(freed)
}

// Drops the slot of a frame that was sent to it, unless its page has to be written and that fails.
// Whether the frame is free then.
fn evict<S: System>(
    system: &mut S,
    frame: u32,
    slot: Slot,
    notes: &mut Notes,
) -> Result<bool, AllocError>
    requires { IsAt (S.view system.old false) (IsSentTo frame slot) }
    ensures gives { IfOk result (λ freed. (told : Bool) → Gives (S.view system.old told)
        (S.view system.new told) notes.old notes.new (IsSentTo frame slot) (IsEvicted slot freed)) }
    ensures stays { (told : Bool) → Leaves (S.view system.old told) (S.view system.new told) }
{
    let failed = clean(system, frame, slot, notes)?;
    if failed {
        return Ok(false);
    }
    drop_slot(system, frame, slot, notes)?;
    Ok(true)
}

// Writes a slot's page at once where it is stale. Whether that failed.
fn clean<S: System>(
    system: &mut S,
    frame: u32,
    slot: Slot,
    notes: &mut Notes,
) -> Result<bool, AllocError>
    requires { IsAt (S.view system.old false) (IsSentTo frame slot) }
    ensures gives { IfOk result (λ failed. (told : Bool) → Gives (S.view system.old told)
        (S.view system.new told) notes.old notes.new (IsSentTo frame slot)
        (IsCleaned slot failed)) }
    ensures stays { (told : Bool) → Leaves (S.view system.old told) (S.view system.new told) }
{
    if !system.is_dirty(frame) {
        return Ok(false);
    }
    let failed = write(system, frame, slot, notes)?;
    Ok(failed)
}

// Writes the page of a frame that was sent to its slot at once. Whether that failed.
fn write<S: System>(
    system: &mut S,
    frame: u32,
    slot: Slot,
    notes: &mut Notes,
) -> Result<bool, AllocError>
    requires { IsAt (S.view system.old false) (IsSentTo frame slot) }
    ensures gives { IfOk result (λ failed. (told : Bool) → Gives (S.view system.old told)
        (S.view system.new told) notes.old notes.new (IsSentTo frame slot)
        (Adds (Started slot ∷ end_note failed slot ∷ []))) }
    ensures stays { (told : Bool) → Leaves (S.view system.old told) (S.view system.new told) }
{
    start(system, frame, slot, notes)?;
    let Some(end) = finish_first(system, notes)? else {
        unreachable!();
    };
    Ok(end.failed)
}
