//! Reclaim looks at the frames at the tail of inactive, and age moves those of active there.

ghost use Rattle.std.specs.Prelude.{◌≡◌, ◌<◌, OnOk, None, map, Bool, false};
ghost use Rattle.av_trace.specs.declared.note.Note.TheVariants.{Aged};
ghost use Rattle.av_plain.specs.Ledger.{slot_of};
ghost use Rattle.av_plain.specs.Reclaim.{Outcome, Outcomes, from_tail};
ghost use Rattle.av_plain.specs.Reclaim.{is_in_writeback as is_writeback};
ghost use Rattle.av_evict.specs.Inactive.{GoesOut, IsSentIdle};
ghost use Rattle.av_evict.specs.Steps.{IsUsed, MaySend, closes};
ghost use Rattle.av_evict.specs.System.{Always, Gives, IsAt, Leaves, Tells, spares};

use crate::steps::{age_one, drop_slot, keep, keep_referenced, send, start};
use crate::system::System;
use av_base::Slot;
use av_trace::{Cause, Notes};
use std::alloc::AllocError;

/// Reclaims the last `count` frames of inactive, or all where there are fewer: each is kept, or
/// sent to its slot, and then its write begins, or it is free.
pub fn reclaim<S: System>(system: &mut S, count: u32, notes: &mut Notes) -> Result<(), AllocError>
    requires { IsAt (S.view system.old false) Always }
    ensures gives { OnOk result ((told : Bool) → let old = S.view system.old told in
        Gives old (S.view system.new told) notes.old notes.new Always (λ l added.
        Outcomes old.setting (spares old None) l (from_tail count l.inactive) added)) }
    ensures stays { (told : Bool) → Leaves (S.view system.old told) (S.view system.new told) }
{
    let turns = count.min(system.inactive_len());
    for _turn in 0..turns {
        let Some(frame) = system.last_inactive() else {
            unreachable!();
        };
        reclaim_one(system, frame, notes)?;
    }
    Ok(())
}

// Reclaims a frame in use: the first test that holds says what becomes of it.
fn reclaim_one<S: System>(system: &mut S, frame: u32, notes: &mut Notes) -> Result<(), AllocError>
    requires { IsAt (S.view system.old false) (IsUsed frame) }
    ensures gives { OnOk result ((told : Bool) → let old = S.view system.old told in
        Gives old (S.view system.new told) notes.old notes.new (IsUsed frame) (λ l added.
        Outcome old.setting (spares old None) l frame added)) }
    ensures stays { (told : Bool) → Leaves (S.view system.old told) (S.view system.new told) }
{
    if system.is_locked(frame) {
        keep(system, frame, Cause::Locked, notes)?;
        return Ok(());
    }
    if system.is_merged(frame) {
        keep(system, frame, Cause::Ksm, notes)?;
        return Ok(());
    }
    reclaim_unspared(system, frame, notes)?;
    Ok(())
}

// Reclaims a frame that is neither locked nor merged.
fn reclaim_unspared<S: System>(
    system: &mut S,
    frame: u32,
    notes: &mut Notes,
) -> Result<(), AllocError>
    requires may { IsAt (S.view system.old false) (MaySend frame) }
    requires unlocked { (S.view system.old false).locked frame ≡ false }
    ensures gives { OnOk result ((told : Bool) → let old = S.view system.old told in
        Gives old (S.view system.new told) notes.old notes.new (MaySend frame) (λ l added.
        Outcome old.setting (closes old.closing) l frame added)) }
    ensures stays { (told : Bool) → Leaves (S.view system.old told) (S.view system.new told) }
{
    if is_in_writeback(system, frame) {
        keep(system, frame, Cause::Writeback, notes)?;
        return Ok(());
    }
    if keep_referenced(system, frame, notes)? {
        return Ok(());
    }
    let Some(slot) = send(system, frame, notes)? else {
        keep(system, frame, Cause::NoSlot, notes)?;
        return Ok(());
    };
    write_or_drop(system, frame, slot, notes)?;
    Ok(())
}

// Whether the slot of a frame is in flight.
fn is_in_writeback<S: System>(system: &S, frame: u32) -> bool
    requires { frame < (S.view system.now false).setting.frames }
    ensures { (told : Bool) → Tells (S.view system.now told)
        (λ l. result ≡ is_writeback l (slot_of l frame)) }
{
    match system.slot(frame) {
        Some(slot) => system.is_in_flight(slot),
        None => false,
    }
}

// The write of a frame that was sent to its slot begins where it is dirty, else it is free.
fn write_or_drop<S: System>(
    system: &mut S,
    frame: u32,
    slot: Slot,
    notes: &mut Notes,
) -> Result<(), AllocError>
    requires { IsAt (S.view system.old false) (IsSentIdle frame slot) }
    ensures gives { OnOk result ((told : Bool) → Gives (S.view system.old told)
        (S.view system.new told) notes.old notes.new (IsSentIdle frame slot) (GoesOut frame slot)) }
    ensures stays { (told : Bool) → Leaves (S.view system.old told) (S.view system.new told) }
{
    let dirty = system.is_dirty(frame);
    if dirty {
        start(system, frame, slot, notes)?;
        keep(system, frame, Cause::WriteStarted, notes)?;
        return Ok(());
    }
    drop_slot(system, frame, slot, notes)?;
    Ok(())
}

/// Moves the last `count` frames of active to inactive, or all where there are fewer.
pub fn age<S: System>(system: &mut S, count: u32, notes: &mut Notes) -> Result<(), AllocError>
    requires { IsAt (S.view system.old false) Always }
    ensures gives { OnOk result ((told : Bool) → Gives (S.view system.old told)
        (S.view system.new told) notes.old notes.new Always
        (λ l added. added ≡ map Aged (from_tail count l.active))) }
    ensures stays { (told : Bool) → Leaves (S.view system.old told) (S.view system.new told) }
{
    let turns = count.min(system.active_len());
    for _turn in 0..turns {
        let Some(frame) = system.last_active() else {
            unreachable!();
        };
        age_one(system, frame, notes)?;
    }
    Ok(())
}
