//! The direct pass, as its notes tell.

ghost use Rattle.std.specs.Prelude.{◌≡◌, ◌+◌, ◌<◌, ◌^◌, IfOk, IsSome, OnOk};
ghost use Rattle.std.specs.List.{slice_get};
ghost use Rattle.av_plain.specs.Pass.{Turns, frames_in_turn};
ghost use Rattle.av_audit_book.specs.Book.{ledger_of};
ghost use Rattle.av_audit_judge.specs.Finds.{Gets, Reads};
ghost use Rattle.av_audit_book.specs.Machine.{AreNamed, setting_of};
ghost use Rattle.av_audit_judge.specs.Pass.{AreCleaned, AreFirst, AreWriteNotes, GoesTo, IsPut};
ghost use Rattle.av_audit_book.specs.Spared.{frames_by_turn, spared_of};
ghost use Rattle.av_audit_judge.specs.Pass.{IsTurn, IsTurnEnd, Unmaps, can_go as can_go_in};

use crate::flight::ending;
use crate::notes::{fits, take_slot};
use crate::unit::{Unit, reads, reads_when};
use av_audit_book::{Book, Machine, Spared};
use av_base::Slot;
use av_trace::Note;
use std::alloc::{AllocError, Global};

/// A frame that isn't cached is put at a slot that may be given.
fn puts(
    book: &mut Book,
    unit: &mut Unit<'_>,
    machine: &Machine,
    spared: &Spared<'_>,
    frame: u32,
) -> Result<Option<Slot>, AllocError>
    requires fits { AreNamed (setting_of machine.now) }
    ensures { let l = ledger_of book.old in IfOk result (λ value. Gets
        (IsPut (setting_of machine.now) (spared_of spared.now l) l frame) l unit.old.rest.now value
        (ledger_of book.new) unit.new.rest.now) }
{
    match take_slot(unit.alloc, unit.rest, frame)? {
        None => Ok(None),
        Some((slot, rest)) => {
            fits(Note::Put { frame, slot });
            if !book.may_give(machine, spared.closing, slot) {
                return Ok(None);
            }
            unit.rest = rest;
            book.follow(Note::Put { frame, slot })?;
            Ok(Some(slot))
        }
    }
}

/// A frame's slot: that at which it is cached, or one that it is put at; and whether it is dirty.
fn goes_to(
    book: &mut Book,
    unit: &mut Unit<'_>,
    machine: &Machine,
    spared: &Spared<'_>,
    frame: u32,
) -> Result<Option<(Slot, bool)>, AllocError>
    requires fits { AreNamed (setting_of machine.now) }
    ensures { let l = ledger_of book.old in IfOk result (λ value. Gets
        (GoesTo (setting_of machine.now) (spared_of spared.now l) l frame) l unit.old.rest.now value
        (ledger_of book.new) unit.new.rest.now) }
{
    match book.slot_of(frame) {
        None => match puts(book, unit, machine, spared, frame)? {
            None => Ok(None),
            Some(slot) => Ok(Some((slot, true))),
        },
        Some(slot) => Ok(Some((slot, book.is_stale(slot)))),
    }
}

/// A frame goes to its slot, and has no entry any more; and whether it was dirty.
pub fn unmaps(
    book: &mut Book,
    unit: &mut Unit<'_>,
    machine: &Machine,
    spared: &Spared<'_>,
    frame: u32,
) -> Result<Option<(Slot, bool)>, AllocError>
    requires fits { AreNamed (setting_of machine.now) }
    ensures { let l = ledger_of book.old in IfOk result (λ value. Gets
        (Unmaps (setting_of machine.now) (spared_of spared.now l) l frame) l unit.old.rest.now value
        (ledger_of book.new) unit.new.rest.now) }
{
    match goes_to(book, unit, machine, spared, frame)? {
        None => Ok(None),
        Some(place) => {
            let due = book.maps(frame) != 0;
            if !reads_when(book, unit, due, Note::Unmapped(frame))? {
                return Ok(None);
            }
            Ok(Some(place))
        }
    }
}

/// A write of the slot begins, and ends at once: whether it failed.
fn writes(book: &mut Book, unit: &mut Unit<'_>, slot: Slot) -> Result<Option<bool>, AllocError>
    ensures { IfOk result (λ value. Gets (AreWriteNotes slot) (ledger_of book.old)
        unit.old.rest.now value (ledger_of book.new) unit.new.rest.now) }
{
    if !reads(book, unit, Note::Started(slot))? {
        return Ok(None);
    }
    ending(book, unit, slot)
}

/// Where a frame is dirty it is written at once: whether that failed, and it stays cached.
fn stays(
    book: &mut Book,
    unit: &mut Unit<'_>,
    slot: Slot,
    dirty: bool,
) -> Result<Option<bool>, AllocError>
    ensures { IfOk result (λ value. Gets (AreCleaned slot dirty) (ledger_of book.old)
        unit.old.rest.now value (ledger_of book.new) unit.new.rest.now) }
{
    if !dirty {
        return Ok(Some(false));
    }
    writes(book, unit, slot)
}

/// A frame's turn: whether it stays cached. Else it is free.
fn turn(
    book: &mut Book,
    unit: &mut Unit<'_>,
    machine: &Machine,
    spared: &Spared<'_>,
    frame: u32,
) -> Result<Option<bool>, AllocError>
    requires fits { AreNamed (setting_of machine.now) }
    ensures { let l = ledger_of book.old in IfOk result (λ value. Gets
        (IsTurn (setting_of machine.now) (spared_of spared.now l) l frame) l unit.old.rest.now value
        (ledger_of book.new) unit.new.rest.now) }
{
    match unmaps(book, unit, machine, spared, frame)? {
        None => Ok(None),
        Some((slot, dirty)) => frees(book, unit, slot, dirty),
    }
}

/// What ends a turn: a write where the frame is dirty, and the drop of its slot unless that failed.
fn frees(
    book: &mut Book,
    unit: &mut Unit<'_>,
    slot: Slot,
    dirty: bool,
) -> Result<Option<bool>, AllocError>
    ensures { IfOk result (λ value. Gets (IsTurnEnd slot dirty) (ledger_of book.old)
        unit.old.rest.now value (ledger_of book.new) unit.new.rest.now) }
{
    match stays(book, unit, slot, dirty)? {
        None => Ok(None),
        Some(stays) => {
            if !reads_when(book, unit, !stays, Note::Dropped(slot))? {
                return Ok(None);
            }
            Ok(Some(stays))
        }
    }
}

/// The frame that is next in the order of turns when `past` were looked at. Some of the first are
/// listed; where it isn't among these, some four times as many as were looked at are.
fn next_in_turn(
    alloc: Global,
    book: &Book,
    listed: &mut Vec<u32>,
    past: usize,
) -> Result<Option<u32>, AllocError>
    requires listed { AreFirst listed.old.items (frames_by_turn (ledger_of book.now)) }
    requires fits { past < 2 ^ 63 }
    ensures value { IfOk result (λ frame. frame
        ≡ slice_get (frames_by_turn (ledger_of book.now)) past) }
    ensures listed { OnOk result
        (AreFirst listed.new.items (frames_by_turn (ledger_of book.now))) }
    ensures fits { IfOk result (λ frame. IsSome frame → past + 1 < 2 ^ 63) }
{
    if listed.len() <= past {
        let n = past.saturating_mul(4).saturating_add(4);
        *listed = book.in_turn(alloc, n)?;
    }
    Ok(listed.get(past).copied())
}

/// Whether a frame has a turn in which it can go. The last is asked first: it costs less.
fn can_go(book: &Book, machine: &Machine, spared: &Spared<'_>, frame: u32) -> bool
    ensures { let l = ledger_of book.now in result
        ≡ can_go_in (setting_of machine.now) (spared_of spared.now l) l frame }
{
    !book.is_stuck(machine, spared, frame) && book.has_turn(spared, frame)
}

/// The frames in turn, up to the first that becomes free. Whether a frame has a turn is asked when
/// it is come to.
fn takes_turns(
    book: &mut Book,
    unit: &mut Unit<'_>,
    machine: &Machine,
    spared: &Spared<'_>,
) -> Result<bool, AllocError>
    requires fits { AreNamed (setting_of machine.now) }
    ensures { let l = ledger_of book.old in IfOk result (λ read. Reads
        (Turns (setting_of machine.now) (spared_of spared.now l) l
        (frames_in_turn (spared_of spared.now l) l)) l unit.old.rest.now read
        (ledger_of book.new) unit.new.rest.now) }
{
    let mut listed = Vec::new(unit.alloc);
    let mut past = 0;
    while let Some(frame) = next_in_turn(unit.alloc, book, &mut listed, past)? {
        past += 1;
        if can_go(book, machine, spared, frame) {
            match turn(book, unit, machine, spared, frame)? {
                None => return Ok(false),
                Some(false) => return Ok(true),
                Some(true) => {}
            }
        }
    }
    Ok(true)
}

/// The frames in turn, up to the first that becomes free. Where none can go, none is looked at.
pub fn turns(
    book: &mut Book,
    unit: &mut Unit<'_>,
    machine: &Machine,
    spared: &Spared<'_>,
) -> Result<bool, AllocError>
    requires fits { AreNamed (setting_of machine.now) }
    ensures { let l = ledger_of book.old in IfOk result (λ read. Reads
        (Turns (setting_of machine.now) (spared_of spared.now l) l
        (frames_in_turn (spared_of spared.now l) l)) l unit.old.rest.now read
        (ledger_of book.new) unit.new.rest.now) }
{
    if !book.any_can_go(machine, spared.closing) {
        return Ok(true);
    }
    takes_turns(book, unit, machine, spared)
}
