//! One slot of a swap area that is closing goes back to its entries.

ghost use Rattle.std.specs.List.{AllByRecursion};
ghost use Rattle.std.specs.Prelude.{◌≡◌, ◌<◌, IfOk, OnOk, Bool, false};
ghost use Rattle.av_base.specs.Limits.{top_page};
ghost use Rattle.av_evict.specs.System.{Adds, Gives, IsAt, Stays};
ghost use Rattle.av_swapoff.specs.Empty.{EmptiesSlotBy};
ghost use Rattle.av_swapoff.specs.Slot.{FetchesBy, IsIn, MapsBack, MayFetch, MayMapAll, fetched_of};
ghost use Rattle.av_swapoff.specs.Slot.{mapped_notes};

use crate::empty::EmptyEnd;
use crate::steps::{load, map};
use crate::system::SlotSystem;
use av_base::Slot;
use av_evict::{SeekEnd, drop_slot, seek};
use av_trace::{Notes, OutOf};
use std::alloc::{AllocError, Global};

/// What was done for the page of a slot.
#[derive(Clone, Copy, Drop, Debug, PartialEq, Eq)]
enum FetchEnd {
    /// It is in this frame, which caches it.
    In(u32),
    /// No frame could be had for it, and why.
    NoFrame(OutOf),
    /// The device did not give it.
    Unread,
}

/// Empties a slot in use: its page is fetched, each entry that names it becomes the frame, and it
/// is dropped. `user` is a user of it. Tells why it cannot, where the page can't be had.
pub fn empty_slot<S: SlotSystem>(
    alloc: Global,
    system: &mut S,
    slot: Slot,
    user: (u16, u64),
    notes: &mut Notes,
) -> Result<Option<EmptyEnd>, AllocError>
    requires { IsAt (S.view system.old false) (MayFetch slot user) }
    ensures gives { IfOk result (λ end. (told : Bool) → let old = S.view system.old told in
        let new = S.view system.new told in
        Gives old new notes.old notes.new (MayFetch slot user) (EmptiesSlotBy old new slot end)) }
    ensures stays { (told : Bool) → Stays (S.view system.old told) (S.view system.new told) }
{
    let fetched = fetch(system, slot, user, notes)?;
    match fetched {
        FetchEnd::In(frame) => {
            map_back(alloc, system, slot, frame, notes)?;
            Ok(None)
        }
        FetchEnd::NoFrame(out) => Ok(Some(EmptyEnd::NoFrame(out))),
        FetchEnd::Unread => Ok(Some(EmptyEnd::NoPage)),
    }
}

// Fetches the page of a slot: it is in the frame that caches it, or one that is free takes it from
// the device.
fn fetch<S: SlotSystem>(
    system: &mut S,
    slot: Slot,
    user: (u16, u64),
    notes: &mut Notes,
) -> Result<FetchEnd, AllocError>
    requires { IsAt (S.view system.old false) (MayFetch slot user) }
    ensures gives { IfOk result (λ fetched. (told : Bool) → let old = S.view system.old told in
        let new = S.view system.new told in
        Gives old new notes.old notes.new (MayFetch slot user) (FetchesBy old new slot fetched)) }
    ensures stays { (told : Bool) → Stays (S.view system.old told) (S.view system.new told) }
{
    if let Some(frame) = system.frame(slot) {
        return Ok(FetchEnd::In(frame));
    }
    let end = seek(system, None, notes)?;
    match end {
        SeekEnd::Out(out) => Ok(FetchEnd::NoFrame(out)),
        SeekEnd::Frame(_) => {
            let loaded = load(system, slot, user, notes)?;
            Ok(fetched_by(loaded))
        }
    }
}

// Whether the device gave a page, and where it is.
fn fetched_by(loaded: Option<u32>) -> FetchEnd
    ensures { result ≡ fetched_of loaded }
{
    match loaded {
        Some(frame) => FetchEnd::In(frame),
        None => FetchEnd::Unread,
    }
}

// Each entry that names a cached slot becomes its frame, and the slot is dropped.
fn map_back<S: SlotSystem>(
    alloc: Global,
    system: &mut S,
    slot: Slot,
    frame: u32,
    notes: &mut Notes,
) -> Result<(), AllocError>
    requires { IsAt (S.view system.old false) (IsIn slot frame) }
    ensures gives { OnOk result ((told : Bool) → Gives (S.view system.old told)
        (S.view system.new told) notes.old notes.new (IsIn slot frame) (MapsBack slot frame)) }
    ensures stays { (told : Bool) → Stays (S.view system.old told) (S.view system.new told) }
{
    let keys = system.namers(alloc, slot, frame)?;
    map_all(system, slot, frame, &keys, notes)?;
    drop_slot(system, frame, slot, notes)?;
    Ok(())
}

// The entries of these keys, which name a cached slot, become its frame.
fn map_all<S: SlotSystem>(
    system: &mut S,
    slot: Slot,
    frame: u32,
    keys: &[(u16, u64)],
    notes: &mut Notes,
) -> Result<(), AllocError>
    requires below { AllByRecursion (λ key. key.1 < top_page) keys.now }
    requires may { IsAt (S.view system.old false) (MayMapAll slot frame keys.now) }
    ensures gives { OnOk result ((told : Bool) → Gives (S.view system.old told)
        (S.view system.new told) notes.old notes.new (MayMapAll slot frame keys.now)
        (Adds (mapped_notes frame keys.now))) }
    ensures stays { (told : Bool) → Stays (S.view system.old told) (S.view system.new told) }
{
    for key in keys {
        map(system, *key, slot, frame, notes)?;
    }
    Ok(())
}
