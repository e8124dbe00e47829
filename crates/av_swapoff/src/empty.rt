//! A swap area that is closing is emptied: each of its slots in use goes back to its entries.

ghost use Rattle.std.specs.Prelude.{◌≡◌, ◌<◌, ◌^◌, length, IfOk, Some, Bool, false};
ghost use Rattle.av_evict.specs.System.{Always, Gives, IsAt, Stays};
ghost use Rattle.av_swapoff.specs.Empty.{EmptiesAllBy, EmptiesEachBy, EmptiesPageBy, MayEmpty};
ghost use Rattle.av_swapoff.specs.Empty.{MayEmptyEach};

use crate::slot::empty_slot;
use crate::system::SlotSystem;
use av_base::Slot;
use av_evict::complete;
use av_trace::{Notes, OutOf};
use std::alloc::{AllocError, Global};

/// How the emptying of a swap area ends.
#[derive(Clone, Copy, Drop, Debug, PartialEq, Eq)]
pub enum EmptyEnd {
    /// No slot of it is in use any more.
    Empty,
    /// No frame could be had for a page, and why.
    NoFrame(OutOf),
    /// The device did not give a page.
    NoPage,
}

/// Empties a swap area that is closing: all writes in flight end, and then each of its slots in use
/// goes back to its entries, the least first, until none is left or one cannot.
pub fn empty<S: SlotSystem>(
    alloc: Global,
    system: &mut S,
    area: u8,
    notes: &mut Notes,
) -> Result<EmptyEnd, AllocError>
    requires sound { IsAt (S.view system.old false) Always }
    requires closing { (told : Bool) → (S.view system.old told).closing ≡ Some area }
    ensures gives { IfOk result (λ end. (told : Bool) → let old = S.view system.old told in
        let new = S.view system.new told in
        Gives old new notes.old notes.new Always (EmptiesAllBy old new area end)) }
    ensures stays { (told : Bool) → Stays (S.view system.old told) (S.view system.new told) }
{
    let flying = system.flight_len();
    complete(system, flying, notes)?;
    let users = system.users(alloc, area)?;
    let end = empty_each(alloc, system, area, &users, notes)?;
    Ok(end)
}

// The slots in use go back to their entries, the least first. By page, these are their users.
fn empty_each<S: SlotSystem>(
    alloc: Global,
    system: &mut S,
    area: u8,
    users: &[Option<(u16, u64)>],
    notes: &mut Notes,
) -> Result<EmptyEnd, AllocError>
    requires may { let old = S.view system.old false in
        IsAt old (MayEmptyEach old.setting area users.now) }
    requires closing { (told : Bool) → (S.view system.old told).closing ≡ Some area }
    requires few { length users.now < 2 ^ 32 }
    ensures gives { IfOk result (λ end. (told : Bool) → let old = S.view system.old told in
        let new = S.view system.new told in
        Gives old new notes.old notes.new (MayEmptyEach old.setting area users.now)
        (EmptiesEachBy old new area end)) }
    ensures stays { (told : Bool) → Stays (S.view system.old told) (S.view system.new told) }
{
    for page in 1..users.len() {
        let slot = Slot {
            area,
            page: page as u32,
        };
        let end = empty_page(alloc, system, slot, users[page], notes)?;
        if let Some(end) = end {
            return Ok(end);
        }
    }
    Ok(EmptyEnd::Empty)
}

// A slot goes back to its entries where it is in use, and then this is a user of it. Tells why it
// cannot.
fn empty_page<S: SlotSystem>(
    alloc: Global,
    system: &mut S,
    slot: Slot,
    user: Option<(u16, u64)>,
    notes: &mut Notes,
) -> Result<Option<EmptyEnd>, AllocError>
    requires { IsAt (S.view system.old false) (MayEmpty slot user) }
    ensures gives { IfOk result (λ end. (told : Bool) → let old = S.view system.old told in
        let new = S.view system.new told in
        Gives old new notes.old notes.new (MayEmpty slot user) (EmptiesPageBy old new slot end)) }
    ensures stays { (told : Bool) → Stays (S.view system.old told) (S.view system.new told) }
{
    if !system.is_in_use(slot) {
        return Ok(None);
    }
    let Some(user) = user else {
        unreachable!();
    };
    let stuck = empty_slot(alloc, system, slot, user, notes)?;
    Ok(stuck)
}
