//! Single steps with their notes.

ghost use Rattle.std.specs.Prelude.{◌≡◌, ◌∷◌, [], OnOk, IfOk, Bool, false};
ghost use Rattle.av_trace.specs.declared.note.Note.TheVariants.{Aged, Dropped, Kept, Started};
ghost use Rattle.av_plain.specs.Pass.{end_note as note_of};
ghost use Rattle.av_evict.specs.Steps.{EndsFirst, GetsSlot, IsCachedAt, IsSent, IsUnmapped};
ghost use Rattle.av_evict.specs.Steps.{IsUsed, KeepsReferenced, MayDrop, MaySend, MayStart};
ghost use Rattle.av_evict.specs.System.{Adds, Always, Gives, IsAt, Leaves};

use crate::system::{System, WriteEnd};
use av_base::Slot;
use av_trace::{Cause, Note, Notes};
use std::alloc::AllocError;

/// Ends the first write in flight, if there is one, and drops its slot where that is an orphan
/// then.
pub fn finish_first<S: System>(
    system: &mut S,
    notes: &mut Notes,
) -> Result<Option<WriteEnd>, AllocError>
    requires { IsAt (S.view system.old false) Always }
    ensures gives { IfOk result (λ end. (told : Bool) → Gives (S.view system.old told)
        (S.view system.new told) notes.old notes.new Always (EndsFirst end)) }
    ensures stays { (told : Bool) → Leaves (S.view system.old told) (S.view system.new told) }
{
    let Some(end) = system.finish() else {
        return Ok(None);
    };
    notes.push(end_note(end))?;
    if system.is_orphan(end.frame, end.slot) {
        system.drop_slot(end.frame, end.slot);
        notes.push(Note::Dropped(end.slot))?;
    }
    Ok(Some(end))
}

/// The note of how a write ended.
fn end_note(end: WriteEnd) -> Note
    ensures { result ≡ note_of end.failed end.slot }
{
    if end.failed {
        Note::Failed(end.slot)
    } else {
        Note::Written(end.slot)
    }
}

/// Puts the write of the slot at which a frame is cached last in flight.
pub fn start<S: System>(
    system: &mut S,
    frame: u32,
    slot: Slot,
    notes: &mut Notes,
) -> Result<(), AllocError>
    requires { IsAt (S.view system.old false) (MayStart frame slot) }
    ensures gives { OnOk result ((told : Bool) → Gives (S.view system.old told)
        (S.view system.new told) notes.old notes.new (MayStart frame slot)
        (Adds (Started slot ∷ []))) }
    ensures stays { (told : Bool) → Leaves (S.view system.old told) (S.view system.new told) }
{
    system.start(frame, slot);
    notes.push(Note::Started(slot))?;
    Ok(())
}

/// Takes the slot at which a frame is cached out of the cache.
pub fn drop_slot<S: System>(
    system: &mut S,
    frame: u32,
    slot: Slot,
    notes: &mut Notes,
) -> Result<(), AllocError>
    requires { IsAt (S.view system.old false) (MayDrop frame slot) }
    ensures gives { OnOk result ((told : Bool) → Gives (S.view system.old told)
        (S.view system.new told) notes.old notes.new (MayDrop frame slot)
        (Adds (Dropped slot ∷ []))) }
    ensures stays { (told : Bool) → Leaves (S.view system.old told) (S.view system.new told) }
{
    system.drop_slot(frame, slot);
    notes.push(Note::Dropped(slot))?;
    Ok(())
}

/// Sends a frame that is neither locked nor merged to its slot: caches it at the next one where it
/// isn't cached, and unmaps it where an entry names it. Without a slot it stays as it is.
pub fn send<S: System>(
    system: &mut S,
    frame: u32,
    notes: &mut Notes,
) -> Result<Option<Slot>, AllocError>
    requires may { IsAt (S.view system.old false) (MaySend frame) }
    requires unlocked { (S.view system.old false).locked frame ≡ false }
    ensures gives { IfOk result (λ slot. (told : Bool) → let old = S.view system.old told in
        Gives old (S.view system.new told) notes.old notes.new (MaySend frame)
        (IsSent old.setting old.closing frame slot)) }
    ensures stays { (told : Bool) → Leaves (S.view system.old told) (S.view system.new told) }
{
    let Some(slot) = slot_for(system, frame, notes)? else {
        return Ok(None);
    };
    unmap(system, frame, slot, notes)?;
    Ok(Some(slot))
}

// The slot of a frame that isn't merged: it is cached at the next one where it isn't cached yet.
fn slot_for<S: System>(
    system: &mut S,
    frame: u32,
    notes: &mut Notes,
) -> Result<Option<Slot>, AllocError>
    requires { IsAt (S.view system.old false) (MaySend frame) }
    ensures gives { IfOk result (λ slot. (told : Bool) → let old = S.view system.old told in
        Gives old (S.view system.new told) notes.old notes.new (MaySend frame)
        (GetsSlot old.setting old.closing frame slot)) }
    ensures stays { (told : Bool) → Leaves (S.view system.old told) (S.view system.new told) }
{
    if let Some(slot) = system.slot(frame) {
        return Ok(Some(slot));
    }
    let Some(slot) = system.put(frame) else {
        return Ok(None);
    };
    notes.push(Note::Put { frame, slot })?;
    Ok(Some(slot))
}

// Unmaps a frame that is cached at a slot where an entry names it. No page of it is locked.
fn unmap<S: System>(
    system: &mut S,
    frame: u32,
    slot: Slot,
    notes: &mut Notes,
) -> Result<(), AllocError>
    requires cached { IsAt (S.view system.old false) (IsCachedAt frame slot) }
    requires unlocked { (S.view system.old false).locked frame ≡ false }
    ensures gives { OnOk result ((told : Bool) → Gives (S.view system.old told)
        (S.view system.new told) notes.old notes.new (IsCachedAt frame slot)
        (IsUnmapped frame)) }
    ensures stays { (told : Bool) → Leaves (S.view system.old told) (S.view system.new told) }
{
    if system.is_mapped(frame) {
        system.unmap(frame, slot)?;
        notes.push(Note::Unmapped(frame))?;
    }
    Ok(())
}

/// Keeps a frame in use as referenced where an entry of it is seen. Answers whether that is so.
pub fn keep_referenced<S: System>(
    system: &mut S,
    frame: u32,
    notes: &mut Notes,
) -> Result<bool, AllocError>
    requires { IsAt (S.view system.old false) (IsUsed frame) }
    ensures gives { IfOk result (λ seen. (told : Bool) → Gives (S.view system.old told)
        (S.view system.new told) notes.old notes.new (IsUsed frame) (KeepsReferenced frame seen)) }
    ensures stays { (told : Bool) → Leaves (S.view system.old told) (S.view system.new told) }
{
    let seen = system.keep_referenced(frame);
    if seen {
        notes.push(Note::Kept {
            frame,
            cause: Cause::Referenced,
        })?;
    }
    Ok(seen)
}

/// Moves a frame in use to the head of the list that the cause names: any but `Referenced`.
pub fn keep<S: System>(
    system: &mut S,
    frame: u32,
    cause: Cause,
    notes: &mut Notes,
) -> Result<(), AllocError>
    requires used { IsAt (S.view system.old false) (IsUsed frame) }
    requires other { cause ≡ Cause.Referenced → ⊥ }
    ensures gives { OnOk result ((told : Bool) → Gives (S.view system.old told)
        (S.view system.new told) notes.old notes.new (IsUsed frame)
        (Adds (Kept frame cause ∷ []))) }
    ensures stays { (told : Bool) → Leaves (S.view system.old told) (S.view system.new told) }
{
    system.keep(frame, cause);
    notes.push(Note::Kept { frame, cause })?;
    Ok(())
}

/// Moves a frame in use to the head of inactive.
pub fn age_one<S: System>(system: &mut S, frame: u32, notes: &mut Notes) -> Result<(), AllocError>
    requires { IsAt (S.view system.old false) (IsUsed frame) }
    ensures gives { OnOk result ((told : Bool) → Gives (S.view system.old told)
        (S.view system.new told) notes.old notes.new (IsUsed frame) (Adds (Aged frame ∷ []))) }
    ensures stays { (told : Bool) → Leaves (S.view system.old told) (S.view system.new told) }
{
    system.age(frame);
    notes.push(Note::Aged(frame))?;
    Ok(())
}
