//! Single steps with their notes.

ghost use Rattle.std.specs.Prelude.{◌≡◌, ◌∷◌, ◌<◌, [], None, IfOk, OnOk, Bool, false};
ghost use Rattle.av_base.specs.Limits.{top_page};
ghost use Rattle.av_base.specs.Page.{address_of};
ghost use Rattle.av_io.specs.Count.{Rose};
ghost use Rattle.av_trace.specs.declared.note.Note.TheVariants.{Mapped};
ghost use Rattle.av_evict.specs.System.{Adds, Gives, IsAt, Stays};
ghost use Rattle.av_swapoff.specs.System.{MayLoad, MayMap};
ghost use Rattle.av_swapoff.specs.Slot.{IsLoaded};

use crate::system::SlotSystem;
use av_base::{PAGE_SIZE, Slot};
use av_trace::{Note, Notes};
use std::alloc::AllocError;

/// The entry of a page, which names a cached slot, names its frame.
pub fn map<S: SlotSystem>(
    system: &mut S,
    key: (u16, u64),
    slot: Slot,
    frame: u32,
    notes: &mut Notes,
) -> Result<(), AllocError>
    requires below { key.1 < top_page }
    requires may { IsAt (S.view system.old false) (MayMap slot frame key) }
    ensures gives { OnOk result ((told : Bool) → Gives (S.view system.old told)
        (S.view system.new told) notes.old notes.new (MayMap slot frame key)
        (Adds (Mapped key.0 (address_of key.1) frame ∷ []))) }
    ensures stays { (told : Bool) → Stays (S.view system.old told) (S.view system.new told) }
{
    system.map(key, slot, frame);
    notes.push(Note::Mapped {
        process: key.0,
        address: PAGE_SIZE * key.1,
        frame,
    })?;
    Ok(())
}

/// Reads the page of a slot, which the entry of `user` names, into the frame that is taken next, if
/// the device gives it.
pub fn load<S: SlotSystem>(
    system: &mut S,
    slot: Slot,
    user: (u16, u64),
    notes: &mut Notes,
) -> Result<Option<u32>, AllocError>
    requires { let old = S.view system.old false in IsAt old (MayLoad old.setting slot user) }
    ensures gives { IfOk result (λ frame. (told : Bool) → let old = S.view system.old told in
        Gives old (S.view system.new told) notes.old notes.new (MayLoad old.setting slot user)
        (IsLoaded old.setting slot frame)) }
    ensures cause { IfOk result (λ frame. frame ≡ None → (told : Bool) →
        Rose (S.view system.old told).failures (S.view system.new told).failures) }
    ensures stays { (told : Bool) → Stays (S.view system.old told) (S.view system.new told) }
{
    let Some(frame) = system.load(slot, user) else {
        return Ok(None);
    };
    notes.push(Note::Loaded { slot, frame })?;
    Ok(Some(frame))
}
