//! How entries come and go: a page gets a frame that is taken for it, an entry is counted for a
//! child, and an entry goes. Then its frame or slot has one entry fewer, and a slot that nothing
//! uses any more is dropped.

ghost use Rattle.std.specs.Prelude.{◌≡◌, ◌<◌, ℕ, length, slice_index_or, IfOk, IfSome};
ghost use Rattle.std.specs.Prelude.{MatchResult, OnOk, false, true};
ghost use Rattle.av_base.specs.Limits.{top_page};
ghost use Rattle.av_base.specs.Words.{is_in};
ghost use Rattle.av_pagetable.specs.Entries.{entry_at, has};
ghost use Rattle.av_pagetable.specs.declared.pte.Pte.TheVariants as Pte;
ghost use Rattle.av_plain.specs.Device.{Device};
ghost use Rattle.av_plain.specs.Ledger.{Ledger};
ghost use Rattle.av_plain.specs.Stands.{free_of};
ghost use Rattle.av_swap_laws.specs.Steps.{view_new, view_seen};
ghost use Rattle.av_mem.specs.Entries.{is_orphan, slot_behind, view_less, view_more};
ghost use Rattle.av_mem.specs.Entries.{view_more_each, view_taken, DropsOrphan, HasEntry, HasFree};
ghost use Rattle.av_mem.specs.Entries.{HasLedgerBy, HasRoomFor, IsInUse, IsTaken, IsWithin};
ghost use Rattle.av_mem.specs.Entries.{LetsGo, NamesFrame, Table, view_copied};
ghost use Rattle.av_mem.specs.Entries.{view_settled};
ghost use Rattle.av_mem.specs.Locked.{AreFew, has_lock, locks_less, locks_more};
ghost use Rattle.av_mem.specs.Mem.{frame_count, locks_of, plain, view, HasItems, HasLists, HasRoom};
ghost use Rattle.av_mem.specs.Steps.{KeepsBut, KeepsParts, KeepsRest};

use crate::mem::Mem;
use av_base::Slot;
use av_pagetable::Pte;
use av_trace::{Note, Notes};
use std::alloc::AllocError;

/// Takes a frame of zeros for a page, whose entry names it then: accessed, and it may be written.
/// The frame has this home, and goes to the head of inactive. Without memory for the table a frame
/// is lost, and nothing else is promised.
pub fn take_frame_of_zeros(
    mem: &mut Mem,
    key: (u16, u64),
    home: Option<(u64, u64)>,
) -> Result<u32, AllocError>
    requires table { has mem.old.tables key.0 ≡ true }
    requires below { key.1 < top_page }
    requires free { HasFree mem.old }
    requires few { AreFew mem.old }
    ensures taken { IfOk result (λ f. IsTaken mem.old mem.new f (λ left.
        view_seen key.0 key.1 f true
        (view_new key.0 key.1 f true left (λ i. 0) home (view mem.old)))) }
    ensures parts { IfOk result (λ f.
        KeepsBut (locks_more mem.old key f (locks_of mem.old)) mem.old mem.new) }
    ensures count { frame_count mem.new ≡ frame_count mem.old }
{
    let frame = take_frame(mem, home);
    mem.tables.set(key.0, key.1, accessed_entry(frame, true))?;
    mem.frames.zero(frame);
    mem.lock_up(key, frame);
    Ok(frame)
}

/// The same for a page whose entry names the frame `from`, with a copy of that frame, whose map
/// count falls by one. Where nothing has it any more, as may be of a merged one, it is free.
pub fn take_frame_for_copy(
    mem: &mut Mem,
    key: (u16, u64),
    from: u32,
    home: Option<(u64, u64)>,
) -> u32
    requires there { NamesFrame mem.old key from }
    requires free { HasFree mem.old }
    requires mapped { 0 < (view mem.old).maps from }
    requires itemed { HasItems mem.old }
    requires in_range { from < frame_count mem.old }
    requires few { AreFew mem.old }
    requires locked { has_lock mem.old key ≡ true → 0 < locks_of mem.old from }
    ensures taken { IsTaken mem.old mem.new result (λ left. view_seen key.0 key.1 result true
        (view_copied key.0 key.1 from result left home (view mem.old))) }
    ensures parts { KeepsBut (locks_more mem.old key result
        (locks_less mem.old key from (locks_of mem.old))) mem.old mem.new }
{
    mem.frames.map_down(from);
    let frame = take_frame(mem, home);
    mem.tables.change(key.0, key.1, accessed_entry(frame, true));
    mem.frames.copy(from, frame);
    settle(mem, from);
    mem.lock_down(key, from);
    mem.lock_up(key, frame);
    frame
}

/// A frame that no entry names is free, unless it is cached.
pub fn settle(mem: &mut Mem, frame: u32)
    requires listed { HasLists mem.old }
    requires itemed { HasItems mem.old }
    requires in_range { frame < frame_count mem.old }
    requires in_use { is_in frame (view mem.old).free ≡ false }
    ensures settled { view mem.new ≡ view_settled frame (view mem.old) }
    ensures rest { KeepsRest mem.old mem.new }
{
    if mem.frames.maps(frame) == 0 && mem.frames.slot(frame).is_none() {
        mem.free(frame);
    }
}

/// Takes the first free frame for one entry, with this home, to the head of inactive.
fn take_frame(mem: &mut Mem, home: Option<(u64, u64)>) -> u32
    requires free { HasFree mem.old }
    ensures in_range { result < frame_count mem.old }
    ensures taken { IsTaken mem.old mem.new result (λ left.
        view_taken result left home (view mem.old)) }
    ensures tables { mem.new.tables ≡ mem.old.tables }
    ensures parts { KeepsParts mem.old mem.new }
{
    let Some(frame) = mem.frames.take() else {
        unreachable!();
    };
    mem.frames.map_up(frame);
    mem.frames.set_home(frame, home);
    mem.lists.to_inactive_head(frame);
    frame
}

/// The entry of a frame that a page has and that was accessed.
pub fn accessed_entry(frame: u32, write: bool) -> Pte
    ensures { result ≡ Pte.Here frame write true }
{
    Pte::Here {
        frame,
        write,
        seen: true,
    }
}

/// Counts the entries of a run for a child, whose table has them already: one more entry names
/// each frame and slot that they name. Only a slot takes memory; without it nothing is promised of
/// counts.
pub fn count_each_for_child(mem: &mut Mem, run: &[Pte]) -> Result<(), AllocError>
    requires used { (i : ℕ) → i < length run.now
        → IsInUse mem.old (slice_index_or run.now i Pte.Empty) }
    requires room { HasRoomFor mem.old (length run.now) }
    ensures counts { OnOk result (view mem.new ≡ view_more_each run.now (view mem.old)) }
    ensures tables { entry_at mem.new.tables ≡ entry_at mem.old.tables }
    ensures free { free_of (view mem.new) ≡ free_of (view mem.old) }
    ensures rest { KeepsRest mem.old mem.new }
{
    for entry in run {
        count_for_child(mem, *entry)?;
    }
    Ok(())
}

/// Counts an entry for a child, whose table has it already: one more entry names its frame or slot.
/// Only a slot takes memory; without it all counts stay.
fn count_for_child(mem: &mut Mem, entry: Pte) -> Result<(), AllocError>
    requires used { IsInUse mem.old entry }
    requires room { HasRoomFor mem.old 1 }
    ensures counts { MatchResult result
        (λ _. view mem.new ≡ view_more entry (view mem.old))
        (λ _. view mem.new ≡ view mem.old) }
    ensures tables { entry_at mem.new.tables ≡ entry_at mem.old.tables }
    ensures rest { KeepsRest mem.old mem.new }
{
    match entry {
        Pte::Empty | Pte::Zero => Ok(()),
        Pte::Here { frame, .. } => {
            mem.frames.map_up(frame);
            Ok(())
        }
        Pte::Away { slot } => mem.swap.entry_up(slot, 1),
    }
}

/// Lets an entry go that its table has lost, or is about to lose, and adds the note of a slot that
/// was dropped. Only the note takes memory; without it nothing is promised of entries and counts.
// An exit calls it for each page, and mostly it only counts down.
#[inline(always)]
pub(crate) fn let_go(mem: &mut Mem, entry: Pte, notes: &mut Notes) -> Result<(), AllocError>
    requires there { HasEntry mem.old entry }
    ensures goes { (d : Device) (l : Ledger) (table : Table) (p page : ℕ) →
        HasLedgerBy d mem.old table l → table p page ≡ plain entry →
        OnOk result (LetsGo d mem.old mem.new table l p page 1 notes.old notes.new) }
    ensures tables { (view mem.new).table ≡ (view mem.old).table }
    ensures rest { KeepsRest mem.old mem.new }
{
    let slot = slot_behind(mem, entry);
    count_down(mem, entry);
    match slot {
        Some(slot) => drop_orphan(mem, slot, notes),
        None => Ok(()),
    }
}

/// The slot that an entry names, or at which its frame is cached.
pub fn slot_behind(mem: &Mem, entry: Pte) -> Option<Slot>
    requires { IsWithin (view mem.now) (plain entry) }
    ensures { result ≡ slot_behind (view mem.now) (plain entry) }
{
    match entry {
        Pte::Empty | Pte::Zero => None,
        Pte::Here { frame, .. } => mem.frames.slot(frame),
        Pte::Away { slot } => Some(slot),
    }
}

/// One entry fewer names the frame or slot of an entry, which is free then where nothing has it.
fn count_down(mem: &mut Mem, entry: Pte)
    requires there { HasEntry mem.old entry }
    ensures view { view mem.new ≡ view_less (plain entry) (view mem.old) }
    ensures rest { KeepsRest mem.old mem.new }
{
    match entry {
        Pte::Empty | Pte::Zero => {}
        Pte::Here { frame, .. } => {
            mem.frames.map_down(frame);
            settle(mem, frame);
        }
        Pte::Away { slot } => mem.swap.entry_down(slot, 1),
    }
}

/// Drops a slot that nothing uses any more, and adds its note.
fn drop_orphan(mem: &mut Mem, slot: Slot, notes: &mut Notes) -> Result<(), AllocError>
    requires fits { HasRoom mem.old }
    requires listed { HasLists mem.old }
    requires itemed { HasItems mem.old }
    requires in_use { IfSome ((view mem.old).find slot) (λ f.
        is_in f (view mem.old).free ≡ false) }
    ensures drops { OnOk result (DropsOrphan slot (view mem.old) (view mem.new)
        notes.old notes.new) }
    ensures tables { (view mem.new).table ≡ (view mem.old).table }
    ensures rest { KeepsRest mem.old mem.new }
{
    let Some(frame) = mem.swap.find(slot) else {
        return Ok(());
    };
    if is_orphan(mem, frame, slot) {
        mem.drop_slot(frame, slot);
        notes.push(Note::Dropped(slot))?;
    }
    Ok(())
}

/// Whether the slot at which a frame is cached is not in flight, and no entry names it or the
/// frame.
pub fn is_orphan(mem: &Mem, frame: u32, slot: Slot) -> bool
    requires in_range { frame < frame_count mem.now }
    requires cached { (view mem.now).find slot ≡ Some frame }
    ensures { result ≡ is_orphan (view mem.now) slot }
{
    mem.frames.maps(frame) == 0 && !mem.swap.in_flight(slot) && mem.swap.entries(slot) == 0
}
