//! How the entries of a range of pages go: each frame that no other entry names becomes free, and
//! each slot that nothing uses any more is dropped. The counts of entries of locked pages stay:
//! they are taken off before (`unlock_range`).

ghost use Rattle.std.specs.Prelude.{◌≡◌, ℕ, ◌-◌, ◌<◌, ◌≤◌, false, length, OnOk};
ghost use Rattle.av_pagetable.specs.Entries.{entry_at};
ghost use Rattle.av_pagetable.specs.declared.pte.Pte.TheVariants as Pte;
ghost use Rattle.av_plain.specs.Device.{Device};
ghost use Rattle.av_plain.specs.Ledger.{Ledger};
ghost use Rattle.av_plain.specs.Zap.{keys_in, keys_of_process, zaps_of};
ghost use Rattle.av_mem.specs.Entries.{HasAll, HasEntries, HasLedgerBy, LetsGo, Table};
ghost use Rattle.av_mem.specs.Mem.{view, HasLedger, IsOrderly};
ghost use Rattle.av_mem.specs.Steps.{KeepsRest};
ghost use Rattle.av_mem.specs.Zap.{HasZapped};

use crate::entries::let_go;
use crate::mem::Mem;
use av_pagetable::{Pte, RUN};
use av_trace::Notes;
use std::alloc::AllocError;

/// Takes away all entries of a process, by rising page, and adds the notes of the slots that were
/// dropped.
///
/// Costs by the entries. Without memory, which only a note takes, nothing is promised of entries
/// and counts.
pub fn zap_all(mem: &mut Mem, process: u16, notes: &mut Notes) -> Result<(), AllocError>
    requires orderly { IsOrderly mem.old }
    ensures zapped { (d : Device) (l : Ledger) → HasLedger d mem.old l →
        OnOk result (HasZapped d mem.old mem.new l (zaps_of l (keys_of_process l process))
        notes.old notes.new) }
    ensures rest { KeepsRest mem.old mem.new }
{
    let_go_range(mem, process, 0, u64::MAX, notes)?;
    mem.tables.clear(process);
    Ok(())
}

/// Takes away the entries of a process's pages from `from` to below `past`, by rising page, and
/// adds the notes of the slots that were dropped.
///
/// Costs by the entries. Without memory nothing is promised, as of `zap_all`.
pub fn zap_range(
    mem: &mut Mem,
    process: u16,
    from: u64,
    past: u64,
    notes: &mut Notes,
) -> Result<(), AllocError>
    requires orderly { IsOrderly mem.old }
    ensures zapped { (d : Device) (l : Ledger) → HasLedger d mem.old l →
        OnOk result (HasZapped d mem.old mem.new l
        (zaps_of l (keys_in l process from (past - from))) notes.old notes.new) }
    ensures rest { KeepsRest mem.old mem.new }
{
    if !has_entry(mem, process, from, past) {
        return Ok(());
    }
    let_go_range(mem, process, from, past, notes)?;
    mem.tables.clear_range(process, from, past);
    Ok(())
}

/// Whether a page of a process from `from` to below `past` has an entry.
fn has_entry(mem: &Mem, process: u16, from: u64, past: u64) -> bool
    ensures { result ≡ false → (page : ℕ) → from ≤ page → page < past
        → entry_at mem.now.tables process page ≡ Pte.Empty }
{
    // A move that loses no page asks for an empty range.
    if past <= from {
        return false;
    }
    match mem.tables.next_from(process, from) {
        Some(page) => page < past,
        None => false,
    }
}

/// Lets the entries of a process's pages from `from` to below `past` go, by rising page, while the
/// table has them still.
fn let_go_range(
    mem: &mut Mem,
    process: u16,
    from: u64,
    past: u64,
    notes: &mut Notes,
) -> Result<(), AllocError>
    requires orderly { IsOrderly mem.old }
    ensures goes { (d : Device) (l : Ledger) → HasLedger d mem.old l →
        OnOk result (LetsGo d mem.old mem.new (view mem.old).table l process from (past - from)
        notes.old notes.new) }
    ensures tables { (view mem.new).table ≡ (view mem.old).table }
    ensures rest { KeepsRest mem.old mem.new }
{
    let mut run = [Pte::Empty; RUN];
    let mut next = from;
    while let Some(page) = mem.tables.next_from(process, next) {
        if page >= past {
            return Ok(());
        }
        let read = mem.tables.read_run(process, page, &mut run);
        let len = read.min((past - page) as usize);
        next = page + len as u64;
        let_go_each(mem, &run[..len], notes)?;
    }
    Ok(())
}

/// Lets the entries of a run go, by rising page.
// Never inline: within an exit too few registers are left for the loop.
#[inline(never)]
fn let_go_each(mem: &mut Mem, run: &[Pte], notes: &mut Notes) -> Result<(), AllocError>
    requires there { HasEntries mem.old run.now }
    ensures goes { (d : Device) (l : Ledger) (table : Table) (p page : ℕ) →
        HasLedgerBy d mem.old table l → HasAll table p page run.now →
        OnOk result (LetsGo d mem.old mem.new table l p page (length run.now)
        notes.old notes.new) }
    ensures tables { (view mem.new).table ≡ (view mem.old).table }
    ensures rest { KeepsRest mem.old mem.new }
{
    for entry in run {
        let_go(mem, *entry, notes)?;
    }
    Ok(())
}
