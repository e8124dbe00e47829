//! What becomes of the entries of a range of pages that moves, shrinks or grows.

ghost use Rattle.std.specs.Prelude.{◌≡◌, ℕ, ◌+◌, ◌^◌, ◌<◌, ◌≤◌, ◌⊎◌, length, true, OnOk};
ghost use Rattle.av_base.specs.Words.{within};
ghost use Rattle.av_mremap.specs.Entries.{copied_entries, moved_entries, with_run};
ghost use Rattle.av_mremap.specs.Entries.{HasMovedEntries, HasRemapped};
ghost use Rattle.av_pagetable.specs.Entries.{entry_at, has};
ghost use Rattle.av_pagetable.specs.Table.{page_bound};
ghost use Rattle.av_pagetable.specs.declared.pte.Pte.TheVariants as Pte;
ghost use Rattle.av_plain.specs.Device.{Device};
ghost use Rattle.av_plain.specs.Ledger.{Ledger};
ghost use Rattle.av_plain.specs.Mremap.{remap_events};
ghost use Rattle.av_mem.specs.Mem.{HasLedger, IsOrderly};
ghost use Rattle.av_mem.specs.Steps.{KeepsRest};

use av_mem::{Mem, zap_range};
use av_pagetable::{Pte, RUN};
use av_trace::Notes;
use std::alloc::AllocError;

/// Does to the entries of a process what an mremap does where `pages` pages from the page `from` on
/// become `new_pages` from the page `to` on: those past the new pages go, and where the pages move,
/// those of the new range go first, and last the rest moves. It adds the notes of the slots that
/// were dropped.
///
/// Costs by the entries of the two ranges. Without memory some entries may be on both pages.
pub fn remap_entries(
    mem: &mut Mem,
    process: u16,
    from: u64,
    pages: u64,
    to: u64,
    new_pages: u64,
    notes: &mut Notes,
) -> Result<(), AllocError>
    requires orderly { IsOrderly mem.old }
    requires there { has mem.old.tables process ≡ true }
    requires few { from + pages < 2 ^ 64 }
    requires new_few { from + new_pages < 2 ^ 64 }
    requires old_range { (to ≡ from → ⊥) → from + pages ≤ page_bound }
    requires new_range { (to ≡ from → ⊥) → to + new_pages ≤ page_bound }
    requires apart { (to ≡ from → ⊥) → (to + new_pages ≤ from) ⊎ (from + pages ≤ to) }
    ensures remaps { (d : Device) (l : Ledger) → HasLedger d mem.old l →
        OnOk result (HasRemapped d mem.old mem.new l
        (remap_events l process from pages to new_pages) notes.old notes.new) }
    ensures rest { KeepsRest mem.old mem.new }
{
    let (stay, past) = (from + new_pages, from + pages);
    if to == from {
        return zap_range(mem, process, stay, past, notes);
    }
    zap_range(mem, process, to, to + new_pages, notes)?;
    zap_range(mem, process, stay, past, notes)?;
    move_entries(mem, process, from, pages.min(new_pages), to)
}

/// Gives each entry of a process's pages from the page `from` on, as many as `pages`, to the page
/// as far from the page `to` on, as it is. The two ranges are apart, and the second has no entry.
///
/// Costs by the entries of the range alone. Without memory some entries may be on both pages.
fn move_entries(
    mem: &mut Mem,
    process: u16,
    from: u64,
    pages: u64,
    to: u64,
) -> Result<(), AllocError>
    requires orderly { IsOrderly mem.old }
    requires there { has mem.old.tables process ≡ true }
    requires old_range { from + pages ≤ page_bound }
    requires new_range { to + pages ≤ page_bound }
    requires apart { (to + pages ≤ from) ⊎ (from + pages ≤ to) }
    requires bare { (page : ℕ) → within to pages page ≡ true →
        entry_at mem.old.tables process page ≡ Pte.Empty }
    ensures moves { (d : Device) (l : Ledger) → HasLedger d mem.old l →
        OnOk result (HasMovedEntries d mem.old mem.new l process pages from to) }
    ensures entries { OnOk result (entry_at mem.new.tables
        ≡ moved_entries Pte.Empty process pages from to (entry_at mem.old.tables)) }
    ensures stay { mem.new ≡ record mem.old { tables = mem.new.tables } }
    ensures rest { KeepsRest mem.old mem.new }
{
    copy_entries(mem, process, from, pages, to)?;
    mem.tables.clear_range(process, from, from + pages);
    Ok(())
}

/// Gives the second range the entries of the first, which has them still.
fn copy_entries(
    mem: &mut Mem,
    process: u16,
    from: u64,
    pages: u64,
    to: u64,
) -> Result<(), AllocError>
    requires there { has mem.old.tables process ≡ true }
    requires old_range { from + pages ≤ page_bound }
    requires new_range { to + pages ≤ page_bound }
    requires apart { (to + pages ≤ from) ⊎ (from + pages ≤ to) }
    requires bare { (page : ℕ) → within to pages page ≡ true →
        entry_at mem.old.tables process page ≡ Pte.Empty }
    ensures entries { OnOk result (entry_at mem.new.tables
        ≡ copied_entries process pages from to (entry_at mem.old.tables)) }
    ensures stay { mem.new ≡ record mem.old { tables = mem.new.tables } }
    ensures rest { KeepsRest mem.old mem.new }
{
    let past = from + pages;
    let mut run = [Pte::Empty; RUN];
    let mut next = from;
    while let Some(page) = mem.tables.next_from(process, next) {
        if page >= past {
            return Ok(());
        }
        let read = mem.tables.read_run(process, page, &mut run);
        let len = read.min((past - page) as usize);
        set_each(mem, process, page - from + to, &run[..len])?;
        next = page + len as u64;
    }
    Ok(())
}

/// Gives pages in a row, which have none, the entries of a run.
fn set_each(mem: &mut Mem, process: u16, page: u64, run: &[Pte]) -> Result<(), AllocError>
    requires there { has mem.old.tables process ≡ true }
    requires below { page + length run.now ≤ page_bound }
    requires bare { (other : ℕ) → within page (length run.now) other ≡ true →
        entry_at mem.old.tables process other ≡ Pte.Empty }
    ensures sets { OnOk result (entry_at mem.new.tables
        ≡ with_run process page (length run.now) run.now (entry_at mem.old.tables)) }
    ensures stay { mem.new ≡ record mem.old { tables = mem.new.tables } }
    ensures rest { KeepsRest mem.old mem.new }
{
    for i in 0..run.len() {
        let entry = run[i];
        if entry == Pte::Empty {
            continue;
        }
        mem.tables.set(process, page + i as u64, entry)?;
    }
    Ok(())
}
