//! How the entries of a process go over to another one.

ghost use Rattle.std.specs.Prelude.{◌≡◌, ℕ, ◌*◌, ◌<◌, ◌≤◌, true, OnOk};
ghost use Rattle.av_base.specs.Limits.{most_processes, top_page};
ghost use Rattle.av_base.specs.Words.{with_at};
ghost use Rattle.av_base.specs.declared.slot.Slot.{Slot};
ghost use Rattle.av_fork.specs.Entries.{entry_goes_over, left_in, FlagsAre};
ghost use Rattle.av_fork.specs.Entries.{HasForkedEntries};
ghost use Rattle.av_pagetable.specs.Entries.{entry_at, has};
ghost use Rattle.av_pagetable.specs.Table.{page_bound};
ghost use Rattle.av_pagetable.specs.declared.pte.Pte.TheVariants as Pte;
ghost use Rattle.av_plain.specs.Device.{Device};
ghost use Rattle.av_plain.specs.Ledger.{Ledger};
ghost use Rattle.av_plain.specs.Stands.{free_of};
ghost use Rattle.av_plain.specs.World.{Process};
ghost use Rattle.av_spaces.specs.Spaces.{pages_of};
ghost use Rattle.av_mem.specs.Mem.{view, HasLedger, IsOrderly};
ghost use Rattle.av_mem.specs.Steps.{KeepsRest};

use av_base::PAGE_SIZE;
use av_mem::Mem;
use av_mem::entries::count_each_for_child;
use av_pagetable::{Pte, RUN};
use av_spaces::Spaces;
use std::alloc::{AllocError, Global};

/// Gives a process with an empty table each entry of another one that goes over, by the flags of
/// its page: not seen, and written in place by neither. Without memory nothing is promised of
/// entries and counts.
pub fn fork_entries(mem: &mut Mem, alloc: Global, parent: u16, child: u16) -> Result<(), AllocError>
    requires orderly { IsOrderly mem.old }
    requires few { (f : ℕ) → (view mem.old).maps f ≤ most_processes * top_page }
    requires few_slots { (s : Slot) → (view mem.old).entries s ≤ most_processes }
    requires there { has mem.old.tables child ≡ true }
    requires empty { (page : ℕ) → entry_at mem.old.tables child page ≡ Pte.Empty }
    ensures forks { (d : Device) (pages : Process) (l : Ledger) → HasLedger d mem.old l
        → FlagsAre (view mem.old) parent pages
        → OnOk result (HasForkedEntries d mem.old mem.new pages l parent child) }
    ensures free { free_of (view mem.new) ≡ free_of (view mem.old) }
    ensures rest { KeepsRest mem.old mem.new }
{
    // Before all else: the compiler clears the place of a local as the function begins. Declared
    // further down it would be cleared there once more.
    let mut run = [Pte::Empty; RUN];
    mem.tables.copy(alloc, parent, child)?;
    mem.tables.write_protect(parent);
    leave_out(mem, parent, child);
    let mut next = 0;
    while let Some(page) = mem.tables.next_from(child, next) {
        let len = mem.tables.read_run(child, page, &mut run);
        next = page + len as u64;
        count_each_for_child(mem, &run[..len])?;
    }
    Ok(())
}

/// Takes the entries out of a child's table that don't go over from its parent. They aren't counted
/// yet.
// It looks up each area that has entries once, and takes no memory.
fn leave_out(mem: &mut Mem, parent: u16, child: u16)
    ensures left { entry_at mem.new.tables ≡ with_at child
        (left_in (pages_of mem.old.spaces.processes parent) (entry_at mem.old.tables child))
        (entry_at mem.old.tables) }
    ensures processes { has mem.new.tables ≡ has mem.old.tables }
    ensures rest { mem.new ≡ record mem.old { tables = mem.new.tables } }
{
    let mut next = 0;
    while let Some(page) = mem.tables.next_from(child, next) {
        let (goes, past) = run_from(&mem.spaces, parent, page);
        next = past;
        if goes {
            continue;
        }
        mem.tables.clear_range(child, page, past);
    }
}

/// Whether the entry of a page goes over to a child, and before which page all of the process's do
/// as it does.
fn run_from(spaces: &Spaces, process: u16, page: u64) -> (bool, u64)
    requires below { page < page_bound }
    ensures further { page < result.1 }
    ensures alike { (other : ℕ) → page ≤ other → other < result.1
        → entry_goes_over (pages_of spaces.now.processes process other) ≡ result.0 }
{
    match spaces.area(process, page) {
        Some(area) => {
            let goes = !area.flags.dont_fork && !area.flags.wipe_on_fork;
            (goes, area.end / PAGE_SIZE)
        }
        // A page that isn't mapped has no entry.
        None => (false, page + 1),
    }
}
