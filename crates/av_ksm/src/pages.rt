//! The pages with an entry, one after the other.

ghost use Rattle.std.specs.Prelude.{◌≡◌, ◌<◌, false, IfSome, map};
ghost use Rattle.av_pagetable.specs.Entries.{entry_at};
ghost use Rattle.av_pagetable.specs.Table.{page_bound};
ghost use Rattle.av_plain.specs.Areas.{Rmap};
ghost use Rattle.av_plain.specs.Device.{Device};
ghost use Rattle.av_plain.specs.Ledger.{Ledger};
ghost use Rattle.av_plain.specs.World.{World};
ghost use Rattle.av_mem.specs.Between.{KeepsBetween};
ghost use Rattle.av_ksm.specs.Pages.{is_before, IsNextEntry, IsNextKey};

use av_mem::Mem;
use av_pagetable::{PageTable, Tables};

/// The least page with an entry from this one on, by process, then address.
pub fn next_page(mem: &Mem, from: (u16, u64)) -> Option<(u16, u64)>
    ensures next { (d : Device) (w : World) (r : Rmap) (l : Ledger) → KeepsBetween d mem.now w r l
        → IsNextKey from (map (λ e. e.0) l.entries) result }
    ensures ahead { IfSome result (λ k. is_before k from ≡ false) }
    ensures below { IfSome result (λ k. k.1 < page_bound) }
{
    mem.spaces.keeps();
    next_entry(&mem.tables, from)
}

/// The same in the tables alone.
fn next_entry(tables: &Tables<PageTable>, from: (u16, u64)) -> Option<(u16, u64)>
    ensures { IsNextEntry (entry_at tables.now) from result }
{
    let (mut process, mut least) = from;
    loop {
        if let Some(page) = tables.next_from(process, least) {
            return Some((process, page));
        }
        process = tables.process_from(process.checked_add(1)?)?;
        least = 0;
    }
}
