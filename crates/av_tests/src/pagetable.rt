//! Entries of processes, and tables that are given back when no entry is left in them.

use av_base::Slot;
use av_pagetable::{MapTable, PageTable, Pte, RUN, RadixTable, Table, Tables};
use std::alloc::AllocError;

/// An entry whose page is at a slot.
const AWAY: Pte = Pte::Away {
    slot: Slot { area: 0, page: 7 },
};

/// The pages that four levels of tables have.
const PAGES: u64 = 0x10_0000_0000;

/// Gives a page an entry and then another one, and says whether it has that.
fn is_changed(table: &mut RadixTable, page: u64) -> Result<bool, AllocError> {
    if page >= PAGES {
        return Ok(false);
    }
    table.set(page, Pte::Zero)?;
    if table.get(page) == Pte::Empty {
        return Ok(false);
    }
    table.change(page, AWAY);
    Ok(table.get(page) == AWAY)
}

/// Whether the first entry of a range is this one; it is taken out.
fn is_first(table: &mut RadixTable, from: u64, to: u64, wanted: Option<u64>) -> bool {
    match table.next_from(from) {
        Some(page) if page < to => {
            let is_away = table.get(page) == AWAY;
            table.clear_range(page, page + 1);
            wanted == Some(page) && is_away
        }
        _ => wanted.is_none(),
    }
}

#[test]
fn tables_are_given_back(rt: HostRuntime) -> Result<(), AllocError> {
    let mut table = RadixTable::new(rt.alloc())?;
    assert!(rt; table.held() == 1);
    assert!(rt; is_changed(&mut table, 0x10000)?);
    assert!(rt; is_changed(&mut table, 0x7fffffffe)?);
    assert!(rt; table.held() == 7);
    assert!(rt; is_first(&mut table, 0x10001, 0x7ffffffff, Some(0x7fffffffe)));
    assert!(rt; is_first(&mut table, 0x10001, PAGES, None));
    assert!(rt; table.held() == 4);
    assert!(rt; is_first(&mut table, 0, PAGES, Some(0x10000)));
    assert!(rt; table.held() == 1 && table.next_from(0) == None);
    Ok(())
}

/// The first part of a table lies in the table itself, and an array begins with the second, also
/// where that stands before it. Once none is left, one can come again.
#[test]
fn parts_of_a_table_come_and_go(rt: HostRuntime) -> Result<(), AllocError> {
    let mut table = RadixTable::new(rt.alloc())?;
    for _round in 0..2 {
        assert!(rt; is_changed(&mut table, 0x10003)?);
        assert!(rt; is_changed(&mut table, 0x10001)?);
        assert!(rt; table.get(0x10003) == AWAY && table.get(0x10002) == Pte::Empty);
        assert!(rt; is_first(&mut table, 0, PAGES, Some(0x10001)));
        assert!(rt; is_first(&mut table, 0, PAGES, Some(0x10003)));
        assert!(rt; table.held() == 1 && table.get(0x10003) == Pte::Empty);
    }
    Ok(())
}

/// Whether a run from a page on reads these entries.
fn reads<T: Table>(table: &T, page: u64, wanted: &[Pte]) -> bool {
    let mut run = [Pte::Zero; RUN];
    let len = table.read_run(page, &mut run);
    &run[..len] == wanted
}

/// Whether runs end behind the last entry among 64 pages, at the end of a last table, and at once
/// where the page has no entry.
fn has_runs<T: Table>(table: &mut T) -> Result<bool, AllocError> {
    table.set(16, Pte::Zero)?;
    table.set(18, AWAY)?;
    table.set(511, AWAY)?;
    table.set(512, AWAY)?;
    for page in 1024..1089 {
        table.set(page, AWAY)?;
    }
    Ok(
        reads(table, 16, &[Pte::Zero, Pte::Empty, AWAY])
            && reads(table, 17, &[Pte::Empty])
            && reads(table, 511, &[AWAY])
            && reads(table, 1024, &[AWAY; RUN])
            && reads(table, 1088, &[AWAY]),
    )
}

#[test]
fn a_run_reads_on_over_holes(rt: HostRuntime) -> Result<(), AllocError> {
    let mut radix = RadixTable::new(rt.alloc())?;
    assert!(rt; has_runs(&mut radix)?);
    let mut map = MapTable::new(rt.alloc())?;
    assert!(rt; has_runs(&mut map)?);
    Ok(())
}

/// Whether, of pages that four last tables have, just those of a range go that begins and ends
/// within such tables.
fn loses_a_range<T: Table>(table: &mut T) -> Result<bool, AllocError> {
    for page in 500..1600 {
        table.set(page, AWAY)?;
    }
    table.clear_range(510, 1030);
    for page in 500..1600 {
        let stays = page < 510 || 1030 <= page;
        if (table.get(page) == AWAY) != stays {
            return Ok(false);
        }
    }
    Ok(true)
}

#[test]
fn a_range_goes(rt: HostRuntime) -> Result<(), AllocError> {
    let mut radix = RadixTable::new(rt.alloc())?;
    assert!(rt; loses_a_range(&mut radix)?);
    // The second of the last tables has gone.
    assert!(rt; radix.held() == 6);
    radix.clear_range(0, PAGES);
    assert!(rt; radix.held() == 1);
    let mut map = MapTable::new(rt.alloc())?;
    assert!(rt; loses_a_range(&mut map)?);
    Ok(())
}

/// Whether process 4 has entries at page 16 and page 20, and process 5 has none; the first is taken
/// out.
fn are_found(tables: &mut Tables<PageTable>) -> bool {
    let are_there = tables.get(4, 20) == AWAY
        && tables.get(5, 20) == Pte::Empty
        && tables.next_from(4, 17) == Some(20)
        && tables.next_from(4, 0) == Some(16);
    tables.clear_range(4, 0, 20);
    are_there && tables.next_from(4, 0) == Some(20)
}

#[test]
fn entries_of_a_process(rt: HostRuntime) -> Result<(), AllocError> {
    let mut tables: Tables<PageTable> = Tables::new(rt.alloc());
    tables.spawn(rt.alloc(), 4)?;
    tables.set(4, 16, Pte::Zero)?;
    tables.set(4, 20, Pte::Zero)?;
    tables.change(4, 20, AWAY);
    assert!(rt; are_found(&mut tables));
    Ok(())
}

#[test]
fn processes_come_and_go(rt: HostRuntime) -> Result<(), AllocError> {
    let mut tables: Tables<MapTable> = Tables::new(rt.alloc());
    tables.spawn(rt.alloc(), 9)?;
    tables.spawn(rt.alloc(), 4)?;
    assert!(rt; tables.process_from(0) == Some(4));
    assert!(rt; tables.process_from(5) == Some(9));
    assert!(rt; tables.process_from(10) == None);
    tables.exit(9);
    assert!(rt; tables.process_from(5) == None && tables.of(9).is_none());
    tables.set(4, 1, Pte::Zero)?;
    assert!(rt; tables.get(4, 1) == Pte::Zero);
    Ok(())
}

/// An entry of frame 3 that isn't seen, the same seen, and one of another frame.
const UNSEEN: Pte = Pte::Here {
    frame: 3,
    write: true,
    seen: false,
};

const SEEN: Pte = Pte::Here {
    frame: 3,
    write: true,
    seen: true,
};

const OTHER: Pte = Pte::Here {
    frame: 2,
    write: true,
    seen: true,
};

#[test]
fn a_mark_goes_with_an_entry_that_is_seen(rt: HostRuntime) -> Result<(), AllocError> {
    let mut tables: Tables<PageTable> = Tables::new(rt.alloc());
    assert!(rt; tables.may_be_seen(3));
    tables.mark_unseen(3);
    assert!(rt; !tables.may_be_seen(3) && tables.may_be_seen(2) && tables.may_be_seen(4));
    tables.spawn(rt.alloc(), 4)?;
    tables.set(4, 16, UNSEEN)?;
    tables.set(4, 20, OTHER)?;
    assert!(rt; !tables.may_be_seen(3));
    tables.change(4, 16, SEEN);
    assert!(rt; tables.may_be_seen(3));
    Ok(())
}
