//! A walk finds the entries of two processes that share a frame, and their seen bits are cleared;
//! items of merged frames.

ghost use Rattle.std.specs.Prelude.{◌≡◌, ℕ, ◌+◌, ◌<◌, ◌++◌, [], ◌∷◌, false, None, Some, IfOk};
ghost use Rattle.std.specs.Prelude.{OnOk};
ghost use Rattle.av_anon.specs.Anons.{family, nobody, own_of};
ghost use Rattle.av_anon.specs.Order.{IsArea};
ghost use Rattle.av_anon.specs.Spans.{spans_of};
ghost use Rattle.av_base.specs.Words.{with_at};
ghost use Rattle.av_merge.specs.Kin.{AreInOrder};
ghost use Rattle.av_pagetable.specs.Entries.{entry_at, has};
ghost use Rattle.av_rmap.specs.Covered.{IsCovered};
ghost use Rattle.av_rmap.specs.Items.{none_merged, shown};
ghost use Rattle.av_rmap.specs.Stores.{view_of_mut};
ghost use Rattle.av_rmap.specs.View.{AreApart, AreSpanned};
ghost use Rattle.av_rmap.specs.Walk.{HasSoMany, names_frame};
ghost use Rattle.av_tests.specs.Rmap.{AreThree, shared_entries};
ghost use Rattle.av_vma.specs.Areas.{area_of};

use av_anon::Anons;
use av_anon::order::nobody_is_in_order;
use av_base::{Flags, PAGE_SIZE, Prot, Steps};
use av_pagetable::{PageTable, Pte, Tables};
use av_rmap::items::Items;
use av_rmap::look::LookMut;
use av_rmap::merged::walk_merged;
use av_rmap::seen::clear_seen;
use av_rmap::sorted::walk_frame;
use av_rmap::stores::StoresMut;
use av_vma::{Area, AreaId, Areas};
use std::alloc::{AllocError, Global};
use std::marker::Brand;
use std::sync::ledger::{Blank, Ledger};
use std::test::Fail;

/// Pages 10 to 13 of process 1, with their offset.
const PARENT: Area = Area {
    pid: 1,
    start: 10 * PAGE_SIZE,
    end: 14 * PAGE_SIZE,
    prot: Prot {
        read: true,
        write: true,
        execute: false,
    },
    flags: Flags::NONE,
    pgoff: 10,
    anon: None,
};

/// The same of process 2.
const CHILD: Area = Area { pid: 2, ..PARENT };

/// Pages 20 to 23 of process 2.
const OTHER: Area = Area {
    pid: 2,
    start: 20 * PAGE_SIZE,
    end: 24 * PAGE_SIZE,
    pgoff: 20,
    ..PARENT
};

/// An entry that names frame 7.
const FRAME_7: Pte = Pte::Here {
    frame: 7,
    write: false,
    seen: true,
};

/// Adds an area, with the first anon_vma as its own.
fn add(areas: &mut Areas, anons: &mut Anons, area: Area) -> Result<AreaId, AllocError>
    requires order { AreInOrder areas.old anons.old }
    requires bare { area.anon ≡ None }
    requires fits { IsArea area }
    requires first { (family anons.old).next ≡ 0 }
    requires unused { (family anons.old).users 0 ≡ [] }
    ensures order { OnOk result (AreInOrder areas.new anons.new) }
    ensures unused { IfOk result (λ id. area_of areas.old id ≡ None) }
    ensures added { IfOk result (λ id. (number : ℕ) → area_of areas.new number
        ≡ with_at id (Some (record area { anon = Some 0 })) (area_of areas.old) number) }
    ensures users { IfOk result (λ id. (family anons.new).users 0 ≡ id ∷ []) }
{
    let id = areas.add(area)?;
    anons.prepare(areas, id, None, None)?;
    Ok(id)
}

/// Adds one more.
fn add_like(
    areas: &mut Areas,
    anons: &mut Anons,
    area: Area,
    like: AreaId,
) -> Result<AreaId, AllocError>
    requires order { AreInOrder areas.old anons.old }
    requires bare { area.anon ≡ None }
    requires fits { IsArea area }
    requires own { own_of (area_of areas.old like) ≡ Some 0 }
    ensures order { OnOk result (AreInOrder areas.new anons.new) }
    ensures unused { IfOk result (λ id. area_of areas.old id ≡ None) }
    ensures added { IfOk result (λ id. (number : ℕ) → area_of areas.new number
        ≡ with_at id (Some (record area { anon = Some 0 })) (area_of areas.old) number) }
    ensures users { IfOk result (λ id.
        (family anons.new).users 0 ≡ (family anons.old).users 0 ++ id ∷ []) }
{
    let id = areas.add(area)?;
    anons.clone_chain(areas, like, id)?;
    Ok(id)
}

/// What is found of a frame: its entries, as found through its home and through its items, and
/// whether one of them is seen, before and after the seen bits are cleared.
type Found = (Vec<(u16, u64)>, Vec<(u16, u64)>, (bool, bool));

/// Whether a frame with this map count was accessed, and whether it still says so once its seen
/// bits were cleared.
fn seen_and_then<K: LookMut<L>, L: Ledger>(
    look: &mut K,
    frame: u32,
    home: (u64, u64),
    maps: u64,
    steps: &mut Steps<L>,
) -> (bool, bool)
    requires spanned { AreSpanned (K.view look.old) }
    requires apart { AreApart (K.view look.old) }
    requires covered { IsCovered (K.view look.old) (names_frame frame) home }
    requires maps { HasSoMany (K.view look.old) (names_frame frame) maps }
{
    let before = clear_seen(look, frame, home, maps, steps);
    let after = clear_seen(look, frame, home, maps, steps);
    (before, after)
}

/// The same in stores, by a counter of its own.
fn seen_in_stores<L: Ledger>(
    stores: &mut StoresMut<'_>,
    frame: u32,
    home: (u64, u64),
    maps: u64,
    blank: Blank,
) -> (bool, bool)
    requires spanned { AreSpanned (view_of_mut stores.old) }
    requires apart { AreApart (view_of_mut stores.old) }
    requires covered { IsCovered (view_of_mut stores.old) (names_frame frame) home }
    requires maps { HasSoMany (view_of_mut stores.old) (names_frame frame) maps }
    requires name { blank.name ≡ L.name }
    requires parts { blank.parts ≡ L.parts }
    requires some { 0 < blank.parts }
{
    let mut steps = Steps::<L>::open(blank);
    seen_and_then(stores, frame, home, maps, &mut steps)
}

/// Links the areas of page 11 in two processes, and one that doesn't hold its index, to the first
/// anon_vma.
fn link_three(areas: &mut Areas, anons: &mut Anons) -> Result<(AreaId, AreaId, AreaId), AllocError>
    requires areas { (number : ℕ) → area_of areas.old number ≡ None }
    requires family { family anons.old ≡ nobody }
    requires spans { (anon : ℕ) → spans_of anons.old anon ≡ [] }
    ensures order { OnOk result (AreInOrder areas.new anons.new) }
    ensures areas { IfOk result (λ ids. AreThree (area_of areas.new) ids.0 ids.1 ids.2) }
    ensures users { IfOk result (λ ids.
        (family anons.new).users 0 ≡ ids.0 ∷ ids.1 ∷ ids.2 ∷ []) }
{
    nobody_is_in_order();
    let parent = add(areas, anons, PARENT)?;
    let child = add_like(areas, anons, CHILD, parent)?;
    let other = add_like(areas, anons, OTHER, child)?;
    Ok((parent, child, other))
}

/// Two processes come to have one frame on their page 11.
fn share_frame(alloc: Global, tables: &mut Tables<PageTable>) -> Result<(), AllocError>
    requires processes { (process : ℕ) → has tables.old process ≡ false }
    requires entries { (process page : ℕ) → entry_at tables.old process page ≡ Pte.Empty }
    ensures { OnOk result ((p page : ℕ) → entry_at tables.new p page ≡ shared_entries p page) }
{
    tables.spawn(alloc, 1)?;
    tables.spawn(alloc, 2)?;
    tables.set(1, 11, FRAME_7)?;
    tables.set(2, 11, FRAME_7)?;
    Ok(())
}

/// What is found of a frame that two processes have on their page 11. Three areas are linked to
/// the anon_vma of its home, and two of them hold its index. Of two items one is that home, and one
/// has an index that one area holds.
fn walk_shared<L: Ledger>(
    alloc: Global,
    areas: &mut Areas,
    anons: &mut Anons,
    tables: &mut Tables<PageTable>,
    steps: &mut Steps<L>,
) -> Result<Found, AllocError>
    requires areas { (number : ℕ) → area_of areas.old number ≡ None }
    requires family { family anons.old ≡ nobody }
    requires spans { (anon : ℕ) → spans_of anons.old anon ≡ [] }
    requires processes { (process : ℕ) → has tables.old process ≡ false }
    requires entries { (process page : ℕ) → entry_at tables.old process page ≡ Pte.Empty }
    ensures { OnOk result (steps.new ≡ steps.old + 5) }
{
    let _ids = link_three(areas, anons)?;
    share_frame(alloc, tables)?;
    let mut stores = StoresMut {
        areas,
        anons,
        tables,
    };
    let keys = walk_frame(alloc, &stores, 7, Some((0, 11)), 2, steps)?;
    let merged = walk_merged(alloc, &stores, 7, &[(0, 11), (0, 20)], 2, steps)?;
    let seen = seen_in_stores::<Brand>(&mut stores, 7, (0, 11), 2, Blank::new(1));
    Ok((keys, merged, seen))
}

/// The same, by stores and a counter of its own.
fn walk_shared_alone<L: Ledger>(alloc: Global, blank: Blank) -> Result<Found, AllocError>
    requires name { blank.name ≡ L.name }
    requires parts { blank.parts ≡ L.parts }
    requires some { 0 < blank.parts }
{
    let mut steps = Steps::<L>::open(blank);
    let mut areas = Areas::new(alloc);
    let mut anons = Anons::new(alloc);
    let mut tables = Tables::new(alloc);
    walk_shared(alloc, &mut areas, &mut anons, &mut tables, &mut steps)
}

#[test]
fn a_walk_finds_the_entries_of_both_processes(rt: HostRuntime) -> Result<(), Fail> {
    let (keys, merged, seen) = walk_shared_alone::<Brand>(rt.alloc(), Blank::new(1))?;
    assert!(rt; keys.as_slice() == [(1, 11), (2, 11)].as_slice());
    assert!(rt; merged.as_slice() == [(1, 11), (2, 11)].as_slice());
    assert!(rt; seen.0 && !seen.1);
    Ok(())
}

/// Whether a frame gets items, each once, gives them away, and they are cleared.
fn go_as_told(items: &mut Items) -> Result<bool, AllocError>
    requires { shown items.old ≡ none_merged 3 }
{
    items.add(1, 4, 9)?;
    items.add(1, 5, 9)?;
    items.add(1, 4, 9)?;
    if items.of(1) != [(4, 9), (5, 9)].as_slice() {
        return Ok(false);
    }
    items.rename(1, 2);
    if items.is_merged(1) || !items.is_merged(2) {
        return Ok(false);
    }
    items.clear(2);
    Ok(!items.is_merged(2))
}

#[test]
fn items_stand_once_and_go_over(rt: HostRuntime) -> Result<(), AllocError> {
    let mut items = Items::new(rt.alloc(), 3)?;
    assert!(rt; go_as_told(&mut items)?);
    Ok(())
}
