//! New areas, and areas that are changed; each is joined with its neighbours where they go on in
//! each other.

ghost use Rattle.std.specs.Prelude.{◌≡◌, ℕ, ◌-◌, ◌*◌, ◌+◌, ◌<◌, ◌≤◌, ◌⊎◌, Some, true, false};
ghost use Rattle.std.specs.Prelude.{if◌then◌else◌, option_map, IsSomeAnd, IfSome, OnOk, IfOk};
ghost use Rattle.av_vma.specs.Areas.{area_of};
ghost use Rattle.av_base.specs.Limits.{low_page, top_page};
ghost use Rattle.av_vma.specs.Index.{past_of};
ghost use Rattle.av_base.specs.Words.{within};
ghost use Rattle.av_vmatree.specs.Spans.{AreSpans, IsFree, area_at, is_page_taken};
ghost use Rattle.av_merge.specs.Changing.{effect_of};
ghost use Rattle.av_merge.specs.Mapping.{IsRemapped};
ghost use Rattle.av_merge.specs.Pages.{GoesTo, pages_by};
ghost use Rattle.av_vma.specs.Pages.{alters, fresh_area, joined_around, pages_changed};
ghost use Rattle.av_vma.specs.Pages.{part_changed, with_area, with_effect, after_map};
ghost use Rattle.av_merge.specs.Kin.{AreInOrder, StayKin, lengths};
ghost use Rattle.av_merge.specs.Process.{AreAreasOf, Stays, AreOfOne, StayOfOne, Becomes};

use crate::joining::{join_beside, join_part};
use crate::placing::{add, beside};
use crate::splitting::split_out;
use av_anon::Anons;
use av_base::{Flag, Flags, PAGE_SIZE, Prot};
use av_vma::{Area, AreaId, Areas};
use av_vmatree::Tree;
use std::alloc::AllocError;

/// Maps the pages from `from` to below `to`, which are free in the process, as one area without an
/// anon_vma, whose offset is its first page.
pub fn map(
    areas: &mut Areas,
    tree: &mut Tree,
    anons: &mut Anons,
    process: u16,
    from: u64,
    to: u64,
    prot: Prot,
    flags: Flags,
) -> Result<(), AllocError>
    requires order { AreInOrder areas.old anons.old }
    requires stands { AreAreasOf process (area_of areas.old) tree.old }
    requires some { from < to }
    requires low { low_page ≤ from }
    requires high { to ≤ top_page }
    requires free { IsFree (is_page_taken tree.old) from to }
    ensures stands { Stays process (area_of areas.old) (area_of areas.new) tree.new }
    ensures kin { OnOk result (StayKin areas.old anons.old areas.new anons.new) }
    ensures pages { OnOk result
        (Becomes areas.old tree.old areas.new tree.new
        (after_map (lengths areas.old anons.old) process from to prot flags)) }
{
    let area = Area {
        pid: process,
        start: PAGE_SIZE * from,
        end: PAGE_SIZE * to,
        prot,
        flags,
        pgoff: from,
        anon: None,
    };
    let (below, above) = beside(tree, from, to);
    let number = add(areas, tree, area)?;
    join_beside(areas, tree, anons, below, number, above, from, to)
}

/// What is said of an area's pages that can be changed.
#[derive(Clone, Copy, Drop, Debug, PartialEq, Eq)]
pub enum Change {
    /// The pages get this protection.
    Prot(Prot),
    /// The pages get the flag, or lose it.
    Flag(Flag, bool),
}

impl Change {
    /// Whether it makes the area another.
    fn alters(self, area: &Area) -> bool
        ensures { result ≡ alters (effect_of self) area.now }
    {
        match self {
            Change::Prot(prot) => prot != area.prot,
            Change::Flag(flag, set) => area.flags.with(flag, set) != area.flags,
        }
    }

    /// The area with the change.
    fn apply(self, area: Area) -> Area
        ensures { result ≡ with_effect (effect_of self) area }
    {
        match self {
            Change::Prot(prot) => Area { prot, ..area },
            Change::Flag(flag, set) => Area {
                flags: area.flags.with(flag, set),
                ..area
            },
        }
    }
}

/// Changes the pages from `from` to below `to` up to the first that isn't mapped, and tells that
/// one, else `to`.
///
/// An area that is so already is neither split nor joined (Linux's `vma_modify`).
pub fn modify(
    areas: &mut Areas,
    tree: &mut Tree,
    anons: &mut Anons,
    from: u64,
    to: u64,
    change: Change,
) -> Result<u64, AllocError>
    requires order { AreInOrder areas.old anons.old }
    requires stands { AreOfOne areas.old tree.old }
    requires forward { from ≤ to }
    ensures stands { StayOfOne areas.old tree.old areas.new tree.new }
    ensures kin { OnOk result (StayKin areas.old anons.old areas.new anons.new) }
    ensures reached { IfOk result (λ past. GoesTo (is_page_taken tree.old) from to past) }
    ensures pages { IfOk result (λ past. Becomes areas.old tree.old areas.new tree.new
        (pages_changed (lengths areas.old anons.old) (effect_of change) from (past - from))) }
    ensures mapping { IfOk result (λ past. IsRemapped from past (effect_of change)
        (pages_by (area_of areas.old) tree.old) (pages_by (area_of areas.new) tree.new)) }
{
    let mut page = from;
    while page < to {
        let Some(number) = tree.find(page) else {
            return Ok(page);
        };
        let area = areas.get(number);
        let past = to.min(area.end / PAGE_SIZE);
        if change.alters(&area) {
            modify_part(areas, tree, anons, number, page, past, change)?;
        }
        page = past;
    }
    Ok(to)
}

/// Changes every mapped page from `from` to below `to`, past those that aren't mapped too, and
/// tells the first of these, else `to` (Linux's `madvise_walk_vmas`).
pub fn modify_all(
    areas: &mut Areas,
    tree: &mut Tree,
    anons: &mut Anons,
    from: u64,
    to: u64,
    change: Change,
) -> Result<u64, AllocError>
    requires order { AreInOrder areas.old anons.old }
    requires stands { AreOfOne areas.old tree.old }
    requires forward { from ≤ to }
    ensures stands { StayOfOne areas.old tree.old areas.new tree.new }
    ensures kin { OnOk result (StayKin areas.old anons.old areas.new anons.new) }
    ensures reached { IfOk result (λ past. GoesTo (is_page_taken tree.old) from to past) }
    ensures pages { OnOk result (Becomes areas.old tree.old areas.new tree.new
        (pages_changed (lengths areas.old anons.old) (effect_of change) from (to - from))) }
    ensures mapping { OnOk result (IsRemapped from to (effect_of change)
        (pages_by (area_of areas.old) tree.old) (pages_by (area_of areas.new) tree.new)) }
{
    let first_hole = modify(areas, tree, anons, from, to, change)?;
    let mut page = first_hole;
    while page < to {
        let mapped = next_mapped(tree, page, to);
        page = modify(areas, tree, anons, mapped, to, change)?;
    }
    Ok(first_hole)
}

/// The first page from `from` on that is mapped, else `to`.
pub fn next_mapped(tree: &Tree, from: u64, to: u64) -> u64
    requires spans { AreSpans tree.now }
    requires forward { from ≤ to }
    ensures least { from ≤ result }
    ensures most { result ≤ to }
    ensures free { IsFree (is_page_taken tree.now) from result }
    ensures mapped { result < to → is_page_taken tree.now result ≡ true }
{
    if tree.find(from).is_some() {
        return from;
    }
    let (_, above) = tree.around(from);
    match above {
        Some(span) => to.min(span.from),
        None => to,
    }
}

/// Changes the pages from `from` to below `past`, all of one area that the change makes another,
/// and joins them with their neighbours.
///
/// What a split leaves of the area differs from them, so no boundary is tried there.
fn modify_part(
    areas: &mut Areas,
    tree: &mut Tree,
    anons: &mut Anons,
    area: AreaId,
    from: u64,
    past: u64,
    change: Change,
) -> Result<(), AllocError>
    requires order { AreInOrder areas.old anons.old }
    requires stands { AreOfOne areas.old tree.old }
    requires some { from < past }
    requires there { area_at tree.old from ≡ Some area }
    requires inside { IsSomeAnd (pages_by (area_of areas.old) tree.old from)
        (λ area. past ≤ past_of area) }
    requires altered { IsSomeAnd (pages_by (area_of areas.old) tree.old from)
        (λ area. alters (effect_of change) area ≡ true) }
    ensures stands { StayOfOne areas.old tree.old areas.new tree.new }
    ensures kin { OnOk result (StayKin areas.old anons.old areas.new anons.new) }
    ensures pages { OnOk result
        (Becomes areas.old tree.old areas.new tree.new
        (part_changed (lengths areas.old anons.old) from past (effect_of change))) }
    ensures mapping { OnOk result (IsRemapped from past (effect_of change)
        (pages_by (area_of areas.old) tree.old) (pages_by (area_of areas.new) tree.new)) }
{
    let whole = areas.get(area);
    let number = split_out(areas, tree, anons, area, from, past)?;
    let part = areas.get(number);
    areas.change(number, change.apply(part));
    let is_cut_below = whole.start / PAGE_SIZE < from;
    let is_cut_above = past < whole.end / PAGE_SIZE;
    join_part(areas, tree, anons, from, past, is_cut_below, is_cut_above)
}
