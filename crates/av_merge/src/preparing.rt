//! An area gets its own anon_vma, where it has none (Linux's anon_vma_prepare at a fault).

ghost use Rattle.std.specs.Prelude.{◌≡◌, IfOk, OnOk};
ghost use Rattle.av_vma.specs.Areas.{area_of};
ghost use Rattle.av_vma.specs.Pages.{after_prepare, home_of};
ghost use Rattle.av_merge.specs.Kin.{AreInOrder, PrepareKin, lengths};
ghost use Rattle.av_merge.specs.Pages.{pages_by};
ghost use Rattle.av_merge.specs.Process.{AreOfOne, StayOfOne, Becomes};

use av_anon::Anons;
use av_base::PAGE_SIZE;
use av_vma::{Areas, home};
use av_vmatree::Tree;
use std::alloc::AllocError;

/// Gives the area of a page an anon_vma, where the page is mapped and its area has none: that of
/// the area after it, else of the one before, where it may take it; else a new root. Answers the
/// home that a frame has from the page then.
pub fn prepare(
    areas: &mut Areas,
    tree: &Tree,
    anons: &mut Anons,
    page: u64,
) -> Result<Option<(u64, u64)>, AllocError>
    requires order { AreInOrder areas.old anons.old }
    requires stands { AreOfOne areas.old tree.now }
    ensures stands { StayOfOne areas.old tree.now areas.new tree.now }
    ensures kin { OnOk result
        (PrepareKin areas.old tree.now anons.old areas.new anons.new page) }
    ensures pages { OnOk result
        (Becomes areas.old tree.now areas.new tree.now
        (after_prepare (lengths areas.old anons.old) anons.old.next page)) }
    ensures home { IfOk result (λ home. home ≡ home_of page (pages_by (area_of areas.new) tree.now
        page)) }
{
    let Some(number) = tree.find(page) else {
        return Ok(None);
    };
    let area = areas.get(number);
    if area.anon.is_some() {
        return Ok(home(&area, page));
    }
    let before = tree.find(area.start / PAGE_SIZE - 1);
    let after = tree.find(area.end / PAGE_SIZE);
    anons.prepare(areas, number, before, after)?;
    Ok(home(&areas.get(number), page))
}
