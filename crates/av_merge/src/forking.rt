//! An area of a process goes to its child at a fork (Linux's `dup_mmap`, for one area).

ghost use Rattle.std.specs.Prelude.{ℕ, IfSome, IsSomeAnd, OnOk};
ghost use Rattle.av_vma.specs.Areas.{area_of};
ghost use Rattle.av_vma.specs.Index.{first_of, past_of};
ghost use Rattle.av_vma.specs.Pages.{IsWhole};
ghost use Rattle.av_vmatree.specs.Spans.{IsFree, is_page_taken};
ghost use Rattle.av_merge.specs.Forking.{IsForkedTo};
ghost use Rattle.av_merge.specs.Kin.{AreInOrder};
ghost use Rattle.av_merge.specs.Process.{AreAreasOf, Stays};

use crate::placing::add;
use av_anon::Anons;
use av_vma::{Area, AreaId, Areas};
use av_vmatree::Tree;
use std::alloc::AllocError;

/// Gives a child the area with a number, which is another process's and whose pages are free in
/// the child's tree. The child's area is linked to the whole chain of that one, and has the lowest
/// idle member as its own anon_vma, else a new one below that one's own; none where that has none,
/// or is wiped. It isn't locked.
pub fn fork(
    areas: &mut Areas,
    tree: &mut Tree,
    anons: &mut Anons,
    number: AreaId,
    child: u16,
) -> Result<(), AllocError>
    requires order { AreInOrder areas.old anons.old }
    requires whole { IsSomeAnd (area_of areas.old number) IsWhole }
    requires stands { AreAreasOf child (area_of areas.old) tree.old }
    requires free { IfSome (area_of areas.old number)
        (λ area. IsFree (is_page_taken tree.old) (first_of area) (past_of area)) }
    ensures stands { Stays child (area_of areas.old) (area_of areas.new) tree.new }
    ensures forked { OnOk result (IsSomeAnd (area_of areas.old number) (λ area. (copy : ℕ)
        × IsForkedTo child area areas.old tree.old anons.old areas.new tree.new anons.new copy)) }
{
    let area = areas.get(number);
    let bare = Area {
        pid: child,
        flags: area.flags.unlocked(),
        anon: None,
        ..area
    };
    let copy = add(areas, tree, bare)?;
    let is_wiped = area.flags.wipe_on_fork;
    if is_wiped {
        return Ok(());
    }
    anons.fork(areas, number, copy)
}
