//! The areas of a process go to its child (Linux's `dup_mmap`).

ghost use Rattle.std.specs.Prelude.{◌≡◌, [], OnOk};
ghost use Rattle.av_vma.specs.Areas.{area_of};
ghost use Rattle.av_merge.specs.Kin.{AreInOrder};
ghost use Rattle.av_merge.specs.Process.{AreOfOne, Stays};
ghost use Rattle.av_spaces.specs.Fork.{ForksInTurn, HasForked};
ghost use Rattle.av_spaces.specs.Trees.{HasNone};

use av_anon::Anons;
use av_vma::Areas;
use av_vmatree::{Span, Tree};
use std::alloc::AllocError;

/// Gives a child that has no area yet those of a process that go over, in their order. The spans
/// are those of all of the process's areas.
pub fn fork_each(
    areas: &mut Areas,
    tree: &mut Tree,
    anons: &mut Anons,
    spans: &[Span],
    child: u16,
) -> Result<(), AllocError>
    requires order { AreInOrder areas.old anons.old }
    requires parent { AreOfOne areas.old spans.now }
    requires none { HasNone child (area_of areas.old) }
    requires empty { tree.old ≡ [] }
    ensures stands { Stays child (area_of areas.old) (area_of areas.new) tree.new }
    ensures forked { OnOk result
        (HasForked child areas.old anons.old spans.now areas.new tree.new anons.new) }
    ensures in_turn { OnOk result (ForksInTurn child areas.old anons.old spans.now) }
{
    for span in spans {
        let is_left_out = areas.get(span.area).flags.dont_fork;
        if is_left_out {
            continue;
        }
        av_merge::fork(areas, tree, anons, span.area, child)?;
    }
    Ok(())
}
