//! An area gets other bounds, and its spans with it.
ghost use Rattle.std.specs.Prelude.{◌≡◌, ℕ, Some, IsSome, OnErr, OnOk, option_map};
ghost use Rattle.av_base.specs.Words.{with_at};
ghost use Rattle.av_vma.specs.Areas.{area_of};
ghost use Rattle.av_vma.specs.declared.area.Area.{Area};
ghost use Rattle.av_anon.specs.Anons.{family};
ghost use Rattle.av_anon.specs.Order.{IsArea, IsInOrder};
ghost use Rattle.av_anon.specs.Resize.{with_bounds};
ghost use Rattle.av_anon.specs.Spans.{spans_of, GoWithLinks};

use crate::anons::Anons;
use crate::spans::move_each;
use av_base::PAGE_SIZE;
use av_vma::{Area, AreaId, Areas, index};
use std::alloc::AllocError;

impl Anons {
    /// Gives an area other bounds and another offset: its spans go with it, its links stay.
    ///
    /// `start` and `end` are addresses on pages, `start` below `end`; `pgoff` is the linear index
    /// of the first page. Without memory no area changes.
    pub fn resize(
        &mut self,
        areas: &mut Areas,
        area: AreaId,
        start: u64,
        end: u64,
        pgoff: u64,
    ) -> Result<(), AllocError>
        requires order { IsInOrder (area_of areas.old) (family self.old) (spans_of self.old) }
        requires there { IsSome (area_of areas.old area) }
        requires fits { (A : Area) → area_of areas.old area ≡ Some A
            → IsArea (with_bounds start end pgoff A) }
        ensures family { family self.new ≡ family self.old }
        ensures areas { OnOk result ((number : ℕ) → area_of areas.new number
            ≡ with_at area (option_map (with_bounds start end pgoff) (area_of areas.old area))
            (area_of areas.old) number) }
        ensures spans { OnOk result (GoWithLinks
            (area_of areas.new) (family self.new).chain (spans_of self.new)) }
        ensures kept { OnErr result (areas.new ≡ areas.old) }
    {
        let old = areas.get(area);
        let new = Area {
            start,
            end,
            pgoff,
            ..old
        };
        let chain = self.links.chain(self.alloc, area)?;
        let last = index(&new, end / PAGE_SIZE) - 1;
        move_each(&mut self.spans, &chain, old.pgoff, pgoff, last, area)?;
        areas.change(area, new);
        Ok(())
    }
}
