//! The greatest place at which pages fit, where no index says it.

ghost use Rattle.std.specs.Prelude.{◌≡◌, ℕ, ◌+◌, ◌<◌, ◌≤◌, IfSome};
ghost use Rattle.av_base.specs.Limits.{top_page};
ghost use Rattle.av_vma.specs.Gap.{IsGap};
ghost use Rattle.av_audit_ranges.specs.Ranges.{is_mapped};

use crate::bounds::Bounds;
use av_base::{LOW_PAGE, TOP_PAGE};

impl Bounds {
    /// Where n pages go: the greatest place at which none is mapped.
    pub fn gap(&self, n: u64) -> Option<u64>
        requires some { 0 < n }
        requires fits { n ≤ top_page }
        ensures fits { IfSome result (λ page. page + n ≤ top_page) }
        ensures gap { IsGap (is_mapped self.now) n result }
    {
        let mut end = TOP_PAGE;
        let mut hole = TOP_PAGE;
        while end - hole < n {
            if hole <= LOW_PAGE {
                return None;
            }
            let (start, marks) = self.run(hole - 1);
            hole = start.max(LOW_PAGE);
            if marks.is_some() {
                end = hole;
            }
        }
        Some(end - n)
    }
}
