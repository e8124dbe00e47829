//! What is mapped, cut where something else is said.

ghost use Rattle.std.specs.Prelude.{◌≡◌, ◌++◌, IfOk, OnOk};
ghost use Rattle.av_audit_ranges.specs.Ranges.{marks_at};
ghost use Rattle.av_audit_report.specs.Runs.{AreCut, piece};

use crate::entry::fits;
use av_audit_ranges::{Marks, Range, Ranges};
use std::alloc::{AllocError, Global};

/// Adds the pages from `start` to below `end`, if they are mapped.
fn add_piece(
    cut: &mut Vec<Range>,
    start: u64,
    end: u64,
    marks: Option<Marks>,
) -> Result<(), AllocError>
    ensures { OnOk result (cut.new.items ≡ cut.old.items ++ piece start end marks) }
{
    if let Some(marks) = marks {
        cut.push(Range { start, end, marks })?;
    }
    Ok(())
}

/// What a process has mapped, in ranges that rise.
pub fn pieces(alloc: Global, ranges: &Ranges) -> Result<Vec<Range>, AllocError>
    ensures { IfOk result (λ cut. AreCut (marks_at ranges.now) cut.items) }
{
    let mut cut = Vec::new(alloc);
    let mut page = 0;
    while let Some(next) = ranges.bound_above(page) {
        fits(next);
        add_piece(&mut cut, page, next, ranges.marks(page))?;
        page = next;
    }
    Ok(cut)
}
