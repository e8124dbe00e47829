//! What the rows of areas show.

ghost use Rattle.std.specs.Prelude.{◌≡◌, ◌*◌, ◌<◌, ℕ, IfNone, IfOk, IfSome, MatchBool};
ghost use Rattle.std.specs.Prelude.{option_map};
ghost use Rattle.std.specs.List.{AllByRecursion};
ghost use Rattle.av_trace.specs.Row.{AreRising, IsAreaRow};
ghost use Rattle.av_plain.specs.World.{Process};
ghost use Rattle.av_text.specs.Number.{IsWide};
ghost use Rattle.av_audit_ranges.specs.Ranges.{marks_at};
ghost use Rattle.av_audit_ranges.specs.declared.marks.Range.{Range as AnyRange};
ghost use Rattle.av_audit_world.specs.Space.{IsSpace};
ghost use Rattle.av_audit_area.specs.Shown.{AreRead, IsShown, IsVerdictOn, Shows};

use crate::alike::are_alike;
use av_audit_ranges::{Marks, Range, Ranges};
use av_audit_world::Space;
use av_base::PAGE_SIZE;
use av_trace::Row;
use std::alloc::{AllocError, Global};

/// No page from here on has an address of 64 bits.
const END: u64 = 1 << 52;

/// Whether each number is greater than the one before.
fn rises(numbers: &[u64]) -> bool
    ensures { MatchBool result (AreRising numbers.now) (AreRising numbers.now → ⊥) }
{
    let [first, others @ ..] = numbers else {
        return true;
    };
    let mut last = *first;
    let mut rest = others;
    while let [next, later @ ..] = rest {
        if *next <= last {
            return false;
        }
        last = *next;
        rest = later;
    }
    true
}

/// Numbers are of 64 bits.
fn fit(offset: u64, own: Option<u64>)
    ensures { IsWide offset × IfSome own IsWide }
{
    let _ = (offset, own);
}

/// Each number is of 64 bits.
fn are_wide(numbers: &[u64])
    ensures { AllByRecursion IsWide numbers.now }
{
    let _ = numbers;
}

/// The page at an address, if one begins there.
fn page_at(address: u64) -> Option<u64>
    ensures found { IfSome result (λ page. address ≡ 4096 * page) }
    ensures none { IfNone result ((page : ℕ) → address ≡ 4096 * page → ⊥) }
{
    if address % PAGE_SIZE == 0 {
        Some(address / PAGE_SIZE)
    } else {
        None
    }
}

/// The pages that the row of an area shows with what it says of them, if its addresses are of pages
/// and its chain rises.
fn range_of(row: &Row) -> Option<Range>
    ensures found { IfSome result (λ r. Shows row.now r × IsAreaRow row.now) }
    ensures none { IfNone result ((r : AnyRange) → Shows row.now r → ⊥) }
{
    match row {
        Row::Area {
            start,
            end,
            prot,
            offset,
            own,
            chain,
            flags,
        } => {
            fit(*offset, *own);
            are_wide(chain.as_slice());
            if !rises(chain.as_slice()) {
                return None;
            }
            let start = page_at(*start)?;
            let end = page_at(*end)?;
            let marks = Marks {
                prot: *prot,
                flags: *flags,
            };
            Some(Range { start, end, marks })
        }
        _ => None,
    }
}

/// The same, if it isn't empty and doesn't begin below a page.
fn range_from(row: &Row, from: u64) -> Option<Range>
    ensures found { IfSome result (λ r. IsShown from row.now r × IsAreaRow row.now) }
    ensures none { IfNone result ((r : AnyRange) → IsShown from row.now r → ⊥) }
{
    let range = range_of(row)?;
    if from <= range.start && range.start < range.end {
        Some(range)
    } else {
        None
    }
}

/// What rows say of pages, if they are of areas that are apart and rise.
fn ranges_of(alloc: Global, rows: &[Row]) -> Result<Option<Ranges>, AllocError>
    ensures { IfOk result (λ found. AreRead rows.now (option_map marks_at found)) }
{
    let mut made = Ranges::new(alloc);
    let mut from = 0;
    let mut rest = rows;
    while let [first, others @ ..] = rest {
        let Some(range) = range_from(first, from) else {
            return Ok(None);
        };
        made.put(range.start, range.end - range.start, range.marks)?;
        from = range.end;
        rest = others;
    }
    Ok(Some(made))
}

/// Whether rows are those of a legal reply, where a process has this mapped.
pub fn shows_areas(space: &Space, alloc: Global, rows: &[Row]) -> Result<bool, AllocError>
    ensures { IfOk result (λ legal. (q : Process) → IsSpace space.now q
        → IsVerdictOn q rows.now legal) }
{
    match ranges_of(alloc, rows)? {
        None => Ok(false),
        Some(ranges) => Ok(are_alike(space.ranges(), &ranges, END)),
    }
}
