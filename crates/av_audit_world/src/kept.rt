//! The bytes that are kept of pages, where some pages lose them or they move.

ghost use Rattle.std.specs.Prelude.{◌≡◌, ℕ, ◌+◌, ◌-◌, ◌<◌, ◌≤◌, ◌^◌, IfOk, MatchOption, None};
ghost use Rattle.std.specs.Prelude.{OnOk, if◌then◌else◌, is_some, true};
ghost use Rattle.std.specs.BTreeMap.{get};
ghost use Rattle.std.specs.Option.{option_or};
ghost use Rattle.std.specs.Ordering.{nat_cmp};
ghost use Rattle.av_base.specs.Words.{within};
ghost use Rattle.av_audit_world.specs.Kept.{IsNext};

use std::alloc::{AllocError, Global};
use std::collections::BTreeMap;
use std::rc::Rc;

/// The bytes that are kept of each page that has some. A child shares them with its parent until
/// one of the two writes.
pub type Kept = BTreeMap<u64, Rc<Vec<u8>>>;

/// The first page from one on and below `end` that has bytes.
pub fn next_of(kept: &Kept, from: u64, end: u64) -> Option<u64>
    requires { from ≤ end }
    ensures { MatchOption result
        ((q : ℕ) → from ≤ q → q < end → get nat_cmp kept.now q ≡ None)
        (IsNext kept.now from end) }
{
    let (page, _) = kept.range(from..end).next()?;
    Some(*page)
}

/// n pages from one on have no bytes any more.
pub fn wipe(kept: &mut Kept, from: u64, n: u64)
    requires { from + n < 2 ^ 64 }
    ensures { (page : ℕ) → get nat_cmp kept.new page
        ≡ (if within from n page then None else get nat_cmp kept.old page) }
{
    let end = from + n;
    let mut at = from;
    while let Some(page) = next_of(kept, at, end) {
        kept.remove(&page);
        at = page + 1;
    }
}

/// Takes the bytes of n pages from one on out. They are those of n pages from `to` on then. Without
/// memory a part may be done.
pub fn take(alloc: Global, kept: &mut Kept, from: u64, n: u64, to: u64) -> Result<Kept, AllocError>
    requires few { from + n < 2 ^ 64 }
    requires new_few { to + n < 2 ^ 64 }
    ensures left { OnOk result ((page : ℕ) → get nat_cmp kept.new page
        ≡ (if within from n page then None else get nat_cmp kept.old page)) }
    ensures taken { IfOk result (λ made. (page : ℕ) → get nat_cmp made page
        ≡ (if within to n page then get nat_cmp kept.old (from + (page - to)) else None)) }
{
    let end = from + n;
    let mut made = BTreeMap::new(alloc);
    let mut at = from;
    while let Some(page) = next_of(kept, at, end) {
        if let Some(bytes) = kept.remove(&page) {
            made.insert(to + (page - from), bytes)?;
        }
        at = page + 1;
    }
    Ok(made)
}

/// Pages get bytes in place of those that they have. Without memory a part may be done.
pub fn give(kept: &mut Kept, given: Kept) -> Result<(), AllocError>
    ensures { OnOk result ((page : ℕ) → get nat_cmp kept.new page
        ≡ option_or (get nat_cmp given page) (get nat_cmp kept.old page)) }
{
    let mut rest = given;
    while let Some((page, bytes)) = rest.pop_first() {
        kept.insert(page, bytes)?;
    }
    Ok(())
}
