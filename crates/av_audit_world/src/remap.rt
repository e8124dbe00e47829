//! Pages of a process grow or shrink where they are, or move with what they have.

ghost use Rattle.std.specs.Prelude.{◌≡◌, ◌+◌, ◌-◌, ◌<◌, ◌≤◌, ◌^◌, ℕ, IfOk, None, OnOk, true};
ghost use Rattle.std.specs.Prelude.{if◌then◌else◌};
ghost use Rattle.std.specs.Option.{option_or};
ghost use Rattle.av_base.specs.Words.{within};
ghost use Rattle.av_plain.specs.Mremap.{process_after_mremap};
ghost use Rattle.av_plain.specs.World.{Process, World, lives, pages, set_process};
ghost use Rattle.av_audit_ranges.specs.Ranges.{marks_at};
ghost use Rattle.av_audit_world.specs.Memories.{IsWorld};
ghost use Rattle.av_audit_world.specs.Remap.{AreMoved, IsBelowTop, marks_after, marks_moved};
ghost use Rattle.av_audit_world.specs.Remap.{old_change as old_change_of};
ghost use Rattle.av_audit_world.specs.Space.{IsSpace};

use crate::kept::{Kept, give, take, wipe};
use crate::locks::note;
use crate::memories::Memories;
use crate::space::Space;
use av_audit_ranges::{Change, Ranges};
use av_base::Flag;
use std::alloc::{AllocError, Global};

/// What becomes of the old range.
fn old_change(stays: bool) -> Change
    ensures { result ≡ old_change_of stays }
{
    if stays {
        Change::Mark {
            flag: Flag::Locked,
            set: false,
        }
    } else {
        Change::Unmap
    }
}

/// What is said of n pages from one on is said of n others from `to` on. Where nothing is, these
/// keep what is said of them. Without memory a part may be done.
fn copy(said: &Ranges, from: u64, n: u64, others: &mut Ranges, to: u64) -> Result<(), AllocError>
    requires few { from + n < 2 ^ 64 }
    requires new_few { to + n < 2 ^ 64 }
    ensures { OnOk result ((page : ℕ) → marks_at others.new page ≡ (if within to n page
        then option_or (marks_at said.now (from + (page - to))) (marks_at others.old page)
        else marks_at others.old page)) }
{
    let end = from + n;
    let mut at = from;
    while at < end {
        let next = said.same_up_to(at, end);
        if let Some(marks) = said.marks(at) {
            others.put(to + (at - from), next - at, marks)?;
        }
        at = next;
    }
    Ok(())
}

/// What is said of m pages from `to` on, once they are n pages from one on: those past these are as
/// the last one is.
fn moved_ranges(
    alloc: Global,
    ranges: &Ranges,
    from: u64,
    n: u64,
    to: u64,
    m: u64,
) -> Result<Ranges, AllocError>
    requires some { 0 < n }
    requires few { from + n < 2 ^ 64 }
    requires new_few { to + m < 2 ^ 64 }
    ensures { IfOk result (λ made. (page : ℕ) → marks_at made page
        ≡ (if within to m page then marks_moved from n to (marks_at ranges.now) page else None)) }
{
    let mut made = Ranges::new(alloc);
    copy(ranges, from, n.min(m), &mut made, to)?;
    if n < m
        && let Some(last) = ranges.marks(from + n - 1)
    {
        made.put(to + n, m - n, last)?;
    }
    Ok(made)
}

/// What is said of pages once n pages from one on are m others. Without memory a part may be done.
fn remap_ranges(
    alloc: Global,
    ranges: &mut Ranges,
    from: u64,
    n: u64,
    to: u64,
    m: u64,
    stays: bool,
) -> Result<(), AllocError>
    requires some { 0 < n }
    requires few { from + n < 2 ^ 64 }
    requires new_few { to + m < 2 ^ 64 }
    ensures { OnOk result ((page : ℕ) → marks_at ranges.new page
        ≡ marks_after from n to m stays (marks_at ranges.old) page) }
{
    let moved = moved_ranges(alloc, ranges, from, n, to, m)?;
    ranges.change(from, n, old_change(stays))?;
    ranges.change(to, m, Change::Unmap)?;
    copy(&moved, to, m, ranges, to)
}

/// The bytes of pages once n pages from one on are m others. Without memory a part may be done.
fn remap_bytes(
    alloc: Global,
    bytes: &mut Kept,
    from: u64,
    n: u64,
    to: u64,
    m: u64,
) -> Result<(), AllocError>
    requires few { from + n < 2 ^ 64 }
    requires new_few { to + m < 2 ^ 64 }
    ensures { OnOk result (AreMoved from n to m bytes.old bytes.new) }
{
    let moved = take(alloc, bytes, from, n.min(m), to)?;
    wipe(bytes, from, n);
    wipe(bytes, to, m);
    give(bytes, moved)
}

impl Space {
    /// n pages from one on are m others: page i is page i of them, or, past them, the last one with
    /// zeros. The rest of the old range goes, or stays with zeros, not locked. Without memory a
    /// part may be done.
    fn remap(&mut self, from: u64, n: u64, to: u64, m: u64, stays: bool) -> Result<(), AllocError>
        requires some { 0 < n }
        requires few { from + n < 2 ^ 64 }
        requires new_few { to + m < 2 ^ 64 }
        ensures { OnOk result ((q : Process) → IsSpace self.old q
            → IsBelowTop (process_after_mremap from n to m stays q)
            → IsSpace self.new (process_after_mremap from n to m stays q)) }
    {
        remap_ranges(self.alloc, &mut self.ranges, from, n, to, m, stays)?;
        remap_bytes(self.alloc, &mut self.bytes, from, n, to, m)
    }
}

impl Memories {
    /// n pages of a process from one on are m others: page i is page i of them, or, past them, the
    /// last one with zeros. The rest of the old range goes, or stays with zeros, not locked.
    /// Without memory a part may be done.
    pub fn remap(
        &mut self,
        number: u16,
        from: u64,
        n: u64,
        to: u64,
        m: u64,
        stays: bool,
    ) -> Result<(), AllocError>
        requires some { 0 < n }
        requires few { from + n < 2 ^ 64 }
        requires new_few { to + m < 2 ^ 64 }
        requires both_few { to + n < 2 ^ 64 }
        ensures { OnOk result ((w : World) → IsWorld self.old w → lives w number ≡ true
            → IsBelowTop (process_after_mremap from n to m stays (pages w number))
            → IsWorld self.new (set_process w number
            (process_after_mremap from n to m stays (pages w number)))) }
    {
        match self.spaces.get_mut(&number) {
            None => Ok(()),
            Some(space) => {
                space.remap(from, n, to, m, stays)?;
                let locks = space.ranges.has_lock();
                note(&mut self.locking, number, locks)
            }
        }
    }
}
