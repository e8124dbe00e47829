//! The entries of a frame or of a slot by process, then by page.

ghost use Rattle.std.specs.Prelude.{◌≡◌, ◌+◌, ◌≤◌, List, length, IfOk, OnErr, OnOk};
ghost use Rattle.av_base.specs.Keys.{Key};
ghost use Rattle.av_base.specs.Words.{how_many};
ghost use Rattle.av_interval.specs.Search.{overlaps};
ghost use Rattle.av_rmap.specs.Covered.{IsCovered, IsCoveredFrom};
ghost use Rattle.av_rmap.specs.Sorted.{AreRising};
ghost use Rattle.av_rmap.specs.View.{AreApart, AreSpanned};
ghost use Rattle.av_rmap.specs.Walk.{AreItsEntries, looks_from, names, names_frame};
ghost use Rattle.av_rmap.specs.Walk.{names_slot};

use crate::look::Look;
use crate::target::Target;
use crate::walk::walk;
use av_base::{Slot, Steps};
use std::alloc::{AllocError, Global};
use std::sync::ledger::Ledger;

/// Process and page of each entry that names the frame, once, by process and then by page. `home`
/// is the frame's: without one it has no entry, and no look is taken. No more than `count` entries
/// name it. Without memory no look is taken.
pub fn walk_frame<K: Look<L>, L: Ledger>(
    alloc: Global,
    look: &K,
    frame: u32,
    home: Option<(u64, u64)>,
    count: u64,
    steps: &mut Steps<L>,
) -> Result<Vec<(u16, u64)>, AllocError>
    requires spanned { AreSpanned (K.view look.now) }
    requires apart { AreApart (K.view look.now) }
    requires covered { IsCoveredFrom (K.view look.now) (names_frame frame) home }
    requires count { (keys : List Key) → AreItsEntries (K.view look.now) (names_frame frame) keys
        → length keys ≤ count }
    ensures entries { IfOk result (λ keys.
        AreItsEntries (K.view look.now) (names_frame frame) keys.items) }
    ensures rising { IfOk result (λ keys. AreRising keys.items) }
    ensures counted { OnOk result (steps.new ≡ steps.old + looks_from (K.view look.now) home) }
    ensures kept { OnErr result (steps.new ≡ steps.old) }
{
    walk_from(alloc, look, Target::Frame(frame), home, count, steps)
}

/// The same of each entry that names the slot. `home` is that of the frame which caches it.
pub fn walk_slot<K: Look<L>, L: Ledger>(
    alloc: Global,
    look: &K,
    slot: Slot,
    home: Option<(u64, u64)>,
    count: u64,
    steps: &mut Steps<L>,
) -> Result<Vec<(u16, u64)>, AllocError>
    requires spanned { AreSpanned (K.view look.now) }
    requires apart { AreApart (K.view look.now) }
    requires covered { IsCoveredFrom (K.view look.now) (names_slot slot) home }
    requires count { (keys : List Key) → AreItsEntries (K.view look.now) (names_slot slot) keys
        → length keys ≤ count }
    ensures entries { IfOk result (λ keys.
        AreItsEntries (K.view look.now) (names_slot slot) keys.items) }
    ensures rising { IfOk result (λ keys. AreRising keys.items) }
    ensures counted { OnOk result (steps.new ≡ steps.old + looks_from (K.view look.now) home) }
    ensures kept { OnErr result (steps.new ≡ steps.old) }
{
    walk_from(alloc, look, Target::Slot(slot), home, count, steps)
}

/// The same of each entry that names the target, where there may be no home.
fn walk_from<K: Look<L>, L: Ledger>(
    alloc: Global,
    look: &K,
    target: Target,
    home: Option<(u64, u64)>,
    count: u64,
    steps: &mut Steps<L>,
) -> Result<Vec<(u16, u64)>, AllocError>
    requires spanned { AreSpanned (K.view look.now) }
    requires apart { AreApart (K.view look.now) }
    requires covered { IsCoveredFrom (K.view look.now) (names target) home }
    requires count { (keys : List Key) → AreItsEntries (K.view look.now) (names target) keys
        → length keys ≤ count }
    ensures entries { IfOk result (λ keys.
        AreItsEntries (K.view look.now) (names target) keys.items) }
    ensures rising { IfOk result (λ keys. AreRising keys.items) }
    ensures counted { OnOk result (steps.new ≡ steps.old + looks_from (K.view look.now) home) }
    ensures kept { OnErr result (steps.new ≡ steps.old) }
{
    match home {
        Some(home) => walk_sorted(alloc, look, target, home, count, steps),
        None => Ok(Vec::new(alloc)),
    }
}

/// The same from a home.
fn walk_sorted<K: Look<L>, L: Ledger>(
    alloc: Global,
    look: &K,
    target: Target,
    home: (u64, u64),
    count: u64,
    steps: &mut Steps<L>,
) -> Result<Vec<(u16, u64)>, AllocError>
    requires spanned { AreSpanned (K.view look.now) }
    requires apart { AreApart (K.view look.now) }
    requires covered { IsCovered (K.view look.now) (names target) home }
    requires count { (keys : List Key) → AreItsEntries (K.view look.now) (names target) keys
        → length keys ≤ count }
    ensures entries { IfOk result (λ keys.
        AreItsEntries (K.view look.now) (names target) keys.items) }
    ensures rising { IfOk result (λ keys. AreRising keys.items) }
    ensures counted { OnOk result (steps.new ≡ steps.old
        + how_many (overlaps home.1) ((K.view look.now).spans home.0)) }
    ensures kept { OnErr result (steps.new ≡ steps.old) }
{
    let mut keys = Vec::with_capacity(alloc, count as usize)?;
    walk(look, target, home, &mut keys, steps);
    keys.sort_unstable();
    Ok(keys)
}
