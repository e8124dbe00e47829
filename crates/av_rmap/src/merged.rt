//! The entries of a merged frame, found through its items.

ghost use Rattle.std.specs.Prelude.{◌≡◌, ◌+◌, ◌≤◌, ◌++◌, List, length, vec_len, vec_capacity, IfOk};
ghost use Rattle.std.specs.Prelude.{OnErr, OnOk};
ghost use Rattle.av_rmap.specs.Items.{AreCovered, AreOnce, AreRootsApart, looks_from_all};
ghost use Rattle.av_rmap.specs.Sorted.{AreRising};
ghost use Rattle.av_rmap.specs.View.{AreApart, AreSpanned};
ghost use Rattle.av_base.specs.Keys.{Key};
ghost use Rattle.av_rmap.specs.Walk.{AreItsEntries, names_frame};

use crate::look::Look;
use crate::target::Target;
use crate::walk::find_from;
use av_base::Steps;
use std::alloc::{AllocError, Global};
use std::sync::ledger::Ledger;

/// Appends the process and page of each entry that names a merged frame, once: what is found from
/// its items. It takes no memory, and as many steps as areas that are linked to an item's anon_vma
/// hold its index, item by item.
pub fn walk_items<K: Look<L>, L: Ledger>(
    look: &K,
    frame: u32,
    items: &[(u64, u64)],
    into: &mut Vec<(u16, u64)>,
    steps: &mut Steps<L>,
)
    requires spanned { AreSpanned (K.view look.now) }
    requires apart { AreApart (K.view look.now) }
    requires covered { AreCovered (K.view look.now) (names_frame frame) items.now }
    requires roots { AreRootsApart (K.view look.now) items.now }
    requires once { AreOnce items.now }
    requires room { (keys : List Key) → AreItsEntries (K.view look.now) (names_frame frame) keys
        → vec_len into.old + length keys ≤ vec_capacity into.old }
    ensures entries { (keys : List Key) × (into.new.items ≡ into.old.items ++ keys)
        × AreItsEntries (K.view look.now) (names_frame frame) keys }
    ensures counted { steps.new ≡ steps.old + looks_from_all (K.view look.now) items.now }
{
    for item in items {
        find_from(look, Target::Frame(frame), *item, into, steps);
    }
}

/// The same by process and then by page. No more than `count` entries name the frame. Without
/// memory no look is taken.
pub fn walk_merged<K: Look<L>, L: Ledger>(
    alloc: Global,
    look: &K,
    frame: u32,
    items: &[(u64, u64)],
    count: u64,
    steps: &mut Steps<L>,
) -> Result<Vec<(u16, u64)>, AllocError>
    requires spanned { AreSpanned (K.view look.now) }
    requires apart { AreApart (K.view look.now) }
    requires covered { AreCovered (K.view look.now) (names_frame frame) items.now }
    requires roots { AreRootsApart (K.view look.now) items.now }
    requires once { AreOnce items.now }
    requires count { (keys : List Key) → AreItsEntries (K.view look.now) (names_frame frame) keys
        → length keys ≤ count }
    ensures entries { IfOk result (λ keys.
        AreItsEntries (K.view look.now) (names_frame frame) keys.items) }
    ensures rising { IfOk result (λ keys. AreRising keys.items) }
    ensures counted { OnOk result
        (steps.new ≡ steps.old + looks_from_all (K.view look.now) items.now) }
    ensures kept { OnErr result (steps.new ≡ steps.old) }
{
    let mut keys = Vec::with_capacity(alloc, count as usize)?;
    walk_items(look, frame, items, &mut keys, steps);
    keys.sort_unstable();
    Ok(keys)
}
