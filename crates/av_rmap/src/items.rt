//! The items of merged frames: from which places their entries are found.

ghost use Rattle.std.specs.Prelude.{◌≡◌, ◌+◌, ◌<◌, ◌≤◌, ◌^◌, [], IfOk, MatchResult, replicate};
ghost use Rattle.std.specs.Prelude.{if◌then◌else◌};
ghost use Rattle.std.specs.List.{range_with_len};
ghost use Rattle.av_base.specs.Items.{with_item};
ghost use Rattle.av_base.specs.Words.{how_many};
ghost use Rattle.av_rmap.specs.Items.{AreOnce, is_merged, none_merged, shown};
ghost use Rattle.av_rmap.specs.Items.{with_items, with_renamed};

use crate::item_list::ItemList;
use std::alloc::{AllocError, Global};
use std::marker::Model;

/// Of each frame a list of items without repeats: the root of an anon_vma, and a linear index. A
/// frame that has items is merged, and its entries are found from them, as those of another frame
/// from its home (Linux's `rmap_item`s of a stable page). Only `new` and `add` take memory.
#[derive(Drop)]
pub struct Items {
    lists: Vec<ItemList>,
    /// How many frames are merged.
    merged: u32,
}

impl Model for Items {
    ghost use Rattle.std.specs.Prelude.{ℕ, List};
    ghost use Rattle.av_rmap.specs.ItemLists.{AreKept};

    ghost Value = { List (List (ℕ × ℕ)) };

    ghost view = { λ a. a.lists.items };

    ghost invariant = { λ a. AreKept a.lists.items a.merged };
}

impl Items {
    /// No frame of so many is merged.
    pub fn new(alloc: Global, frames: u32) -> Result<Items, AllocError>
        ensures { IfOk result (λ items. shown items ≡ none_merged frames) }
    {
        Ok(Items {
            lists: no_lists(alloc, frames)?,
            merged: 0,
        })
    }

    /// The items of a frame.
    pub fn of(&self, frame: u32) -> &[(u64, u64)]
        requires { frame < (shown self.now).frames }
        ensures items { result.now ≡ (shown self.now).items frame }
        ensures once { AreOnce result.now }
    {
        self.lists[frame as usize].items()
    }

    /// Whether a frame is merged: it has an item.
    pub fn is_merged(&self, frame: u32) -> bool
        requires { frame < (shown self.now).frames }
        ensures { result ≡ is_merged ((shown self.now).items frame) }
    {
        self.lists[frame as usize].is_merged()
    }

    /// How many frames are merged. It looks at none.
    pub fn merged_len(&self) -> u32
        ensures { result ≡ how_many (λ f. is_merged ((shown self.now).items f))
            (range_with_len 0 (shown self.now).frames) }
    {
        self.merged
    }

    /// One more item of a frame, unless it is there. Without memory all stays.
    pub fn add(&mut self, frame: u32, root: u64, index: u64) -> Result<(), AllocError>
        requires { frame < (shown self.old).frames }
        ensures { MatchResult result
            (λ _. shown self.new ≡ with_items frame
            (with_item (root, index) ((shown self.old).items frame)) (shown self.old))
            (λ _. shown self.new ≡ shown self.old) }
    {
        let was = self.is_merged(frame);
        let items = &mut self.lists[frame as usize];
        let added = items.add(root, index);
        self.merged = recount(self.merged, was, items.is_merged());
        added
    }

    /// A frame has no item any more.
    pub fn clear(&mut self, frame: u32)
        requires { frame < (shown self.old).frames }
        ensures { shown self.new ≡ with_items frame [] (shown self.old) }
    {
        self.merged = recount(self.merged, self.is_merged(frame), false);
        self.lists[frame as usize].clear();
    }

    /// A frame gives its items to one that has none.
    pub fn rename(&mut self, from: u32, to: u32)
        requires in_range { (from < (shown self.old).frames) × (to < (shown self.old).frames) }
        requires not_merged { (shown self.old).items to ≡ [] }
        ensures { shown self.new ≡ with_renamed from to (shown self.old) }
    {
        self.lists.swap(from as usize, to as usize);
    }
}

/// So many empty lists.
fn no_lists(alloc: Global, count: u32) -> Result<Vec<ItemList>, AllocError>
    ensures { IfOk result (λ lists. lists.items ≡ replicate count []) }
{
    let mut lists = Vec::with_capacity(alloc, count as usize)?;
    for _frame in 0..count {
        lists.push_reserved(ItemList::new(alloc));
    }
    Ok(lists)
}

/// How many frames are merged, once one is or isn't that was or wasn't.
fn recount(merged: u32, was: bool, is: bool) -> u32
    requires some { (if was then 1 else 0) ≤ merged }
    requires few { merged + (if is then 1 else 0) < 2 ^ 32 + (if was then 1 else 0) }
    ensures { result + (if was then 1 else 0) ≡ merged + (if is then 1 else 0) }
{
    match (was, is) {
        (false, true) => merged + 1,
        (true, false) => merged - 1,
        _ => merged,
    }
}
