//! The items of one frame.

ghost use Rattle.std.specs.Prelude.{◌≡◌, [], MatchResult};
ghost use Rattle.av_base.specs.Items.{with_item};
ghost use Rattle.av_rmap.specs.Items.{is_merged};

use std::alloc::{AllocError, Global};
use std::collections::HashSet;
use std::marker::Model;

/// Items in the order in which they were added, and the set of them, by which an item that is
/// there is found without a look at the others.
#[derive(Drop)]
pub(crate) struct ItemList {
    items: Vec<(u64, u64)>,
    set: HashSet<(u64, u64)>,
}

impl Model for ItemList {
    ghost use Rattle.std.specs.Prelude.{ℕ, List};
    ghost use Rattle.av_rmap.specs.ItemLists.{IsSetOf};

    ghost Value = { List (ℕ × ℕ) };

    ghost view = { λ a. a.items.items };

    ghost invariant = { λ a. IsSetOf a.set a.items.items };
}

impl ItemList {
    /// No item. It takes no memory.
    pub(crate) fn new(alloc: Global) -> ItemList
        ensures { result ≡ [] }
    {
        ItemList {
            items: Vec::new(alloc),
            set: HashSet::new(alloc),
        }
    }

    pub(crate) fn items(&self) -> &[(u64, u64)]
        ensures { result.now ≡ self.now }
    {
        &self.items
    }

    /// Whether a frame with these items is merged: there is one.
    pub(crate) fn is_merged(&self) -> bool
        ensures { result ≡ is_merged self.now }
    {
        !self.items.is_empty()
    }

    /// One more item, unless it is there. Without memory all stays.
    pub(crate) fn add(&mut self, root: u64, index: u64) -> Result<(), AllocError>
        ensures { MatchResult result
            (λ _. self.new ≡ with_item (root, index) self.old)
            (λ _. self.new ≡ self.old) }
    {
        self.items.reserve(1)?;
        if self.set.insert((root, index))? {
            self.items.push_reserved((root, index));
        }
        Ok(())
    }

    /// No item any more, and no memory for them. Where there was none it does nothing.
    pub(crate) fn clear(&mut self)
        ensures { self.new ≡ [] }
    {
        if self.is_merged() {
            let alloc = *self.items.allocator();
            *self = ItemList::new(alloc);
        }
    }
}
