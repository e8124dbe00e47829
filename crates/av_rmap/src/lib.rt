//! Reverse mapping: from a page frame to the page-table entries that name it (Linux's rmap walk),
//! or that name the slot which it caches.
//!
//! A walk begins at the frame's home, an anon_vma and a linear index. It asks which areas that are
//! linked to the anon_vma hold the index, and looks at one entry in each, through the trait `Look`
//! alone: a scan of a table would count. It takes no memory. The ledger is the trait's own, and a
//! look counts in the caller's steps. A body that opens a book of that ledger is refused where it
//! opens it, as the edit `walk_scans_all_tables` shows; one with a book of another ledger has no
//! look to call, so long as the function has this one bound.
//!
//! Proved: where spans go with links and each of the entries is covered by the home, the walk finds
//! each of them once, and nothing else. It takes exactly as many steps as spans of the anon_vma
//! hold the index (in chain order: as areas linked to it do), and no more looks than steps.
//! `walk_frame` and `walk_slot` give them in order, also where there may be no home.
//!
//! `clear_seen` takes the seen bit from each and says whether one of them was seen, and `unmap`
//! makes each a slot; these change nothing else. They are told how many entries name the frame, and
//! end once as many were found. Proved: they take exactly the steps of a walk up to the last entry,
//! and none where no entry names the frame.
//!
//! A merged frame has no home. `Items` keeps from which places its entries are found, each a root
//! and a linear index, and how many frames are merged. `walk_merged` goes from one item to the
//! next. Proved: where each entry is reached from an item, no item stands twice, and no chain holds
//! the anon_vmas of two items, it finds each entry once, and takes as many steps as walks from all
//! of its items do together. The last is so where each item is of a root, by chain order.
//! `clear_seen_items` takes as many, and does what `clear_seen` does wherever each entry is reached
//! from an item.
//!
//! Each of these takes its areas from `Looks`, one after the other, in the order of the spans.
//!
//! `Stores` shows areas, anon_vmas and page tables as they are kept, and `StoresMut` lends the
//! tables for writing. Overlaps are found a batch at a time (`Look::next`), by a call of
//! `Spans::overlaps`; that this is how, in one way through the tree, is no clause of `next`. Not
//! counted: how often a walk asks for the next batch, by which it sees no entry, and how often an
//! entry that was looked at is written (`change`).
#![tactic(auto)]

pub mod covered;
mod item_list;
pub mod items;
pub mod look;
mod looks;
pub mod merged;
pub mod seen;
pub mod sorted;
pub mod stores;
pub mod target;
pub mod unmap;
pub mod walk;
