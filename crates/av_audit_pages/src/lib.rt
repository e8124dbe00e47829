//! What a ledger keeps of pages: the entry of each, and the cached pairs. It knows no lists, no
//! swap areas and no notes.
//!
//! For each frame and each slot the keys of its entries are kept beside these, and how many cached
//! pairs have it, by an invariant that says that they are right: how often a frame or a slot is
//! named or used, which is the least that is used, and whether an entry of a frame is seen, is a
//! look-up. The keys of a frame's entries come one after another, without memory (`Pages::walk`),
//! or in a list. Cached pairs are found by their slots and by their frames (`av_audit_queue`'s
//! `Places`): to cache one costs a few look-ups, and to find, to change or to take out those of a
//! slot, or those at a frame, a few for each of these.
//!
//! Proved: what each change of an entry, of the entries of a frame, and of cached pairs leaves of
//! them (`Pages`), and each of these answers, in the words of the ledger's definitions. Where
//! memory runs out, a page may have lost its entry, and a part of a change may be done. No clause
//! counts look-ups.
//!
//! Only tested: nothing.
#![tactic(auto)]

mod changes;
mod entries;
mod index;
mod pages;
mod pairs;
mod slot_holders;

pub use changes::{Change, PairChange};
pub use entries::{Cached, Entry};
pub use pages::Pages;
