//! The ledger as data: flight, lists and swap areas, beside the entries and cached pairs that
//! `av_audit_pages` keeps. A slot in flight and a frame in a list are found at once
//! (`av_audit_queue`). It knows the definitions alone, and no kernel.
//!
//! Proved: what each note leaves of the ledger (`Book::follow`), and what the definitions ask of
//! it: which frames and slots are free, and how many, what caches what, what a page needs, why a
//! frame is kept, which frames have a turn in a pass, and the numbers of an out-of-memory.
//! Nothing asks that the ledger is sound. After want of memory a book may have followed a part of
//! a note.
//!
//! Whether a frame is of a locked page is asked of the processes (`av_audit_world`) when it
//! matters, by the frame's entries, one after another and without memory, and of none where no
//! process has a locked page (`Book::is_locked`). What they keep answers it; that it is what the
//! definitions say is one equation (`proofs/SparedLaws.antt`).
//!
//! The numbers of an out-of-memory are had by counts (`Book::out_of`). Gone over are the ranges of
//! the processes that have a locked page, the entries of locked pages, and the cached pairs, but
//! not all frames. Merged frames stand in a set beside their list: how many are below a number is
//! known at once, where all are (`MergedFrames`). These costs are read off the code, and no clause
//! says them.
//!
//! Only tested: nothing.
#![tactic(auto)]

mod book;
mod cache;
mod cause;
mod entries;
mod follow;
mod lists;
mod locked;
mod machine;
mod merged;
mod moves;
mod need;
mod shortage;
mod slots;
mod spared;
mod totals;

pub use av_audit_pages::{Cached, Entry};
pub use book::{Area, Book};
pub use machine::{Head, Layout, Machine};
pub use merged::MergedFrames;
pub use need::Need;
pub use spared::Spared;
