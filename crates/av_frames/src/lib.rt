//! The frames of physical memory: which are free, their bytes, and what is kept of each (Linux's
//! `struct page`).
//!
//! Proved: each call changes what it says of the frames that it names, and nothing else; a frame
//! that was never written is zeros; the free list has each free frame once, `take` gives its first,
//! `give` puts in front, and `order_free` makes it rise; `cached_len` counts the frames that have a
//! slot, `locked_len` those that an entry of a locked page names, `locked_cached_len` both; no call
//! but `new` can want memory.
#![tactic(auto)]

mod frames;
mod free_list;
mod locks;
mod pages;
mod slots;

pub use frames::Frames;
