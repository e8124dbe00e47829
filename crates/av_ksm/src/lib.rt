//! Merging of equal pages, which come to share one frame (Linux's `mm/ksm.c`).
//!
//! `merge` is the command: the pages have their turn in the order of process and page. One that may
//! be merged (`candidate`) joins a merged frame that holds the same as its own, or else that of an
//! earlier candidate, which is merged then. What frames hold is found in the order of their bytes
//! (`Contents`).
//!
//! Proved: for every state that the memory system stands for, the notes of `merge` are exactly
//! those of the definitions, by what the frames hold, and it stands for what they leave
//! (`DoesBeside`). `share` makes the frame of a page a merged one: its home becomes its first item.
//! `join` lets a page join it, whose own frame is free then where that was its last entry. That all
//! stands after each has laws of views alone (`frames_are_shared`, `pages_join`); and what is to be
//! known of what frames hold, so that it says at each candidate what it joins, is a law, too
//! (`candidates_take_their_turn`). Without memory part of a merge may be done.
#![tactic(auto)]

mod candidates;
mod command;
mod contents;
mod joining;
mod known;
mod laws;
mod merging;
mod pages;

pub use candidates::candidate;
pub use command::merge;
pub use joining::{join, share};
pub use known::{candidates_take_their_turn, merged_frames_are_known_at_first};
pub use laws::{frames_are_shared, pages_join};
