//! The LRU lists: the frames in use that reclaim takes last (active) and those that it looks at
//! first (inactive). The kernel keeps them of the frames in use; reclaim and age move frames
//! between the two.
//!
//! Proved: each list with its order after each call; no frame is in a list twice or in both; what
//! is read from a tail on is the end of the list. Tests stand in `av_tests`.
#![tactic(auto)]

mod lists;

pub use lists::{Lru, Which};
