//! The swap areas that are on, and the swap cache (Linux's `mm/swapfile.c` and `mm/swap_state.c`):
//! which frame caches a slot, which slots are in flight, how many entries name each slot, and which
//! slot is given next. The frames themselves are `av_frames`'.
//!
//! There may be eight areas, each with a priority: of those that can give a slot, the one with the
//! greatest does. While an area is emptied for a swapoff it is closing, and gives no slot.
//!
//! Proved: each call changes what it says of the slots, the flight and the areas, and nothing else;
//! a slot is taken exactly where something names it, and given back as soon as nothing does; bad
//! pages and headers are never given; slots are written in the order in which they were put in
//! flight, with the bytes that their frames have then; a call fails only where the device did. Only
//! `new`, `swapon` and `entry_up` can want memory. Tests stand in `av_tests`.
#![tactic(auto)]

mod area;
mod areas;
mod swap;

pub use swap::{Finished, Swap, SwapOn};
