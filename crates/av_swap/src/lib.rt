//! The commands on swap: `swapon`, `swapoff` and `slot`, and those by which pages go to their slots
//! ahead of need, `reclaim`, `age` and `complete`.
//!
//! They refuse and answer; the work is done by `Swap` of av_swapcache, by av_swapoff and by
//! av_reclaim. Proved for whatever the memory system stands for: each answers or refuses as the
//! definitions do, by a step of them (`Does`; of `slot` `DoesBeside`). It is the same device then,
//! and what only its failures explain is within what it failed. After want of memory it is the same
//! device, there are as many frames, and nothing else is promised. Not proved: how long a command
//! takes.
#![tactic(auto)]

// Public, since the module and one of its functions have one name.
pub mod reclaim;
mod swap;

pub use swap::{slot, swapoff, swapon};
