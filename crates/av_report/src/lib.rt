//! The commands that report and change nothing: `maps`, `areas`, `rmap`, `entry` and `stat`.
//! `slot` is in `av_swap`.
//!
//! Proved for whatever the memory system stands for: each shows what the definitions show of that
//! state, all of it and in their order, or refuses as they do (`DoesBeside`). So `maps` shows the
//! longest runs of pages with one protection, and `rmap` each entry of a frame. `totals` gives the
//! numbers of `stat` without a command. Where memory is wanting, for the rows or for what they
//! are made of, nothing is promised of the reply.
#![tactic(auto)]

mod report;

pub use report::{areas, entry, maps, rmap, stat, totals};
