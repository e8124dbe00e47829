//! How many entries name each slot of a swap area, kept in bytes with continuation digits (Linux's
//! `swap_map`).
//!
//! Proved: each call changes one slot's count or bit, and nothing else; only a count that grows
//! past one byte takes memory; byte and digits are worth the count. Tests stand in `av_tests`.
#![tactic(auto)]

mod counts;
mod digits;

pub use counts::Counts;
pub use digits::digits_are_worth_the_count;
