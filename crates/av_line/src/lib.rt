//! What a line of a trace says: a command, or nothing.
//!
//! Proved: but for want of memory a line is accepted exactly where it is empty, a comment, or a
//! command of the grammar of `av_trace`, and it says one thing (`parse_line`, `one_meaning`).
//! Memory is wanting only for a line that begins with `write`.
//!
//! It is a crate of its own since its must-fail edit costs a check of all that stands beside it.
//!
//! Only tested: nothing.
#![tactic(auto)]

mod line;

pub use line::{LineErr, one_meaning, parse_line, parse_line_into};
