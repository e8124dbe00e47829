//! What `run` and `audit` say of each other: an audit finds what a done run wrote legal.
//!
//! Proved: that, of any two calls of `run` of `av_replay`, one for a trace and one for an audit, in
//! one process or in two: the audit writes that it is, or the status says that memory was wanting,
//! that the source or the sink failed, whose count rose then, or that the transcript has more than
//! 2^32 bytes, as it has then. It rests on the contract of `run` alone. Beside it stand worked
//! examples of what an audit reads and writes. The functions do nothing: their contracts are the
//! law and the examples.
//!
//! Only tested: nothing.
#![tactic(auto)]

mod audits;
mod round;

pub use audits::audits_have_words_and_numbers;
pub use round::done_runs_are_found_legal;
