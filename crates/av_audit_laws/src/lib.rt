//! What lets a transcript be judged, as legal or not, reply by reply, by what the replies before it
//! left, and without ever going back: a reply tells its events, so each has one list of them, and
//! what stands in a transcript for one command leaves one state. It is so of every command that
//! `av_plain` defines.
//!
//! No function does anything. Each one's contract is a law, proved of the definitions alone.
#![tactic(auto)]

mod units;

pub use units::{replies_tell_events, transcripts_are_judged, units_leave_one};
