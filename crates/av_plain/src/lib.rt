//! The definitions that every other crate is judged by: the plain memories, the ledger of frames
//! and slots, and what a legal reply is. They stand in `specs`, a file for each topic, from `World`
//! to `Stands`; here are the laws that what is built on them uses. Worked examples, and laws that
//! nothing else uses, are in `av_laws`.
//!
//! No function does anything. Each one's contract is a law, proved of the definitions alone.
#![tactic(auto)]

mod choices;
mod failures;
mod soundness;
mod transcripts;

pub use choices::the_greatest_priority_gives;
pub use failures::{
    a_device_that_is_not_used_has_no_failures, no_area_on_has_no_failures,
    no_device_has_no_failures,
};
pub use soundness::{soundness_stays, what_sound_says, what_stands_says};
pub use transcripts::{runs_are_legal, transcripts_are_sound};
