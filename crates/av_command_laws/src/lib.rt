//! What the definitions say of single commands, for the kernel and for who judges transcripts:
//! which frame a compaction moves next, that `maps` shows one list of runs, and `read` one list of
//! bytes.
//!
//! No function does anything. Each one's contract is a law, proved of the definitions alone.
#![tactic(auto)]

mod moves;
mod reads;
mod runs;

pub use moves::the_greatest_goes_to_the_least;
pub use reads::a_read_shows_one;
pub use runs::the_runs_are_one;
