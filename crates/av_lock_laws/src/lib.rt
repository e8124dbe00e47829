//! While pages go to their slots, which frames are those of locked pages stays the same. So what a
//! pass or a reclaim spares may be asked at any time of it: the answer is that of its start. It is
//! so of any set of pages, not only of the locked ones, as long as none of its frames is unmapped,
//! and of any ledger, sound or not.
//!
//! No function does anything. Each one's contract is a law, proved of the definitions alone.
#![tactic(auto)]

mod locks;

pub use locks::{frames_stay_over_completions, frames_stay_over_passes, frames_stay_over_reclaims};
