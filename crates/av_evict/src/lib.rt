//! Reclaim, age, completion and the search for a free frame, over the single steps of a memory
//! system.
//!
//! Each call adds notes, and promises what they are in the words of the definitions (`av_plain`):
//! from each sound ledger that the system stood for, the notes added are those of `Outcomes`,
//! `Completes` or `Seeks`, and the system stands for the ledger after them, which is sound again.
//! So it is whether the device's pages are told or not, and what is asked is asked of the system
//! that doesn't tell them.
//! The numbers of an out-of-memory are exact: they go by counts that the system keeps, of locked
//! frames too, and by a look at the pinned one.
//! Where a note finds no memory the call answers `AllocError`, and promises of its ledgers nothing.
//! What no step changes is as it was then too, and the count of failures has not fallen.
#![tactic(auto, using(crate::proofs::SystemLaws::left_so, crate::proofs::SystemLaws::left_then))]

mod flight;
mod inactive;
mod pass;
mod shortage;
mod standing;
mod steps;
mod system;
mod turn;
mod witness;

pub use flight::complete;
pub use inactive::{age, reclaim};
pub use pass::{SeekEnd, seek};
pub use steps::drop_slot;
pub use system::{System, WriteEnd};
pub use witness::steps_can_be_met;
