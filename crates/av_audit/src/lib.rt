//! The auditor: whether a transcript is legal, unit by unit. A unit is the text of one reply. The
//! auditor knows the definitions alone, and no kernel.
//!
//! Proved: a unit is answered to be legal exactly where the definitions have it so, and then the
//! auditor keeps the memories and the ledger that the unit leaves (`Auditor::judge`). After a unit
//! that isn't legal none is, and after want of memory each call wants it. The machine has a frame,
//! at most 256 swap areas of 2^32 pages, and fewer than 2^32 bad pages in each (`FitsWords`); it is
//! the one that page 0 of each area says (`Auditor::new`), or is handed over (`of_machine`).
//!
//! Only tested: that memory suffices.
#![tactic(auto)]

mod accessing;
mod advising;
mod auditor;
mod forking;
mod known;
mod leaving;
mod lengths;
mod locking;
mod mapping;
mod remapping;
mod reporting;
mod spawn;
mod swapping;
mod units;

pub use auditor::{Auditor, Phase, Verdict};
