//! Reclaim, age, completion and the search for a free frame, over the memory system and its device.
//!
//! `Driver` lends both to the loops of `av_evict`, which drive them in single steps. The commands
//! call those loops. Which frames are those of locked pages is said by a count that is kept of
//! each: they are those that the definitions name, whatever the memory system stands for, and no
//! step changes them.
//!
//! Proved for whatever the memory system stands for, and whether the device's pages are told or
//! not: the notes that a command adds are those of the definitions' `Reclaims`, `Ages`,
//! `CompletesFirst` or `Seeks`, and what stands afterwards is what they leave; each frame and each
//! slot that is taken is the one that comes next; and the device failed at least as often as the
//! notes tell. Where a note, or the count of a slot's entries, finds no memory a command answers
//! `AllocError`: then it is the same device, and there are as many frames, and nothing else is
//! promised, not even that the memory system still stands for anything. Not proved: how long a
//! command takes. Runs that reclaim are tested in `av_run_tests`.
#![tactic(auto)]

mod commands;
mod driver;

pub use commands::{age, complete, reclaim, seek};
pub use driver::Driver;
