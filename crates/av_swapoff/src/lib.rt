//! A swap area is emptied and goes off, over the memory system and its device.
//!
//! `SlotSystem` adds to the single steps of `av_evict` those that bring a slot's page back, and
//! `empty` drives them: all writes in flight end, then each slot in use, the least first, goes back
//! to its entries. `Driver` of `av_reclaim` is such a system. Whose the slots are is found by one
//! visit of the page tables before the first one (`users`), and the entries that name a slot
//! through the home of the frame that caches it.
//!
//! What a pass leaves alone is asked anew at each slot: the page that came back for the one before
//! may be locked, and from then on its frame is.
//!
//! Proved for whatever the memory system stands for, and whether the device's pages are told or
//! not: the notes that `swapoff` adds are those of the definitions' `TurnsOff`, the area is off
//! exactly where none of its slots is in use any more, and after an error it stays on and gives
//! slots again; what stands afterwards is what the notes leave; each frame and each slot that is
//! taken is the one that comes next; and the device failed at least as often as the notes and the
//! end tell. After want of memory it is the same device, there are as many frames, and nothing else
//! is promised. Not proved: that the tables are visited once, and how long it takes. Runs are
//! tested in the examples and in `av_run_tests`.
#![tactic(auto)]

mod command;
mod driver;
mod empty;
mod slot;
mod steps;
mod system;
mod users;

pub use command::swapoff;
pub use empty::EmptyEnd;
pub use system::SlotSystem;
