//! The words that every layer shares: pages and limits, protections and flags, slots, a counter of
//! steps, and words on numbers and lists.
//!
//! Nothing here does anything but `Prot`'s two tests, the changes of `Flags`, and `Steps`, which
//! are proved. The words of contracts stand in `specs`: `Words` (ranges, lists, counts, a function
//! changed at one place), `Page` (addresses and pages), `Flags` and `Limits`.
#![tactic(auto)]

mod flags;
mod limits;
mod page;
mod prot;
mod slot;
mod steps;

pub use flags::{Flag, Flags};
pub use limits::{LOW_PAGE, MOST_FRAMES, MOST_PROCESSES, TOP_PAGE};
pub use page::PAGE_SIZE;
pub use prot::Prot;
pub use slot::Slot;
pub use steps::Steps;
