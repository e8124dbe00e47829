//! The kernel: one command at a time over the memory system and its device.
//!
//! Each command is a function of the memory system. Those on processes and on ranges of pages are
//! here, in the file of their topic; the others are in `av_access`, `av_swap` and `av_report`. What
//! each promises is one of the two words of `av_step`: `Does` of one that is handed the device, and
//! `DoesBeside` of one that isn't, which does it beside any. An answer is a legal step of the
//! definitions, with the exact frames and slots, whatever state the memory system stood for. It
//! stands for the next one then, in which each entry of a frame, or of the slot that one caches, is
//! reached from the frame's home, or from the items of a merged frame. It is the same device after
//! each command, with its sizes and, where it tells its pages, page 0 of each area; it is asked to
//! write exactly what the notes tell, and no page 0 where memory is wanting; and what only its
//! failures explain is within what it failed. A command that isn't handed the device leaves it as
//! it was. `Kernel` counts the replies, and after want of memory does nothing more, to the device
//! either. All of this is proved, for every command of the grammar.
#![tactic(auto)]

mod advice;
mod kernel;
mod lock;
mod map;
mod mremap;
mod process;
mod step;
mod tally;

pub use kernel::Kernel;
pub use tally::Tally;
