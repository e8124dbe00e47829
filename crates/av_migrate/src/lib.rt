//! Compaction: the frames in use become the lowest ones.
//!
//! `compact` is the command: for every state that the memory system stands for its answer is a step
//! of the definitions.
//!
//! `compact_frames` moves one frame after the other, the greatest in use to the least that is free,
//! until they pass each other, and puts the list of free ones in order. Proved for every state that
//! the memory system stands for: the notes are those of the definitions, what they tell is done,
//! and the frames in use are the lowest then, each with its walk and all that it had, be it locked,
//! merged or in flight. The steps are exactly those of the walks of the frames that moved. Not
//! proved, as of `walk`: that entries are found by these walks alone, which can be read.
//!
//! The laws say what stands after one such step, by the views of the kernel's parts: a frame goes
//! over to another, or the list of free frames is put in order.
#![tactic(auto)]

mod command;
mod compacting;
mod laws;
mod moving;
mod next;

pub use command::compact;
pub use compacting::compact_frames;
pub use laws::{frames_go_over, free_frames_are_ordered};
