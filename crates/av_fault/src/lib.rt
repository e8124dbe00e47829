//! The page fault.
//!
//! `touch` makes a page ready for a read or a write, and marks it as accessed: the page of zeros, a
//! new frame, a copy, or the frame that it has, which it may have to bring in from a slot. Else it
//! says why not: the page may not be accessed, no frame could be had, or the device didn't give it.
//! A frame is sought here, and taken for the page by av_mem's `entries`.
//!
//! Proved for whatever the memory system stands for, over the device that is there and over one
//! like it that tells no page: the notes that it adds are lawful, with a direct pass exactly where
//! a frame is taken and none is free; the parts stand for the ledger after them; each frame and
//! slot that is taken is the one that comes next. A frame that is to be written is the page's
//! alone, not merged, and at home there; a merged one is copied, and free where that was its last
//! page. Each entry of a frame or a slot is reached from the frame's home, or from an item of a
//! merged one. The device failed for each note `fail` and each page that it didn't give, and an
//! out-of-memory calls no more frames cached than there are such notes. After want of memory it is
//! the same device, there are as many frames, and nothing else is promised. Nothing is only tested.
#![tactic(auto)]

mod coming;
mod fault;
mod making;
mod seek;
mod using;

pub use fault::{Stop, Touched, touch};
