//! Areas of a process's memory: the linear index of a page and the home that its frame has, when
//! two areas are one, and areas by number.
//!
//! Proved: the index and the home of a page; exactly when two areas are joinable and when one may
//! take the anon_vma of its neighbour; which area each number has after each call, and whether any
//! is locked or mergeable. The rules of areas on pages (`specs/Pages.antt`, `specs/Mremap.antt`) are met in
//! `av_merge`.
#![tactic(auto)]

mod area;
mod areas;

pub use area::{Area, can_lend, home, index, joinable};
pub use areas::{AreaId, Areas};
