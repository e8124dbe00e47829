//! The address spaces of all processes: which areas each process has (the areas of Linux's
//! `mm_struct`).
//!
//! `Spaces` is seen as the list of the processes that live, each with its areas and all that an
//! area says, in the order of their pages; beside it stand the areas by number, by which chains of
//! anon_vmas go. Proved: what a call answers and what it changes, page by page, is what `av_merge`
//! says of one process; the areas of all others stay; the areas of a process are whole, rise and do
//! not meet. Of the anon_vmas: a call makes none but `prepare` and `fork`, and no call changes root
//! or parent of one; those that are left are those that an area is linked to, and there is chain
//! order. A fork goes area by area, by rising address, and each sees what the earlier ones left.
//! Not proved: how much time a call takes. Each trace that maps, forks or moves runs it.
#![tactic(auto)]

mod fork;
mod spaces;

pub use spaces::Spaces;
