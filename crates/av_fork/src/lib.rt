//! Fork: what a child gets of its parent's areas, and of its parent's entries.
//!
//! `fork_areas` lets a child live with those areas of its parent that aren't left out. Proved for
//! every state that the memory system stands for: it has the areas, anon_vmas, homes and items then
//! that the definitions leave after a fork.
//!
//! `fork_entries` gives a process each entry of another one that goes over, that is, of each page
//! that is neither left out nor wiped: the parent's page table is copied whole, the copy loses the
//! entries that don't go over, area by area, and then the frames and slots that it names are
//! counted, by runs of up to 64 pages, by `count_each_for_child` of av_mem. Proved for every ledger
//! that the memory system's parts stand for: they stand for it after the event of the fork, what is
//! free is as it was, and no frame gets or loses an item.
#![tactic(auto)]

mod areas;
mod entries;

pub use areas::fork_areas;
pub use entries::fork_entries;
