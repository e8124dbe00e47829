//! Mremap: what becomes of the entries and the areas of a process.
//!
//! `remap_entries` lets those go that have no page any more, with the slots that they leave as
//! orphans, and gives each other one to the page as far into the new range, as it is. Proved for
//! every ledger that the memory system's parts stand for: they stand for it after the events of an
//! mremap, whose notes are told, and what is free follows them.
//!
//! `remap_areas` lets a range of pages move, shrink or grow, as far as areas go. Proved for every
//! state whose areas and anon_vmas the memory system has: it has the areas then that the
//! definitions leave after an mremap, and no anon_vma is made or changes its kin.
#![tactic(auto)]

mod areas;
mod entries;

pub use areas::remap_areas;
pub use entries::remap_entries;
