//! The areas of one process: mapped, split, unmapped, changed, moved, grown, joined and forked,
//! with their chains of anon_vmas.
//!
//! `Areas` holds the areas of all processes by number, a `Tree` the spans of one process's areas,
//! and `Anons` the anon_vmas of all. Every call here changes the three together, but for `prepare`,
//! which leaves the spans. Pages go by number, which is their address over the size of a page. A
//! call takes time logarithmic in the number of the process's areas, times the number of areas in
//! its range or beside it, and for each of these that has a chain time for each of its nodes.
//!
//! A split links the upper part to the whole chain. Two areas become one where they are joinable;
//! where only one has an anon_vma, its chain has one node, and the other's pages get that. An area
//! that goes leaves its anon_vmas first. Areas without anon_vma are changed directly. An area that
//! moves keeps its number, and so its links; where it has an anon_vma its offset stays too, and so
//! its spans. `prepare` gives an area its own anon_vma: that of an area beside it, or a new one.
//! `fork` gives a child an area of another process, linked to that one's whole chain, or to nothing
//! where its pages are wiped. `modify` and `modify_all` change a protection or a flag of pages.
//!
//! Proved: which area is on each page then, with every field (av_vma's `Pages`); that no area of
//! another process changed; that chain order stays, that no anon_vma changes its kin and none is
//! made but by `prepare`, where no area beside lends its own, and by `fork`, where no member of the
//! chain is idle; and that each area's chain is the one that areas with its own anon_vma had
//! (av_anon's `Kin`), that of a new root itself alone, and that of a child's area its parent's,
//! with its own one where that is new (`Fork`).
//! Nothing is only tested. How much time a call takes is neither proved nor tested.
//!
//! A call that answers want of memory may have done a part of its work; areas and tree still go
//! together, and nothing is said of chain order then.
#![tactic(auto)]

mod changing;
mod forking;
mod joining;
mod laws;
mod linking;
mod mremap;
mod placing;
mod preparing;
mod splitting;

pub use changing::{Change, map, modify, modify_all, next_mapped};
pub use forking::fork;
pub use laws::{
    areas_are_laid, joins_keep_mappings, parts_are_changed_page_by_page, unmappings_keep_mappings,
};
pub use mremap::{grow, map_like, move_range};
pub use preparing::prepare;
pub use splitting::{unmap, unmap_all};
