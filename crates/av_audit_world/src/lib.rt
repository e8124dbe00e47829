//! What processes see, as data. It knows the definitions alone, and no kernel.
//!
//! Proved: a process's pages are those that the definitions have, after each call that maps,
//! unmaps, protects, marks or wipes some (`Memories::edit`), makes them more or fewer or moves them
//! (`remap`), writes bytes (`write`), makes a child (`fork`) or ends a process (`remove`). What is
//! asked of them is what the definitions say: the bytes from an address on, whether a page may be
//! accessed, is locked or goes over to a child, how many pages come before a hole or a locked page,
//! which locked pages come next (`next_locked`), whether pages have one protection, and the
//! greatest gap. Which pages are locked is said of what is kept alone, too: so a caller can ask for
//! it without a word on what the definitions have.
//!
//! What is said of pages is kept by ranges (`av_audit_ranges`), and bytes by page. So a call costs
//! some ways down a tree and what it goes over, whatever else the process has mapped; a move costs
//! what it moves. A fork goes over the parent's ranges, shares the bytes of each page that was
//! written, and lets go of those that don't go over; the bytes of a page are copied once one of the
//! two writes to it. Processes with a locked page are noted (`locking`), so that no other is looked
//! at for one. These costs are read off the code, and no clause says them.
//!
//! Only tested: nothing.
#![tactic(auto)]

mod bytes;
mod child;
mod edit;
mod holes;
mod kept;
mod kinds;
mod locks;
mod mapping;
mod memories;
mod prots;
mod questions;
mod remap;
mod space;

pub use edit::Edit;
pub use memories::Memories;
pub use space::Space;
