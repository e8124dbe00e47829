//! Where the pages of a process go: the places of `mmap` and `mremap`, how far `madvise` goes over
//! pages, and what these, `munmap` and `mprotect` refuse by addresses, lengths and the areas that
//! are there.
//!
//! Nothing is changed. Proved: each refusal of an `mprotect` and an `mremap` is the first test of
//! the definitions that holds here, each test of an `mmap`, a `munmap` and a `madvise` the one that
//! they name, and so is each place; and which page of a range is the first that isn't mapped, or
//! that is locked.
#![tactic(auto)]

mod advice;
mod lock;
mod mremap;
mod place;

pub use advice::{first_hole, first_locked, is_bad_range};
pub use lock::{ends_too_high, locks_too_many, pages_met};
pub use mremap::{check_indices, check_remap, find_target, leaves_old};
pub use place::{check_protect, find_gap, find_place, is_no_range, is_too_long};
