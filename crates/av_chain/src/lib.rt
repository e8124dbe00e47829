//! Which areas are linked to which anon_vmas (Linux's anon_vma_chain).
//!
//! Each link is one node in two doubly linked lists at once, its area's and its anon_vma's, by raw
//! pointers. Only `nodes.rt` follows a pointer. `unlink_from` takes links out through the trait
//! `Ring` alone, one step a link. The ledger is the trait's own: a link that is taken out counts in
//! the caller's steps. `unlink_all` is one call of `unlink_from`.
//!
//! Proved: the two maps that the links are, each the other's inverse, after each call; that a link
//! comes last in both lists; that an area leaves all its lists in as many steps as it has links;
//! that each node in memory lies in both its lists, so that none is lost, and dropping finds each.
//! Not proved: that `Links::unlink_all`, which holds the links themselves, takes out none but by
//! `unlink_from`; that memory is there, and time.
#![tactic(auto)]

mod links;
mod lists;
mod node;
mod nodes;
mod parts;
pub mod ring;
mod rows;
pub mod users;

pub use links::Links;
