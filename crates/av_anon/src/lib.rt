//! anon_vmas: which areas are linked to which, their spans, and their numbers (Linux's anon_vma).
//!
//! An area's chain is the list of the anon_vmas that it is linked to, its own among them; an
//! anon_vma's users are the areas that are linked to it, and for each its tree of spans holds the
//! linear indices of that area's pages.
//!
//! Proved: what each call makes of root, parent, children and active of each anon_vma, of the next
//! number, and of each chain and list of users, by one equation; that the spans go with the links
//! after each call; that a number is never used again; that `unlink` takes as many steps as the
//! area's chain is long. Laws say that each call keeps chain order (`order`), and that
//! `clone_chain` and `unlink` make no anon_vma, change no root or parent and leave chains as they
//! were (`kin`). Without memory no area changes; nothing else is promised then, but that `resize`
//! leaves links and numbers.
//!
//! The loop of `unlink` is `leave_from`: it takes links out through av_chain's trait `Ring` alone,
//! which counts in the caller's ledger. Not proved: that `unlink`, which holds the links
//! themselves, takes out none but by that. Not counted: what is asked of users and spans.
#![tactic(auto)]

mod anons;
mod fork;
mod infos;
pub mod kin;
mod links;
pub mod order;
mod prepare;
mod resize;
mod spans;
mod unlink;

pub use anons::Anons;
pub use infos::Info;
