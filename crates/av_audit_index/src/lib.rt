//! What keeps counts and keys beside the entries of a ledger, so that a question costs what it
//! touches: which keys name each number, how many of them are seen, and how many cached pairs have
//! the number. Up to two keys of a number, which is what most have, take no memory of their own,
//! and more stand in a tree. It knows no ledger.
//!
//! Proved: each call changes one key or one number, and nothing else; how many keys of a number
//! are seen; how many numbers of a range are used, and which is the least; the keys of a number
//! come one after another, or in a list, in their order. Without memory all stays. `proofs/Rising`
//! has, for who builds on it, that two rising lists with the same members are one.
//!
//! Only tested: nothing.
#![tactic(auto)]

mod holder;
mod holders;
mod keys;
mod keys_of;

pub use holders::Holders;
pub use keys_of::KeysOf;
