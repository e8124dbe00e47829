//! A judge of what a transcript tells of a swap area that is turned off. It knows the definitions
//! alone, and no kernel.
//!
//! Proved: where it says an end, the bytes are lawful notes that end so: all of flight completes,
//! and the area's slots in use are emptied, each the least in its turn, up to that end. The book
//! has followed them. Where it says none, the bytes are no such notes (`closes`). The ledger need
//! not be sound. After want of memory a book may have followed a part of the notes.
//!
//! Not judged here: the line of the answer, and that the area is off in the end. What a pass spares
//! is asked of the memories as the pass goes (`av_audit_judge`), and where there is no frame for a
//! slot, for its numbers. The least slot in use and the entries that name it are looked up.
//!
//! Only tested: nothing.
#![tactic(auto)]

mod closing;
mod emptying;
mod users;

pub use closing::{Close, closes};
