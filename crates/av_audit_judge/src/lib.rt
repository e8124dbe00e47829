//! Judges of what a transcript tells of the ledger. They know the definitions alone, and no
//! kernel.
//!
//! Proved: a judge reads exactly the notes that may stand in front of some bytes. Where it says
//! yes, lawful notes stand there, the book has followed them, and what is left is what follows
//! them; where it says no, no lawful notes stand there. There are judges of writes that end
//! (`completes`), of a direct pass (`seeks`), of a frame that is taken (`takes`), and of a page
//! that is fetched from its slot (`fetches`) and mapped (`swaps_in`). Where a page need not come
//! the unit has to end. Whole units of `complete`, `age`, `reclaim`, `exit` and `munmap` are
//! judged, too: yes exactly where the bytes are the text of a legal reply. The last two leave no
//! choice: their reply is made and compared. Nothing asks that the ledger is sound. After want of
//! memory a book may have followed a part of a note.
//!
//! Whether a frame is of a locked page is asked of the memories when it is come to: no step of a
//! pass or a reclaim changes that. The entries of the frame are asked then, where some process has
//! a locked page; else none is, and no frame is looked at where none can go. These costs are read
//! off the code, and no clause says them.
//!
//! Units of other commands are not judged here.
//!
//! Only tested: nothing.
#![tactic(auto)]

mod come;
mod commands;
mod fetch;
mod flight;
mod notes;
mod pages;
mod pass;
mod reclaim;
mod seek;
mod text;
mod unit;
mod zaps;

pub use come::{Come, swaps_in};
pub use commands::{judges_age, judges_complete, judges_reclaim};
pub use fetch::{Fetch, fetches};
pub use flight::completes;
pub use notes::{Taking, cut};
pub use pages::ADDRESS_PAGES;
pub use seek::{seeks, takes};
pub use text::{all_fit, is_answer, is_reply};
pub use unit::{Unit, reads};
pub use zaps::{judges_exit, judges_munmap};
