//! The commands that access memory: `read` and `write`, page by page.
//!
//! An access is cut where pages end. av_fault makes each page ready in its turn, and its piece is
//! copied then, up to the first page that isn't served. Proved for whatever the memory system
//! stands for: the notes are those of the pages in turn, and the access ends where the definitions
//! end it, with as many bytes served (`Does`). A read shows the bytes that the process has there,
//! where the memory claims them, and a write stores those that were served and no others. After
//! want of memory it is the same device, there are as many frames, and nothing else is promised.
#![tactic(auto)]

mod access;
mod lock;
mod page;

pub use access::{read, write};
pub use lock::bring_in;
