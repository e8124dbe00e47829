//! Judges of a merge and of a compaction. They know the definitions alone, and no kernel.
//!
//! Both leave no choice: their reply is made and compared. Proved: yes exactly where the bytes are
//! the text of a legal reply, and then the book is at what that leaves (`judges_compact`,
//! `judges_merge`). What a frame holds is told by the pages whose entries name it. Where two of
//! them differ no merge is legal, and the answer is no. A merge asks that memories and ledger are
//! sound: else a merged frame that no entry names could hold anything. A compaction asks nothing.
//!
//! A compaction looks at each frame once or twice. A merge goes over all frames once, lists all
//! pages that have an entry, and goes over these twice. It compares the bytes that are kept of each
//! page with those of its frame. For each page that may be merged it looks at the entries of its
//! frame, if some process has a locked page, and seeks its bytes among those of the frames that are
//! merged or were candidates, which stand in order.
//!
//! Only tested: nothing.
#![tactic(auto)]

mod candidates;
mod contents;
mod first;
mod held;
mod merging;
mod moving;

pub use merging::judges_merge;
pub use moving::judges_compact;
