//! What each step of swap does to the parts of the kernel. The crate has no code that runs: each
//! function's contract is a law, proved of the definitions alone.
//!
//! A step is said as a function of views (`specs/Steps`): what the parts answer after it, by what
//! they answered before. That equation is all that the code has to meet, and it is what the steps
//! of av_mem promise. Proved here is what comes of it: where the parts stood for a ledger,
//! memories, devices, areas, homes and items (`IsHeld`), they stand for those after the event, and
//! the frames and slots that the event takes and frees are the ones that the definitions choose
//! (`Steps`). `specs/May` has what a step asks of the ledger. That soundness and the definitions'
//! own tests give it is proved too, and so is that one step can be made after the other
//! (`a_page_goes_out_and_comes_back`).
//!
//! There are steps for each note but those of a merge and of a compaction, for a use of a page, for
//! an entry that goes, that goes over to a child or that moves, and for a swap area that is turned
//! on or off. A copy has two: the frame that is copied stays in use, or is free then.
//! What covers entries of frames and slots through a fork or another change of areas, and what
//! keeps the lists of what is free right, is proved with the definitions.
#![tactic(auto)]

mod areas;
mod coming;
mod entries;
mod examples;
mod going;
mod making;
mod may;
mod soundness;
mod stores;
mod using;

pub use areas::{areas_are_turned_off, areas_are_turned_on};
pub use coming::{entries_are_mapped, homes_go_by_any_page, reads_may_fail, slots_are_loaded};
pub use entries::{
    entries_go, entries_go_over, entries_move, forks_hold_bytes, memories_may_claim_less,
    memories_may_lose_pages, pages_without_entry_may_be_zeros,
};
pub use examples::a_page_goes_out_and_comes_back;
pub use going::{
    frames_age, frames_are_kept, frames_are_put, frames_are_unmapped, slots_are_dropped,
    writes_begin, writes_end_well, writes_fail,
};
pub use making::{
    frames_are_copied, last_copies_free_frames, pages_are_prepared, pages_get_frames,
    pages_get_zeros,
};
pub use may::{drops_may_be_made, steps_may_be_made, the_first_is_free};
pub use soundness::{names_are_few, soundness_goes_on};
pub use stores::{lists_are_as_kept, walks_change_all, writes_leave_headers};
pub use using::{pages_are_read, pages_are_written, pages_of_zeros_are_read};
