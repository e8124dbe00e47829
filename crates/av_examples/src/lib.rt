//! Worked examples of the definitions of `av_plain` and of texts, beside those of `av_laws`. Each
//! stands for a wrong version of a definition, which breaks it. They are by topic: texts, merging,
//! frames that age and move, locks, flags, areas, loads, the history of a device, views of a
//! kernel, what stands for a state, what is true at all times, steps, and the words of laws.
//!
//! No function does anything. Each one's contract is proved of the definitions alone.
#![tactic(auto)]

mod areas;
mod flags;
mod frames;
mod history;
mod loads;
mod locks;
mod merging;
mod sound;
mod stands;
mod steps;
mod texts;
mod views;
mod words;

pub use areas::{areas_stay_apart, areas_with_other_flags_lend_nothing, pages_change_in_turn};
pub use flags::pages_follow_their_flags;
pub use frames::{all_frames_age, moved_frames_stay_as_they_were, shared_frames_stay_in_place};
pub use history::histories_grow;
pub use loads::cached_pages_are_claimed;
pub use locks::{locks_are_of_pages, pinned_frames_count_once};
pub use merging::{pages_are_candidates, pages_join_in_turn};
pub use sound::merged_frames_and_chains_are_sound;
pub use stands::{changed_parts_do_not_stand, slots_are_listed_as_they_are};
pub use steps::{forks_go_by_parents, steps_leave_one_state};
pub use texts::{
    answers_have_words, commands_have_lines, notes_have_words, reads_have_a_length,
    replies_are_lines, rows_have_words,
};
pub use views::{tables_have_all_entries_alone, views_are_compared_in_order};
pub use words::laws_are_about_some_commands;
