//! What follows from the definitions of `av_plain`, beside what the kernel needs of them: replies
//! are determined, numbers add up, a report changes nothing, a refusal nothing or no more than what
//! it met, a reply is read back from its text, what is free is listed, only equal pages are merged,
//! a compaction takes the lowest frames, areas cover what is mapped, frames of locked pages stay;
//! and worked examples of the definitions. Each stands for a wrong version of one, which breaks it;
//! where a law of this crate breaks with that version there is no example. They are single
//! commands, turns in a pass, single steps of swap, several of a kind that differ, what lines,
//! answers, notes and rows say, slots that are given, areas, anon_vmas and homes that come of
//! commands, flags of pages, frames that are shared or move, forks, pages that move, states that
//! aren't sound, and views that don't stand for a state.
//!
//! No function does anything. Each one's contract is a law, proved of the definitions alone.
#![tactic(auto)]

mod areas;
mod cover;
mod determinism;
mod events;
mod examples;
mod flags;
mod forks;
mod frames;
mod free;
mod homes;
mod lines;
mod locked;
mod mremap;
mod needs_frame;
mod pairs;
mod pass_turns;
mod read_back;
mod refusals;
mod several;
mod slots;
mod swap_steps;
mod totals;
mod unsound;
mod views;

pub use areas::{anon_vmas_are_left, areas_are_shown, areas_follow, first_frames_prepare};
pub use cover::{runs_cover_entries, runs_lay_areas};
pub use determinism::{
    areas_has_one_answer, failures_are_within, maps_has_one_answer, replies_are_determined,
    runs_are_determined,
};
pub use events::events_are_told;
pub use examples::{
    accesses_stop, commands_are_refused, entries_go, frames_are_chosen, mappings_have_room,
    memories_follow, pages_are_served, reports_show, some_commands_use_the_device,
};
pub use flags::{
    advice_is_about_one_flag, flags_are_refused, flags_are_told, flags_cut_areas, flags_follow,
    locked_frames_are_spared, rows_show_flags,
};
pub use forks::forks_follow;
pub use frames::{
    compactions_order_free_frames, compactions_take_the_lowest_frames, frames_are_shared_and_move,
    kept_frames_stay_seen, last_copies_free_merged_frames, merged_frames_are_left_alone,
    merges_ask_each_page, merges_share_frames,
};
pub use free::{runs_list_free_frames, runs_list_free_slots};
pub use homes::{
    homes_are_of_pages, homes_cover_entries, homes_cover_slots, homes_follow, items_cover_entries,
};
pub use lines::{answers_say, lines_say, notes_say, rows_say, texts_stand};
pub use locked::locked_frames_stay;
pub use mremap::{
    areas_grow, areas_move, memories_move, mremaps_are_refused, pages_stay_or_find_a_place,
};
pub use needs_frame::{reads_in_memory_are_served, writes_in_place_are_served};
pub use pairs::{
    bad_pages_are_not_given, failures_are_counted, ledgers_follow, loads_make_unclaimed,
};
pub use pass_turns::{
    cached_frames_are_unmapped_and_written, changed_passes_are_refused, frames_have_their_turns,
    pages_are_lost_behind_a_pass, passes_end_with_a_free_frame,
};
pub use read_back::{
    replies_are_read_back, replies_of_runs_are_read_back, texts_of_runs_say_replies,
};
pub use refusals::{
    mlocks_lock_all_pages, refusals_at_a_hole_change_the_pages_before_it, refusals_change_nothing,
    refused_advice_changes_the_pages_that_it_met,
};
pub use several::{
    all_areas_count, areas_have_pages_of_their_own, devices_stay_the_same, frames_go_to_the_head,
    pages_are_at_their_own_slots,
};
pub use slots::{
    areas_are_turned_on_anew, priorities_decide, slots_are_given_in_turn, slots_come_back,
    the_first_area_gives,
};
pub use swap_steps::{
    areas_are_turned_on, frames_are_reclaimed_from_the_tail, full_is_asked_at_the_drop,
    slots_are_emptied_in_turn, slots_are_told, the_first_writes_are_completed,
    written_bytes_are_claimed,
};
pub use totals::{numbers_add_up, totals_add_up};
pub use unsound::{
    changed_ledgers_are_unsound, changed_memories_are_unsound, entries_of_one_memory_are_unsound,
};
pub use views::{
    changed_anon_vmas_do_not_stand, changed_cached_views_do_not_stand, changed_views_do_not_stand,
    changed_views_of_merged_frames_do_not_stand, unreached_entries_do_not_stand,
};
