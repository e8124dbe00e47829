//! Replays a trace from a source and writes its transcript to a sink; or does a load that is made
//! from a number, and writes a summary of it; or judges a transcript that somebody else wrote.
//!
//! Proved: `run` says for each status what was read, done and written, and why and exactly where a
//! run ends early. There was one flush of the sink for each read of the source, and it is said how
//! many more; nothing is kept back where a read failed; and it is said what failed and how often.
//! The swap areas that the words name are attached before all else, as the areas from 0 on, once
//! each and in their order, up to the first that can't be; where memory is wanting for one, nothing
//! else is done. From then on the device is asked to write what the notes tell and nothing else,
//! unless memory was wanting for a line that hands it to its command, and no page 0 in any case.
//! Only as many failures show as the device had then. The kernel handed back stands, with the
//! device as it is in the end, for what the transcript leaves. Of a run that is done over a source
//! and a sink that tell what they have, the sink gained the text of a legal run of the trace's
//! lines, and nothing else (`done_runs_write_their_transcript`). A run that ends at a bad line, at
//! too many lines or where a read fails wrote that of the lines before, and one whose write fails
//! wrote it up to a place in its last reply (`bad_lines_end_runs`, `lines_are_done_up_to_the_most`,
//! `replies_are_out_before_a_read`, `failed_writes_cut_the_last_reply`). Of a load: its lines are
//! those of the seed, their transcript is legal, the summary counts it and the kernel handed back,
//! and nothing is read. Of an audit: that the transcript is legal, or which reply is the first that
//! isn't, is so by the definitions (`DoesAudit`), and no kernel is handed back; behind a good trace
//! it says one of these, unless memory is wanting, source or sink fails, or the transcript is too
//! long (`good_traces_are_judged`).
//! That memory suffices is only tested.
#![tactic(auto)]

mod attach;
mod audit_over;
mod draws;
mod kernel_ports;
mod laws;
mod outcome;
mod over;
mod progress;
mod replay;
mod status;
mod summary;
mod template;
mod top_call;
mod turn;
mod work;
mod work_over;

pub use attach::attach_all;
pub use laws::{
    bad_lines_end_runs, done_runs_write_their_transcript, failed_writes_cut_the_last_reply,
    good_traces_are_done, good_traces_are_judged, lines_are_done_up_to_the_most,
    replies_are_out_before_a_read,
};
pub use outcome::Outcome;
pub use progress::{NoProgress, Progress};
pub use status::Status;
pub use top_call::run;
