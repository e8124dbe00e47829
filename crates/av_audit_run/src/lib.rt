//! An audit: a trace and a transcript are read, and it is said whether the transcript is legal.
//!
//! Proved: the trace is read up to the line `%%`, and then the transcript unit by unit, each whole
//! before it is judged. The transcript is found legal where there are as many units as commands and
//! each is legal in its turn; else the first that isn't is named, which may be wanting, or come
//! behind the last command (`audit`). Where the source tells what it has left that is so of all
//! units of the transcript (`audits_of_inputs`). One that is legal has no first reply that isn't
//! (`legal_or_stopped`), and another has that at one number alone (`stopped_once`). Where an audit
//! breaks off behind the trace, the units before are legal; the next was taken in part or whole,
//! and not judged; where source or sink failed nothing was read behind that. So it passed over no
//! unit that isn't legal (`breaks_come_before_what_is_wrong`). Of a transcript no more is read than
//! 2^32 bytes and what one more read gives. Nothing is written, and nothing fails but what the
//! error tells of.
//!
//! Only tested: that memory suffices.
#![tactic(auto)]

mod laws;
mod transcript;

pub use laws::{
    audits_of_inputs, breaks_come_before_what_is_wrong, legal_or_stopped, stopped_once,
};
pub use transcript::{Finding, audit};
