//! What is audited: a trace, and behind the line `%%` a transcript, which is read unit by unit. A
//! unit is a line and all lines behind it that begin with a space.
//!
//! Proved: the trace is read line by line, up to its mark or to the end of the input, and of each
//! line that says a command the text is kept, in order (`read_trace`); from that text the commands
//! are read again, one by one (`first_command`). Each unit is read whole, and is the next one of all
//! that the source has, where it tells that (`read_unit`); so nothing of the transcript is lost. A
//! unit that goes past 2^32 bytes isn't read. No more is read ahead than one read gives, and none
//! where a read fails amid a transcript. Before each read the sink is flushed, behind the end of
//! the input nothing is read, and what failed is what the error tells of.
//!
//! Only tested: that memory suffices.
#![tactic(auto)]

mod input_err;
mod piece;
mod script;
mod trace;
mod unit;

pub use input_err::InputErr;
pub use script::{Script, first_command};
pub use trace::read_trace;
pub use unit::{Extent, read_unit};
