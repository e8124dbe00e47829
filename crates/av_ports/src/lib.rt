//! The outside of a run: a source that is read line by line, a sink to which whole texts are
//! written, and a device, which nothing here uses.
//!
//! Proved: `read_line` finds the next line, to its newline or to the end of the input, or says that
//! it is too long. Where the source tells what it has left, nothing of what was read is lost, and
//! in any case no more is kept than one read gives. Before each read the sink is flushed, once, so
//! that who waits for replies sees them. What failed is what the error tells of, and it failed
//! once. `write_all` writes the whole text, or a part of it and an error; a failure that it tells
//! is the sink's. That memory suffices is only tested.
#![tactic(auto)]

mod line;
mod pending;
mod ports;
mod run_err;
mod write;

pub use line::{Line, read_line, read_on};
pub use pending::Pending;
pub use ports::Ports;
pub use run_err::RunErr;
pub use write::write_all;
