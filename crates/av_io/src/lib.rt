//! Input and output: sources and sinks of bytes, in memory and over any reader and writer.
//!
//! Proved, by the traits `Source` and `Sink`: what a call takes, gives and counts, and whether a
//! sink's last call failed. For those in memory it is exact which calls fail. Over a writer memory
//! is never wanting.
//!
//! Over a reader or a writer whose bytes are known, what passes is exact. A source gives the next
//! ones and loses none. What a sink took is what the writer holds then, and behind that what is
//! kept back for it. After a flush that succeeds nothing is kept back. Of a real one no bytes are
//! known: that they pass is only tested.
//!
//! Not proved: that a call fails only where the reader or the writer does, and how often that is
//! asked. The clauses of std's readers and writers don't tell when they fail. So a body that fails
//! without asking, or tries again where nothing was taken, meets the clauses.
#![tactic(auto)]

mod failures;
mod sink;
mod source;

pub use failures::{Failed, Failures};
pub use sink::{MemSink, Sink, SinkErr, WriteSink};
pub use source::{MemSource, ReadSource, Source};
