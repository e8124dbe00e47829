//! A trace: what its lines command, and the text of each reply.
//!
//! Proved: what is read of a line is the command that `specs/Command.antt` has for it, or none
//! (`read_command`); that a line has this command exactly where it is one of the grammar is
//! `av_line`'s to say. The text of every reply, exactly (`reply_text`), of its answer
//! (`answer_line`) and of each note (`note_text`); two replies with one text are equal, whatever
//! the commands (`one_reply`). Without memory `read_command` fails only at a line that begins with
//! `write`, and what adds a text may have added a part of it.
//!
//! Only tested: nothing. Which reply a command has is no matter of this crate.
#![tactic(auto)]

mod advice;
mod command;
mod mode;
mod note;
mod place;
mod print;
mod priority;
mod reply;
mod row;

pub use advice::Advice;
pub use command::{Command, read_command};
pub use mode::Mode;
pub use note::{Cause, Note, Notes};
pub use place::Place;
pub use print::{note_text, one_reply, reply_text};
pub use reply::{Answer, Errno, OutOf, Reply, Totals, answer_line};
pub use row::{Chain, Row, Rows};
