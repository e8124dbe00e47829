//! What the command line's words ask for, and the swap areas that they name. The crate `clap` reads
//! them.
//!
//! Proved: exactly the words of a form are taken (`IsForm`), with what they ask for. Others are a
//! usage error, and there may be want of memory in place of either. No word that is empty or begins
//! with `-` gets to the parser.
#![tactic(auto)]

mod command;
mod words;

pub use words::{Asked, WordsErr, read_words};
