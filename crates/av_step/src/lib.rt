//! What one command promises, whatever it does, and why one is not done.
//!
//! A command promises one of two words: `Does` where it is handed the device, and `DoesBeside`
//! where it isn't. Each says that a reply, or a refusal with an error, is a step of the
//! definitions. Of want of memory `Does` says that it is the same device, and both that there are
//! as many frames. Laws that the commands of several topics use stand in `proofs`: of steps and
//! refusals (`StepLaws`), of loads (`Loads`), and of what stays cached (`CacheLeft`).
//!
//! Proved: a process that doesn't live is refused, and no other (`check_lives`); an answer is given
//! to a reply, and nothing else of it changes (`answer_with`). No command is done here.
#![tactic(auto)]

mod answer;
mod refusal;

pub use answer::answer_with;
pub use refusal::{Refusal, check_lives};
