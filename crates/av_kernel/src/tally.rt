//! How often each kind of reply came.

ghost use Rattle.std.specs.Prelude.{◌≡◌, ◌^◌, ◌<◌};
ghost use Rattle.av_base.specs.Limits.{most_commands};
ghost use Rattle.av_trace.specs.Reply.{answer_line};
ghost use Rattle.av_kernel.specs.Tally.{IsAtMost, by_word, first_word, none_counted};
ghost use Rattle.av_kernel.specs.Tally.{tally_with, with_word};

use av_trace::Answer;

/// How often each first word of a reply came, by the word: `ok`, `map`, `data`, `on`, `err`,
/// `segv`, `bus`, `oom`.
#[derive(Clone, Copy, Drop, Debug, PartialEq, Eq)]
pub struct Tally {
    pub done: u32,
    pub mapped: u32,
    pub shown: u32,
    pub on: u32,
    pub refused: u32,
    pub segv: u32,
    pub bus: u32,
    pub oom: u32,
}

impl Tally {
    /// No reply.
    pub fn new() -> Tally
        ensures { result ≡ none_counted }
    {
        Tally {
            done: 0,
            mapped: 0,
            shown: 0,
            on: 0,
            refused: 0,
            segv: 0,
            bus: 0,
            oom: 0,
        }
    }

    /// One more reply with this answer, by the first word of its line. A report is not counted.
    pub fn count(&mut self, answer: &Answer)
        requires { IsAtMost most_commands self.old }
        ensures kind { self.new ≡ tally_with answer.now self.old }
        ensures word { by_word self.new
            ≡ with_word (first_word (answer_line answer.now)) (by_word self.old) }
    {
        match answer {
            Answer::Done => self.done += 1,
            Answer::MapAt(_) => self.mapped += 1,
            Answer::Data(_) => self.shown += 1,
            Answer::On { .. } => self.on += 1,
            Answer::Refused(_) | Answer::NoFrame(_) => self.refused += 1,
            Answer::Segv { .. } => self.segv += 1,
            Answer::Bus { .. } => self.bus += 1,
            Answer::Oom { .. } => self.oom += 1,
            _ => {}
        }
    }
}
