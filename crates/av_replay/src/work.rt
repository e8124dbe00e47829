//! The lines of `work` as a source, and where its transcript goes.
//!
//! A load goes through the loop of `run`, over a source that makes each line when it is read, and
//! a sink that takes all: so what is proved of the loop is said of a load, too.

ghost use Rattle.std.specs.Prelude.{◌≡◌, ◌≤◌, ◌++◌, [], ◌∷◌, false, true, Some, None, length, map};
ghost use Rattle.std.specs.Prelude.{take};
ghost use Rattle.av_trace.specs.Command.{line_of};
ghost use Rattle.av_replay.specs.Replay.{all_lines};
ghost use Rattle.av_replay.specs.Template.{IsDrawn, text_with, left_of, no_draws};
ghost use Rattle.av_words.specs.Words.{most_names};
ghost use Rattle.av_replay.specs.Work.{load_lines, turn_on_commands};

use crate::draws::{Draws, draw_line};
use crate::progress::Progress;
use crate::template::{fill, template_of};
use av_io::{Failed, Sink, SinkErr, Source};

/// The lines that turn on the swap areas, each of as many bytes as the first.
const TURN_ON: &[u8] =
    b"swapon 0\nswapon 1\nswapon 2\nswapon 3\nswapon 4\nswapon 5\nswapon 6\nswapon 7\n";

/// The lines that begin the first process.
const FIRST_PROCESS: &[u8] = b"spawn 1\nmmap 1 65536 rw- fixed 10000000\n";

/// The lines that turn on the first so many swap areas.
fn turn_on_lines(areas: usize) -> &'static [u8]
    requires { areas ≤ most_names }
    ensures { text_with no_draws result.now ≡ all_lines (map line_of (turn_on_commands areas)) }
{
    &TURN_ON[..areas * b"swapon 0\n".len()]
}

/// The lines of a load, each made when it is read. It never fails, and tells what is left.
#[derive(Drop)]
pub struct WorkSource<'p, P> {
    /// What is left of some lines, as their template.
    rest: &'static [u8],
    /// Whether the lines of the first process were made.
    is_begun: bool,
    draws: Draws,
    /// The number that the last draw made, and how many lines are still to be made of it.
    number: u64,
    lines: u32,
    /// Who is told of each line that was drawn. It's no part of what is seen of the source.
    progress: &'p mut P,
    has_told_end: bool,
    reads: u64,
    ghost drawn: { IsDrawn draws },
}

impl<'p, P: Progress> WorkSource<'p, P> {
    /// A load over so many swap areas, of so many lines from a seed on.
    pub fn new(areas: usize, seed: u64, lines: u32, progress: &'p mut P) -> WorkSource<'p, P>
        requires { areas ≤ most_names }
        ensures { ⟦<WorkSource<'p, P> as Source>⟧.view result ≡ record {
          left = Some (all_lines (load_lines areas seed lines));
          has_told_end = false;
          reads = 0;
          failures = 0;
        } }
    {
        WorkSource {
            rest: turn_on_lines(areas),
            is_begun: false,
            draws: Draws {
                kind: 0,
                process: 1,
                page: 0,
                value: 0,
            },
            number: seed,
            lines,
            progress,
            has_told_end: false,
            reads: 0,
        }
    }

    /// Makes the next lines, if there are some and nothing is left of the last.
    fn make_line(&mut self)
        ensures same { left_of self.new.draws self.new.rest.now self.new.is_begun self.new.lines
            self.new.number
            ≡ left_of self.old.draws self.old.rest.now self.old.is_begun self.old.lines
            self.old.number }
        ensures none { self.new.rest.now ≡ []
            → (self.new.is_begun ≡ true) × (self.new.lines ≡ 0) }
        ensures reads { self.new.reads ≡ self.old.reads }
        ensures told { self.new.has_told_end ≡ self.old.has_told_end }
    {
        if !self.rest.is_empty() {
            return;
        }
        if !self.is_begun {
            self.rest = FIRST_PROCESS;
            self.is_begun = true;
        } else if self.lines > 0 {
            let (draws, number) = draw_line(self.number);
            self.rest = template_of(&draws);
            self.draws = draws;
            self.number = number;
            self.lines -= 1;
            self.progress.made(self.lines);
        }
    }
}

/// Puts so many bytes of a template into the front of `into`.
fn fill_front(draws: &Draws, template: &[u8], into: &mut [u8], count: usize)
    requires drawn { IsDrawn draws.now }
    requires there { count ≤ length template.now }
    requires room { count ≤ length into.old }
    ensures front { take count into.new ≡ text_with draws.now (take count template.now) }
    ensures len { length into.new ≡ length into.old }
{
    let mut at = 0;
    while at < count {
        into[at] = fill(draws, template[at]);
        at += 1;
    }
}

impl<'p, P: Progress> Source for WorkSource<'p, P> {
    ghost view = { λ s. record {
      left = Some (left_of s.draws s.rest.now s.is_begun s.lines s.number);
      has_told_end = s.has_told_end;
      reads = s.reads;
      failures = 0;
    } };

    fn read(&mut self, into: &mut [u8]) -> Result<usize, Failed> {
        self.reads = self.reads.saturating_add(1);
        self.make_line();
        let count = into.len().min(self.rest.len());
        fill_front(&self.draws, self.rest, into, count);
        self.rest = &self.rest[count..];
        if !into.is_empty() {
            self.has_told_end = count == 0;
        }
        Ok(count)
    }
}

/// A sink that takes all, keeps nothing of it, and never fails. What it took is not told.
#[derive(Drop)]
pub struct NullSink {
    flushes: u64,
}

impl NullSink {
    /// A sink that was not flushed yet.
    pub fn new() -> NullSink {
        NullSink { flushes: 0 }
    }
}

impl Sink for NullSink {
    ghost view = { λ s. record {
      held = None;
      kept_back = [];
      flushes = s.flushes;
      failures = 0;
      last_failed = false;
    } };

    fn write(&mut self, piece: &[u8]) -> Result<usize, SinkErr> {
        Ok(piece.len())
    }

    fn flush(&mut self) -> Result<(), Failed> {
        self.flushes = self.flushes.saturating_add(1);
        Ok(())
    }
}
