//! Sources of bytes.

ghost use Rattle.std.specs.Prelude.{Bool, false, ◌≡◌, ◌-◌, ◌≤◌, Some, None, length, drop, min};
ghost use Rattle.std.specs.Prelude.{IfOk, IfErr, OnErr, is_err, ◌≢◌};
ghost use Rattle.std.specs.Io.{ReadsAtMost};
ghost use Rattle.std.specs.IoError.{error_kind};
ghost use Rattle.std.specs.Io.KnownBytes.{ReadConsumes};
ghost use Rattle.av_io.specs.Source.{SourceView, Gives, GivesNothing};

use crate::failures::{Failed, Failures};
use std::io::{self, ErrorKind, Read};

/// How often a read is tried that signals interrupt.
const MOST_TRIES: u32 = 1 << 30;

/// A source of bytes.
pub trait Source {
    /// What is told of it: what is left, whether it has told its end, and how often it was read and
    /// failed.
    ghost view: { Self → SourceView };

    /// Puts the next bytes into the front of `into`, and says how many. 0 is the end of the input,
    /// where `into` has room.
    fn read(&mut self, into: &mut [u8]) -> Result<usize, Failed>
        ensures ok { IfOk result (λ n. Gives (view self.old) (view self.new) n into.new) }
        ensures err { OnErr result (GivesNothing (view self.old) (view self.new)) };
}

/// A source of bytes in memory, which tells what is left.
#[derive(Drop)]
pub struct MemSource {
    bytes: Vec<u8>,
    at: usize,
    has_told_end: bool,
    failures: Failures,
    ghost within: { at ≤ length bytes.items },
}

impl MemSource {
    ghost use Rattle.av_io.specs.Failures.{IsFresh};

    /// A source of these bytes, which fails at the calls of these numbers, from 1.
    pub fn new(bytes: Vec<u8>, failing: Vec<u64>) -> MemSource
        ensures view { ⟦<MemSource as Source>⟧.view result ≡ record {
          left = Some bytes.items;
          has_told_end = false;
          reads = 0;
          failures = 0;
        } }
        ensures calls { IsFresh result.failures failing }
    {
        MemSource {
            bytes,
            at: 0,
            has_told_end: false,
            failures: Failures::new(failing),
        }
    }
}

impl Source for MemSource {
    ghost use Rattle.av_io.specs.Failures.{IsNextCall};

    ghost view = { λ s. record {
      left = Some (drop s.at s.bytes.items);
      has_told_end = s.has_told_end;
      reads = s.failures.calls;
      failures = s.failures.count;
    } };

    /// Beside what the trait says: exactly the calls that are listed fail, and any other gives as
    /// much as there is room for.
    fn read(&mut self, into: &mut [u8]) -> Result<usize, Failed>
        ensures ok { IfOk result (λ n. Gives (⟦<MemSource as Source>⟧.view self.old)
            (⟦<MemSource as Source>⟧.view self.new) n into.new) }
        ensures err { OnErr result (GivesNothing (⟦<MemSource as Source>⟧.view self.old)
            (⟦<MemSource as Source>⟧.view self.new)) }
        ensures calls { IsNextCall self.old.failures self.new.failures (is_err result) }
        ensures most { IfOk result (λ n. n ≡ min (length into.old)
            (length self.old.bytes.items - self.old.at)) }
    {
        if self.failures.next_fails() {
            return Err(Failed);
        }
        let count = into.len().min(self.bytes.len() - self.at);
        into[..count].copy_from_slice(&self.bytes[self.at..self.at + count]);
        self.at += count;
        if !into.is_empty() {
            self.has_told_end = count == 0;
        }
        Ok(count)
    }
}

/// One read, which is tried again where a signal interrupts it. Each function ends, and so does
/// this, by an error, where signals don't.
fn read_again<R: Read>(reader: &mut R, into: &mut [u8]) -> io::Result<usize>
    ensures bound { ReadsAtMost result into.new }
    ensures bytes { ReadConsumes (R.remaining reader.old) (R.remaining reader.new) result into.new }
    ensures again { IfErr result (λ e. error_kind e ≢ ErrorKind.Interrupted) }
{
    for turn in 0..MOST_TRIES {
        match reader.read(into) {
            Ok(given) => return Ok(given),
            Err(error) => {
                if error.kind() != ErrorKind::Interrupted {
                    return Err(error);
                }
            }
        }
    }
    Err(io::Error::from(ErrorKind::TimedOut))
}

/// A source over a reader, each of whose reads is one of the reader, but for those that a signal
/// interrupts. What is left of it is not told.
#[derive(Drop)]
pub struct ReadSource<R: Read + Drop> {
    reader: R,
    has_told_end: bool,
    reads: u64,
    failures: u64,
}

impl<R: Read + Drop> ReadSource<R> {
    /// A source over this reader, which was not read yet.
    pub fn new(reader: R) -> ReadSource<R>
        ensures view { ⟦<ReadSource<R> as Source>⟧.view result ≡ record {
          left = None;
          has_told_end = false;
          reads = 0;
          failures = 0;
        } }
        ensures reader { result.reader ≡ reader }
    {
        ReadSource {
            reader,
            has_told_end: false,
            reads: 0,
            failures: 0,
        }
    }
}

impl<R: Read + Drop> Source for ReadSource<R> {
    ghost view = { λ s. record {
      left = None;
      has_told_end = s.has_told_end;
      reads = s.reads;
      failures = s.failures;
    } };

    /// Beside what the trait says: what is given are the next bytes of the reader, where those are
    /// known, and it loses no others.
    fn read(&mut self, into: &mut [u8]) -> Result<usize, Failed>
        ensures ok { IfOk result (λ n. Gives (⟦<ReadSource<R> as Source>⟧.view self.old)
            (⟦<ReadSource<R> as Source>⟧.view self.new) n into.new) }
        ensures err { OnErr result (GivesNothing (⟦<ReadSource<R> as Source>⟧.view self.old)
            (⟦<ReadSource<R> as Source>⟧.view self.new)) }
        ensures bytes { ReadConsumes (R.remaining self.old.reader) (R.remaining self.new.reader)
            result into.new }
    {
        self.reads = self.reads.saturating_add(1);
        let Ok(given) = read_again(&mut self.reader, into) else {
            self.failures = self.failures.saturating_add(1);
            return Err(Failed);
        };
        if !into.is_empty() {
            self.has_told_end = given == 0;
        }
        Ok(given)
    }
}
