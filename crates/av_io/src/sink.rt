//! Sinks for bytes.

ghost use Rattle.std.specs.Prelude.{◌≡◌, ◌+◌, ◌<◌, [], Some, None, false, length, vec_len};
ghost use Rattle.std.specs.Prelude.{vec_capacity, IfOk, IfErr, OnOk, OnErr};
ghost use Rattle.std.specs.Io.Buffered.{writer_buffer, writer_contents, writer_inner};
ghost use Rattle.std.specs.Io.KnownBytes.{Keeps, WriteAppends};
ghost use Rattle.std.specs.IoError.{error_kind};
ghost use Rattle.av_io.specs.Failures.{IsFresh, IsNextCall};
ghost use Rattle.av_io.specs.Sink.{SinkView, Takes, TakesNothing, HandsOn, KeepsBack, is_failure};

use crate::failures::{Failed, Failures};
use std::alloc::Global;
use std::io::{self, BufWriter, ErrorKind, Write};

/// How many bytes a sink over a writer keeps back at most.
const ROOM: usize = 1 << 16;

/// Why a sink took nothing.
#[derive(Clone, Copy, Drop, Debug, PartialEq, Eq)]
pub enum SinkErr {
    Failed,
    Memory,
}

/// A sink for bytes, which may keep some back until it is flushed.
pub trait Sink {
    /// What is told of it: what it holds and keeps back, and how often it was flushed and failed.
    ghost view: { Self → SinkView };

    /// Adds a front of `piece`, at least a byte where there is one, and says how long it is.
    fn write(&mut self, piece: &[u8]) -> Result<usize, SinkErr>
        ensures ok { IfOk result (λ n. Takes (view self.old) (view self.new) n piece.now) }
        ensures err { IfErr result (λ e. TakesNothing (view self.old) (view self.new) e) };

    /// Hands on what was kept back.
    fn flush(&mut self) -> Result<(), Failed>
        ensures ok { OnOk result (HandsOn (view self.old) (view self.new)) }
        ensures err { OnErr result (KeepsBack (view self.old) (view self.new)) };
}

/// A sink in memory, which tells what it holds.
#[derive(Drop)]
pub struct MemSink {
    bytes: Vec<u8>,
    flushes: u64,
    failures: Failures,
    last_failed: bool,
}

impl MemSink {
    /// An empty sink, whose writes of these numbers fail, from 1.
    pub fn new(alloc: Global, failing: Vec<u64>) -> MemSink
        ensures view { ⟦<MemSink as Sink>⟧.view result ≡ record {
          held = Some [];
          kept_back = [];
          flushes = 0;
          failures = 0;
          last_failed = false;
        } }
        ensures calls { IsFresh result.failures failing }
    {
        MemSink {
            bytes: Vec::new(alloc),
            flushes: 0,
            failures: Failures::new(failing),
            last_failed: false,
        }
    }

    /// What was written.
    pub fn bytes(&self) -> &[u8]
        ensures { Some result.now ≡ (⟦<MemSink as Sink>⟧.view self.now).held }
    {
        self.bytes.as_slice()
    }
}

impl Sink for MemSink {
    ghost view = { λ s. record {
      held = Some s.bytes.items;
      kept_back = [];
      flushes = s.flushes;
      failures = s.failures.count;
      last_failed = s.last_failed;
    } };

    /// Beside what the trait says: exactly the calls that are listed fail, and any other takes the
    /// whole piece, or is want of memory, where there is no room for it.
    fn write(&mut self, piece: &[u8]) -> Result<usize, SinkErr>
        ensures ok { IfOk result (λ n. Takes (⟦<MemSink as Sink>⟧.view self.old)
            (⟦<MemSink as Sink>⟧.view self.new) n piece.now) }
        ensures err { IfErr result (λ e. TakesNothing (⟦<MemSink as Sink>⟧.view self.old)
            (⟦<MemSink as Sink>⟧.view self.new) e) }
        ensures calls { IsNextCall self.old.failures self.new.failures (is_failure result) }
        ensures whole { IfOk result (λ n. n ≡ length piece.now) }
        ensures memory { IfErr result (λ e. e ≡ SinkErr.Memory
            → vec_capacity self.old.bytes < vec_len self.old.bytes + length piece.now) }
    {
        self.last_failed = self.failures.next_fails();
        if self.last_failed {
            return Err(SinkErr::Failed);
        }
        if self.bytes.extend_from_slice(piece).is_err() {
            return Err(SinkErr::Memory);
        }
        Ok(piece.len())
    }

    /// Beside what the trait says: a flush is none of the calls that may fail.
    fn flush(&mut self) -> Result<(), Failed>
        ensures ok { OnOk result (HandsOn (⟦<MemSink as Sink>⟧.view self.old)
            (⟦<MemSink as Sink>⟧.view self.new)) }
        ensures err { OnErr result (KeepsBack (⟦<MemSink as Sink>⟧.view self.old)
            (⟦<MemSink as Sink>⟧.view self.new)) }
        ensures calls { self.new.failures ≡ self.old.failures }
    {
        self.flushes = self.flushes.saturating_add(1);
        self.last_failed = false;
        Ok(())
    }
}

/// A sink over a writer. It keeps bytes back until there are many, or until it is flushed. What it
/// holds is not told.
#[derive(Drop)]
pub struct WriteSink<W: Write + Drop> {
    writer: BufWriter<W>,
    flushes: u64,
    failures: u64,
    last_failed: bool,
}

impl<W: Write + Drop> WriteSink<W> {
    /// A sink over this writer, which keeps nothing back yet. The error is want of memory.
    pub fn new(alloc: Global, writer: W) -> io::Result<WriteSink<W>>
        ensures ok { IfOk result (λ s. ⟦<WriteSink<W> as Sink>⟧.view s ≡ record {
          held = None;
          kept_back = [];
          flushes = 0;
          failures = 0;
          last_failed = false;
        }) }
        ensures writer { IfOk result (λ s. writer_inner s.writer ≡ writer) }
        ensures err { IfErr result (λ e. error_kind e ≡ ErrorKind.OutOfMemory) }
    {
        Ok(WriteSink {
            writer: BufWriter::with_capacity(alloc, ROOM, writer)?,
            flushes: 0,
            failures: 0,
            last_failed: false,
        })
    }
}

impl<W: Write + Drop> Sink for WriteSink<W> {
    ghost view = { λ s. record {
      held = None;
      kept_back = writer_buffer s.writer;
      flushes = s.flushes;
      failures = s.failures;
      last_failed = s.last_failed;
    } };

    /// Beside what the trait says: what the writer holds and what is kept back for it gain what is
    /// taken, where they are known, and nothing else; and memory is never wanting.
    fn write(&mut self, piece: &[u8]) -> Result<usize, SinkErr>
        ensures ok { IfOk result (λ n. Takes (⟦<WriteSink<W> as Sink>⟧.view self.old)
            (⟦<WriteSink<W> as Sink>⟧.view self.new) n piece.now) }
        ensures err { IfErr result (λ e. TakesNothing (⟦<WriteSink<W> as Sink>⟧.view self.old)
            (⟦<WriteSink<W> as Sink>⟧.view self.new) e) }
        ensures bytes { WriteAppends (writer_contents W.contents self.old.writer)
            (writer_contents W.contents self.new.writer) result piece.now }
        ensures cause { IfErr result (λ e. e ≡ SinkErr.Failed) }
    {
        match self.writer.write(piece) {
            Ok(count) if count > 0 || piece.is_empty() => {
                self.last_failed = false;
                Ok(count)
            }
            _ => {
                self.last_failed = true;
                self.failures = self.failures.saturating_add(1);
                Err(SinkErr::Failed)
            }
        }
    }

    /// Beside what the trait says: nothing is lost or added on the way to the writer.
    fn flush(&mut self) -> Result<(), Failed>
        ensures ok { OnOk result (HandsOn (⟦<WriteSink<W> as Sink>⟧.view self.old)
            (⟦<WriteSink<W> as Sink>⟧.view self.new)) }
        ensures err { OnErr result (KeepsBack (⟦<WriteSink<W> as Sink>⟧.view self.old)
            (⟦<WriteSink<W> as Sink>⟧.view self.new)) }
        ensures bytes { Keeps (writer_contents W.contents self.old.writer)
            (writer_contents W.contents self.new.writer) }
    {
        self.last_failed = self.writer.flush().is_err();
        if self.last_failed {
            self.failures = self.failures.saturating_add(1);
            return Err(Failed);
        }
        self.flushes = self.flushes.saturating_add(1);
        Ok(())
    }
}
