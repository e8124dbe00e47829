//! Sources and sinks, in memory and over readers and writers that fail or are interrupted.

ghost use Rattle.std.specs.Prelude.{◌≤◌, IfOk};

use crate::paths::path_of_test;
use av_io::*;
use std::alloc::AllocError;
use std::fs::{self, File};
use std::io::{self, ErrorKind, Read, Write};
use std::test::Fail;

/// Whether a read of two bytes gives these, or fails where none are told.
fn gives<S: Source>(source: &mut S, wanted: Option<&[u8]>) -> bool {
    let mut into = [0; 2];
    match (source.read(&mut into), wanted) {
        (Ok(count), Some(bytes)) => count == bytes.len() && into.starts_with(bytes),
        (Err(Failed), None) => true,
        _ => false,
    }
}

/// Whether all of these bytes are taken.
fn takes<K: Sink>(sink: &mut K, bytes: &[u8]) -> bool {
    sink.write(bytes) == Ok(bytes.len())
}

#[test]
fn a_source_in_memory(rt: HostRuntime) -> Result<(), AllocError> {
    let alloc = rt.alloc();
    let mut source = MemSource::new(vec![in alloc; 7, 8, 9]?, vec![in alloc; 2, 5]?);
    let rows: [Option<&[u8]>; 5] = [Some(&[7, 8]), None, Some(&[9]), Some(&[]), None];
    for wanted in rows {
        assert!(rt; gives(&mut source, wanted));
    }
    Ok(())
}

#[test]
fn a_sink_in_memory(rt: HostRuntime) -> Result<(), AllocError> {
    let alloc = rt.alloc();
    let mut sink = MemSink::new(alloc, vec![in alloc; 2]?);
    assert!(rt; takes(&mut sink, b"ab") && sink.write(b"cd") == Err(SinkErr::Failed));
    assert!(rt; takes(&mut sink, b"") && takes(&mut sink, b"ef") && sink.flush().is_ok());
    assert!(rt; sink.bytes() == b"abef".as_slice());
    Ok(())
}

/// A reader and writer that fails at its second call, and takes nothing at its third.
#[derive(Drop)]
struct Faulty {
    calls: u8,
}

impl Faulty {
    /// How many of `most` bytes pass.
    fn pass(&mut self, most: usize) -> io::Result<usize>
        ensures { IfOk result (λ n. n ≤ most) }
    {
        self.calls = self.calls.saturating_add(1);
        match self.calls {
            2 => Err(io::Error::from(ErrorKind::TimedOut)),
            3 => Ok(0),
            _ => Ok(most),
        }
    }
}

impl Read for Faulty {
    fn read(&mut self, buf: &mut [u8]) -> io::Result<usize> {
        self.pass(buf.len())
    }
}

impl Write for Faulty {
    fn write(&mut self, buf: &[u8]) -> io::Result<usize> {
        self.pass(buf.len())
    }

    fn flush(&mut self) -> io::Result<()> {
        Ok(())
    }
}

#[test]
fn failures_of_a_reader(rt: HostRuntime) {
    let mut source = ReadSource::new(Faulty { calls: 0 });
    let rows: [Option<&[u8]>; 3] = [Some(&[0, 0]), None, Some(&[])];
    for wanted in rows {
        assert!(rt; gives(&mut source, wanted));
    }
}

/// A reader whose first calls, so many, are interrupted by a signal. The others fill all.
#[derive(Drop)]
struct Interrupted {
    left: u32,
}

impl Read for Interrupted {
    fn read(&mut self, buf: &mut [u8]) -> io::Result<usize> {
        if self.left > 0 {
            self.left -= 1;
            return Err(io::Error::from(ErrorKind::Interrupted));
        }
        Ok(buf.len())
    }
}

#[test]
fn a_read_that_signals_interrupt(rt: HostRuntime) {
    let mut source = ReadSource::new(Interrupted { left: 1000 });
    assert!(rt; gives(&mut source, Some(&[0, 0])));
}

#[test]
fn failures_of_a_writer(rt: HostRuntime) -> Result<(), Fail> {
    let mut sink = WriteSink::new(rt.alloc(), Faulty { calls: 0 })?;
    for works in [true, false, false, true] {
        assert!(rt; takes(&mut sink, b"ab"));
        assert!(rt; sink.flush().is_ok() == works);
    }
    Ok(())
}

#[test]
fn a_file_gets_bytes_at_a_flush(rt: HostRuntime) -> Result<(), Fail> {
    let path = path_of_test(&rt, "av_io")?;
    let mut sink = WriteSink::new(rt.alloc(), File::create(&rt, path.as_path())?)?;
    assert!(rt; takes(&mut sink, b"ab") && fs::read(&rt, path.as_path())?.is_empty());
    assert!(rt; sink.flush().is_ok() && takes(&mut sink, b"cd"));
    assert!(rt; fs::read(&rt, path.as_path())?.as_slice() == b"ab".as_slice());
    fs::remove_file(&rt, path.as_path())?;
    Ok(())
}
