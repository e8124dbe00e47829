//! Standard output, which is left alone once it failed.

ghost use Rattle.std.specs.Prelude.{◌≡◌, ◌≢◌, IfErr, true, false, is_err};
ghost use Rattle.std.specs.Io.{WritesAtMost};
ghost use Rattle.std.specs.IoError.{error_kind};
ghost use Rattle.std.specs.Io.KnownBytes.{Keeps, WriteAppends};

use std::io::{self, ErrorKind, Write};

/// A writer of which no call is made after one that failed: what comes later is refused here. For a
/// buffer in front of it tries what it keeps back once more when it is let go. A signal that
/// interrupts a call is no failure.
#[derive(Drop)]
pub struct UntilFailed<W: Write + Drop> {
    writer: W,
    has_failed: bool,
}

impl<W: Write + Drop> UntilFailed<W> {
    /// This writer, of which no call has failed yet.
    pub fn new(writer: W) -> UntilFailed<W>
        ensures { result ≡ record { writer = writer; has_failed = false } }
    {
        UntilFailed {
            writer,
            has_failed: false,
        }
    }
}

/// Whether a call failed with this error.
fn is_failure(error: &io::Error) -> bool
    ensures { error_kind error.now ≢ ErrorKind.Interrupted → result ≡ true }
{
    error.kind() != ErrorKind::Interrupted
}

/// What is answered in place of a call.
fn refusal() -> io::Error {
    io::Error::from(ErrorKind::BrokenPipe)
}

impl<W: Write + Drop> Write for UntilFailed<W> {
    ghost contents = { λ s. W.contents s.writer };

    /// Beside what the trait says: a call that failed is the last one of the writer.
    fn write(&mut self, buf: &[u8]) -> io::Result<usize>
        ensures bound { WritesAtMost result buf.now }
        ensures bytes { WriteAppends (W.contents self.old.writer) (W.contents self.new.writer)
            result buf.now }
        ensures fails { IfErr result
            (λ e. error_kind e ≢ ErrorKind.Interrupted → self.new.has_failed ≡ true) }
        ensures stays { self.old.has_failed ≡ true → self.new ≡ self.old }
        ensures refuses { self.old.has_failed ≡ true → is_err result ≡ true }
    {
        if self.has_failed {
            return Err(refusal());
        }
        let result = self.writer.write(buf);
        if let Err(error) = &result {
            self.has_failed = is_failure(error);
        }
        result
    }

    /// Beside what the trait says: as `write`.
    fn flush(&mut self) -> io::Result<()>
        ensures bytes { Keeps (W.contents self.old.writer) (W.contents self.new.writer) }
        ensures fails { IfErr result
            (λ e. error_kind e ≢ ErrorKind.Interrupted → self.new.has_failed ≡ true) }
        ensures stays { self.old.has_failed ≡ true → self.new ≡ self.old }
        ensures refuses { self.old.has_failed ≡ true → is_err result ≡ true }
    {
        if self.has_failed {
            return Err(refusal());
        }
        let result = self.writer.flush();
        if let Err(error) = &result {
            self.has_failed = is_failure(error);
        }
        result
    }
}
