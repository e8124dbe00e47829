//! Files of the host. What they hold is not told.

ghost use Rattle.std.specs.Prelude.{◌≡◌, None, IfOk, OnOk, OnErr};

use crate::device::AttachErr;
use crate::file::{SwapFile, SwapFiles};
use av_io::Failed;
use std::fs::{File, OpenOptions};
use std::io::{self, ErrorKind, Seek, SeekFrom};
use std::os::unix::fs::FileExt;
use std::rt::Files;

/// A file of the host, each of whose calls is one of the file.
#[derive(Drop)]
pub struct HostFile {
    file: File,
    len: u64,
    calls: u64,
    failures: u64,
}

impl SwapFile for HostFile {
    ghost view = { λ f. record {
      bytes = None;
      len = f.len;
      calls = f.calls;
      failures = f.failures;
    } };

    fn len(&self) -> u64 {
        self.len
    }

    fn read_at(&mut self, place: u64, into: &mut [u8]) -> Result<(), Failed> {
        self.calls = self.calls.saturating_add(1);
        if self.file.read_exact_at(into, place).is_err() {
            self.failures = self.failures.saturating_add(1);
            return Err(Failed);
        }
        Ok(())
    }

    fn write_at(&mut self, place: u64, piece: &[u8]) -> Result<(), Failed> {
        self.calls = self.calls.saturating_add(1);
        if self.file.write_all_at(piece, place).is_err() {
            self.failures = self.failures.saturating_add(1);
            return Err(Failed);
        }
        Ok(())
    }
}

/// The files of the host.
#[derive(Drop)]
pub struct HostFiles<R: Files<File = File> + Drop> {
    files: R,
    calls: u64,
    failures: u64,
    shortages: u64,
}

impl<R: Files<File = File> + Drop> HostFiles<R> {
    /// The files of this host, of which none was opened yet.
    pub fn new(files: R) -> HostFiles<R>
        ensures { ⟦<HostFiles<R> as SwapFiles>⟧.view result ≡ record {
          named = None;
          calls = 0;
          failures = 0;
          shortages = 0;
        } }
    {
        HostFiles {
            files,
            calls: 0,
            failures: 0,
            shortages: 0,
        }
    }
}

/// Opens a file to read and write it, and measures it.
///
/// A standard stream that is closed leaves its number to the next file that is opened, which would
/// be read as the trace then, or have the transcript behind its end. A clone has none of these
/// numbers.
fn open<R: Files<File = File>>(files: &R, name: &str) -> io::Result<HostFile>
    ensures { IfOk result (λ f. (f.calls ≡ 0) × (f.failures ≡ 0)) }
{
    let opened = OpenOptions::new().read(true).write(true).open(files, name)?;
    let mut file = opened.try_clone()?;
    let len = file.seek(SeekFrom::End(0))?;
    Ok(HostFile {
        file,
        len,
        calls: 0,
        failures: 0,
    })
}

impl<R: Files<File = File> + Drop> SwapFiles for HostFiles<R> {
    type File = HostFile;

    ghost view = { λ h. record {
      named = None;
      calls = h.calls;
      failures = h.failures;
      shortages = h.shortages;
    } };

    fn open(&mut self, name: &str) -> Result<HostFile, AttachErr> {
        self.calls = self.calls.saturating_add(1);
        match open(&self.files, name) {
            Ok(file) => Ok(file),
            Err(error) if error.kind() == ErrorKind::OutOfMemory => {
                self.shortages = self.shortages.saturating_add(1);
                Err(AttachErr::Memory)
            }
            Err(_) => {
                self.failures = self.failures.saturating_add(1);
                Err(AttachErr::Failed)
            }
        }
    }
}
