//! Files that serve as swap areas.

ghost use Rattle.std.specs.Prelude.{◌≡◌, IfOk, OnOk, OnErr};
ghost use Rattle.av_swapdev.specs.File.{FileView, FilesView, Opens, Reads, Stores, StoresPart};
ghost use Rattle.av_swapdev.specs.File.{after_open, after_failure};

use crate::device::AttachErr;
use av_io::Failed;

/// A file that holds the pages of a swap area.
pub trait SwapFile {
    /// What is told of it: what it holds, how many bytes it had when it was opened, and how often
    /// it was called and failed.
    ghost view: { Self → FileView };

    /// How many bytes it had when it was opened.
    fn len(&self) -> u64
        ensures { result ≡ (view self.now).len };

    /// Fills `into` with the bytes from `place` on. After an error it has any bytes.
    fn read_at(&mut self, place: u64, into: &mut [u8]) -> Result<(), Failed>
        ensures ok { OnOk result (Reads (view self.old) (view self.new) place into.new) }
        ensures err { OnErr result (view self.new ≡ after_failure (view self.old)) };

    /// Stores `piece` from `place` on. After an error any bytes may stand in its place.
    fn write_at(&mut self, place: u64, piece: &[u8]) -> Result<(), Failed>
        ensures ok { OnOk result (Stores (view self.old) (view self.new) place piece.now) }
        ensures err { OnErr result (StoresPart (view self.old) (view self.new) place piece.now) };
}

/// Files by their names.
pub trait SwapFiles {
    type File: SwapFile + Drop;

    /// What is told of them: what each name's file holds, and how often one was opened and that
    /// failed.
    ghost view: { Self → FilesView };

    /// Opens a file to read and write it.
    fn open(&mut self, name: &str) -> Result<Self::File, AttachErr>
        ensures file { IfOk result (λ file. Opens (view self.old) name.now
            (Self.File.view file)) }
        ensures counted { view self.new ≡ after_open result (view self.old) };
}
