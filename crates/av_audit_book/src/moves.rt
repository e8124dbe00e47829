//! A frame goes to another place.

ghost use Rattle.std.specs.Prelude.{◌≡◌, OnOk};
ghost use Rattle.av_base.specs.Words.{renamed};
ghost use Rattle.av_plain.specs.Event.{with_places};
ghost use Rattle.av_audit_pages.specs.Entries.{cached_of, cached_with_frame_at, with_frame_at};
ghost use Rattle.av_audit_book.specs.Book.{ledger_of};

use crate::book::Book;
use av_audit_pages::{Change, PairChange};
use std::alloc::AllocError;

impl Book {
    /// All that is said of a frame is said of another. Without memory a part may be done.
    pub fn replace(&mut self, from: u32, to: u32) -> Result<(), AllocError>
        ensures { OnOk result (ledger_of self.new
            ≡ with_places (renamed from to) (ledger_of self.old)) }
    {
        self.active.replace(from, to)?;
        self.inactive.replace(from, to)?;
        self.merged.replace(from, to)?;
        self.pages.change_pairs(PairChange::Frame { from, to })?;
        self.pages.change(self.alloc, from, Change::ToFrame(to))
    }
}
