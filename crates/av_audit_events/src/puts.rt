//! Entries that are put in, one by one.

ghost use Rattle.std.specs.Prelude.{◌≡◌, OnOk};
ghost use Rattle.av_plain.specs.Event.{put_all as put_all_of};
ghost use Rattle.av_audit_pages.specs.Entries.{entries_of};
ghost use Rattle.av_audit_book.specs.Book.{ledger_of};

use crate::keys::Keyed;
use av_audit_book::Book;
use std::alloc::AllocError;

/// Some entries are put in, in turn. Without memory a part may be done.
pub fn put_all(book: &mut Book, entries: &[Keyed]) -> Result<(), AllocError>
    ensures { OnOk result (ledger_of book.new
        ≡ put_all_of (entries_of entries.now) (ledger_of book.old)) }
{
    let mut rest = entries;
    while let [((process, page), entry), others @ ..] = rest {
        book.set(*process, *page, *entry)?;
        rest = others;
    }
    Ok(())
}
