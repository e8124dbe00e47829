//! A page that a read or write has served.

ghost use Rattle.std.specs.Prelude.{◌≡◌, OnOk, true};
ghost use Rattle.av_plain.specs.Event.{after_use, if_some, set_entry, with_stale};
ghost use Rattle.av_plain.specs.Ledger.{InFrame as NamesFrame, slot_of};
ghost use Rattle.av_audit_book.specs.Book.{ledger_of};

use av_audit_book::{Book, Entry};
use std::alloc::AllocError;

/// A page's frame is seen. Without memory a part may be done.
fn see(book: &mut Book, process: u16, page: u64, frame: u32) -> Result<(), AllocError>
    ensures { OnOk result (ledger_of book.new
        ≡ set_entry (process, page) (NamesFrame frame true) (ledger_of book.old)) }
{
    book.set(process, page, Entry::InFrame { frame, seen: true })
}

/// The slot at which a frame is cached is stale. Without memory a part may be done.
fn write(book: &mut Book, frame: u32) -> Result<(), AllocError>
    ensures { OnOk result (ledger_of book.new
        ≡ if_some (slot_of (ledger_of book.old) frame) (with_stale true) (ledger_of book.old)) }
{
    match book.slot_of(frame) {
        None => Ok(()),
        Some(slot) => book.set_stale(true, slot),
    }
}

/// A read or write has served a page: its frame is seen, and a write makes the frame's slot stale.
/// Without memory a part may be done.
pub fn touch(book: &mut Book, writes: bool, process: u16, page: u64) -> Result<(), AllocError>
    ensures { OnOk result (ledger_of book.new
        ≡ after_use writes (process, page) (ledger_of book.old)) }
{
    match book.entry(process, page) {
        None | Some(Entry::Zero) | Some(Entry::InSlot(_)) => Ok(()),
        Some(Entry::InFrame { frame, .. }) => {
            see(book, process, page, frame)?;
            if writes {
                write(book, frame)?;
            }
            Ok(())
        }
    }
}
