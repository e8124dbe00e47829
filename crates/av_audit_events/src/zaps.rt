//! Entries that go, and the slots that they leave as orphans.

ghost use Rattle.std.specs.Prelude.{◌≡◌, ◌++◌, ◌+◌, ◌<◌, ◌^◌, OnOk, Some, option_map};
ghost use Rattle.av_plain.specs.Event.{after_all, after_zap, notes_of};
ghost use Rattle.av_plain.specs.Ledger.{entry as entry_in};
ghost use Rattle.av_plain.specs.Zap.{keys_in as keys_in_of, keys_of_process, orphan_drop};
ghost use Rattle.av_plain.specs.Zap.{slot_behind_key, zap_of, zaps_of};
ghost use Rattle.av_audit_pages.specs.Entries.{entry_of};
ghost use Rattle.av_audit_book.specs.Book.{ledger_of};

use crate::keys::{keys_in, keys_of};
use av_audit_book::{Book, Entry};
use av_base::Slot;
use av_trace::{Note, Notes};
use std::alloc::{AllocError, Global};

/// The slot that an entry names, or at which its frame is cached, if there is an entry.
pub fn slot_behind(book: &Book, entry: Option<Entry>) -> Option<Slot>
    ensures { result ≡ slot_behind_key (ledger_of book.now) (option_map entry_of entry) }
{
    match entry {
        None | Some(Entry::Zero) => None,
        Some(Entry::InFrame { frame, .. }) => book.slot_of(frame),
        Some(Entry::InSlot(slot)) => Some(slot),
    }
}

/// The entry of a page goes. Answers the slot that it named, or at which its frame is cached.
pub fn zap(book: &mut Book, process: u16, page: u64) -> Option<Slot>
    ensures ledger { ledger_of book.new ≡ after_zap (process, page) (ledger_of book.old) }
    ensures behind { result ≡ slot_behind_key (ledger_of book.old)
        (entry_in (ledger_of book.old) (process, page)) }
{
    let entry = book.remove(process, page);
    let slot = slot_behind(book, entry);
    book.settle_entry(entry);
    slot
}

/// A slot that is an orphan is dropped, and the note of that added. Without memory a part may be
/// done.
fn drop_orphan(book: &mut Book, slot: Slot, notes: &mut Notes) -> Result<(), AllocError>
    ensures ledger { OnOk result (ledger_of book.new
        ≡ after_all (ledger_of book.old) (orphan_drop (ledger_of book.old) (Some slot))) }
    ensures notes { OnOk result (notes.new
        ≡ notes.old ++ notes_of (orphan_drop (ledger_of book.old) (Some slot))) }
{
    if book.is_orphan(slot) {
        let note = Note::Dropped(slot);
        notes.push(note)?;
        book.follow(note)?;
    }
    Ok(())
}

/// The same, where there may be a slot.
fn drop_behind(book: &mut Book, slot: Option<Slot>, notes: &mut Notes) -> Result<(), AllocError>
    ensures ledger { OnOk result (ledger_of book.new
        ≡ after_all (ledger_of book.old) (orphan_drop (ledger_of book.old) slot)) }
    ensures notes { OnOk result (notes.new
        ≡ notes.old ++ notes_of (orphan_drop (ledger_of book.old) slot)) }
{
    match slot {
        None => Ok(()),
        Some(slot) => drop_orphan(book, slot, notes),
    }
}

/// The entry of a page goes, and the slot that it leaves as an orphan is dropped; the note of that
/// is added. Without memory a part may be done.
fn zap_one(book: &mut Book, process: u16, page: u64, notes: &mut Notes) -> Result<(), AllocError>
    ensures ledger { OnOk result (ledger_of book.new
        ≡ after_all (ledger_of book.old) (zap_of (ledger_of book.old) (process, page))) }
    ensures notes { OnOk result (notes.new
        ≡ notes.old ++ notes_of (zap_of (ledger_of book.old) (process, page))) }
{
    let slot = zap(book, process, page);
    drop_behind(book, slot, notes)
}

/// The entries of some pages go, in turn; the notes of slots that are dropped are added. Without
/// memory a part may be done.
pub fn zap_all(book: &mut Book, keys: &[(u16, u64)], notes: &mut Notes) -> Result<(), AllocError>
    ensures ledger { OnOk result (ledger_of book.new
        ≡ after_all (ledger_of book.old) (zaps_of (ledger_of book.old) keys.now)) }
    ensures notes { OnOk result (notes.new
        ≡ notes.old ++ notes_of (zaps_of (ledger_of book.old) keys.now)) }
{
    let mut rest = keys;
    while let [first, others @ ..] = rest {
        zap_one(book, first.0, first.1, notes)?;
        rest = others;
    }
    Ok(())
}

/// All entries of a process go, by rising page; the notes of slots that are dropped are added.
/// Without memory a part may be done.
pub fn zap_process(
    book: &mut Book,
    alloc: Global,
    process: u16,
    notes: &mut Notes,
) -> Result<(), AllocError>
    ensures ledger { OnOk result (ledger_of book.new ≡ after_all (ledger_of book.old)
        (zaps_of (ledger_of book.old) (keys_of_process (ledger_of book.old) process))) }
    ensures notes { OnOk result (notes.new ≡ notes.old ++ notes_of
        (zaps_of (ledger_of book.old) (keys_of_process (ledger_of book.old) process))) }
{
    let keys = keys_of(book, alloc, process)?;
    zap_all(book, keys.as_slice(), notes)
}

/// The entries of a process's n pages from one on go, by rising page; the notes of slots that are
/// dropped are added. Without memory a part may be done.
pub fn zap_range(
    book: &mut Book,
    alloc: Global,
    process: u16,
    from: u64,
    n: u64,
    notes: &mut Notes,
) -> Result<(), AllocError>
    requires { from + n < 2 ^ 64 }
    ensures ledger { OnOk result (ledger_of book.new ≡ after_all (ledger_of book.old)
        (zaps_of (ledger_of book.old) (keys_in_of (ledger_of book.old) process from n))) }
    ensures notes { OnOk result (notes.new ≡ notes.old ++ notes_of
        (zaps_of (ledger_of book.old) (keys_in_of (ledger_of book.old) process from n))) }
{
    let keys = keys_in(book, alloc, process, from, n)?;
    zap_all(book, keys.as_slice(), notes)
}
