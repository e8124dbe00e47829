//! Entries that go over to a child.

ghost use Rattle.std.specs.Prelude.{◌≡◌, ℕ, Bool, IfOk, OnOk, option_map};
ghost use Rattle.av_plain.specs.Event.{after_fork, without_seen};
ghost use Rattle.av_plain.specs.Fork.{inheritance};
ghost use Rattle.av_plain.specs.World.{Process};
ghost use Rattle.av_audit_pages.specs.Entries.{entries_of as entries_say, entry_of};
ghost use Rattle.av_audit_book.specs.Book.{ledger_of};
ghost use Rattle.av_audit_events.specs.Child.{IsBehind, child_entries, pages_that};

use crate::keys::{Keyed, entries_of};
use crate::puts::put_all;
use av_audit_book::{Book, Entry};
use std::alloc::{AllocError, Global};

/// An entry with its seen bit cleared.
fn not_seen(entry: Entry) -> Entry
    ensures { entry_of result ≡ without_seen (entry_of entry) }
{
    match entry {
        Entry::Zero => Entry::Zero,
        Entry::InFrame { frame, .. } => Entry::InFrame { frame, seen: false },
        Entry::InSlot(slot) => Entry::InSlot(slot),
    }
}

/// What stands behind a page, where it is the first.
fn behind(page: u64, pages: &[u64]) -> Option<&[u64]>
    ensures { IsBehind page pages.now (option_map (λ more. more.now) result) }
{
    match pages {
        [first, more @ ..] if *first == page => Some(more),
        _ => None,
    }
}

/// What a child gets of some entries, where these are the pages that go over, in their order.
fn for_child(
    alloc: Global,
    entries: &[Keyed],
    child: u16,
    pages: &[u64],
) -> Result<Vec<Keyed>, AllocError>
    ensures { IfOk result (λ made. (goes : ℕ → Bool)
        → pages.now ≡ pages_that goes (entries_say entries.now)
        → entries_say made.items ≡ child_entries child goes (entries_say entries.now)) }
{
    let mut made = Vec::new(alloc);
    let mut rest = entries;
    let mut due = pages;
    while let [first, others @ ..] = rest {
        let page = first.0.1;
        if let Some(more) = behind(page, due) {
            made.push(((child, page), not_seen(first.1)))?;
            due = more;
        }
        rest = others;
    }
    Ok(made)
}

/// A child gets its parent's entries of these pages, unseen, where they are those that it inherits.
/// Without memory a part may be done.
pub fn fork(
    book: &mut Book,
    alloc: Global,
    parent: u16,
    child: u16,
    pages: &[u64],
) -> Result<(), AllocError>
    ensures { OnOk result ((q : Process) → pages.now ≡ inheritance q (ledger_of book.old) parent
        → ledger_of book.new ≡ after_fork parent child pages.now (ledger_of book.old)) }
{
    let entries = entries_of(book, alloc, parent)?;
    let copies = for_child(alloc, entries.as_slice(), child, pages)?;
    put_all(book, copies.as_slice())
}
