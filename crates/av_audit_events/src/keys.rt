//! The entries of a process, and of some of its pages.

ghost use Rattle.std.specs.Prelude.{◌≡◌, ◌+◌, ◌<◌, ◌^◌, ◌==◌, ◌&&◌, IfOk, filter, map};
ghost use Rattle.av_base.specs.Words.{within};
ghost use Rattle.av_plain.specs.Event.{entries_where};
ghost use Rattle.av_plain.specs.Zap.{keys_in as keys_in_of, keys_of_process};
ghost use Rattle.av_audit_pages.specs.Entries.{entries_of as entries_say};
ghost use Rattle.av_audit_book.specs.Book.{ledger_of};

use av_audit_book::{Book, Entry};
use std::alloc::{AllocError, Global};
use std::collections::btree_map::Range;

/// An entry with its process and page.
pub type Keyed = ((u16, u64), Entry);

/// For how many entries a list has room at first.
const ROOM: usize = 64;

/// A range of entries in which those of a process stand.
fn range_of(book: &Book, process: u16) -> Range<'_, (u16, u64), Entry>
    ensures { filter (λ e. e.0.0 == process) result
        ≡ filter (λ e. e.0.0 == process) book.now.pages.entries }
{
    let entries = book.entries();
    match process.checked_add(1) {
        None => entries.range((process, 0)..),
        Some(next) => entries.range((process, 0)..(next, 0)),
    }
}

/// A range of entries in which those of a process's n pages from one on stand, and of its entries
/// no others.
fn range_in(book: &Book, process: u16, from: u64, n: u64) -> Range<'_, (u16, u64), Entry>
    requires { from + n < 2 ^ 64 }
    ensures { filter (λ e. e.0.0 == process) result
        ≡ filter (λ e. e.0.0 == process && within from n e.0.1) book.now.pages.entries }
{
    let end = from + n;
    book.entries().range((process, from)..(process, end))
}

/// Those of some entries that are of a process.
fn of_process(
    alloc: Global,
    range: Range<'_, (u16, u64), Entry>,
    process: u16,
) -> Result<Vec<Keyed>, AllocError>
    ensures { IfOk result (λ made. made.items ≡ filter (λ e. e.0.0 == process) range.entry) }
{
    let mut made = Vec::with_capacity(alloc, ROOM)?;
    for (key, entry) in range {
        if key.0 == process {
            made.push((*key, *entry))?;
        }
    }
    Ok(made)
}

/// The keys of those of some entries that are of a process.
fn only_keys(
    alloc: Global,
    range: Range<'_, (u16, u64), Entry>,
    process: u16,
) -> Result<Vec<(u16, u64)>, AllocError>
    ensures { IfOk result (λ made. made.items
        ≡ filter (λ k. k.0 == process) (map (λ e. e.0) range.entry)) }
{
    let mut made = Vec::with_capacity(alloc, ROOM)?;
    for (key, _) in range {
        if key.0 == process {
            made.push(*key)?;
        }
    }
    Ok(made)
}

/// The entries of a process, by rising page.
pub fn entries_of(book: &Book, alloc: Global, process: u16) -> Result<Vec<Keyed>, AllocError>
    ensures { IfOk result (λ made. entries_say made.items
        ≡ entries_where (λ k. k.0 == process) (ledger_of book.now)) }
{
    of_process(alloc, range_of(book, process), process)
}

/// The entries of a process's n pages from one on, by rising page.
pub fn entries_in(
    book: &Book,
    alloc: Global,
    process: u16,
    from: u64,
    n: u64,
) -> Result<Vec<Keyed>, AllocError>
    requires { from + n < 2 ^ 64 }
    ensures { IfOk result (λ made. entries_say made.items
        ≡ entries_where (λ k. k.0 == process && within from n k.1) (ledger_of book.now)) }
{
    of_process(alloc, range_in(book, process, from, n), process)
}

/// The keys of a process's entries, by rising page.
pub fn keys_of(book: &Book, alloc: Global, process: u16) -> Result<Vec<(u16, u64)>, AllocError>
    ensures { IfOk result (λ made. made.items ≡ keys_of_process (ledger_of book.now) process) }
{
    only_keys(alloc, range_of(book, process), process)
}

/// The keys of the entries of a process's n pages from one on, by rising page.
pub fn keys_in(
    book: &Book,
    alloc: Global,
    process: u16,
    from: u64,
    n: u64,
) -> Result<Vec<(u16, u64)>, AllocError>
    requires { from + n < 2 ^ 64 }
    ensures { IfOk result (λ made. made.items ≡ keys_in_of (ledger_of book.now) process from n) }
{
    only_keys(alloc, range_in(book, process, from, n), process)
}
