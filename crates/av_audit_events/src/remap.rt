//! Entries that go over to other pages.

ghost use Rattle.std.specs.Prelude.{◌≡◌, ◌+◌, ◌-◌, ◌<◌, ◌^◌, ◌∷◌, [], IfOk, OnOk, map};
ghost use Rattle.std.specs.List.{AllByRecursion};
ghost use Rattle.av_plain.specs.Event.{EntriesMoved, after};
ghost use Rattle.av_audit_book.specs.Book.{ledger_of};
ghost use Rattle.av_audit_events.specs.Remap.{without_keys};

use crate::keys::{Keyed, entries_in};
use crate::puts::put_all;
use av_audit_book::Book;
use std::alloc::{AllocError, Global};

/// Some entries at pages that begin elsewhere.
fn at_pages(alloc: Global, entries: &[Keyed], from: u64, to: u64) -> Result<Vec<Keyed>, AllocError>
    requires { AllByRecursion (λ e. e.0.1 - from + to < 2 ^ 64) entries.now }
    ensures { IfOk result (λ made. made.items
        ≡ map (λ e. ((e.0.0, e.0.1 - from + to), e.1)) entries.now) }
{
    let mut made = Vec::new(alloc);
    let mut rest = entries;
    while let [((process, page), entry), others @ ..] = rest {
        let place = page.saturating_sub(from) + to;
        made.push(((*process, place), *entry))?;
        rest = others;
    }
    Ok(made)
}

/// The entry of a page is gone.
fn remove(book: &mut Book, process: u16, page: u64)
    ensures { ledger_of book.new ≡ without_keys ((process, page) ∷ []) (ledger_of book.old) }
{
    book.remove(process, page);
}

/// Some entries are gone.
fn clear(book: &mut Book, entries: &[Keyed])
    ensures { ledger_of book.new
        ≡ without_keys (map (λ e. e.0) entries.now) (ledger_of book.old) }
{
    let mut rest = entries;
    while let [first, others @ ..] = rest {
        remove(book, first.0.0, first.0.1);
        rest = others;
    }
}

/// The entries of a process's n pages from one on go to as many pages from another on. Without
/// memory a part may be done.
pub fn move_entries(
    book: &mut Book,
    alloc: Global,
    process: u16,
    n: u64,
    from: u64,
    to: u64,
) -> Result<(), AllocError>
    requires from { from + n < 2 ^ 64 }
    requires to { to + n < 2 ^ 64 }
    ensures { OnOk result (ledger_of book.new
        ≡ after (ledger_of book.old) (EntriesMoved process n from to)) }
{
    let entries = entries_in(book, alloc, process, from, n)?;
    let others = at_pages(alloc, entries.as_slice(), from, to)?;
    clear(book, entries.as_slice());
    put_all(book, others.as_slice())
}
