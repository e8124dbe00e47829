//! The entries that name a slot.

ghost use Rattle.std.specs.Prelude.{◌≡◌, ◌∷◌, [], IfOk, map};
ghost use Rattle.av_base.specs.Keys.{Key};
ghost use Rattle.av_base.specs.Page.{address_of};
ghost use Rattle.av_trace.specs.declared.note.Note.TheVariants as notes;
ghost use Rattle.av_plain.specs.Swapoff.{map_notes};
ghost use Rattle.av_audit_book.specs.Book.{ledger_of};
ghost use Rattle.av_audit_judge.specs.Finds.{Reads};

use av_audit_book::Book;
use av_audit_judge::{ADDRESS_PAGES, Unit, reads};
use av_base::{PAGE_SIZE, Slot};
use av_trace::Note;
use std::alloc::AllocError;

/// The entry of a page becomes a frame.
fn maps(
    book: &mut Book,
    unit: &mut Unit<'_>,
    process: u16,
    page: u64,
    frame: u32,
) -> Result<bool, AllocError>
    ensures { IfOk result (λ read. Reads
        (λ ns. ns ≡ notes.Mapped process (address_of page) frame ∷ []) (ledger_of book.old)
        unit.old.rest.now read (ledger_of book.new) unit.new.rest.now) }
{
    if page >= ADDRESS_PAGES {
        return Ok(false);
    }
    let address = page * PAGE_SIZE;
    reads(
        book,
        unit,
        Note::Mapped {
            process,
            address,
            frame,
        },
    )
}

/// The entries of some pages become a frame, in turn.
fn maps_all(
    book: &mut Book,
    unit: &mut Unit<'_>,
    keys: &[(u16, u64)],
    frame: u32,
) -> Result<bool, AllocError>
    ensures { IfOk result (λ read. Reads
        (λ ns. ns ≡ map (λ (k : Key). notes.Mapped k.0 (address_of k.1) frame) keys.now)
        (ledger_of book.old) unit.old.rest.now read (ledger_of book.new) unit.new.rest.now) }
{
    let mut rest = keys;
    while let [first, others @ ..] = rest {
        if !maps(book, unit, first.0, first.1, frame)? {
            return Ok(false);
        }
        rest = others;
    }
    Ok(true)
}

/// Each entry that names a slot becomes a frame, and the slot is dropped.
pub fn frees(
    book: &mut Book,
    unit: &mut Unit<'_>,
    slot: Slot,
    frame: u32,
) -> Result<bool, AllocError>
    ensures { IfOk result (λ read. Reads (λ ns. ns ≡ map_notes (ledger_of book.old) slot frame)
        (ledger_of book.old) unit.old.rest.now read (ledger_of book.new) unit.new.rest.now) }
{
    let keys = book.keys_of_slot(unit.alloc, slot)?;
    if !maps_all(book, unit, keys.as_slice(), frame)? {
        return Ok(false);
    }
    reads(book, unit, Note::Dropped(slot))
}
