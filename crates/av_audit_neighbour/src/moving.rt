//! Units of `compact`.

ghost use Rattle.std.specs.Prelude.{◌≡◌, ◌<◌, ◌≤◌, ℕ, IfOk, MatchOption, OnOk, false, true};
ghost use Rattle.av_trace.specs.declared.command.Command.TheVariants as commands;
ghost use Rattle.av_plain.specs.Ledger.{is_free};
ghost use Rattle.av_plain.specs.World.{World};
ghost use Rattle.av_audit_book.specs.Book.{ledger_of};
ghost use Rattle.av_audit_book.specs.Machine.{setting_of};
ghost use Rattle.av_audit_judge.specs.Verdict.{IsVerdict};
ghost use Rattle.av_audit_neighbour.specs.Moving.{HasMoved, IsNext};

use av_audit_book::{Book, Machine};
use av_audit_judge::{all_fit, is_reply};
use av_trace::{Note, Notes, Reply};
use std::alloc::{AllocError, Global};

/// The least free frame of these.
fn least_free(book: &Book, low: u32, past: u32) -> Option<u32>
    ensures { MatchOption result
        ((f : ℕ) → low ≤ f → f < past → is_free (ledger_of book.now) f ≡ false)
        (λ to. (low ≤ to) × (to < past) × (is_free (ledger_of book.now) to ≡ true)
        × ((f : ℕ) → low ≤ f → f < to → is_free (ledger_of book.now) f ≡ false)) }
{
    for frame in low..past {
        if book.is_free(frame) {
            return Some(frame);
        }
    }
    None
}

/// The greatest frame of these that isn't free.
fn greatest_used(book: &Book, low: u32, past: u32) -> Option<u32>
    ensures { MatchOption result
        ((f : ℕ) → low ≤ f → f < past → is_free (ledger_of book.now) f ≡ true)
        (λ from. (low ≤ from) × (from < past) × (is_free (ledger_of book.now) from ≡ false)
        × ((f : ℕ) → from < f → f < past → is_free (ledger_of book.now) f ≡ true)) }
{
    let mut frame = past;
    while low < frame {
        frame -= 1;
        if !book.is_free(frame) {
            return Some(frame);
        }
    }
    None
}

/// The next frame that goes down, the greatest in use of those from `low` to below `past`, and the
/// least free one, where that is below it.
fn next_move(book: &Book, low: u32, past: u32) -> Option<(u32, u32)>
    ensures { IsNext (ledger_of book.now) low past result }
{
    let to = least_free(book, low, past)?;
    let from = greatest_used(book, to + 1, past)?;
    Some((from, to))
}

/// One frame goes down after the other, until none can; the notes are added. Without memory a part
/// may be done.
fn moves_down(book: &mut Book, machine: &Machine, notes: &mut Notes) -> Result<(), AllocError>
    ensures { OnOk result (HasMoved (setting_of machine.now) (ledger_of book.old) notes.old
        (ledger_of book.new) notes.new) }
{
    let mut low = 0;
    let mut past = machine.frames;
    while let Some((from, to)) = next_move(book, low, past) {
        let note = Note::Moved { from, to };
        book.follow(note)?;
        notes.push(note)?;
        low = to + 1;
        past = from;
    }
    Ok(())
}

/// Whether a unit is legal for `compact`.
pub fn judges_compact(
    book: &mut Book,
    machine: &Machine,
    alloc: Global,
    text: &[u8],
) -> Result<bool, AllocError>
    ensures { IfOk result (λ legal. (w : World) → IsVerdict (setting_of machine.now) w
        (ledger_of book.old) commands.Compact text.now legal (ledger_of book.new)) }
{
    let mut reply = Reply::new(alloc);
    moves_down(book, machine, &mut reply.notes)?;
    all_fit(reply.notes.as_slice());
    is_reply(alloc, &reply, text)
}
