//! Units for `entry`.

ghost use Rattle.std.specs.Prelude.{◌≡◌, ◌<◌, ◌^◌, IfOk, None, Some, option_map};
ghost use Rattle.av_trace.specs.Note.{IsSlot};
ghost use Rattle.av_trace.specs.Reply.{IfThere, IsAnswer};
ghost use Rattle.av_text.specs.Number.{IsWide};
ghost use Rattle.av_trace.specs.declared.command.Command.TheVariants as commands;
ghost use Rattle.av_plain.specs.Ledger.{InFrame, InSlot, Setting};
ghost use Rattle.av_plain.specs.Refusal.{refusal, tests};
ghost use Rattle.av_plain.specs.Report.{entry_answer};
ghost use Rattle.av_plain.specs.World.{World};
ghost use Rattle.av_audit_pages.specs.Entries.{entry_of};
ghost use Rattle.av_audit_book.specs.Book.{ledger_of};
ghost use Rattle.av_audit_judge.specs.Verdict.{IsVerdict};

use av_audit_book::{Book, Entry};
use av_audit_judge::is_answer;
use av_base::Slot;
use av_trace::Answer;
use std::alloc::{AllocError, Global};

/// Whether a unit is legal for `entry`, where nothing refuses that.
pub fn judges_entry(
    book: &Book,
    alloc: Global,
    process: u16,
    address: u64,
    text: &[u8],
) -> Result<bool, AllocError>
    ensures { IfOk result (λ legal. (m : Setting) (w : World)
        → refusal (tests m w (ledger_of book.now) (commands.Entry process address)) ≡ None
        → IsVerdict m w (ledger_of book.now) (commands.Entry process address) text.now legal
        (ledger_of book.now)) }
{
    let answer = entry_answer(book, book.entry(process, address / 4096));
    is_answer(alloc, &answer, text)
}

/// What an entry is, as a reply tells it.
fn entry_answer(book: &Book, entry: Option<Entry>) -> Answer
    ensures is { result ≡ entry_answer (ledger_of book.now) (option_map entry_of entry) }
    ensures form { IsAnswer result }
{
    match entry {
        None => Answer::EntryEmpty,
        Some(Entry::Zero) => Answer::EntryZero,
        Some(Entry::InFrame { frame, seen }) => frame_answer(book, frame, seen),
        Some(Entry::InSlot(slot)) => slot_answer(book, slot),
    }
}

/// A frame, as a reply tells it.
fn frame_answer(book: &Book, frame: u32, seen: bool) -> Answer
    ensures is { result ≡ entry_answer (ledger_of book.now) (Some (InFrame frame seen)) }
    ensures form { IsAnswer result }
{
    let cached = book.slot_of(frame);
    slot_fits(cached);
    Answer::EntryFrame {
        frame,
        seen,
        cached,
        merged: book.is_merged(frame),
    }
}

/// A slot, as a reply tells it.
fn slot_answer(book: &Book, slot: Slot) -> Answer
    ensures is { result ≡ entry_answer (ledger_of book.now) (Some (InSlot slot)) }
    ensures form { IsAnswer result }
{
    let cached = book.frame_at(slot);
    frame_fits(cached);
    slot_fits(Some(slot));
    Answer::EntrySlot { slot, cached }
}

/// The numbers of a slot are of 64 bits.
pub fn slot_fits(slot: Option<Slot>)
    ensures { IfThere IsSlot slot }
{
    if let Some(slot) = slot {
        let _ = (slot.area, slot.page);
    }
}

/// A frame's number is.
pub fn frame_fits(frame: Option<u32>)
    ensures { IfThere IsWide frame }
{
    if let Some(frame) = frame {
        let _ = frame;
    }
}

/// A number of 64 bits is one.
pub fn fits(n: u64)
    ensures { n < 2 ^ 64 }
{
    let _ = n;
}
