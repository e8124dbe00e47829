//! Units for `slot`.

ghost use Rattle.std.specs.Prelude.{◌≡◌, IfOk, None};
ghost use Rattle.av_trace.specs.Reply.{IsAnswer};
ghost use Rattle.av_trace.specs.declared.command.Command.TheVariants as commands;
ghost use Rattle.av_plain.specs.Ledger.{pages_used};
ghost use Rattle.av_plain.specs.Refusal.{refusal, tests};
ghost use Rattle.av_plain.specs.Report.{slot_answer};
ghost use Rattle.av_plain.specs.World.{World};
ghost use Rattle.av_audit_book.specs.Book.{ledger_of};
ghost use Rattle.av_audit_book.specs.Machine.{setting_of};
ghost use Rattle.av_audit_judge.specs.Verdict.{IsVerdict};

use crate::entry::{frame_fits, slot_fits};
use av_audit_book::{Book, Machine};
use av_audit_judge::is_answer;
use av_base::Slot;
use av_trace::{Answer, Errno};
use std::alloc::{AllocError, Global};

/// How many pages a swap area uses, by its header.
fn pages_used(machine: &Machine, area: u8) -> u32
    ensures { result ≡ pages_used (setting_of machine.now) area }
{
    match machine.heads.get(area as usize) {
        None => 0,
        Some(head) => match &head.layout {
            None => 0,
            Some(layout) => layout.pages,
        },
    }
}

/// Why a `slot` is refused, if it is.
pub fn refuses_slot(book: &Book, machine: &Machine, slot: Slot) -> Option<Errno>
    ensures { (w : World) → result ≡ refusal (tests (setting_of machine.now) w
        (ledger_of book.now) (commands.Slot slot.area slot.page)) }
{
    if !book.is_on(slot.area) || slot.page == 0 || pages_used(machine, slot.area) <= slot.page {
        Some(Errno::Einval)
    } else {
        None
    }
}

/// Whether a unit is legal for `slot`, where nothing refuses that.
pub fn judges_slot(
    book: &Book,
    machine: &Machine,
    alloc: Global,
    slot: Slot,
    text: &[u8],
) -> Result<bool, AllocError>
    ensures { IfOk result (λ legal. (w : World)
        → refusal (tests (setting_of machine.now) w (ledger_of book.now)
        (commands.Slot slot.area slot.page)) ≡ None
        → IsVerdict (setting_of machine.now) w (ledger_of book.now)
        (commands.Slot slot.area slot.page) text.now legal (ledger_of book.now)) }
{
    let answer = slot_answer(book, machine, slot);
    is_answer(alloc, &answer, text)
}

/// What a slot is, as a reply tells it.
fn slot_answer(book: &Book, machine: &Machine, slot: Slot) -> Answer
    ensures is { result ≡ slot_answer (setting_of machine.now) (ledger_of book.now) slot }
    ensures form { IsAnswer result }
{
    slot_fits(Some(slot));
    if !machine.usable(slot) {
        return Answer::SlotBad(slot);
    }
    let cached = book.frame_at(slot);
    frame_fits(cached);
    Answer::SlotCount {
        slot,
        count: book.count(slot),
        cached,
    }
}
