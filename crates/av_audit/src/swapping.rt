//! Units of `reclaim`, `swapon` and `swapoff`.

ghost use Rattle.std.specs.Prelude.{◌≡◌, ◌<◌, ℕ, IfOk, OnOk, Option as Optional, option_and_then};
ghost use Rattle.std.specs.Prelude.{option_map};
ghost use Rattle.av_trace.specs.Reply.{IsAnswer};
ghost use Rattle.av_trace.specs.declared.command.Command.TheVariants as commands;
ghost use Rattle.av_plain.specs.Event.{after_all};
ghost use Rattle.av_plain.specs.Refusal.{refusal, tests};
ghost use Rattle.av_plain.specs.Swapoff.{close_answer as answer_of_close, turn_off_events};
ghost use Rattle.av_plain.specs.Swapon.{header_answer as answer_by, turn_on_events};
ghost use Rattle.av_plain.specs.World.{World};
ghost use Rattle.av_audit_book.specs.Book.{ledger_of};
ghost use Rattle.av_audit_book.specs.Machine.{AreNamed, head_of, layout_of, setting_of};
ghost use Rattle.av_audit_book.specs.declared.machine.Head.{Head as AnyHead};
ghost use Rattle.av_audit_world.specs.Memories.{IsWorld};
ghost use Rattle.av_audit_swapoff.specs.Close.{close_of};
ghost use Rattle.av_audit.specs.Judge.{IsLeft};
ghost use Rattle.av_audit_machine.specs.Heads.{AreCounted};

use crate::accessing::first_line;
use av_audit_book::{Area, Book, Machine};
use av_audit_events::{turn_off, turn_on};
use av_audit_judge::{is_answer, judges_reclaim};
use av_audit_swapoff::{Close, closes};
use av_audit_world::Memories;
use av_trace::{Answer, Errno};
use std::alloc::{AllocError, Global};

/// Whether a unit is legal for `reclaim`.
pub fn audits_reclaim(
    alloc: Global,
    machine: &Machine,
    memories: &Memories,
    book: &mut Book,
    frames: u16,
    unit: &[u8],
) -> Result<bool, AllocError>
    requires { AreNamed (setting_of machine.now) }
    ensures { IfOk result (λ legal. (w : World) → IsWorld memories.now w
        → IsLeft (setting_of machine.now) w (ledger_of book.old) (commands.Reclaim frames)
        unit.now legal memories.now book.new) }
{
    judges_reclaim(book, machine, memories, alloc, frames, unit)
}

/// Why a swapon is refused, if it is.
fn refuses_swapon(machine: &Machine, book: &Book, area: u8) -> Option<Errno>
    ensures { (w : World) (priority : Optional ℕ) → result ≡ refusal
        (tests (setting_of machine.now) w (ledger_of book.now) (commands.Swapon area priority)) }
{
    match machine.heads.get(area as usize) {
        None => Some(Errno::Einval),
        Some(head) => {
            if book.is_on(area) {
                Some(Errno::Ebusy)
            } else if head.pages == 0 {
                Some(Errno::Einval)
            } else {
                None
            }
        }
    }
}

/// The numbers of a header, as they are answered.
fn on_answer(slots: u32, bad: u32) -> Answer
    ensures is { result ≡ Answer.On slots bad }
    ensures fits { IsAnswer result }
{
    Answer::On { slots, bad }
}

/// What the header of a swap area is answered by.
fn header_answer(machine: &Machine, area: u8) -> Answer
    requires { AreCounted machine.now }
    ensures answer { result ≡ answer_by (option_and_then
        (λ (h : AnyHead). option_map layout_of h.layout) (head_of machine.now area)) }
    ensures fits { IsAnswer result }
{
    match machine.heads.get(area as usize) {
        None => Answer::Refused(Errno::Einval),
        Some(head) => match &head.layout {
            None => Answer::Refused(Errno::Einval),
            Some(layout) => on_answer(layout.slots, layout.bad.len() as u32),
        },
    }
}

/// A swap area is on where an answer has its numbers. Without memory a part may be done.
fn turns_on(
    book: &mut Book,
    area: u8,
    priority: Option<u16>,
    answer: &Answer,
) -> Result<(), AllocError>
    ensures { OnOk result (ledger_of book.new
        ≡ after_all (ledger_of book.old) (turn_on_events area priority answer.now)) }
{
    if let Answer::On { slots, bad } = answer {
        let numbers = Area {
            slots: *slots,
            bad: *bad,
            priority,
        };
        turn_on(book, area, numbers)?;
    }
    Ok(())
}

/// Whether a unit is legal for `swapon`.
pub fn audits_swapon(
    alloc: Global,
    machine: &Machine,
    memories: &Memories,
    book: &mut Book,
    area: u8,
    priority: Option<u16>,
    unit: &[u8],
) -> Result<bool, AllocError>
    requires { AreCounted machine.now }
    ensures { IfOk result (λ legal. (w : World) → IsWorld memories.now w
        → IsLeft (setting_of machine.now) w (ledger_of book.old) (commands.Swapon area priority)
        unit.now legal memories.now book.new) }
{
    match refuses_swapon(machine, book, area) {
        Some(error) => is_answer(alloc, &Answer::Refused(error), unit),
        None => {
            if is_answer(alloc, &Answer::Refused(Errno::Eio), unit)? {
                return Ok(true);
            }
            let answer = header_answer(machine, area);
            if !is_answer(alloc, &answer, unit)? {
                return Ok(false);
            }
            turns_on(book, area, priority, &answer)?;
            Ok(true)
        }
    }
}

/// The answer of a swapoff that ends so.
fn close_answer(close: Close) -> Answer
    ensures answer { result ≡ answer_of_close (close_of close) }
    ensures fits { IsAnswer result }
{
    match close {
        Close::Closed => Answer::Done,
        Close::NoRoom(out) => Answer::NoFrame(out),
        Close::Unread => Answer::Refused(Errno::Eio),
    }
}

/// A swap area is off where no slot of it is in use.
fn turns_off(book: &mut Book, area: u8, close: Close)
    ensures { ledger_of book.new
        ≡ after_all (ledger_of book.old) (turn_off_events area (close_of close)) }
{
    match close {
        Close::Closed => turn_off(book, area),
        Close::NoRoom(_) | Close::Unread => {}
    }
}

/// Whether a unit is legal for `swapoff`.
pub fn audits_swapoff(
    alloc: Global,
    machine: &Machine,
    memories: &Memories,
    book: &mut Book,
    area: u8,
    unit: &[u8],
) -> Result<bool, AllocError>
    requires some { 0 < machine.now.frames }
    requires fits { AreNamed (setting_of machine.now) }
    ensures { IfOk result (λ legal. (w : World) → IsWorld memories.now w
        → IsLeft (setting_of machine.now) w (ledger_of book.old) (commands.Swapoff area) unit.now
        legal memories.now book.new) }
{
    if !book.is_on(area) {
        return is_answer(alloc, &Answer::Refused(Errno::Einval), unit);
    }
    let Some((line, notes)) = first_line(unit) else {
        return Ok(false);
    };
    match closes(book, alloc, machine, memories, area, notes)? {
        None => Ok(false),
        Some(close) => {
            turns_off(book, area, close);
            is_answer(alloc, &close_answer(close), line)
        }
    }
}
