//! Units for commands that answer `ok` and tell the rest by notes.

ghost use Rattle.std.specs.Prelude.{◌≡◌, IfOk, reverse, take};
ghost use Rattle.av_trace.specs.declared.command.Command.TheVariants as commands;
ghost use Rattle.av_plain.specs.Ledger.{Setting};
ghost use Rattle.av_plain.specs.World.{World};
ghost use Rattle.av_audit_book.specs.Book.{ledger_of};
ghost use Rattle.av_audit_book.specs.Machine.{AreNamed, setting_of};
ghost use Rattle.av_audit_judge.specs.Verdict.{IsVerdict};
ghost use Rattle.av_audit_world.specs.Memories.{IsWorld};

use crate::flight::completes;
use crate::reclaim::{ages, outcomes};
use crate::unit::Unit;
use av_audit_book::{Book, Machine, Spared};
use av_audit_queue::Queue;
use av_audit_world::Memories;
use av_base::Slot;
use av_text::word::after;
use std::alloc::{AllocError, Global};

/// The first slots of some, n at most.
fn first(alloc: Global, slots: &Queue<Slot>, n: u16) -> Result<Vec<Slot>, AllocError>
    ensures { IfOk result (λ made. made.items ≡ take n slots.now) }
{
    slots.iter().take(usize::from(n)).copied().collect(alloc)
}

/// The last frames of some, n at most, from the end.
fn last(alloc: Global, frames: &Queue<u32>, n: u16) -> Result<Vec<u32>, AllocError>
    ensures { IfOk result (λ made. made.items ≡ take n (reverse frames.now)) }
{
    let mut made = Vec::new(alloc);
    let mut left = frames.iter();
    while made.len() < usize::from(n) {
        let Some(frame) = left.next_back() else {
            return Ok(made);
        };
        made.push(*frame)?;
    }
    Ok(made)
}

/// Whether a unit is legal for `complete`.
pub fn judges_complete(
    book: &mut Book,
    alloc: Global,
    n: u16,
    text: &[u8],
) -> Result<bool, AllocError>
    ensures { IfOk result (λ legal. (m : Setting) (w : World) → IsVerdict m w
        (ledger_of book.old) (commands.Complete n) text.now legal (ledger_of book.new)) }
{
    let slots = first(alloc, &book.flight, n)?;
    match after(text, b"ok\n") {
        None => Ok(false),
        Some(rest) => {
            let mut unit = Unit { alloc, rest };
            if !completes(book, &mut unit, slots.as_slice())? {
                return Ok(false);
            }
            Ok(unit.rest.is_empty())
        }
    }
}

/// Whether a unit is legal for `age`.
pub fn judges_age(book: &mut Book, alloc: Global, n: u16, text: &[u8]) -> Result<bool, AllocError>
    ensures { IfOk result (λ legal. (m : Setting) (w : World) → IsVerdict m w
        (ledger_of book.old) (commands.Age n) text.now legal (ledger_of book.new)) }
{
    let frames = last(alloc, &book.active, n)?;
    match after(text, b"ok\n") {
        None => Ok(false),
        Some(rest) => {
            let mut unit = Unit { alloc, rest };
            if !ages(book, &mut unit, frames.as_slice())? {
                return Ok(false);
            }
            Ok(unit.rest.is_empty())
        }
    }
}

/// Whether a unit is legal for `reclaim`, where frames of pages that the processes have locked are
/// spared. That is asked of the frames that are reclaimed alone.
pub fn judges_reclaim(
    book: &mut Book,
    machine: &Machine,
    memories: &Memories,
    alloc: Global,
    n: u16,
    text: &[u8],
) -> Result<bool, AllocError>
    requires { AreNamed (setting_of machine.now) }
    ensures { IfOk result (λ legal. (w : World) → IsWorld memories.now w
        → IsVerdict (setting_of machine.now) w (ledger_of book.old) (commands.Reclaim n) text.now
        legal (ledger_of book.new)) }
{
    let frames = last(alloc, &book.inactive, n)?;
    match after(text, b"ok\n") {
        None => Ok(false),
        Some(rest) => {
            let mut unit = Unit { alloc, rest };
            let spared = Spared {
                pinned: None,
                memories,
                closing: None,
            };
            if !outcomes(book, &mut unit, machine, &spared, frames.as_slice())? {
                return Ok(false);
            }
            Ok(unit.rest.is_empty())
        }
    }
}
