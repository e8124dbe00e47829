//! What a pass and a reclaim leave alone, and which frames have a turn.

ghost use Rattle.std.specs.Prelude.{◌≡◌, ◌≤◌, ◌||◌, ◌++◌, ℕ, IfOk, OnOk, false, length, nat_lt};
ghost use Rattle.std.specs.Prelude.{not, reverse, take, true};
ghost use Rattle.av_plain.specs.Ledger.{no_slot};
ghost use Rattle.av_plain.specs.Pass.{Spared as PlainSpared, has_turn};
ghost use Rattle.av_plain.specs.Pass.{is_pinned as is_pinned_by, is_stuck};
ghost use Rattle.av_audit_book.specs.Book.{ledger_of};
ghost use Rattle.av_audit_book.specs.Machine.{setting_of};
ghost use Rattle.av_audit_book.specs.Spared.{frames_by_turn, is_locked_by, spared_of};

use crate::book::Book;
use crate::machine::Machine;
use av_audit_queue::Queue;
use av_audit_world::Memories;
use std::alloc::{AllocError, Global};

/// What a pass leaves alone, beside merged frames: the frame that is about to be copied, those of
/// pages that the processes have locked, and the swap area that closes.
#[derive(Clone, Copy, Drop)]
pub struct Spared<'a> {
    pub pinned: Option<u32>,
    pub memories: &'a Memories,
    pub closing: Option<u8>,
}

/// Whether it is the frame that is about to be copied.
pub fn is_pinned(pinned: Option<u32>, frame: u32) -> bool
    ensures { result ≡ is_pinned_by pinned frame }
{
    match pinned {
        None => false,
        Some(pinned) => pinned == frame,
    }
}

/// Frames of a list come to others, from the list's end on, until there are n.
fn add_last(frames: &mut Vec<u32>, list: &Queue<u32>, n: usize) -> Result<(), AllocError>
    requires { length frames.old.items ≤ n }
    ensures { OnOk result (frames.new.items ≡ take n (frames.old.items ++ reverse list.now)) }
{
    let mut left = list.iter();
    while frames.len() < n {
        let Some(frame) = left.next_back() else {
            return Ok(());
        };
        frames.push(*frame)?;
    }
    Ok(())
}

impl Book {
    /// Whether a page of the frame is locked. Where no process has a locked page, no entry is
    /// looked at; else those of the frame are, up to the first whose page is locked.
    pub fn is_locked(&self, memories: &Memories, frame: u32) -> bool
        ensures { result ≡ is_locked_by memories.now (ledger_of self.now) frame }
    {
        if memories.locking().is_empty() {
            return false;
        }
        self.pages
            .walk(frame)
            .any(|key| memories.locks(key.0, key.1))
    }

    /// Whether the frame isn't cached, and there is no slot for it.
    pub fn is_stuck(&self, machine: &Machine, spared: &Spared<'_>, frame: u32) -> bool
        ensures { result ≡ is_stuck (setting_of machine.now)
            (spared_of spared.now (ledger_of self.now)) (ledger_of self.now) frame }
    {
        self.slot_of(frame).is_none() && self.no_slot(machine, spared.closing)
    }

    /// Whether some frame may be other than stuck: one is cached, or there is a slot.
    pub fn any_can_go(&self, machine: &Machine, closing: Option<u8>) -> bool
        ensures is { let l = ledger_of self.now in result
            ≡ (nat_lt 0 (length l.cache) || not (no_slot (setting_of machine.now) closing l)) }
        ensures stuck { result ≡ false → (spared : PlainSpared) → spared.closing ≡ closing
            → (f : ℕ) → is_stuck (setting_of machine.now) spared (ledger_of self.now) f ≡ true }
    {
        self.pages.has_pairs() || !self.no_slot(machine, closing)
    }

    /// Whether a pass goes over the frame.
    pub fn has_turn(&self, spared: &Spared<'_>, frame: u32) -> bool
        ensures { result
            ≡ has_turn (spared_of spared.now (ledger_of self.now)) (ledger_of self.now) frame }
    {
        !is_pinned(spared.pinned, frame)
            && !self.is_merged(frame)
            && !self.is_locked(spared.memories, frame)
    }

    /// The first frames of the lists in the order of their turns, n at most: inactive from its
    /// tail, then active from its tail. Nothing behind them is looked at.
    pub fn in_turn(&self, alloc: Global, n: usize) -> Result<Vec<u32>, AllocError>
        ensures { IfOk result (λ frames. frames.items
            ≡ take n (frames_by_turn (ledger_of self.now))) }
    {
        let mut frames = Vec::new(alloc);
        add_last(&mut frames, &self.inactive, n)?;
        add_last(&mut frames, &self.active, n)?;
        Ok(frames)
    }
}
