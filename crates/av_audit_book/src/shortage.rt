//! Why no frame can be had, in numbers.

ghost use Rattle.std.specs.Prelude.{◌≡◌, ◌&&◌, ℕ, IfOk, is_some, not};
ghost use Rattle.std.specs.BTreeSet.{contains};
ghost use Rattle.std.specs.List.{range_with_len};
ghost use Rattle.std.specs.Ordering.{nat_cmp};
ghost use Rattle.av_base.specs.Words.{how_many};
ghost use Rattle.av_plain.specs.Ledger.{is_merged, slot_of};
ghost use Rattle.av_plain.specs.Pass.{is_pinned as is_pinned_by, is_spared, out_of};
ghost use Rattle.av_audit_book.specs.Book.{ledger_of};
ghost use Rattle.av_audit_book.specs.Machine.{setting_of};
ghost use Rattle.av_audit_book.specs.Spared.{spared_of};

use crate::book::Book;
use crate::machine::Machine;
use crate::merged::len_below;
use crate::spared::Spared;
use av_trace::OutOf;
use std::alloc::AllocError;
use std::collections::BTreeSet;

/// How many of the first n frames are pinned.
fn pinned_below(pinned: Option<u32>, n: u32) -> u32
    ensures { result ≡ how_many (is_pinned_by pinned) (range_with_len 0 n) }
{
    match pinned {
        None => 0,
        Some(frame) => { if frame < n { 1 } else { 0 } }
    }
}

impl Book {
    /// The frames that a pass leaves alone, beside merged ones.
    fn spared_frames(&self, spared: &Spared<'_>) -> Result<BTreeSet<u32>, AllocError>
        ensures { IfOk result (λ frames. (f : ℕ) → contains nat_cmp frames f
            ≡ is_spared (spared_of spared.now (ledger_of self.now)) f) }
    {
        let mut frames = self.locked_frames(spared.memories)?;
        let Some(frame) = spared.pinned else {
            return Ok(frames);
        };
        frames.insert(frame)?;
        Ok(frames)
    }

    /// Whether a frame isn't among some, and isn't merged.
    fn is_apart(&self, frames: &BTreeSet<u32>, frame: u32) -> bool
        ensures { result ≡ (not (contains nat_cmp frames.now frame)
            && not (is_merged (ledger_of self.now) frame)) }
    {
        !frames.contains(&frame) && !self.is_merged(frame)
    }

    /// The frames of the cached pairs, but for some frames and those that are merged.
    fn cached_frames(&self, but: &BTreeSet<u32>) -> Result<BTreeSet<u32>, AllocError>
        ensures { IfOk result (λ frames. (f : ℕ) → contains nat_cmp frames f
            ≡ (not (contains nat_cmp but.now f) && not (is_merged (ledger_of self.now) f)
            && is_some (slot_of (ledger_of self.now) f))) }
    {
        let mut frames = BTreeSet::new(self.alloc);
        for pair in self.pages.pairs() {
            if self.is_apart(but, pair.frame) {
                frames.insert(pair.frame)?;
            }
        }
        Ok(frames)
    }

    /// How many of some frames are below n and merged.
    fn merged_among(&self, frames: &BTreeSet<u32>, n: u32) -> u32
        ensures { result
            ≡ how_many (λ f. contains nat_cmp frames.now f && is_merged (ledger_of self.now) f)
            (range_with_len 0 n) }
    {
        frames
            .range(..n)
            .filter(|frame| self.is_merged(**frame))
            .count() as u32
    }

    /// The numbers of an out-of-memory: how many frames are held for each cause. Gone over are the
    /// ranges of the processes that have a locked page, the entries of locked pages, and the cached
    /// pairs.
    pub fn out_of(&self, machine: &Machine, spared: &Spared<'_>) -> Result<OutOf, AllocError>
        ensures { IfOk result (λ out. out ≡ out_of (setting_of machine.now)
            (spared_of spared.now (ledger_of self.now)) (ledger_of self.now)) }
    {
        let frames = machine.frames;
        let pinned = pinned_below(spared.pinned, frames);
        let alone = self.spared_frames(spared)?;
        let locked = len_below(&alone, frames) - pinned;
        let ksm = self.merged.len_below(frames) - self.merged_among(&alone, frames);
        let cached = self.cached_frames(&alone)?;
        let fault = len_below(&cached, frames);
        Ok(OutOf {
            pinned: u32::from(spared.pinned.is_some()),
            noslot: frames - pinned - locked - ksm - fault,
            fault,
            locked,
            ksm,
        })
    }
}
