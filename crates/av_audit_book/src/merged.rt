//! Merged frames: a list, whose members are found and counted at once.

ghost use Rattle.std.specs.Prelude.{◌≡◌, ◌&&◌, ◌||◌, ◌==◌, ℕ, ◌++◌, ◌∷◌, [], OnErr, OnOk, map};
ghost use Rattle.std.specs.Prelude.{not};
ghost use Rattle.std.specs.BTreeSet.{contains};
ghost use Rattle.std.specs.List.{range_with_len};
ghost use Rattle.std.specs.Ordering.{nat_cmp};
ghost use Rattle.av_base.specs.Words.{how_many, is_in, renamed, without};

use av_audit_queue::Queue;
use std::alloc::{AllocError, Global};
use std::collections::BTreeSet;
use std::marker::Model;

/// How many of some numbers are below n. Those that aren't are gone over.
pub(crate) fn len_below(numbers: &BTreeSet<u32>, n: u32) -> u32
    ensures { result ≡ how_many (contains nat_cmp numbers.now) (range_with_len 0 n) }
{
    (numbers.len() - numbers.range(n..).count()) as u32
}

/// A number goes, if no frame of the list has it.
fn drop_absent(numbers: &mut BTreeSet<u32>, frames: &Queue<u32>, number: u32)
    ensures { (f : ℕ) → contains nat_cmp numbers.new f
        ≡ (contains nat_cmp numbers.old f && (not (number == f) || is_in f frames.now)) }
{
    if !frames.contains(number) {
        numbers.remove(&number);
    }
}

/// Frames that are merged, in the order in which they came to be. One may stand there more than
/// once.
#[derive(Drop)]
pub struct MergedFrames {
    frames: Queue<u32>,
    numbers: BTreeSet<u32>,
}

impl Model for MergedFrames {
    ghost use Rattle.std.specs.Prelude.{ℕ, List};
    ghost use Rattle.av_audit_book.specs.Merged.{HasMembers};

    ghost Value = { List ℕ };

    ghost view = { λ a. a.frames };

    ghost invariant = { λ a. HasMembers a.numbers a.frames };
}

impl MergedFrames {
    /// No frame.
    pub fn new(alloc: Global) -> MergedFrames
        ensures { result ≡ [] }
    {
        MergedFrames {
            frames: Queue::new(alloc),
            numbers: BTreeSet::new(alloc),
        }
    }

    /// Whether a frame is there.
    pub fn contains(&self, frame: u32) -> bool
        ensures { result ≡ is_in frame self.now }
    {
        self.numbers.contains(&frame)
    }

    /// How many frames below n are there. Those that aren't below it are gone over.
    pub fn len_below(&self, n: u32) -> u32
        ensures { result ≡ how_many (λ f. is_in f self.now) (range_with_len 0 n) }
    {
        len_below(&self.numbers, n)
    }

    /// A frame comes to the back. Without memory all stays, and where no place is left there, too.
    pub fn push_back(&mut self, frame: u32) -> Result<(), AllocError>
        ensures ok { OnOk result (self.new ≡ self.old ++ frame ∷ []) }
        ensures err { OnErr result (self.new ≡ self.old) }
    {
        let added = self.numbers.insert(frame)?;
        let pushed = self.frames.push_back(frame);
        if added && pushed.is_err() {
            self.numbers.remove(&frame);
        }
        pushed
    }

    /// A frame goes, wherever it stands.
    pub fn remove(&mut self, frame: u32)
        ensures { self.new ≡ without frame self.old }
    {
        // Mostly it isn't merged, and often no frame is.
        if !self.contains(frame) {
            return;
        }
        self.frames.remove(frame);
        self.numbers.remove(&frame);
    }

    /// A frame gives its places to another. Without memory some may have done so.
    pub fn replace(&mut self, from: u32, to: u32) -> Result<(), AllocError>
        ensures ok { OnOk result (self.new ≡ map (renamed from to) self.old) }
        ensures err { OnErr result (map (renamed from to) self.new
            ≡ map (renamed from to) self.old) }
    {
        if !self.contains(from) {
            return Ok(());
        }
        self.numbers.insert(to)?;
        let replaced = self.frames.replace(from, to);
        drop_absent(&mut self.numbers, &self.frames, from);
        drop_absent(&mut self.numbers, &self.frames, to);
        replaced
    }
}
