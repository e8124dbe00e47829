//! What frames hold, and which of them are known.

ghost use Rattle.std.specs.Prelude.{◌≡◌, ◌<◌, ◌++◌, ◌∷◌, [], ℕ, List, IfOk, OnOk, slice_index};
ghost use Rattle.av_plain.specs.Merge.{FrameBytes};
ghost use Rattle.av_audit_book.specs.Book.{ledger_of};
ghost use Rattle.av_audit_book.specs.Machine.{setting_of};
ghost use Rattle.av_audit_neighbour.specs.Contents.{AreContent, AreKept};
ghost use Rattle.av_audit_neighbour.specs.Held.{held_by};
ghost use Rattle.av_audit_neighbour.specs.Known.{first_like, known_at_first};

use crate::held::{FramePages, frame_bytes};
use av_audit_book::{Book, Machine};
use av_audit_world::Memories;
use std::alloc::{AllocError, Global};
use std::collections::BTreeMap;

/// Known frames by what they hold: of those that hold the same, the one that was known first.
#[derive(Drop)]
pub struct Contents<'a> {
    by_bytes: BTreeMap<&'a [u8], u32>,
}

impl<'a> Contents<'a> {
    /// No frame is known.
    pub fn new(alloc: Global) -> Contents<'a>
        ensures { (held : FrameBytes) → AreKept held [] result }
    {
        Contents {
            by_bytes: BTreeMap::new(alloc),
        }
    }

    /// The first known frame that holds these bytes.
    pub fn find(&self, bytes: &[u8]) -> Option<u32>
        ensures { (held : FrameBytes) (known : List ℕ) (f : ℕ) → AreKept held known self.now
            → AreContent (held f) bytes.now → result ≡ first_like held known f }
    {
        self.by_bytes.get(bytes).copied()
    }

    /// One frame more is known, which holds these bytes. Without memory all stays.
    pub fn add(&mut self, bytes: &'a [u8], frame: u32) -> Result<(), AllocError>
        ensures { OnOk result ((held : FrameBytes) (known : List ℕ) → AreKept held known self.old
            → AreContent (held frame) bytes.now → AreKept held (known ++ frame ∷ []) self.new) }
    {
        if self.find(bytes).is_none() {
            self.by_bytes.insert(bytes, frame)?;
        }
        Ok(())
    }
}

/// The bytes at the places of a page, up to the last that isn't 0.
pub fn up_to_last(bytes: &[u8]) -> &[u8]
    ensures { AreContent (slice_index bytes.now) result.now }
{
    let mut n = bytes.len().min(4096);
    while 0 < n {
        if bytes[n - 1] != 0 {
            return &bytes[..n];
        }
        n -= 1;
    }
    &[]
}

/// What a frame holds.
pub fn content<'a>(memories: &'a Memories, pages: &FramePages, frame: u32) -> &'a [u8]
    ensures { AreContent (held_by memories.now pages.now frame) result.now }
{
    up_to_last(frame_bytes(memories, pages, frame))
}

/// Before the first page the merged frames are known, the least first.
pub fn merged_contents<'a>(
    book: &Book,
    machine: &Machine,
    memories: &'a Memories,
    pages: &FramePages,
) -> Result<Contents<'a>, AllocError>
    ensures { IfOk result (λ c. AreKept (held_by memories.now pages.now)
        (known_at_first (setting_of machine.now) (ledger_of book.now)) c) }
{
    let mut contents = Contents::new(book.alloc);
    for frame in 0..machine.frames {
        if book.is_merged(frame) {
            contents.add(content(memories, pages, frame), frame)?;
        }
    }
    Ok(contents)
}
