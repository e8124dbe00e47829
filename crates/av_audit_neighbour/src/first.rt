//! Which page tells what a frame holds: the first of those whose entries name it. The others have
//! to hold the same.

ghost use Rattle.std.specs.Prelude.{◌≡◌, ◌≤◌, ◌<◌, ℕ, IfOk, OnErr, MatchOption, map, true};
ghost use Rattle.av_plain.specs.Merge.{FrameBytes, HoldClaims};
ghost use Rattle.av_plain.specs.World.{World};
ghost use Rattle.av_audit_book.specs.Book.{ledger_of};
ghost use Rattle.av_audit_world.specs.Memories.{IsWorld};
ghost use Rattle.av_audit_neighbour.specs.First.{IsTold, TellsFrame};
ghost use Rattle.av_audit_neighbour.specs.Held.{held_by};

use crate::contents::up_to_last;
use crate::held::{FramePages, page_bytes, page_marks};
use av_audit_book::{Book, Entry};
use av_audit_world::Memories;
use std::alloc::{AllocError, Global};
use std::collections::BTreeMap;

/// A page tells what a frame holds, if none does yet. Else whether it holds the same as the one
/// that does. Without memory all stays.
fn tells_frame(
    pages: &mut FramePages,
    memories: &Memories,
    frame: u32,
    key: (u16, u64),
) -> Result<bool, AllocError>
    ensures ok { IfOk result
        (λ same. TellsFrame memories.now pages.old frame key same pages.new) }
    ensures err { OnErr result (pages.new.entries ≡ pages.old.entries) }
{
    match pages.get(&frame).copied() {
        None => {
            pages.insert(frame, key)?;
            Ok(true)
        }
        Some(first) => {
            let (one, other) = (page_bytes(memories, first), page_bytes(memories, key));
            Ok(up_to_last(one) == up_to_last(other))
        }
    }
}

/// A page tells what its frame holds, if it is mapped and its entry names one.
fn tells(
    pages: &mut FramePages,
    book: &Book,
    memories: &Memories,
    key: (u16, u64),
) -> Result<bool, AllocError>
    ensures { IfOk result (λ same. (w : World) → IsWorld memories.now w
        → IsTold w (ledger_of book.now) memories.now pages.old key same pages.new) }
{
    match book.entry(key.0, key.1) {
        Some(Entry::InFrame { frame, .. }) => {
            if page_marks(memories, key).is_none() {
                return Ok(true);
            }
            tells_frame(pages, memories, frame, key)
        }
        _ => Ok(true),
    }
}

/// For each frame that these pages' entries name a page that tells what it holds; or two pages
/// differ that name one frame.
pub fn first_pages(
    alloc: Global,
    book: &Book,
    memories: &Memories,
    keys: &[(u16, u64)],
) -> Result<Option<FramePages>, AllocError>
    ensures { IfOk result (λ found. (w : World) → IsWorld memories.now w
        → keys.now ≡ map (λ e. e.0) (ledger_of book.now).entries
        → MatchOption found ((held : FrameBytes) → HoldClaims w (ledger_of book.now) held → ⊥)
        (λ pages. HoldClaims w (ledger_of book.now) (held_by memories.now pages))) }
{
    let mut pages = BTreeMap::new(alloc);
    let mut rest = keys;
    while let [first, others @ ..] = rest {
        if !tells(&mut pages, book, memories, *first)? {
            return Ok(None);
        }
        rest = others;
    }
    Ok(Some(pages))
}
