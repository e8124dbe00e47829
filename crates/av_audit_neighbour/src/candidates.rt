//! Which pages are candidates.

ghost use Rattle.std.specs.Prelude.{◌≡◌, ◌&&◌, ◌<◌, IfOk, IfSome, is_none, map, not, true};
ghost use Rattle.av_base.specs.Limits.{top_page};
ghost use Rattle.av_plain.specs.Ledger.{is_merged, slot_of};
ghost use Rattle.av_plain.specs.Merge.{candidate as candidate_in, may_merge as may_merge_by};
ghost use Rattle.av_plain.specs.World.{World, pages};
ghost use Rattle.av_audit_book.specs.Book.{ledger_of};
ghost use Rattle.av_audit_world.specs.Memories.{IsWorld};

use crate::held::page_marks;
use av_audit_book::{Book, Entry};
use av_audit_world::Memories;
use av_base::TOP_PAGE;
use std::alloc::{AllocError, Global};

/// The pages that have an entry, by process and address.
pub fn all_keys(alloc: Global, book: &Book) -> Result<Vec<(u16, u64)>, AllocError>
    ensures { IfOk result (λ made. made.items ≡ map (λ e. e.0) (ledger_of book.now).entries) }
{
    let mut made = Vec::new(alloc);
    for key in book.entries().keys() {
        made.push(*key)?;
    }
    Ok(made)
}

/// Whether a page may be merged.
fn may_merge(memories: &Memories, key: (u16, u64)) -> bool
    ensures below { result ≡ true → key.1 < top_page }
    ensures may { (w : World) → IsWorld memories.now w
        → result ≡ may_merge_by (pages w key.0 key.1) }
{
    if key.1 >= TOP_PAGE {
        return false;
    }
    match page_marks(memories, key) {
        None => false,
        Some(marks) => marks.flags.mergeable,
    }
}

/// Whether a page may be merged, and a frame is neither merged nor cached.
fn may_join(book: &Book, memories: &Memories, key: (u16, u64), frame: u32) -> bool
    ensures below { result ≡ true → key.1 < top_page }
    ensures may { (w : World) → IsWorld memories.now w
        → result ≡ (may_merge_by (pages w key.0 key.1)
        && not (is_merged (ledger_of book.now) frame)
        && is_none (slot_of (ledger_of book.now) frame)) }
{
    may_merge(memories, key) && !book.is_merged(frame) && book.slot_of(frame).is_none()
}

/// The frame of a page, if it may join another.
pub fn candidate(book: &Book, memories: &Memories, key: (u16, u64)) -> Option<u32>
    ensures below { IfSome result (λ frame. key.1 < top_page) }
    ensures is { (w : World) → IsWorld memories.now w
        → result ≡ candidate_in w (ledger_of book.now) key }
{
    match book.entry(key.0, key.1) {
        Some(Entry::InFrame { frame, .. }) => {
            if may_join(book, memories, key, frame) && !book.is_locked(memories, frame) {
                Some(frame)
            } else {
                None
            }
        }
        _ => None,
    }
}
