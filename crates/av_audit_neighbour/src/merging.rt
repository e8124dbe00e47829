//! Units of `merge`.

ghost use Rattle.std.specs.Prelude.{◌≡◌, ◌<◌, ◌++◌, ◌∷◌, ℕ, [], IfOk, List, OnOk};
ghost use Rattle.av_base.specs.Limits.{top_page};
ghost use Rattle.av_trace.specs.declared.command.Command.TheVariants as commands;
ghost use Rattle.av_plain.specs.Event.{after_note, after_notes};
ghost use Rattle.av_plain.specs.Ledger.{Setting};
ghost use Rattle.av_plain.specs.Sound.{AllSound};
ghost use Rattle.av_plain.specs.World.{World};
ghost use Rattle.av_audit_book.specs.Book.{ledger_of};
ghost use Rattle.av_audit_book.specs.Machine.{setting_of};
ghost use Rattle.av_audit_judge.specs.Verdict.{IsVerdict};
ghost use Rattle.av_audit_world.specs.Memories.{IsWorld};
ghost use Rattle.av_audit_neighbour.specs.Held.{held_by};
ghost use Rattle.av_audit_neighbour.specs.Known.{AreInRange, turn_notes};
ghost use Rattle.av_audit_neighbour.specs.Merging.{HasMerged, HasTurned, IsAware};

use crate::candidates::{all_keys, candidate};
use crate::contents::{Contents, content, merged_contents};
use crate::first::first_pages;
use crate::held::FramePages;
use av_audit_book::{Book, Machine};
use av_audit_judge::{all_fit, is_reply};
use av_audit_world::Memories;
use av_base::PAGE_SIZE;
use av_trace::{Note, Notes, Reply};
use std::alloc::{AllocError, Global};

/// A note is added, and what it tells happens. Without memory a part may be done.
fn adds(book: &mut Book, notes: &mut Notes, note: Note) -> Result<(), AllocError>
    ensures notes { OnOk result (notes.new ≡ notes.old ++ note ∷ []) }
    ensures ledger { OnOk result (ledger_of book.new ≡ after_note note (ledger_of book.old)) }
{
    book.follow(note)?;
    notes.push(note)?;
    Ok(())
}

/// A page whose frame is its own joins the first known frame that holds the same, which is merged
/// then; the notes are added. It joins nothing where that is its own. Without memory a part may be
/// done.
fn joins(
    book: &mut Book,
    notes: &mut Notes,
    key: (u16, u64),
    own: u32,
    first: u32,
) -> Result<(), AllocError>
    requires { key.1 < top_page }
    ensures notes { OnOk result (notes.new
        ≡ notes.old ++ turn_notes (ledger_of book.old) key own first) }
    ensures ledger { OnOk result (ledger_of book.new
        ≡ after_notes (ledger_of book.old) (turn_notes (ledger_of book.old) key own first)) }
{
    if !book.is_merged(first) {
        if first == own {
            return Ok(());
        }
        adds(book, notes, Note::Shared(first))?;
    }
    let note = Note::Joined {
        process: key.0,
        address: key.1 * PAGE_SIZE,
        frame: first,
    };
    adds(book, notes, note)
}

/// A page in its turn: if it is a candidate, it joins a known frame that holds the same, or its own
/// is known from now on; the notes are added. Without memory a part may be done.
fn takes_turn<'a>(
    book: &mut Book,
    memories: &'a Memories,
    pages: &FramePages,
    contents: &mut Contents<'a>,
    key: (u16, u64),
    notes: &mut Notes,
) -> Result<(), AllocError>
    ensures { OnOk result ((m : Setting) (w : World) (earlier : List ℕ) → IsWorld memories.now w
        → IsAware m (held_by memories.now pages.now) (ledger_of book.old) earlier contents.old
        → HasTurned m (held_by memories.now pages.now) w (ledger_of book.old) earlier key notes.old
        (ledger_of book.new) notes.new contents.new) }
{
    let Some(own) = candidate(book, memories, key) else {
        return Ok(());
    };
    let bytes = content(memories, pages, own);
    match contents.find(bytes) {
        None => contents.add(bytes, own),
        Some(first) => joins(book, notes, key, own, first),
    }
}

/// The pages in turn, each by what those before it left; the notes are added. Without memory a part
/// may be done.
fn merges(
    book: &mut Book,
    machine: &Machine,
    memories: &Memories,
    pages: &FramePages,
    keys: &[(u16, u64)],
    notes: &mut Notes,
) -> Result<(), AllocError>
    ensures { OnOk result ((w : World) → IsWorld memories.now w
        → AreInRange (setting_of machine.now) (ledger_of book.old)
        → HasMerged (setting_of machine.now) (held_by memories.now pages.now) w
        (ledger_of book.old) keys.now notes.old (ledger_of book.new) notes.new) }
{
    let mut contents = merged_contents(book, machine, memories, pages)?;
    let mut rest = keys;
    while let [key, others @ ..] = rest {
        takes_turn(book, memories, pages, &mut contents, *key, notes)?;
        rest = others;
    }
    Ok(())
}

/// Whether a unit is legal for `merge`.
pub fn judges_merge(
    book: &mut Book,
    machine: &Machine,
    memories: &Memories,
    alloc: Global,
    text: &[u8],
) -> Result<bool, AllocError>
    ensures { IfOk result (λ legal. (w : World) → IsWorld memories.now w
        → AllSound (setting_of machine.now) w (ledger_of book.old)
        → IsVerdict (setting_of machine.now) w (ledger_of book.old) commands.Merge text.now legal
        (ledger_of book.new)) }
{
    let keys = all_keys(alloc, book)?;
    match first_pages(alloc, book, memories, keys.as_slice())? {
        None => Ok(false),
        Some(pages) => {
            let mut reply = Reply::new(alloc);
            merges(
                book,
                machine,
                memories,
                &pages,
                keys.as_slice(),
                &mut reply.notes,
            )?;
            all_fit(reply.notes.as_slice());
            is_reply(alloc, &reply, text)
        }
    }
}
