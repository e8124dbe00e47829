//! Units for `rmap`.

ghost use Rattle.std.specs.Prelude.{◌≡◌, [], IfOk, None, map, option_map};
ghost use Rattle.av_trace.specs.declared.command.Command.TheVariants as commands;
ghost use Rattle.av_trace.specs.Row.{IsEntry};
ghost use Rattle.av_plain.specs.Ledger.{Setting};
ghost use Rattle.av_plain.specs.Refusal.{refusal, tests};
ghost use Rattle.av_plain.specs.Report.{key_row};
ghost use Rattle.av_plain.specs.World.{World};
ghost use Rattle.av_audit_pages.specs.Entries.{entry_of};
ghost use Rattle.av_audit_book.specs.Book.{ledger_of};
ghost use Rattle.av_audit_judge.specs.Verdict.{IsVerdict};
ghost use Rattle.av_audit_report.specs.Made.{IsMade};
ghost use Rattle.av_audit_report.specs.Report.{shown_walk};
ghost use Rattle.av_audit_report.specs.Rows.{AreFilled, IsAdded};

use crate::made::is_made;
use av_audit_book::{Book, Entry};
use av_base::PAGE_SIZE;
use av_trace::{Answer, Reply, Row, Rows};
use std::alloc::{AllocError, Global};

/// Whether a unit is legal for `rmap`, where nothing refuses that.
pub fn judges_rmap(
    book: &Book,
    alloc: Global,
    process: u16,
    address: u64,
    text: &[u8],
) -> Result<bool, AllocError>
    ensures { IfOk result (λ legal. (m : Setting) (w : World)
        → refusal (tests m w (ledger_of book.now) (commands.Rmap process address)) ≡ None
        → IsVerdict m w (ledger_of book.now) (commands.Rmap process address) text.now legal
        (ledger_of book.now)) }
{
    let made = walk_reply(book, alloc, book.entry(process, address / 4096))?;
    is_made(alloc, &made, text)
}

/// The walk of the frame that an entry names; none where an address is of more than 64 bits.
fn walk_reply(book: &Book, alloc: Global, entry: Option<Entry>) -> Result<Option<Reply>, AllocError>
    ensures { IfOk result (λ made.
        IsMade (shown_walk (ledger_of book.now) (option_map entry_of entry)) made) }
{
    let mut reply = Reply::new(alloc);
    match entry {
        Some(Entry::InFrame { frame, .. }) => {
            let keys = book.keys_of_frame(alloc, frame)?;
            if !add_keys(keys.as_slice(), &mut reply.rows)? {
                return Ok(None);
            }
            let maps = keys.len() as u64;
            reply.answer = Answer::Walk { frame, maps };
        }
        _ => reply.answer = Answer::NoWalk,
    }
    Ok(Some(reply))
}

/// Adds the rows of some keys, if each address is of 64 bits.
fn add_keys(keys: &[(u16, u64)], rows: &mut Rows) -> Result<bool, AllocError>
    requires { rows.old ≡ [] }
    ensures { IfOk result (λ fit. AreFilled IsEntry (map key_row keys.now) fit rows.new) }
{
    let mut rest = keys;
    while let [first, others @ ..] = rest {
        if !add_key(*first, rows)? {
            return Ok(false);
        }
        rest = others;
    }
    Ok(true)
}

/// Adds the row of a key, if its address is of 64 bits.
fn add_key(key: (u16, u64), rows: &mut Rows) -> Result<bool, AllocError>
    ensures { IfOk result (λ fits. IsAdded IsEntry (key_row key) fits rows.old rows.new) }
{
    match PAGE_SIZE.checked_mul(key.1) {
        None => Ok(false),
        Some(address) => {
            rows.push(Row::Entry {
                process: key.0,
                address,
            })?;
            Ok(true)
        }
    }
}
