//! Units whose reply is known before they are read.

ghost use Rattle.std.specs.Prelude.{◌≡◌, ◌+◌, ◌<◌, ◌^◌, ℕ, IfOk, IfSome};
ghost use Rattle.av_plain.specs.Map.{hole_answer as hole_answer_of};
ghost use Rattle.av_plain.specs.World.{Process, pages_to_hole};
ghost use Rattle.av_plain.specs.Zap.{keys_in, zaps_of};
ghost use Rattle.av_audit_book.specs.Book.{ledger_of};
ghost use Rattle.av_audit.specs.Known.{SaysEvents, map_answer as map_answer_of};

use av_audit_book::Book;
use av_audit_events::zap_range;
use av_audit_judge::{all_fit, is_reply};
use av_base::PAGE_SIZE;
use av_trace::{Answer, Errno, Reply};
use std::alloc::{AllocError, Global};

/// The entries of n pages from one on go; and whether the unit is the text of this answer with the
/// notes of that. Without memory a part may be done.
pub fn says_zaps(
    alloc: Global,
    book: &mut Book,
    process: u16,
    from: u64,
    n: u64,
    answer: Answer,
    unit: &[u8],
) -> Result<bool, AllocError>
    requires { from + n < 2 ^ 64 }
    ensures { IfOk result (λ legal. SaysEvents (ledger_of book.old) answer
        (zaps_of (ledger_of book.old) (keys_in (ledger_of book.old) process from n)) unit.now legal
        (ledger_of book.new)) }
{
    let mut reply = Reply::new(alloc);
    reply.answer = answer;
    zap_range(book, alloc, process, from, n, &mut reply.notes)?;
    all_fit(reply.notes.as_slice());
    is_reply(alloc, &reply, unit)
}

/// The answer of a command for which all n pages have to be mapped, where so many of them come
/// before the first that isn't.
pub fn hole_answer(before: u64, n: u64) -> Answer
    ensures { (q : Process) (from : ℕ) → before ≡ pages_to_hole q from n
        → result ≡ hole_answer_of q from n }
{
    if before == n {
        Answer::Done
    } else {
        Answer::Refused(Errno::Enomem)
    }
}

/// What is answered where pages stand from a page on then, or that there is no place.
pub fn map_answer(to: Option<u64>) -> Answer
    requires { IfSome to (λ page. page < 2 ^ 52) }
    ensures { result ≡ map_answer_of to }
{
    match to {
        None => Answer::Refused(Errno::Enomem),
        Some(page) => Answer::MapAt(page * PAGE_SIZE),
    }
}
