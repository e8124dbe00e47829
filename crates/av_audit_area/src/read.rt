//! The reply to `areas`, read loosely: of a text that is none's, anything may be read.

ghost use Rattle.std.specs.Prelude.{◌≡◌, ◌∷◌, IfOk, List};
ghost use Rattle.std.specs.Prelude.{length};
ghost use Rattle.std.specs.List.{AllByRecursion};
ghost use Rattle.av_text.specs.Number.{IsWide};
ghost use Rattle.av_trace.specs.Print.{rows_text, text_of};
ghost use Rattle.av_trace.specs.Reply.{IsReply};
ghost use Rattle.av_trace.specs.Row.{IsAreaRow, row_line};
ghost use Rattle.av_trace.specs.declared.row.Row.{Row as AnyRow};
ghost use Rattle.av_audit_area.specs.Read.{AreWords, shown_areas};

use crate::words::{bytes_behind, chain_numbers, flags_of, hex_number, own_number, piece, prot_of};
use av_trace::{Answer, Chain, Reply, Row, Rows};
use std::alloc::{AllocError, Global};

/// The words of a row's line, without their labels.
#[derive(Clone, Copy, Drop)]
struct Words<'a> {
    start: &'a [u8],
    end: &'a [u8],
    prot: &'a [u8],
    offset: &'a [u8],
    own: &'a [u8],
    chain: &'a [u8],
    flags: &'a [u8],
}

/// The words of a line.
fn words_of(line: &[u8]) -> Words<'_>
    ensures { (row : AnyRow) → IsAreaRow row → line.now ≡ 32 ∷ row_line row
        → AreWords row result }
{
    let (_, rest) = piece(b' ', line);
    let (range, rest) = piece(b' ', rest);
    let (start, end) = piece(b'-', range);
    let (prot, rest) = piece(b' ', rest);
    let (offset, rest) = piece(b' ', rest);
    let (own, rest) = piece(b' ', rest);
    let (chain, flags) = piece(b' ', rest);
    Words {
        start,
        end,
        prot,
        offset: bytes_behind(offset, b"off="),
        own: bytes_behind(own, b"own="),
        chain: bytes_behind(chain, b"chain="),
        flags,
    }
}

/// The row that a line is.
fn area_row(alloc: Global, line: &[u8]) -> Result<Row, AllocError>
    ensures { IfOk result (λ found. (row : AnyRow) → IsAreaRow row
        → line.now ≡ 32 ∷ row_line row → found ≡ row) }
{
    let words = words_of(line);
    let start = hex_number(alloc, words.start)?;
    let end = hex_number(alloc, words.end)?;
    let offset = hex_number(alloc, words.offset)?;
    let numbers = chain_numbers(alloc, words.chain)?;
    Ok(Row::Area {
        start,
        end,
        prot: prot_of(words.prot),
        offset,
        own: own_number(words.own),
        chain: Chain::from_vec(numbers),
        flags: flags_of(words.flags),
    })
}

/// The rows that lines are.
fn area_rows(alloc: Global, text: &[u8]) -> Result<Rows, AllocError>
    ensures { IfOk result (λ found. (rows : List AnyRow) → AllByRecursion IsAreaRow rows
        → text.now ≡ rows_text rows → found ≡ rows) }
{
    let mut rows = Rows::new(alloc);
    let mut rest = text;
    while !rest.is_empty() {
        let (line, others) = piece(b'\n', rest);
        rows.push(area_row(alloc, line)?)?;
        rest = others;
    }
    Ok(rows)
}

/// A number is of 64 bits.
fn fits(n: u64)
    ensures { IsWide n }
{
    let _ = n;
}

/// The reply to `areas` that a text is.
pub fn areas_reply(alloc: Global, text: &[u8]) -> Result<Reply, AllocError>
    ensures form { IfOk result (λ found. (found ≡ shown_areas found.rows)
        × IsWide (length found.rows)) }
    ensures rows { IfOk result (λ found. (rows : List AnyRow) → IsReply (shown_areas rows)
        → text.now ≡ text_of (shown_areas rows) → found.rows ≡ rows) }
{
    let (_, lines) = piece(b'\n', text);
    let mut reply = Reply::new(alloc);
    reply.rows = area_rows(alloc, lines)?;
    let n = reply.rows.as_slice().len() as u64;
    fits(n);
    reply.answer = Answer::AreaList(n);
    Ok(reply)
}
