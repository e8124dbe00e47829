//! Words of a row, read loosely: what is said to stand there where it is none is of no account.

ghost use Rattle.std.specs.Prelude.{◌≡◌, ◌<◌, ◌++◌, ◌∷◌, [], ℕ, IfOk, IfSome, List, Option};
ghost use Rattle.std.specs.Prelude.{MatchBool, codes, length, true};
ghost use Rattle.std.specs.List.{AllByRecursion};
ghost use Rattle.av_base.specs.declared.flags.Flags.{Flags as AnyFlags};
ghost use Rattle.av_base.specs.declared.prot.Prot.{Prot as AnyProt};
ghost use Rattle.av_text.specs.Hex.{hex};
ghost use Rattle.av_text.specs.Number.{IsWide};
ghost use Rattle.av_text.specs.Prot.{prot_text};
ghost use Rattle.av_trace.specs.Row.{chain_text, flag_words, own_text};
ghost use Rattle.av_audit_judge.specs.Notes.{lacks};
ghost use Rattle.av_audit_area.specs.Read.{flag_in, words_with};
ghost use Rattle.av_audit_area.specs.Read.{bytes_behind as bytes_behind_of};

use av_audit_judge::cut;
use av_base::{Flags, Prot};
use av_text::Bytes;
use av_text::number::{address, number_in};
use av_text::word::{add_word, after};
use std::alloc::{AllocError, Global};

/// The bytes before the first that is this one, and those behind it; all and none where none is.
pub fn piece(byte: u8, bytes: &[u8]) -> (&[u8], &[u8])
    ensures cut { (first others : List ℕ) → lacks byte first ≡ true
        → bytes.now ≡ first ++ byte ∷ others
        → (result.0.now ≡ first) × (result.1.now ≡ others) }
    ensures all { lacks byte bytes.now ≡ true
        → (result.0.now ≡ bytes.now) × (result.1.now ≡ []) }
    ensures shorter { 0 < length bytes.now → length result.1.now < length bytes.now }
{
    match cut(byte, bytes) {
        None => (bytes, &[]),
        Some((first, others)) => (first, others),
    }
}

/// What follows a label, or all.
pub fn bytes_behind<'a>(bytes: &'a [u8], label: &[u8]) -> &'a [u8]
    ensures { result.now ≡ bytes_behind_of label.now bytes.now }
{
    match after(bytes, label) {
        None => bytes,
        Some(word) => word,
    }
}

/// The number in hexadecimal digits that a word is.
pub fn hex_number(alloc: Global, word: &[u8]) -> Result<u64, AllocError>
    ensures { IfOk result (λ found. (n : ℕ) → IsWide n → word.now ≡ hex n → found ≡ n) }
{
    // An address is read behind a space.
    let mut text = Bytes::new(alloc);
    add_word(&mut text, word)?;
    match address(text.as_slice()) {
        None => Ok(0),
        Some((number, _)) => Ok(number),
    }
}

/// The number that a word is, if it is one.
pub fn own_number(word: &[u8]) -> Option<u64>
    ensures { (own : Option ℕ) → IfSome own IsWide → word.now ≡ own_text own → result ≡ own }
{
    number_in(word, 0, u64::MAX)
}

/// Whether a word is that of no number.
fn is_dash(word: &[u8]) -> bool
    ensures { MatchBool result (word.now ≡ codes "-") (word.now ≡ codes "-" → ⊥) }
{
    word == b"-".as_slice()
}

/// The numbers between the commas of a word.
pub fn chain_numbers(alloc: Global, word: &[u8]) -> Result<Vec<u64>, AllocError>
    ensures { IfOk result (λ found. (chain : List ℕ) → AllByRecursion IsWide chain
        → word.now ≡ chain_text chain → found.items ≡ chain) }
{
    let mut numbers = Vec::new(alloc);
    if is_dash(word) {
        return Ok(numbers);
    }
    let mut rest = word;
    while !rest.is_empty() {
        let (first, others) = piece(b',', rest);
        if let Some(number) = own_number(first) {
            numbers.push(number)?;
        }
        rest = others;
    }
    Ok(numbers)
}

/// The protection that a word is.
pub fn prot_of(word: &[u8]) -> Prot
    ensures { (prot : AnyProt) → word.now ≡ prot_text prot → result ≡ prot }
{
    match word {
        [r, w, x] => Prot {
            read: *r == b'r',
            write: *w == b'w',
            execute: *x == b'x',
        },
        _ => Prot {
            read: false,
            write: false,
            execute: false,
        },
    }
}

/// Whether a word stands in front of others, and what follows it and a space.
fn flag_at<'a>(words: &'a [u8], name: &[u8]) -> (bool, &'a [u8])
    ensures { (result.0, result.1.now) ≡ flag_in name.now words.now }
{
    match after(words, name) {
        None => (false, words),
        Some(rest) => (true, bytes_behind(rest, b" ")),
    }
}

/// The flags that words name.
pub fn flags_of(words: &[u8]) -> Flags
    ensures { (flags : AnyFlags) → words.now ≡ words_with 32 (flag_words flags) → result ≡ flags }
{
    let (dont_fork, rest) = flag_at(words, b"dontfork");
    let (wipe_on_fork, rest) = flag_at(rest, b"wipeonfork");
    let (locked, rest) = flag_at(rest, b"locked");
    let (mergeable, _) = flag_at(rest, b"mergeable");
    Flags {
        dont_fork,
        wipe_on_fork,
        locked,
        mergeable,
    }
}
