//! Rows of a report.

ghost use Rattle.std.specs.Prelude.{◌≡◌, List, [], ◌∷◌, ◌++◌, OnOk, OnErr};
ghost use Rattle.std.specs.List.{flat_map};
ghost use Rattle.av_trace.specs.Row.{chain_text, flag_words, link_words, own_text};
ghost use Rattle.av_trace.specs.Row.{row_line as line_of_row};
ghost use Rattle.av_trace.specs.Row.{word_if};
ghost use Rattle.av_text.specs.Word.{Adds, field};

use av_base::{Flags, Prot};
use av_text::Bytes;
use av_text::hex::{add_address, add_hex};
use av_text::number::add_decimal;
use av_text::prot::add_prot;
use av_text::word::add_word;
use std::alloc::{AllocError, Global};
use std::marker::Model;

/// The chain of an area: the numbers of the anon_vmas that it is linked to, rising.
#[derive(Drop)]
pub struct Chain {
    numbers: Vec<u64>,
}

impl Model for Chain {
    ghost use Rattle.std.specs.Prelude.{List, ℕ};
    ghost use Rattle.std.specs.Coded.{coded_ℕ, coded_list};

    ghost Value = { List ℕ };

    ghost coded = { coded_list coded_ℕ };

    ghost view = { λ c. c.numbers.items };
}

impl Chain {
    /// The numbers of a vector.
    pub fn from_vec(numbers: Vec<u64>) -> Self
        ensures { result ≡ numbers.items }
    {
        Chain { numbers }
    }

    pub fn as_slice(&self) -> &[u64]
        ensures { result.now ≡ self.now }
    {
        self.numbers.as_slice()
    }
}

/// A row of a report: a run of `maps`, an area of `areas`, or an entry of a frame's walk.
///
/// `start`, `end` and `address` are addresses. An area's `offset` is the linear index of its first
/// page, and `own` the number of its own anon_vma.
#[derive(Drop)]
pub enum Row {
    Run {
        start: u64,
        end: u64,
        prot: Prot,
    },
    Area {
        start: u64,
        end: u64,
        prot: Prot,
        offset: u64,
        own: Option<u64>,
        chain: Chain,
        flags: Flags,
    },
    Entry {
        process: u16,
        address: u64,
    },
}

/// The rows of a report, in order.
#[derive(Drop)]
pub struct Rows {
    items: Vec<Row>,
}

impl Model for Rows {
    ghost use Rattle.std.specs.Prelude.{List};
    ghost use Rattle.av_trace.specs.declared.row.Row.{Row};

    ghost Value = { List Row };

    ghost view = { λ r. r.items.items };
}

impl Rows {
    /// No rows.
    pub fn new(alloc: Global) -> Self
        ensures { result ≡ [] }
    {
        Rows {
            items: Vec::new(alloc),
        }
    }

    /// Adds a row at the end. Without memory all stays.
    #[inline(always)]
    pub fn push(&mut self, row: Row) -> Result<(), AllocError>
        ensures ok { OnOk result (self.new ≡ self.old ++ row ∷ []) }
        ensures err { OnErr result (self.new ≡ self.old) }
    {
        self.items.push(row)?;
        Ok(())
    }

    /// Forgets them and keeps the room.
    pub fn clear(&mut self)
        ensures { self.new ≡ [] }
    {
        self.items.clear();
    }

    pub fn as_slice(&self) -> &[Row]
        ensures { result.now ≡ self.now }
    {
        self.items.as_slice()
    }
}

/// Adds the addresses of pages from `start` to `end`, and their protection.
fn add_run(text: &mut Bytes, start: u64, end: u64, prot: Prot) -> Result<(), AllocError>
    ensures { Adds result text.old text.new (line_of_row (Row.Run start end prot)) }
{
    add_hex(text, start)?;
    text.append(b"-")?;
    add_hex(text, end)?;
    add_prot(text, prot)
}

/// Adds a number, or `-` where there is none.
fn add_own(text: &mut Bytes, own: Option<u64>) -> Result<(), AllocError>
    ensures { Adds result text.old text.new (own_text own) }
{
    match own {
        None => text.append(b"-"),
        Some(number) => add_decimal(text, number),
    }
}

/// Adds numbers with commas between, or `-` where there are none.
fn add_chain(text: &mut Bytes, chain: &[u64]) -> Result<(), AllocError>
    ensures { Adds result text.old text.new (chain_text chain.now) }
{
    let Some((first, rest)) = chain.split_first() else {
        return text.append(b"-");
    };
    add_decimal(text, *first)?;
    for number in rest {
        text.append(b",")?;
        add_decimal(text, *number)?;
    }
    Ok(())
}

/// Adds the offset of an area, its own anon_vma and its chain.
fn add_links(
    text: &mut Bytes,
    offset: u64,
    own: Option<u64>,
    chain: &[u64],
) -> Result<(), AllocError>
    ensures { Adds result text.old text.new (flat_map field (link_words offset own chain.now)) }
{
    add_word(text, b"off=")?;
    add_hex(text, offset)?;
    add_word(text, b"own=")?;
    add_own(text, own)?;
    add_word(text, b"chain=")?;
    add_chain(text, chain)
}

/// Adds a word, if it is to stand.
fn add_word_if(text: &mut Bytes, set: bool, word: &[u8]) -> Result<(), AllocError>
    ensures { Adds result text.old text.new (flat_map field (word_if set word.now)) }
{
    if set { add_word(text, word) } else { Ok(()) }
}

/// Adds the flags that an area has.
fn add_flags(text: &mut Bytes, flags: Flags) -> Result<(), AllocError>
    ensures { Adds result text.old text.new (flat_map field (flag_words flags)) }
{
    add_word_if(text, flags.dont_fork, b"dontfork")?;
    add_word_if(text, flags.wipe_on_fork, b"wipeonfork")?;
    add_word_if(text, flags.locked, b"locked")?;
    add_word_if(text, flags.mergeable, b"mergeable")
}

/// Adds the line of a row, without its newline.
pub fn row_line(text: &mut Bytes, row: &Row) -> Result<(), AllocError>
    ensures { Adds result text.old text.new (line_of_row row.now) }
{
    match row {
        Row::Run { start, end, prot } => add_run(text, *start, *end, *prot),
        Row::Area {
            start,
            end,
            prot,
            offset,
            own,
            chain,
            flags,
        } => {
            add_run(text, *start, *end, *prot)?;
            add_links(text, *offset, *own, chain.as_slice())?;
            add_flags(text, *flags)
        }
        Row::Entry { process, address } => {
            add_decimal(text, u64::from(*process))?;
            add_address(text, *address)
        }
    }
}
