//! A list of bytes, which contracts see as the list.

ghost use Rattle.std.specs.Prelude.{◌≡◌, ℕ, ◌%◌, List, [], ◌++◌, if◌then◌else◌, length, Some, None};
ghost use Rattle.std.specs.Prelude.{IfOk, OnOk, OnErr};
ghost use Rattle.av_text.specs.Hex.{hex_text, pairs_of};

use crate::hex::{decode, encode};
use std::alloc::{AllocError, Global};
use std::marker::Model;

/// Bytes in order: what a write stores, what a read shows, or a reply's text.
#[derive(Drop)]
pub struct Bytes {
    items: Vec<u8>,
}

impl Model for Bytes {
    ghost use Rattle.std.specs.Prelude.{List, ℕ};
    ghost use Rattle.std.specs.Coded.{coded_ℕ, coded_list};

    ghost Value = { List ℕ };

    ghost coded = { coded_list coded_ℕ };

    ghost view = { λ b. b.items.items };
}

impl Bytes {
    /// No bytes.
    pub fn new(alloc: Global) -> Self
        ensures { result ≡ [] }
    {
        Bytes {
            items: Vec::new(alloc),
        }
    }

    /// The bytes of a vector.
    pub fn from_vec(items: Vec<u8>) -> Self
        ensures { result ≡ items.items }
    {
        Bytes { items }
    }

    /// How many there are.
    pub fn len(&self) -> usize
        ensures { result ≡ length self.now }
    {
        self.items.len()
    }

    pub fn as_slice(&self) -> &[u8]
        ensures { result.now ≡ self.now }
    {
        self.items.as_slice()
    }

    /// Forgets them and keeps the room.
    pub fn clear(&mut self)
        ensures { self.new ≡ [] }
    {
        self.items.clear();
    }

    /// Makes it the bytes that pairs of digits spell; false where a byte is no digit. What it was
    /// is forgotten, and its room serves.
    pub(crate) fn decode(&mut self, digits: &[u8]) -> Result<bool, AllocError>
        requires even { length digits.now % 2 ≡ 0 }
        ensures { IfOk result (λ spelled. pairs_of digits.now
            ≡ (if spelled then Some self.new else None)) }
    {
        self.items.clear();
        self.items.resize(digits.len() / 2, 0)?;
        Ok(decode(digits, self.items.as_mut_slice()))
    }

    /// Adds a piece at the end. Without memory all stays.
    // What there is room for is copied in line: where the caller knows the piece's length that is a
    // store or two, and no call.
    #[inline(always)]
    pub fn append(&mut self, piece: &[u8]) -> Result<(), AllocError>
        ensures ok { OnOk result (self.new ≡ self.old ++ piece.now) }
        ensures err { OnErr result (self.new ≡ self.old) }
    {
        if piece.len() <= self.items.capacity() - self.items.len() {
            self.items.extend_from_slice(piece)?;
            return Ok(());
        }
        self.append_growing(piece)
    }

    /// The same, where the room is to grow.
    #[cold]
    #[inline(never)]
    fn append_growing(&mut self, piece: &[u8]) -> Result<(), AllocError>
        ensures ok { OnOk result (self.new ≡ self.old ++ piece.now) }
        ensures err { OnErr result (self.new ≡ self.old) }
    {
        self.items.extend_from_slice(piece)?;
        Ok(())
    }

    /// Adds bytes at the end as lower-case digits, two each. Without memory all stays.
    pub fn append_hex(&mut self, bytes: &[u8]) -> Result<(), AllocError>
        ensures ok { OnOk result (self.new ≡ self.old ++ hex_text bytes.now) }
        ensures err { OnErr result (self.new ≡ self.old) }
    {
        let start = self.items.len();
        // A slice of bytes has fewer than 2^63.
        let Some(end) = start.checked_add(2 * bytes.len()) else {
            return Err(AllocError);
        };
        self.items.resize(end, 0)?;
        encode(bytes, self.items.as_mut_slice(), start);
        Ok(())
    }
}
