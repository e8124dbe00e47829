//! Addresses and bytes in lower-case hexadecimal digits.

ghost use Rattle.std.specs.Prelude.{◌≡◌, [], ◌+◌, ◌*◌, ◌/◌, ◌%◌, ◌<◌, ◌++◌, ◌&&◌, nat_lt, false};
ghost use Rattle.std.specs.Prelude.{if◌then◌else◌, length, take, option_map, Some, None, IfOk};
ghost use Rattle.std.specs.Fmt.{digit_glyph};
ghost use Rattle.av_text.specs.Hex.{hex as digits_of, hex_text, pairs_of, data_of, data_at};
ghost use Rattle.av_text.specs.Word.{Adds, field};

use crate::bytes::Bytes;
use crate::number::worth_by;
use crate::word::after;
use av_base::PAGE_SIZE;
use std::alloc::{AllocError, Global};
use std::mem::replace;

/// Whether all bytes before were digits, and the next two are.
#[inline]
fn are_digits(before: bool, high: u8, low: u8) -> bool
    ensures { result ≡ ((before && nat_lt high 16) && nat_lt low 16) }
{
    before && high < 16 && low < 16
}

/// Fewer bytes than this are read and written by tables of digits, more of them by arithmetic, of
/// which the compiler makes vector code.
const FEW: usize = 16;

/// Fills `found` with the bytes that pairs of digits spell; false where a byte is no digit.
pub fn decode(word: &[u8], found: &mut [u8]) -> bool
    requires { length word.now ≡ 2 * length found.old }
    ensures { pairs_of word.now ≡ (if result then Some found.new else None) }
{
    if found.len() < FEW {
        decode_by(true, word, found)
    } else {
        decode_by(false, word, found)
    }
}

/// The same, by the table or by arithmetic.
// The loop has no way out: so it takes a third of the time.
#[inline(always)]
fn decode_by(by_table: bool, word: &[u8], found: &mut [u8]) -> bool
    requires { length word.now ≡ 2 * length found.old }
    ensures { pairs_of word.now ≡ (if result then Some found.new else None) }
{
    let mut spelled = true;
    for i in 0..found.len() {
        let high = worth_by(by_table, word[2 * i]);
        let low = worth_by(by_table, word[2 * i + 1]);
        spelled = are_digits(spelled, high, low);
        found[i] = 16 * (high % 16) + low % 16;
    }
    spelled
}

/// The bytes of a word, over the room of `spare`: 1 to 4096, two digits each. A longer word costs
/// no memory.
#[tactic(auto, using(crate::proofs::HexLaws::odd_none), unfolding(crate::specs::Hex::data_of))]
fn data_word(alloc: Global, word: &[u8], spare: &mut Bytes) -> Result<Option<Bytes>, AllocError>
    ensures { IfOk result (λ found. found ≡ data_of word.now) }
{
    if word.len() < 2 || 2 * PAGE_SIZE < word.len() as u64 {
        return Ok(None);
    }
    if word.len() % 2 == 1 {
        return Ok(None);
    }
    if !spare.decode(word)? {
        return Ok(None);
    }
    Ok(Some(replace(spare, Bytes::new(alloc))))
}

/// What `write` stores: after a space, the rest of the line.
#[tactic(auto, unfolding(crate::specs::Hex::data_at))]
pub fn data_field(
    alloc: Global,
    bytes: &[u8],
    spare: &mut Bytes,
) -> Result<Option<Bytes>, AllocError>
    ensures { IfOk result (λ found. option_map (λ b. (b, [])) found ≡ data_at bytes.now) }
{
    match after(bytes, b" ") {
        Some(word) => data_word(alloc, word, spare),
        None => Ok(None),
    }
}

/// The digits by what they are worth.
static DIGITS: [u8; 16] = *b"0123456789abcdef";

/// The digit of a value, by arithmetic.
#[inline(always)]
fn digit(value: u8) -> u8
    requires { value < 16 }
    ensures { result ≡ digit_glyph false value }
{
    if value < 10 {
        b'0' + value
    } else {
        b'a' + (value - 10)
    }
}

/// The digit of a value, by the table.
#[inline(always)]
fn table_digit(value: u8) -> u8
    requires { value < 16 }
    ensures { result ≡ digit_glyph false value }
{
    DIGITS[value as usize]
}

/// The two digits of each byte, one after another.
static PAIRS: [u8; 512] = *b"\
    000102030405060708090a0b0c0d0e0f101112131415161718191a1b1c1d1e1f\
    202122232425262728292a2b2c2d2e2f303132333435363738393a3b3c3d3e3f\
    404142434445464748494a4b4c4d4e4f505152535455565758595a5b5c5d5e5f\
    606162636465666768696a6b6c6d6e6f707172737475767778797a7b7c7d7e7f\
    808182838485868788898a8b8c8d8e8f909192939495969798999a9b9c9d9e9f\
    a0a1a2a3a4a5a6a7a8a9aaabacadaeafb0b1b2b3b4b5b6b7b8b9babbbcbdbebf\
    c0c1c2c3c4c5c6c7c8c9cacbcccdcecfd0d1d2d3d4d5d6d7d8d9dadbdcdddedf\
    e0e1e2e3e4e5e6e7e8e9eaebecedeeeff0f1f2f3f4f5f6f7f8f9fafbfcfdfeff";

/// The digits of a byte, by the table or by arithmetic.
#[inline(always)]
fn digits_of_byte(by_table: bool, byte: u8) -> (u8, u8)
    ensures high { result.0 ≡ digit_glyph false (byte / 16) }
    ensures low { result.1 ≡ digit_glyph false (byte % 16) }
{
    if by_table {
        return pair_in_table(byte);
    }
    (digit(byte / 16), digit(byte % 16))
}

/// The digits of a byte, by the table.
#[inline(always)]
fn pair_in_table(byte: u8) -> (u8, u8)
    ensures high { result.0 ≡ digit_glyph false (byte / 16) }
    ensures low { result.1 ≡ digit_glyph false (byte % 16) }
{
    let at = 2 * byte as usize;
    (PAIRS[at], PAIRS[at + 1])
}

/// Writes bytes from `start` on, two digits each.
pub fn encode(bytes: &[u8], digits: &mut [u8], start: usize)
    requires { length digits.old ≡ start + 2 * length bytes.now }
    ensures { digits.new ≡ take start digits.old ++ hex_text bytes.now }
{
    if bytes.len() < FEW {
        encode_by(true, bytes, digits, start);
    } else {
        encode_by(false, bytes, digits, start);
    }
}

/// The same, by the table or by arithmetic.
#[inline(always)]
fn encode_by(by_table: bool, bytes: &[u8], digits: &mut [u8], start: usize)
    requires { length digits.old ≡ start + 2 * length bytes.now }
    ensures { digits.new ≡ take start digits.old ++ hex_text bytes.now }
{
    for i in 0..bytes.len() {
        let (high, low) = digits_of_byte(by_table, bytes[i]);
        digits[start + 2 * i] = high;
        digits[start + 2 * i + 1] = low;
    }
}

/// Adds a number in hexadecimal digits.
pub fn add_hex(text: &mut Bytes, n: u64) -> Result<(), AllocError>
    ensures { Adds result text.old text.new (digits_of n) }
{
    let mut digits = [0u8; 16];
    let mut at = 15;
    let mut rest = n;
    while 256 <= rest {
        let (high, low) = pair_in_table((rest % 256) as u8);
        digits[at] = low;
        digits[at - 1] = high;
        rest /= 256;
        at -= 2;
    }
    if 16 <= rest {
        digits[at] = table_digit((rest % 16) as u8);
        rest /= 16;
        at -= 1;
    }
    digits[at] = table_digit(rest as u8);
    text.append(&digits[at..])
}

/// Adds a space and an address.
pub fn add_address(text: &mut Bytes, address: u64) -> Result<(), AllocError>
    ensures { Adds result text.old text.new (field (digits_of address)) }
{
    text.append(b" ")?;
    add_hex(text, address)
}

/// Adds a space and bytes, two digits each.
pub fn add_bytes(text: &mut Bytes, bytes: &[u8]) -> Result<(), AllocError>
    ensures { Adds result text.old text.new (field (hex_text bytes.now)) }
{
    text.append(b" ")?;
    text.append_hex(bytes)
}
