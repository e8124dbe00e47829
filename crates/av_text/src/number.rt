//! Numbers in digits of base 10 or 16, without a leading zero.

ghost use Rattle.std.specs.Prelude.{◌≡◌, ℕ, ◌+◌, ◌/◌, ◌%◌, ◌<◌, ◌≤◌, option_map, IfSome, IfNone};
ghost use Rattle.std.specs.Fmt.{decimal as digits_of};
ghost use Rattle.av_text.specs.Number.{IsNumberIn, worth, starts_number, digits_from, number_from};
ghost use Rattle.av_text.specs.Number.{number_at, decimal_at, process_at, len_at, address_at};
ghost use Rattle.av_text.specs.Number.{entry_at};
ghost use Rattle.av_text.specs.Word.{Adds, field};

use crate::bytes::Bytes;
use crate::word::after;
use itoa::Buffer;
use std::alloc::AllocError;

/// What a digit is worth, 0 to 9 or a to f; 255 where the byte is none.
#[inline]
#[tactic(auto, unfolding(crate::specs::Number::worth))]
fn digit_worth(byte: u8) -> u8
    ensures { result ≡ worth byte }
{
    let digit = byte.wrapping_sub(b'0');
    let letter = byte.wrapping_sub(b'a');
    let above = if letter < 6 { letter + 10 } else { 255 };
    if digit < 10 { digit } else { above }
}

/// What each byte is worth.
static WORTHS: [u8; 256] = [
    255, 255, 255, 255, 255, 255, 255, 255, 255, 255, 255, 255, 255, 255, 255, 255, 255, 255, 255,
    255, 255, 255, 255, 255, 255, 255, 255, 255, 255, 255, 255, 255, 255, 255, 255, 255, 255, 255,
    255, 255, 255, 255, 255, 255, 255, 255, 255, 255, 0, 1, 2, 3, 4, 5, 6, 7, 8, 9, 255, 255, 255,
    255, 255, 255, 255, 255, 255, 255, 255, 255, 255, 255, 255, 255, 255, 255, 255, 255, 255, 255,
    255, 255, 255, 255, 255, 255, 255, 255, 255, 255, 255, 255, 255, 255, 255, 255, 255, 10, 11,
    12, 13, 14, 15, 255, 255, 255, 255, 255, 255, 255, 255, 255, 255, 255, 255, 255, 255, 255, 255,
    255, 255, 255, 255, 255, 255, 255, 255, 255, 255, 255, 255, 255, 255, 255, 255, 255, 255, 255,
    255, 255, 255, 255, 255, 255, 255, 255, 255, 255, 255, 255, 255, 255, 255, 255, 255, 255, 255,
    255, 255, 255, 255, 255, 255, 255, 255, 255, 255, 255, 255, 255, 255, 255, 255, 255, 255, 255,
    255, 255, 255, 255, 255, 255, 255, 255, 255, 255, 255, 255, 255, 255, 255, 255, 255, 255, 255,
    255, 255, 255, 255, 255, 255, 255, 255, 255, 255, 255, 255, 255, 255, 255, 255, 255, 255, 255,
    255, 255, 255, 255, 255, 255, 255, 255, 255, 255, 255, 255, 255, 255, 255, 255, 255, 255, 255,
    255, 255, 255, 255, 255, 255, 255, 255, 255, 255, 255, 255, 255, 255, 255, 255, 255, 255, 255,
    255, 255, 255, 255,
];

/// The same, by the table: a third of the steps where bytes come one by one.
#[inline(always)]
fn table_worth(byte: u8) -> u8
    ensures { result ≡ worth byte }
{
    WORTHS[byte as usize]
}

/// The same, by the table or by arithmetic.
#[inline(always)]
pub fn worth_by(by_table: bool, byte: u8) -> u8
    ensures { result ≡ worth byte }
{
    if by_table {
        table_worth(byte)
    } else {
        digit_worth(byte)
    }
}

/// What a digit of this base is worth; the base or more where the byte is none.
// One of base 10 goes by arithmetic, which takes fewer steps than the table.
#[inline(always)]
#[tactic(auto, unfolding(crate::specs::Number::worth))]
fn digit_in(base: u8, byte: u8) -> u8
    ensures digit { result < base → result ≡ worth byte }
    ensures none { base ≤ result → base ≤ worth byte }
{
    if base == 10 {
        byte.wrapping_sub(b'0')
    } else {
        table_worth(byte)
    }
}

/// Whether a number of this base begins here: with a digit, and with no zero before another one.
#[inline(always)]
#[tactic(auto, unfolding(crate::specs::Number::starts_number))]
fn starts(bytes: &[u8], base: u8) -> bool
    ensures { result ≡ starts_number base bytes.now }
{
    match bytes {
        [] => false,
        [only] => table_worth(*only) < base,
        [first, second, ..] => {
            table_worth(*first) < base && (*first != b'0' || base <= table_worth(*second))
        }
    }
}

/// So many digits of a base up to 16 are a number below 2^64, with room to spare.
const SURE_DIGITS: usize = 15;

/// The number that `so_far` becomes with the digits in front of the bytes, below 2^64, and the
/// rest.
// Always inlined, though rarely needed: a call would have each number handed over in memory.
#[inline(always)]
fn more_digits(so_far: u64, bytes: &[u8], base: u8) -> Option<(u64, &[u8])>
    ensures { option_map (λ x. (x.0, x.1.now)) result ≡ digits_from base so_far bytes.now }
{
    let mut value = so_far;
    let mut rest = bytes;
    while let [first, tail @ ..] = rest {
        let digit = table_worth(*first);
        if base <= digit {
            return Some((value, rest));
        }
        value = value
            .checked_mul(u64::from(base))?
            .checked_add(u64::from(digit))?;
        rest = tail;
    }
    Some((value, rest))
}

/// The number that the first digits are, below 2^64, and the rest.
// Only the digits behind the sure ones are asked whether they fit. Those are so few that the
// compiler makes no loop of them.
#[inline(always)]
fn digits(bytes: &[u8], base: u8) -> Option<(u64, &[u8])>
    requires { base ≤ 16 }
    ensures { option_map (λ x. (x.0, x.1.now)) result ≡ digits_from base 0 bytes.now }
{
    let mut value = 0u64;
    let mut rest = bytes;
    for _place in 0..SURE_DIGITS {
        let [first, tail @ ..] = rest else {
            return Some((value, rest));
        };
        let digit = digit_in(base, *first);
        if base <= digit {
            return Some((value, rest));
        }
        value = value * u64::from(base) + u64::from(digit);
        rest = tail;
    }
    more_digits(value, rest, base)
}

/// The number in front of the bytes, and the rest.
#[inline(always)]
#[tactic(auto, unfolding(crate::specs::Number::number_from))]
fn number(bytes: &[u8], base: u8) -> Option<(u64, &[u8])>
    requires { base ≤ 16 }
    ensures { option_map (λ x. (x.0, x.1.now)) result ≡ number_from base bytes.now }
{
    if starts(bytes, base) {
        digits(bytes, base)
    } else {
        None
    }
}

/// The number that a word is: decimal digits without a leading zero, from `low` to `high`.
pub fn number_in(word: &[u8], low: u64, high: u64) -> Option<u64>
    // What is read is in range, and the word is its digits.
    ensures found { IfSome result (λ n. (word.now ≡ digits_of n) × IsNumberIn low high n) }
    // Nothing is read only if the word is no number in range.
    ensures none { IfNone result ((n : ℕ) → IsNumberIn low high n → word.now ≡ digits_of n → ⊥) }
{
    let (n, rest) = number(word, 10)?;
    if rest.is_empty() && low <= n && n <= high {
        Some(n)
    } else {
        None
    }
}

/// The number after a space, and the rest.
#[inline(always)]
#[tactic(auto, unfolding(crate::specs::Number::number_at))]
fn number_field(bytes: &[u8], base: u8) -> Option<(u64, &[u8])>
    requires { base ≤ 16 }
    ensures { option_map (λ x. (x.0, x.1.now)) result ≡ number_at base bytes.now }
{
    number(after(bytes, b" ")?, base)
}

/// A decimal number from `low` to `high` after a space, and the rest.
// Always inlined, as `address`: a call would hand over what is read in memory.
#[inline(always)]
#[tactic(auto, unfolding(crate::specs::Number::decimal_at))]
pub fn decimal(bytes: &[u8], low: u64, high: u64) -> Option<(u64, &[u8])>
    ensures value { option_map (λ x. (x.0, x.1.now)) result ≡ decimal_at low high bytes.now }
    ensures bound { IfSome result (λ x. (low ≤ x.0) × (x.0 ≤ high)) }
{
    let (n, rest) = number_field(bytes, 10)?;
    if low <= n && n <= high {
        Some((n, rest))
    } else {
        None
    }
}

/// A process number, and the rest.
#[inline]
pub fn process(bytes: &[u8]) -> Option<(u16, &[u8])>
    ensures { option_map (λ x. (x.0, x.1.now)) result ≡ process_at bytes.now }
{
    let (n, rest) = decimal(bytes, 1, 32767)?;
    Some((n as u16, rest))
}

/// A length, and the rest.
pub fn len(bytes: &[u8]) -> Option<(u64, &[u8])>
    ensures { option_map (λ x. (x.0, x.1.now)) result ≡ len_at bytes.now }
{
    decimal(bytes, 0, u64::MAX)
}

/// An address, and the rest.
#[inline(always)]
pub fn address(bytes: &[u8]) -> Option<(u64, &[u8])>
    ensures { option_map (λ x. (x.0, x.1.now)) result ≡ address_at bytes.now }
{
    number_field(bytes, 16)
}

/// A process number and an address, and the rest.
#[tactic(auto, unfolding(crate::specs::Word::both))]
pub fn entry(bytes: &[u8]) -> Option<((u16, u64), &[u8])>
    ensures { option_map (λ x. (x.0, x.1.now)) result ≡ entry_at bytes.now }
{
    let (process, rest) = process(bytes)?;
    let (address, rest) = address(rest)?;
    Some(((process, address), rest))
}

/// Adds a number in decimal digits.
pub fn add_decimal(text: &mut Bytes, n: u64) -> Result<(), AllocError>
    ensures { Adds result text.old text.new (digits_of n) }
{
    if n < 10_000 {
        return add_short(text, n as u32);
    }
    text.append(Buffer::new().format(n).as_bytes())
}

/// The two digits of each number below 100, one after another.
static TWO_DIGITS: [u8; 200] = *b"\
    0001020304050607080910111213141516171819\
    2021222324252627282930313233343536373839\
    4041424344454647484950515253545556575859\
    6061626364656667686970717273747576777879\
    8081828384858687888990919293949596979899";

/// The two digits of a number below 100.
#[inline(always)]
fn two_digits(n: u32) -> (u8, u8)
    requires { n < 100 }
    ensures tens { result.0 ≡ 48 + n / 10 }
    ensures ones { result.1 ≡ 48 + n % 10 }
{
    let at = 2 * n as usize;
    (TWO_DIGITS[at], TWO_DIGITS[at + 1])
}

/// Adds a number of at most four digits, as most are. A text of known length is copied without a
/// call.
#[inline(always)]
fn add_short(text: &mut Bytes, n: u32) -> Result<(), AllocError>
    requires { n < 10000 }
    ensures { Adds result text.old text.new (digits_of n) }
{
    if n < 10 {
        return text.append(&[b'0' + n as u8]);
    }
    if n < 100 {
        let (tens, ones) = two_digits(n);
        return text.append(&[tens, ones]);
    }
    let (tens, ones) = two_digits(n % 100);
    if n < 1000 {
        return text.append(&[b'0' + (n / 100) as u8, tens, ones]);
    }
    let (thousands, hundreds) = two_digits(n / 100);
    text.append(&[thousands, hundreds, tens, ones])
}

/// Adds a space and a number.
#[inline(always)]
pub fn add_number(text: &mut Bytes, n: u64) -> Result<(), AllocError>
    ensures { Adds result text.old text.new (field (digits_of n)) }
{
    text.append(b" ")?;
    add_decimal(text, n)
}
