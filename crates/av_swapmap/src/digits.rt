//! A count as digits: the first to base 63, which leaves the byte 63 for bad slots, and the others
//! to base 128.

ghost use Rattle.std.specs.Prelude.{◌≡◌, ℕ, ◌+◌, ◌*◌, ◌<◌, ◌≤◌, ◌^◌, ◌%◌, Bool, ◌∷◌, [], length};
ghost use Rattle.av_swapmap.specs.Digits.{digit_of, byte_of, first_of, cached_of, value_of};
ghost use Rattle.av_swapmap.specs.Digits.{with_more};

/// The byte of a bad slot.
pub(crate) const BAD: u8 = 0x3f;
/// The bits of the first digit.
const FIRST: u8 = 0x3f;
/// The flag of a slot that the swap cache holds.
const CACHED: u8 = 0x40;
/// The flag of a byte or digit that a further digit follows.
const CONTINUED: u8 = 0x80;
/// The base of the first digit.
pub(crate) const FIRST_BASE: u32 = 63;
/// The base of each further digit.
const BASE: u32 = 128;

/// The continuation digits of a slot, lowest first. There is room for those of the greatest count.
pub(crate) type Further = [u8; 4];

/// The byte of a slot that isn't bad.
pub(crate) fn byte_of(count: u32, cached: bool) -> u8
    ensures { result ≡ byte_of count cached }
{
    let flag = if cached { CACHED } else { 0 };
    with_more(count, FIRST_BASE) | flag
}

/// The digits after the first.
pub(crate) fn further_of(count: u32) -> Further
    ensures { result ≡ digit_of count 1 ∷ digit_of count 2 ∷ digit_of count 3
        ∷ digit_of count 4 ∷ [] }
{
    let rest = count / FIRST_BASE;
    [
        with_more(rest, BASE),
        with_more(rest / BASE, BASE),
        with_more(rest / (BASE * BASE), BASE),
        with_more(rest / (BASE * BASE * BASE), BASE),
    ]
}

/// The last digit of a number, with the flag where the number has more.
fn with_more(number: u32, base: u32) -> u8
    requires some { 0 < base }
    requires low { base ≤ 128 }
    ensures { result ≡ with_more base number }
{
    let digit = (number % base) as u8;
    if number < base {
        digit
    } else {
        digit | CONTINUED
    }
}

/// The first digit that a byte has; none at a bad slot.
pub(crate) fn first_of(byte: u8) -> u32
    ensures { result ≡ first_of byte }
{
    if byte == BAD {
        0
    } else {
        (byte & FIRST) as u32
    }
}

/// Whether a byte has the flag of the swap cache.
pub(crate) fn cached_of(byte: u8) -> bool
    ensures { result ≡ cached_of byte }
{
    byte & CACHED != 0
}

/// The number that continuation digits stand for.
pub(crate) fn value_of(digits: &Further) -> u32
    requires { length digits.now ≡ 4 }
    ensures { result ≡ value_of digits.now }
{
    let [first, second, third, fourth] = *digits;
    plain(first) + BASE * (plain(second) + BASE * (plain(third) + BASE * plain(fourth)))
}

/// A continuation digit without its flag.
fn plain(digit: u8) -> u32
    ensures { result ≡ digit % 128 }
{
    (digit & !CONTINUED) as u32
}

/// The byte and the digits of a count are worth that count, and tell the flag; no such byte is
/// that of a bad slot.
pub fn digits_are_worth_the_count()
    ensures worth { (count : ℕ) (cached : Bool) → count < 2 ^ 32
        → byte_of count cached % 64 + 63 * value_of (digit_of count 1 ∷ digit_of count 2
        ∷ digit_of count 3 ∷ digit_of count 4 ∷ []) ≡ count }
    ensures no_more { (count : ℕ) (i : ℕ) → count < 2 ^ 32 → 4 < i → digit_of count i ≡ 0 }
    ensures flag { (count : ℕ) (cached : Bool) → cached_of (byte_of count cached) ≡ cached }
    ensures not_bad { (count : ℕ) (cached : Bool) → byte_of count cached ≡ 63 → ⊥ }
{}
