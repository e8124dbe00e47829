//! Which pages `mlock` and `munlock` are about, and what they refuse by these.

ghost use Rattle.std.specs.Prelude.{◌≡◌};
ghost use Rattle.av_base.specs.Page as bytes;
ghost use Rattle.av_plain.specs.Refusal as refusals;

use crate::place::ADDRESS_PAGES;
use av_base::PAGE_SIZE;

/// How many pages one command may lock.
const MOST_LOCKED: u64 = 16384;

/// How many pages the bytes from an address on meet.
pub fn pages_met(address: u64, len: u64) -> u64
    ensures { result ≡ bytes.pages_met address len }
{
    if len == 0 {
        return 0;
    }
    len / PAGE_SIZE + (address % PAGE_SIZE + len % PAGE_SIZE).div_ceil(PAGE_SIZE)
}

/// Whether the pages that the bytes from an address on meet do not end below 2^64.
pub fn ends_too_high(address: u64, len: u64) -> bool
    ensures { result ≡ refusals.ends_too_high address len }
{
    address / PAGE_SIZE + pages_met(address, len) >= ADDRESS_PAGES
}

/// Whether these are more pages than one command may lock.
pub fn locks_too_many(address: u64, len: u64) -> bool
    ensures { result ≡ refusals.locks_too_many address len }
{
    pages_met(address, len) > MOST_LOCKED
}
