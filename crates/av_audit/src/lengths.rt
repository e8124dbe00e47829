//! Lengths in bytes, as pages.

ghost use Rattle.std.specs.Prelude.{◌≡◌, ◌+◌, ◌<◌, ◌≤◌, ◌^◌};
ghost use Rattle.av_base.specs.Page as bytes;
ghost use Rattle.av_plain.specs.Refusal as refusals;

use av_audit_judge::ADDRESS_PAGES;
use av_base::PAGE_SIZE;

/// A length rounded up to whole pages.
pub fn pages_of(length: u64) -> u64
    ensures pages { result ≡ bytes.pages_of length }
    ensures most { result ≤ 2 ^ 52 }
    ensures some { 0 < length → 0 < result }
{
    length.div_ceil(PAGE_SIZE)
}

/// How many pages the bytes from an address on meet.
pub fn pages_met(address: u64, length: u64) -> u64
    ensures pages { result ≡ bytes.pages_met address length }
    ensures most { result ≤ 2 ^ 52 + 1 }
{
    if length == 0 {
        return 0;
    }
    length / PAGE_SIZE + (address % PAGE_SIZE + length % PAGE_SIZE).div_ceil(PAGE_SIZE)
}

/// Whether the pages of a length, from an address on, do not end below 2^64.
pub fn wraps(address: u64, length: u64) -> bool
    ensures { result ≡ refusals.wraps address length }
{
    address / PAGE_SIZE + pages_of(length) >= ADDRESS_PAGES
}

/// Whether the address isn't on a page, or the pages of the length do not end below 2^64.
pub fn is_bad_range(address: u64, length: u64) -> bool
    ensures { result ≡ refusals.is_bad_range address length }
{
    address % PAGE_SIZE != 0 || wraps(address, length)
}

/// Whether the pages that the bytes from an address on meet do not end below 2^64.
pub fn ends_too_high(address: u64, length: u64) -> bool
    ensures { result ≡ refusals.ends_too_high address length }
{
    address / PAGE_SIZE + pages_met(address, length) >= ADDRESS_PAGES
}
