//! The counts of an area's slots, with their continuation (Linux's `swap_map`).

ghost use Rattle.std.specs.Prelude.{◌≡◌, ℕ, ◌+◌, ◌-◌, ◌<◌, ◌≤◌, ◌^◌, MatchResult, IfOk, None, true};
ghost use Rattle.std.specs.Prelude.{false, length, slice_index, ◌&&◌, nat_lt, if◌then◌else◌};
ghost use Rattle.av_swapmap.specs.Counts.{shown, fresh, with_count, with_cached, byte_at};
ghost use Rattle.av_base.specs.Words.{with_at, is_in};
ghost use Rattle.av_swapmap.specs.Digits.{digit_of, further_of};
ghost use Rattle.std.specs.Ordering.{nat_cmp};
ghost use Rattle.std.specs.BTreeMap.{get};

use crate::digits::{BAD, FIRST_BASE, Further, byte_of, cached_of, first_of, further_of, value_of};
use std::alloc::{AllocError, Global};
use std::collections::BTreeMap;
use std::marker::Model;

/// How many entries name each slot of a swap area, and whether the swap cache holds it.
///
/// Slots are numbered from 0. A bad slot is never named and never cached. Only `new` and `add`
/// take memory.
#[derive(Drop)]
pub struct Counts {
    // Of each slot the first digit of its count, with flags.
    bytes: Vec<u8>,
    // The digits of the counts that don't fit there.
    more: BTreeMap<u32, Further>,
}

impl Model for Counts {
    ghost use Rattle.av_swapmap.specs.Counts.{Store, IsWhole};

    ghost Value = { Store };

    ghost view = { λ a. record { bytes = a.bytes.items; more = a.more.entries } };

    ghost invariant = { λ a. IsWhole a.bytes.items a.more.entries };
}

impl Counts {
    /// This many slots that no entry names. Those listed are bad; a listed number past the last
    /// slot says nothing.
    pub fn new(alloc: Global, pages: u32, bad: &[u32]) -> Result<Counts, AllocError>
        ensures { IfOk result (λ counts. shown counts ≡ fresh pages bad.now) }
    {
        Ok(Counts {
            bytes: no_names(alloc, pages, bad)?,
            more: BTreeMap::new(alloc),
        })
    }

    /// How many entries name the slot.
    pub fn get(&self, page: u32) -> u32
        requires { page < (shown self.now).pages }
        ensures { result ≡ (shown self.now).count page }
    {
        let first = first_of(self.bytes[page as usize]);
        match self.more.get(&page) {
            Some(digits) => first + FIRST_BASE * value_of(digits),
            None => first,
        }
    }

    /// So many more entries name the slot. Without memory all stays; only a count that grows to
    /// 63 or more from below takes memory.
    pub fn add(&mut self, page: u32, n: u32) -> Result<(), AllocError>
        requires in_range { page < (shown self.old).pages }
        requires not_bad { (shown self.old).bad page ≡ false }
        requires room { (shown self.old).count page + n < 2 ^ 32 }
        ensures { MatchResult result
            (λ _. shown self.new ≡
            with_count page ((shown self.old).count page + n) (shown self.old))
            (λ _. ((shown self.old).count page < 63) × (63 ≤ (shown self.old).count page + n)
            × (shown self.new ≡ shown self.old)) }
    {
        let count = self.get(page) + n;
        let byte = byte_of(count, self.cached(page));
        grow(&mut self.more, page, count)?;
        self.bytes[page as usize] = byte;
        Ok(())
    }

    /// So many fewer entries name the slot. Takes no memory.
    pub fn sub(&mut self, page: u32, n: u32)
        requires in_range { page < (shown self.old).pages }
        requires some { n ≤ (shown self.old).count page }
        ensures { shown self.new ≡
            with_count page ((shown self.old).count page - n) (shown self.old) }
    {
        if n == 0 {
            // A bad slot stays bad.
            return;
        }
        let count = self.get(page) - n;
        let byte = byte_of(count, self.cached(page));
        shrink(&mut self.more, page, count);
        self.bytes[page as usize] = byte;
    }

    /// Whether the swap cache holds the slot.
    pub fn cached(&self, page: u32) -> bool
        requires { page < (shown self.now).pages }
        ensures { result ≡ (shown self.now).cached page }
    {
        cached_of(self.bytes[page as usize])
    }

    /// Sets whether the swap cache holds the slot.
    pub fn set_cached(&mut self, page: u32, cached: bool)
        requires in_range { page < (shown self.old).pages }
        requires not_bad { (shown self.old).bad page ≡ false }
        ensures { shown self.new ≡
            with_cached page cached (shown self.old) }
    {
        self.bytes[page as usize] = byte_of(self.get(page), cached);
    }

    /// Whether the slot is bad.
    pub fn bad(&self, page: u32) -> bool
        requires { page < (shown self.now).pages }
        ensures is { result ≡ (shown self.now).bad page }
        ensures unnamed { result ≡ true → ((shown self.now).count page ≡ 0)
            × ((shown self.now).cached page ≡ false) }
    {
        self.bytes[page as usize] == BAD
    }

    /// The byte that Linux's `swap_map` has for the slot.
    pub fn byte(&self, page: u32) -> u8
        requires { page < (shown self.now).pages }
        ensures { result ≡ byte_at (shown self.now) page }
    {
        self.bytes[page as usize]
    }

    /// The slot's byte in continuation page `i`, from 1 on.
    pub fn digit(&self, page: u32, i: u32) -> u8
        requires in_range { page < (shown self.now).pages }
        requires from_one { 1 ≤ i }
        ensures { result ≡ digit_of ((shown self.now).count page) i }
    {
        match self.more.get(&page) {
            Some(digits) if i <= 4 => digits[i as usize - 1],
            _ => 0,
        }
    }
}

/// The bytes of slots that no entry names, some of them bad.
fn no_names(alloc: Global, pages: u32, bad: &[u32]) -> Result<Vec<u8>, AllocError>
    ensures { IfOk result (λ v. (length v.items ≡ pages) × ((p : ℕ)
        → slice_index v.items p ≡ (if nat_lt p pages && is_in p bad.now then 63 else 0))) }
{
    let mut bytes = vec![in alloc; 0; pages as usize]?;
    for page in bad {
        let page = *page as usize;
        if page < bytes.len() {
            bytes[page] = BAD;
        }
    }
    Ok(bytes)
}

/// Gives a slot the continuation digits of a count that is not below the one it has. Without
/// memory all stays.
fn grow(more: &mut BTreeMap<u32, Further>, page: u32, count: u32) -> Result<(), AllocError>
    requires { count < 63 → get nat_cmp more.old page ≡ None }
    ensures { MatchResult result
        (λ _. (q : ℕ) → get nat_cmp more.new q
        ≡ with_at page (further_of count) (get nat_cmp more.old) q)
        (λ _. (get nat_cmp more.old page ≡ None) × (63 ≤ count) × ((q : ℕ)
        → get nat_cmp more.new q ≡ get nat_cmp more.old q)) }
{
    if count >= FIRST_BASE {
        more.insert(page, further_of(count))?;
    }
    Ok(())
}

/// Gives a slot the continuation digits of a count that is not above the one it has.
fn shrink(more: &mut BTreeMap<u32, Further>, page: u32, count: u32)
    requires { get nat_cmp more.old page ≡ None → count < 63 }
    ensures { (q : ℕ) → get nat_cmp more.new q
        ≡ with_at page (further_of count) (get nat_cmp more.old) q }
{
    if count < FIRST_BASE {
        let _ = more.remove(&page);
    } else if let Some(digits) = more.get_mut(&page) {
        *digits = further_of(count);
    }
}
