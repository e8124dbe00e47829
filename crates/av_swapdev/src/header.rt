//! The header of a swap area, as `mkswap` writes it to page 0.

ghost use Rattle.std.specs.Prelude.{◌≡◌, ℕ, ◌+◌, ◌-◌, ◌*◌, ◌<◌, ◌≤◌, false, length, slice_index_or};
ghost use Rattle.std.specs.Prelude.{IfOk, Ok};
ghost use Rattle.std.specs.List.{list_any};
ghost use Rattle.av_base.specs.Page.{page_size};
ghost use Rattle.av_base.specs.Words.{is_in, within};
ghost use Rattle.av_swapdev.specs.Device.{most_pages};
ghost use Rattle.av_swapdev.specs.Header.{Layout, first_bad, most_bad, number_at, order_of};
ghost use Rattle.av_swapdev.specs.Header.{numbers_at, all_named, bad_of, slots_of, is_out, read_in};
ghost use Rattle.av_swapdev.specs.Header.{header_of, answer_of, IsHeaderOf, AddsUp};

use crate::device::MOST_PAGES;
use byteorder::{BigEndian, ByteOrder, LittleEndian};
use std::alloc::{AllocError, Global};

/// What a page 0 ends with.
const SIGNATURE: &[u8] = b"SWAPSPACE2";

/// How many bad pages a header has room for.
const MOST_BAD: u32 = 637;

/// Where the numbers of a header stand, in bytes: the version, the last page, how many bad pages,
/// and the first of those.
const VERSION: usize = 1024;

const LAST_PAGE: usize = 1028;

const BAD_COUNT: usize = 1032;

const FIRST_BAD: usize = 1536;

/// The order of the bytes in each number of a header.
#[derive(Clone, Copy, Drop, Debug, PartialEq, Eq)]
pub enum Order {
    Little,
    Big,
}

/// A swap area: how many pages it has, with the header's; how many of them are slots; how many are
/// bad.
#[derive(Clone, Copy, Drop, Debug, PartialEq, Eq)]
pub struct Header {
    pub pages: u32,
    pub slots: u32,
    pub bad: u32,
}

/// Why a page is no header, in the order in which it is looked at.
#[derive(Clone, Copy, Drop, Debug, PartialEq, Eq)]
pub enum HeaderErr {
    /// It doesn't end with `SWAPSPACE2`.
    Signature,
    /// The version is 1 in neither order of bytes.
    Version,
    /// The last page is 0.
    LastPage,
    /// The device has fewer pages than the area.
    Short,
    /// More bad pages are named than there is room for.
    TooManyBad,
    /// A bad page is 0, or behind the last page.
    BadPage,
    /// No page but the header is good.
    NoSlot,
}

/// The 32-bit number at a byte.
#[tactic(auto, unfolding(crate::specs::Header::number_at))]
fn number(page: &[u8], order: Order, at: usize) -> u32
    requires { at + 4 ≤ length page.now }
    ensures { result ≡ number_at order page.now at }
{
    match order {
        Order::Little => LittleEndian::read_u32(&page[at..]),
        Order::Big => BigEndian::read_u32(&page[at..]),
    }
}

/// The order in which the version is 1.
fn byte_order(page: &[u8]) -> Option<Order>
    requires { length page.now ≡ page_size }
    ensures { result ≡ order_of page.now }
{
    if number(page, Order::Little, VERSION) == 1 {
        return Some(Order::Little);
    }
    if number(page, Order::Big, VERSION) == 1 {
        return Some(Order::Big);
    }
    None
}

/// The bad page that the header names at a place, from 0.
fn bad_at(page: &[u8], order: Order, place: u32) -> u32
    requires long { length page.now ≡ page_size }
    requires room { place < most_bad }
    ensures { result ≡ number_at order page.now (first_bad + 4 * place) }
{
    number(page, order, FIRST_BAD + 4 * place as usize)
}

/// Whether one that is named is 0, or behind the last page.
fn has_wrong(page: &[u8], order: Order, count: u32, last: u32) -> bool
    requires long { length page.now ≡ page_size }
    requires room { count ≤ most_bad }
    ensures { result ≡ list_any (is_out last) (numbers_at order page.now 0 count) }
{
    for place in 0..count {
        let bad = bad_at(page, order, place);
        if bad == 0 || bad > last {
            return true;
        }
    }
    false
}

/// Whether a page is named at this place or behind it.
fn is_named(page: &[u8], order: Order, from: u32, count: u32, m: u32) -> bool
    requires long { length page.now ≡ page_size }
    requires room { count ≤ most_bad }
    ensures { result ≡ is_in m (numbers_at order page.now from (count - from)) }
{
    for place in from..count {
        if m == bad_at(page, order, place) {
            return true;
        }
    }
    false
}

/// Whether a page of the area lies behind its header.
fn is_behind_header(m: u32, pages: u32) -> bool
    ensures { result ≡ within 1 (pages - 1) m }
{
    m > 0 && m < pages
}

/// How many bad pages of the area are named. Of a page that is named twice, the last place counts.
fn count_bad(page: &[u8], order: Order, count: u32, pages: u32) -> u32
    requires long { length page.now ≡ page_size }
    requires room { count ≤ most_bad }
    ensures { result ≡ length (bad_of pages (numbers_at order page.now 0 count)) }
{
    let mut distinct = 0;
    for place in 0..count {
        let bad = bad_at(page, order, place);
        if is_behind_header(bad, pages) && !is_named(page, order, place + 1, count, bad) {
            distinct += 1;
        }
    }
    distinct
}

/// The header that a page 0 has, on a device with so many pages.
pub fn read_header(page: &[u8], device_pages: u32) -> Result<Header, HeaderErr>
    requires { length page.now ≡ page_size }
    ensures exact { result ≡ answer_of (header_of page.now device_pages) }
    ensures of_page { IfOk result (λ header. IsHeaderOf page.now header) }
    ensures adds_up { IfOk result (λ header. AddsUp header device_pages) }
{
    if !page.ends_with(SIGNATURE) {
        return Err(HeaderErr::Signature);
    }
    match byte_order(page) {
        Some(order) => read_numbers(page, order, device_pages),
        None => Err(HeaderErr::Version),
    }
}

/// What the numbers in this order say, on a device with so many pages.
fn read_numbers(page: &[u8], order: Order, device_pages: u32) -> Result<Header, HeaderErr>
    requires { length page.now ≡ page_size }
    ensures { result ≡ answer_of (read_in order page.now device_pages) }
{
    let last = number(page, order, LAST_PAGE);
    if last == 0 {
        return Err(HeaderErr::LastPage);
    }
    let pages = last.min(MOST_PAGES - 1) + 1;
    if device_pages < pages {
        return Err(HeaderErr::Short);
    }
    let count = number(page, order, BAD_COUNT);
    if count > MOST_BAD {
        return Err(HeaderErr::TooManyBad);
    }
    if has_wrong(page, order, count, last) {
        return Err(HeaderErr::BadPage);
    }
    let bad = count_bad(page, order, count, pages);
    let slots = pages - 1 - bad;
    if slots == 0 {
        return Err(HeaderErr::NoSlot);
    }
    Ok(Header { pages, slots, bad })
}

/// Whether a page of the area is bad, by page 0 and the header that it has.
pub fn is_bad(page: &[u8], header: &Header, m: u32) -> bool
    requires long { length page.now ≡ page_size }
    requires of_page { IsHeaderOf page.now header.now }
    ensures { (device : ℕ) (layout : Layout) → header_of page.now device ≡ Ok layout
        → result ≡ is_in m layout.bad }
{
    let Some(order) = byte_order(page) else {
        unreachable!();
    };
    is_behind_header(m, header.pages) && is_named(page, order, 0, number(page, order, BAD_COUNT), m)
}

/// The pages below `pages`, each with whether it is named as bad.
fn marks(
    alloc: Global,
    page: &[u8],
    order: Order,
    count: u32,
    pages: u32,
) -> Result<Vec<bool>, AllocError>
    requires long { length page.now ≡ page_size }
    requires room { count ≤ most_bad }
    ensures len { IfOk result (λ marks. length marks.items ≡ pages) }
    ensures named { IfOk result (λ marks. (m : ℕ) → m < pages
        → slice_index_or marks.items m false ≡ is_in m (numbers_at order page.now 0 count)) }
{
    let mut marks = vec![in alloc; false; pages as usize]?;
    for place in 0..count {
        let bad = bad_at(page, order, place);
        if bad < pages {
            marks[bad as usize] = true;
        }
    }
    Ok(marks)
}

/// The bad pages of the area, rising, each once, by page 0 and the header that it has. The time is
/// that of the area's pages.
pub fn bad_pages(alloc: Global, page: &[u8], header: &Header) -> Result<Vec<u32>, AllocError>
    requires long { length page.now ≡ page_size }
    requires of_page { IsHeaderOf page.now header.now }
    ensures { IfOk result (λ bad. (device : ℕ) (layout : Layout)
        → header_of page.now device ≡ Ok layout → bad.items ≡ layout.bad) }
{
    let Some(order) = byte_order(page) else {
        unreachable!();
    };
    let mut bad = Vec::new(alloc);
    let marks = marks(
        alloc,
        page,
        order,
        number(page, order, BAD_COUNT),
        header.pages,
    )?;
    for m in 1..header.pages {
        if marks[m as usize] {
            bad.push(m)?;
        }
    }
    Ok(bad)
}
