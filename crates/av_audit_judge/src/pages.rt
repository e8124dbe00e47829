//! Pages that have addresses.

/// How many pages have addresses of 64 bits. It is also the first page that has none.
pub const ADDRESS_PAGES: u64 = 1 << 52;
