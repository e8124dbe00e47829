//! The size of a page.

/// The bytes of one page.
pub const PAGE_SIZE: u64 = 4096;
