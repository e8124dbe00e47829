//! How many processes, frames and pages there may be.

/// The lowest page that can be mapped.
pub const LOW_PAGE: u64 = 16;

/// The first page that no process can have.
pub const TOP_PAGE: u64 = 0x7ffffffff;

/// At most so many processes live at a time.
pub const MOST_PROCESSES: usize = 4096;

/// A machine has at most so many frames.
pub const MOST_FRAMES: u64 = 16384;
