//! Devices with swap areas, and the header of a swap area.
//!
//! Proved: what a call of a device reads and writes, which pages change and which stay, that each
//! failure is counted, and each call that attaches or writes told (`Log`); of the device in memory
//! also which calls fail, exactly; of the device over files which call of which file each of its
//! own is, and what that gives and stores where the file tells its bytes. Of a header: exactly its
//! numbers and bad pages, or the first fault in a stated order. What real files hold is not told:
//! that `HostFiles` opens, reads and writes them is only tested.
#![tactic(auto)]

mod device;
mod file;
mod file_dev;
mod header;
mod host_file;
mod log;
mod mem_dev;

pub use device::{AttachErr, PAGE_LEN, SwapDev};
pub use file::{SwapFile, SwapFiles};
pub use file_dev::FileDev;
pub use header::{Header, HeaderErr, bad_pages, is_bad, read_header};
pub use host_file::{HostFile, HostFiles};
pub use log::{Call, Log};
pub use mem_dev::MemDev;
