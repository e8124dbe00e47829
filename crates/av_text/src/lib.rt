//! What the lines and the replies of a trace are made of: bytes, words, numbers, hexadecimal digits
//! and protections, each read and printed.
//!
//! Proved: what each reader takes of a line and what it makes of that, exactly; the text that each
//! printer adds, exactly; what is printed is read back. Only the room for bytes can want memory.
//! Nothing is only tested.
#![tactic(auto)]

mod bytes;
pub mod hex;
pub mod number;
pub mod prot;
pub mod word;

pub use bytes::Bytes;
