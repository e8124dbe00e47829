//! The bytes that a line stores.

use av_line::parse_line;
use av_text::Bytes;
use av_trace::*;
use std::alloc::Global;

/// The bytes that a line writes to 7fffffffd000 of process 7.
fn data_of(alloc: Global, line: &[u8]) -> Option<Bytes> {
    match parse_line(alloc, line) {
        Ok(
            Some(
                Command::Write {
                    process: 7,
                    address: 0x7fff_ffff_d000,
                    bytes,
                },
            ),
        ) => Some(bytes),
        _ => None,
    }
}

#[test]
fn stored_bytes(rt: HostRuntime) {
    let found = data_of(rt.alloc(), b"write 7 7fffffffd000 00417f");
    assert!(rt; found.is_some_and(|bytes| bytes.as_slice() == b"\x00\x41\x7f".as_slice()));
    assert!(rt; data_of(rt.alloc(), b"write 7 7fffffffd000 00417").is_none());
}
