//! The pieces of a transcript that are taken at once.

ghost use Rattle.std.specs.Prelude.{◌≡◌, ◌-◌, ◌<◌, ◌≤◌, ◌⊎◌, length, take, true};
ghost use Rattle.av_ports.specs.Line.{HasNoNewline};
ghost use Rattle.av_audit_input.specs.Unit.{begins_unit, ends_line, is_whole};

use memchr::memchr;

/// How many bytes there are up to the first newline and with it, or all where there is none.
pub fn piece_size(bytes: &[u8]) -> usize
    requires { 0 < length bytes.now }
    ensures some { 0 < result }
    ensures within { result ≤ length bytes.now }
    ensures one { HasNoNewline (take (result - 1) bytes.now) }
    ensures whole { (ends_line (take result bytes.now) ≡ true) ⊎ (result ≡ length bytes.now) }
{
    match memchr(b'\n', bytes) {
        Some(size) => size + 1,
        None => bytes.len(),
    }
}

/// Whether the last byte is a newline.
fn ends_line(bytes: &[u8]) -> bool
    ensures { result ≡ ends_line bytes.now }
{
    let size = bytes.len();
    size > 0 && bytes[size - 1] == b'\n'
}

/// Whether there is a first byte, which is no space.
fn begins_unit(bytes: &[u8]) -> bool
    ensures { result ≡ begins_unit bytes.now }
{
    match bytes {
        [first, ..] => *first != b' ',
        [] => false,
    }
}

/// Whether what was taken of a unit is all of it, by what comes behind.
pub fn is_whole(unit: &[u8], ahead: &[u8]) -> bool
    ensures { result ≡ is_whole unit.now ahead.now }
{
    ends_line(unit) && begins_unit(ahead)
}
