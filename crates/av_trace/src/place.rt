//! Where `mmap` puts the pages.

ghost use Rattle.std.specs.Prelude.{◌≡◌, option_map};
ghost use Rattle.av_trace.specs.Place.{place_at};

use av_text::number::address;
use av_text::word::after;

/// Where `mmap` puts the pages.
#[derive(Clone, Copy, Drop)]
pub enum Place {
    /// At the greatest address from which on they fit.
    Auto,
    /// A hint: at this address if they may go there, else as `Auto`.
    At(u64),
    /// At this address, in place of what is mapped there.
    Fixed(u64),
    /// At this address, unless something is mapped there.
    NoReplace(u64),
}

/// A place at the end of a line, and the rest.
#[tactic(auto, unfolding(crate::specs::Place::place_at))]
pub fn place_field(bytes: &[u8]) -> Option<(Place, &[u8])>
    ensures { option_map (λ x. (x.0, x.1.now)) result ≡ place_at bytes.now }
{
    if bytes.is_empty() {
        Some((Place::Auto, bytes))
    } else if let Some(rest) = after(bytes, b" at") {
        address(rest).map(|(a, rest)| (Place::At(a), rest))
    } else if let Some(rest) = after(bytes, b" fixed") {
        address(rest).map(|(a, rest)| (Place::Fixed(a), rest))
    } else {
        address(after(bytes, b" noreplace")?).map(|(a, rest)| (Place::NoReplace(a), rest))
    }
}
