//! What `mremap` may do with the pages.

ghost use Rattle.std.specs.Prelude.{◌≡◌, option_map};
ghost use Rattle.av_trace.specs.Mode.{mode_at, dontunmap_at};

use av_text::number::address;
use av_text::word::after;

/// What `mremap` may do with the pages.
#[derive(Clone, Copy, Drop)]
pub enum Mode {
    /// They stay where they are.
    Plain,
    /// They go elsewhere, at the greatest address from which on they fit, if there is no room here.
    MayMove,
    /// They go to this address, in place of what is mapped there.
    Fixed(u64),
    /// They go to this address, in place of what is mapped there, or to the greatest one from
    /// which on they fit; and the old range stays, with zeros.
    DontUnmap(Option<u64>),
}

/// Where the pages go if the old range stays, and the rest.
#[tactic(auto, unfolding(crate::specs::Mode::dontunmap_at))]
fn dontunmap(bytes: &[u8]) -> Option<(Mode, &[u8])>
    ensures { option_map (λ x. (x.0, x.1.now)) result ≡ dontunmap_at bytes.now }
{
    if bytes.is_empty() {
        return Some((Mode::DontUnmap(None), bytes));
    }
    let (a, rest) = address(bytes)?;
    Some((Mode::DontUnmap(Some(a)), rest))
}

/// A mode at the end of a line, and the rest.
#[tactic(auto, unfolding(crate::specs::Mode::mode_at))]
pub fn mode_field(bytes: &[u8]) -> Option<(Mode, &[u8])>
    ensures { option_map (λ x. (x.0, x.1.now)) result ≡ mode_at bytes.now }
{
    if bytes.is_empty() {
        Some((Mode::Plain, bytes))
    } else if let Some(rest) = after(bytes, b" maymove") {
        Some((Mode::MayMove, rest))
    } else if let Some(rest) = after(bytes, b" fixed") {
        let (a, rest) = address(rest)?;
        Some((Mode::Fixed(a), rest))
    } else {
        dontunmap(after(bytes, b" dontunmap")?)
    }
}
