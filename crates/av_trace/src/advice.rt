//! What `madvise` says of pages.

ghost use Rattle.std.specs.Prelude.{◌≡◌, option_map};
ghost use Rattle.av_trace.specs.Advice.{advice_at};

use av_text::word::after;

/// What `madvise` says of pages.
#[derive(Clone, Copy, Drop)]
pub enum Advice {
    /// What is in them is needed no more: they read as zeros.
    DontNeed,
    /// A child doesn't get them.
    DontFork,
    /// A child gets them again.
    DoFork,
    /// A child gets zeros in their place.
    WipeOnFork,
    /// A child gets what is in them again.
    KeepOnFork,
    /// They may be merged with others of equal bytes.
    Mergeable,
    /// They may not be merged any more.
    Unmergeable,
}

/// An advice after a space, and the rest.
#[tactic(auto, unfolding(crate::specs::Advice::advice_at))]
pub fn advice_field(bytes: &[u8]) -> Option<(Advice, &[u8])>
    ensures { option_map (λ x. (x.0, x.1.now)) result ≡ advice_at bytes.now }
{
    if let Some(rest) = after(bytes, b" dontneed") {
        Some((Advice::DontNeed, rest))
    } else if let Some(rest) = after(bytes, b" dontfork") {
        Some((Advice::DontFork, rest))
    } else if let Some(rest) = after(bytes, b" dofork") {
        Some((Advice::DoFork, rest))
    } else if let Some(rest) = after(bytes, b" wipeonfork") {
        Some((Advice::WipeOnFork, rest))
    } else if let Some(rest) = after(bytes, b" keeponfork") {
        Some((Advice::KeepOnFork, rest))
    } else if let Some(rest) = after(bytes, b" mergeable") {
        Some((Advice::Mergeable, rest))
    } else {
        Some((Advice::Unmergeable, after(bytes, b" unmergeable")?))
    }
}
