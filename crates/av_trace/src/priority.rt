//! The priority that `swapon` may name.

ghost use Rattle.std.specs.Prelude.{◌≡◌, option_map};
ghost use Rattle.av_trace.specs.Priority.{priority_at};

use av_text::number::decimal;
use av_text::word::after;

/// The greatest priority that can be named.
const GREATEST_PRIORITY: u64 = 32_767;

/// A priority at the end of a line, if one is named, and the rest.
#[tactic(auto, unfolding(crate::specs::Priority::priority_at))]
pub fn priority_field(bytes: &[u8]) -> Option<(Option<u16>, &[u8])>
    ensures { option_map (λ x. (x.0, x.1.now)) result ≡ priority_at bytes.now }
{
    if bytes.is_empty() {
        return Some((None, bytes));
    }
    let (priority, rest) = decimal(after(bytes, b" prio")?, 0, GREATEST_PRIORITY)?;
    Some((Some(priority as u16), rest))
}
