//! The next frame that goes down: the greatest in use, to the least that is free.

ghost use Rattle.std.specs.Prelude.{◌≡◌, ◌<◌, ◌≤◌, ℕ, MatchOption, false, true};
ghost use Rattle.av_base.specs.Words.{is_in};
ghost use Rattle.av_frames.specs.Store.{shown};
ghost use Rattle.av_migrate.specs.Next.{IsNext};

use av_frames::Frames;

/// The greatest frame in use of those from `low` to below `past`, and the least that is free, where
/// that is below it.
pub fn next_move(frames: &Frames, low: u32, past: u32) -> Option<(u32, u32)>
    requires { past ≤ (shown frames.now).count }
    ensures { IsNext frames.now.free low past result }
{
    let to = least_free(frames, low, past)?;
    let from = greatest_used(frames, to + 1, past)?;
    Some((from, to))
}

/// The least free frame of these.
fn least_free(frames: &Frames, low: u32, past: u32) -> Option<u32>
    requires { past ≤ (shown frames.now).count }
    ensures { MatchOption result
        ((f : ℕ) → low ≤ f → f < past → is_in f frames.now.free ≡ false)
        (λ to. (low ≤ to) × (to < past) × (is_in to frames.now.free ≡ true)
        × ((f : ℕ) → low ≤ f → f < to → is_in f frames.now.free ≡ false)) }
{
    for frame in low..past {
        if frames.is_free(frame) {
            return Some(frame);
        }
    }
    None
}

/// The greatest frame of these that isn't free.
fn greatest_used(frames: &Frames, low: u32, past: u32) -> Option<u32>
    requires { past ≤ (shown frames.now).count }
    ensures { MatchOption result
        ((f : ℕ) → low ≤ f → f < past → is_in f frames.now.free ≡ true)
        (λ from. (low ≤ from) × (from < past) × (is_in from frames.now.free ≡ false)
        × ((f : ℕ) → from < f → f < past → is_in f frames.now.free ≡ true)) }
{
    let mut frame = past;
    while low < frame {
        frame -= 1;
        if !frames.is_free(frame) {
            return Some(frame);
        }
    }
    None
}
