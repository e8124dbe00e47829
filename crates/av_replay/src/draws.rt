//! The draws that make a line of `work`.

ghost use Rattle.std.specs.Prelude.{◌≡◌};
ghost use Rattle.av_replay.specs.Work.{after_draw, after_line, draws_of};

/// What the four draws of a line give.
#[derive(Clone, Copy, Drop, Debug, PartialEq, Eq)]
pub struct Draws {
    /// What kind of command it is, 0 to 15.
    pub kind: u8,
    /// A process, 1 to 8.
    pub process: u8,
    /// A page, 0 to 15.
    pub page: u8,
    /// A byte, a count or a choice.
    pub value: u8,
}

/// The number that a draw makes of a number. What it gives are its upper bits.
fn draw(number: u64) -> u64
    ensures { result ≡ after_draw number }
{
    number
        .wrapping_mul(6364136223846793005)
        .wrapping_add(1442695040888963407)
}

/// The four draws of a line, and the number after them.
pub fn draw_line(number: u64) -> (Draws, u64)
    ensures draws { result.0 ≡ draws_of number }
    ensures number { result.1 ≡ after_line number }
{
    let first = draw(number);
    let second = draw(first);
    let third = draw(second);
    let fourth = draw(third);
    let draws = Draws {
        kind: ((first >> 33) % 16) as u8,
        process: 1 + ((second >> 33) % 8) as u8,
        page: ((third >> 33) % 16) as u8,
        value: ((fourth >> 33) % 256) as u8,
    };
    (draws, fourth)
}
