//! Texts of lines, in which capital letters stand for digits.

ghost use Rattle.std.specs.Prelude.{◌≡◌, ◌++◌, ◌∷◌, ◌<◌, [], false};
ghost use Rattle.std.specs.Fmt.{digit_glyph};
ghost use Rattle.av_trace.specs.Command.{line_of};
ghost use Rattle.av_replay.specs.Template.{IsDrawn, text_with, glyph};
ghost use Rattle.av_replay.specs.Work.{command_of};

use crate::draws::Draws;

/// The digits by what they are worth.
static DIGITS: [u8; 16] = *b"0123456789abcdef";

/// The digit of a value.
fn digit(value: u8) -> u8
    requires { value < 16 }
    ensures { result ≡ digit_glyph false value }
{
    DIGITS[value as usize]
}

/// What stands for a letter of a template.
pub fn fill(draws: &Draws, letter: u8) -> u8
    requires { IsDrawn draws.now }
    ensures { result ≡ glyph draws.now letter }
{
    match letter {
        b'P' => b'0' + draws.process,
        b'Q' => b'1' + draws.value % 8,
        b'N' => b'1' + draws.value % 4,
        b'G' => digit(draws.page),
        b'H' => digit(draws.value / 16),
        b'L' => digit(draws.value % 16),
        _ => letter,
    }
}

/// The template of the line that draws make, with its newline.
pub fn template_of(draws: &Draws) -> &'static [u8]
    requires { IsDrawn draws.now }
    ensures { text_with draws.now result.now ≡ line_of (command_of draws.now) ++ 10 ∷ [] }
{
    match draws.kind {
        0..=4 => b"write P 1000G000 HL\n",
        5..=8 => b"read P 1000G000 1\n",
        9 => b"fork P Q\n",
        10 if draws.process == 1 => b"read P 1000G000 1\n",
        10 => b"exit P\n",
        11 => b"reclaim N\n",
        12 => b"age N\n",
        13 => b"complete N\n",
        14 if draws.value % 2 == 0 => b"mprotect P 1000G000 4096 r--\n",
        14 => b"mprotect P 1000G000 4096 rw-\n",
        _ if draws.value < 64 => b"munmap P 1000G000 4096\n",
        _ => b"mmap P 4096 rw- fixed 1000G000\n",
    }
}
