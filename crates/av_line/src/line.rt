//! What a line says.

ghost use Rattle.std.specs.Prelude.{◌≡◌, List, ℕ, Option, codes, IfOk, OnOk, IsErrOf};
ghost use Rattle.av_trace.specs.declared.command.Command.{Command as AnyCommand};
ghost use Rattle.av_trace.specs.Line.{is_blank, Says};
ghost use Rattle.av_text.specs.Word.{BeginsWith};

use av_text::Bytes;
use av_trace::{Command, read_command};
use std::alloc::Global;

/// Why a line was not read.
#[derive(Clone, Copy, Drop, Debug, PartialEq, Eq)]
pub enum LineErr {
    /// It is no command, no comment, and not empty.
    Bad,
    /// There was no memory for the bytes of a write.
    Memory,
}

/// Whether a line is empty or a comment.
fn says_nothing(line: &[u8]) -> bool
    ensures { result ≡ is_blank line.now }
{
    match line {
        [] => true,
        [first, ..] => *first == b'#',
    }
}

/// What a line says, its newline left out: a command, or nothing where it is empty or begins
/// with `#`.
pub fn parse_line(alloc: Global, line: &[u8]) -> Result<Option<Command>, LineErr>
    // What is read is what the line says.
    ensures found { IfOk result (λ said. Says line.now said) }
    // A line is bad only if it says neither a command nor nothing.
    ensures bad { IsErrOf result LineErr.Bad →
        (said : Option AnyCommand) → Says line.now said → ⊥ }
    // Only what begins as a write takes memory.
    ensures memory { IsErrOf result LineErr.Memory → BeginsWith (codes "write") line.now }
{
    let mut meaning = None;
    parse_line_into(alloc, line, &mut Bytes::new(alloc), &mut meaning)?;
    Ok(meaning)
}

/// Makes `meaning` what a line says, as `parse_line` does, whatever it was; the bytes of a write
/// take the room of `spare`, whatever it holds.
///
/// After an error nothing is promised of `meaning`.
// The command is written where it stays: each function that handed it up would copy it.
pub fn parse_line_into(
    alloc: Global,
    line: &[u8],
    spare: &mut Bytes,
    meaning: &mut Option<Command>,
) -> Result<(), LineErr>
    ensures found { OnOk result (Says line.now meaning.new) }
    ensures bad { IsErrOf result LineErr.Bad →
        (said : Option AnyCommand) → Says line.now said → ⊥ }
    ensures memory { IsErrOf result LineErr.Memory → BeginsWith (codes "write") line.now }
{
    if says_nothing(line) {
        *meaning = None;
        return Ok(());
    }
    let Ok(()) = read_command(alloc, line, spare, meaning) else {
        return Err(LineErr::Memory);
    };
    match meaning {
        Some(_) => Ok(()),
        None => Err(LineErr::Bad),
    }
}

/// A line says one thing at most.
pub fn one_meaning()
    ensures { (line : List ℕ) (a b : Option AnyCommand) → Says line a → Says line b → a ≡ b }
{}
