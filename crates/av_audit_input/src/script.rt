//! The commands of a trace, kept as the text of their lines.

ghost use Rattle.std.specs.Prelude.{◌≡◌, ◌+◌, ◌^◌, ◌<◌, ◌≤◌, List, [], ◌∷◌, ◌++◌, Some, IfOk};
ghost use Rattle.std.specs.Prelude.{OnOk, drop, length};
ghost use Rattle.av_ports.specs.Line.{HasNoNewline};
ghost use Rattle.av_trace.specs.Line.{Says};
ghost use Rattle.av_trace.specs.declared.command.Command.{Command as AnyCommand};
ghost use Rattle.av_audit_input.specs.Script.{AreLinesOf, IsScript};

use av_line::parse_line_into;
use av_text::Bytes;
use av_trace::Command;
use memchr::memchr;
use std::alloc::{AllocError, Global};
use std::mem::swap;

/// The lines of a trace that say commands, each with its newline.
// A line takes less memory than the command that it says.
#[derive(Drop)]
pub struct Script {
    pub text: Vec<u8>,
    /// How many lines there are.
    pub count: u32,
}

impl Script {
    /// No lines yet.
    pub fn new(alloc: Global) -> Script
        ensures { IsScript result [] }
    {
        Script {
            text: Vec::new(alloc),
            count: 0,
        }
    }

    /// Adds a line, which has no newline, and says a command.
    ///
    /// After an error nothing is promised of what there is.
    pub fn push(&mut self, line: &[u8]) -> Result<(), AllocError>
        requires room { self.old.count + 1 < 2 ^ 32 }
        requires one { HasNoNewline line.now }
        ensures more { OnOk result ((commands : List AnyCommand) (command : AnyCommand)
            → IsScript self.old commands → Says line.now (Some command)
            → IsScript self.new (commands ++ command ∷ [])) }
    {
        self.text.extend_from_slice(line)?;
        self.text.push(b'\n')?;
        self.count += 1;
        Ok(())
    }
}

/// Makes `command` what the first line of a script's text says, or nothing where there is no line;
/// and gives how many bytes the line takes. The bytes of a write take the room of `spare`.
pub fn first_command(
    alloc: Global,
    text: &[u8],
    spare: &mut Bytes,
    command: &mut Option<Command>,
) -> Result<usize, AllocError>
    ensures within { IfOk result (λ size. size ≤ length text.now) }
    ensures first { IfOk result (λ size. (first : AnyCommand) (others : List AnyCommand)
        → AreLinesOf text.now (first ∷ others)
        → (command.new ≡ Some first) × AreLinesOf (drop size text.now) others) }
{
    if let Some(Command::Write { bytes, .. }) = command {
        swap(bytes, spare);
    }
    let Some(size) = memchr(b'\n', text) else {
        *command = None;
        return Ok(0);
    };
    match parse_line_into(alloc, &text[..size], spare, command) {
        Ok(()) => Ok(size + 1),
        // Each line of a script says a command, so only memory can be wanting.
        Err(_) => Err(AllocError),
    }
}
