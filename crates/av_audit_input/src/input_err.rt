//! Why no more is read.

ghost use Rattle.std.specs.Prelude.{◌≡◌};
ghost use Rattle.av_audit_input.specs.declared.input_err.InputErr.TheVariants.{Memory};
ghost use Rattle.av_audit_input.specs.Input.{error_at};

use av_ports::RunErr;
use std::alloc::AllocError;

/// Why no more of a trace or a transcript is read.
#[derive(Clone, Copy, Drop, Debug, PartialEq, Eq)]
pub enum InputErr {
    /// The line of this number of the trace, from 1, is no command.
    BadLine(u32),
    /// The trace has too many lines.
    TooMany,
    /// The transcript has too many bytes.
    TooLong,
    /// The source failed.
    Read,
    /// The sink failed.
    Write,
    Memory,
}

impl From<AllocError> for InputErr {
    ghost from_gives = { λ _ e. e ≡ Memory };

    fn from(_error: AllocError) -> InputErr {
        InputErr::Memory
    }
}

/// Why the line of this number could not be had.
pub fn error_at(error: RunErr, number: u32) -> InputErr
    ensures { result ≡ error_at error number }
{
    match error {
        RunErr::BadLine => InputErr::BadLine(number),
        RunErr::Read => InputErr::Read,
        RunErr::Write => InputErr::Write,
        RunErr::Memory => InputErr::Memory,
    }
}
