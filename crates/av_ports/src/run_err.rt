//! Why a run ends early.

ghost use Rattle.std.specs.Prelude.{◌≡◌};
ghost use Rattle.av_ports.specs.declared.run_err.RunErr.TheVariants.{Memory};

use std::alloc::AllocError;

/// Why no further line is read, or done. Reading tells no want of memory.
#[derive(Clone, Copy, Drop, Debug, PartialEq, Eq)]
pub enum RunErr {
    /// The next line is too long, or no command.
    BadLine,
    /// The source failed.
    Read,
    /// The sink failed.
    Write,
    Memory,
}

impl From<AllocError> for RunErr {
    ghost from_gives = { λ _ e. e ≡ Memory };

    fn from(_error: AllocError) -> RunErr {
        RunErr::Memory
    }
}
