//! Why a command is not done, and the test that a process lives.

ghost use Rattle.std.specs.Prelude.{◌≡◌, true, false, is_some, MatchResult};
ghost use Rattle.av_spaces.specs.Spaces.{areas_of};
ghost use Rattle.av_step.specs.declared.refusal.Refusal.TheVariants.{Refused, Memory};
ghost use Rattle.av_trace.specs.declared.reply.Errno.TheVariants as errors;

use av_mem::Mem;
use av_trace::Errno;
use std::alloc::AllocError;

/// Why a command is not done: it is refused, or memory is wanting.
#[derive(Clone, Copy, Drop, Debug, PartialEq, Eq)]
pub enum Refusal {
    Refused(Errno),
    Memory,
}

impl From<AllocError> for Refusal {
    ghost from_gives = { λ _ refusal. refusal ≡ Memory };

    fn from(_error: AllocError) -> Refusal {
        Refusal::Memory
    }
}

impl From<Errno> for Refusal {
    ghost from_gives = { λ error refusal. refusal ≡ Refused error };

    fn from(error: Errno) -> Refusal {
        Refusal::Refused(error)
    }
}

/// Refuses where the process does not live.
pub fn check_lives(mem: &Mem, process: u16) -> Result<(), Refusal>
    ensures { MatchResult result
        (λ _. is_some (areas_of mem.now.spaces.processes process) ≡ true)
        (λ refusal. (is_some (areas_of mem.now.spaces.processes process) ≡ false)
        × (refusal ≡ Refused errors.Esrch)) }
{
    if !mem.spaces.lives(process) {
        return Err(Refusal::Refused(Errno::Esrch));
    }
    Ok(())
}
