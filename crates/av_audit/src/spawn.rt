//! Units of `spawn`.

ghost use Rattle.std.specs.Prelude.{◌≡◌, IfOk, is_some, true};
ghost use Rattle.av_trace.specs.declared.command.Command.TheVariants as commands;
ghost use Rattle.av_plain.specs.Ledger.{Ledger, Setting};
ghost use Rattle.av_plain.specs.Refusal.{refusal, tests};
ghost use Rattle.av_plain.specs.World.{World};
ghost use Rattle.av_audit_world.specs.Memories.{IsWorld};
ghost use Rattle.av_audit.specs.Judge.{LeavesLedger};

use av_audit_judge::is_answer;
use av_audit_world::{Memories, Space};
use av_base::MOST_PROCESSES;
use av_trace::{Answer, Errno};
use std::alloc::{AllocError, Global};

/// Why a spawn is refused, if it is.
fn refuses_spawn(memories: &Memories, process: u16) -> Option<Errno>
    ensures { (m : Setting) (w : World) (l : Ledger) → IsWorld memories.now w
        → result ≡ refusal (tests m w l (commands.Spawn process)) }
{
    if memories.lives(process) {
        Some(Errno::Eexist)
    } else if memories.count() >= MOST_PROCESSES {
        Some(Errno::Eagain)
    } else {
        None
    }
}

/// Whether a unit is legal for `spawn`.
pub fn audits_spawn(
    alloc: Global,
    memories: &mut Memories,
    process: u16,
    unit: &[u8],
) -> Result<bool, AllocError>
    ensures { IfOk result (λ legal. (m : Setting) (w : World) (l : Ledger)
        → IsWorld memories.old w → is_some m.headers ≡ true
        → LeavesLedger m w l (commands.Spawn process) unit.now legal memories.new) }
{
    match refuses_spawn(memories, process) {
        Some(error) => is_answer(alloc, &Answer::Refused(error), unit),
        None => {
            if !is_answer(alloc, &Answer::Done, unit)? {
                return Ok(false);
            }
            memories.set(process, Space::new(alloc))?;
            Ok(true)
        }
    }
}
