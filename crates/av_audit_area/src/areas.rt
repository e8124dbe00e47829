//! Units for `areas`.

ghost use Rattle.std.specs.Prelude.{◌≡◌, IfOk, None};
ghost use Rattle.av_trace.specs.declared.command.Command.TheVariants as commands;
ghost use Rattle.av_plain.specs.Ledger.{Ledger, Setting};
ghost use Rattle.av_plain.specs.Refusal.{refusal, tests};
ghost use Rattle.av_plain.specs.World.{World, pages};
ghost use Rattle.av_audit_judge.specs.Verdict.{IsVerdict};
ghost use Rattle.av_audit_world.specs.Space.{IsSpace};

use crate::read::areas_reply;
use crate::shown::shows_areas;
use av_audit_judge::is_reply;
use av_audit_world::Space;
use std::alloc::{AllocError, Global};

/// Whether a unit is legal for `areas` of a process that has this mapped.
pub fn judges_areas(
    space: &Space,
    alloc: Global,
    process: u16,
    text: &[u8],
) -> Result<bool, AllocError>
    ensures { IfOk result (λ legal. (m : Setting) (w : World) (l : Ledger)
        → IsSpace space.now (pages w process)
        → refusal (tests m w l (commands.Areas process)) ≡ None
        → IsVerdict m w l (commands.Areas process) text.now legal l) }
{
    let reply = areas_reply(alloc, text)?;
    if !is_reply(alloc, &reply, text)? {
        return Ok(false);
    }
    shows_areas(space, alloc, reply.rows.as_slice())
}
