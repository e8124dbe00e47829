//! Replies that are known before they are read.

ghost use Rattle.std.specs.Prelude.{IfOk, option_map};
ghost use Rattle.av_audit_report.specs.Made.{SaysMade};

use av_audit_judge::is_reply;
use av_trace::Reply;
use std::alloc::{AllocError, Global};

/// Whether the unit is the text of this reply, if there is one.
pub fn is_made(alloc: Global, made: &Option<Reply>, unit: &[u8]) -> Result<bool, AllocError>
    ensures { IfOk result (λ yes. SaysMade yes unit.now made.now) }
{
    match made {
        None => Ok(false),
        Some(reply) => is_reply(alloc, reply, unit),
    }
}
