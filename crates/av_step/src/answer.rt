//! What a command answers.
//!
//! A command is handed a reply without notes and rows, whatever its answer is, and must give its
//! own: so one that forgets to is not proved.

ghost use Rattle.std.specs.Prelude.{◌≡◌};

use av_trace::{Answer, Reply};

/// Gives a reply its answer.
// Apart, since to let go of the answer before it costs a proof wherever it stands.
#[inline(always)]
pub fn answer_with(reply: &mut Reply, answer: Answer)
    ensures { reply.new ≡ record reply.old { answer = answer } }
{
    reply.answer = answer;
}
