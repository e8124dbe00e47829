//! Texts of replies, compared.

ghost use Rattle.std.specs.Prelude.{IfOk, []};
ghost use Rattle.av_trace.specs.declared.reply.Answer.TheVariants as answers;
ghost use Rattle.std.specs.List.{AllByRecursion};
ghost use Rattle.av_trace.specs.Note.{IsNote};
ghost use Rattle.av_audit_judge.specs.Says.{SaysOnly, SaysReply};

use crate::notes::fits;
use av_text::Bytes;
use av_trace::{Answer, Note, Notes, Reply, Rows, answer_line, reply_text};
use std::alloc::{AllocError, Global};

/// Whether the unit is the text of this answer alone.
pub fn is_answer(alloc: Global, answer: &Answer, unit: &[u8]) -> Result<bool, AllocError>
    ensures { IfOk result (λ yes. SaysOnly yes unit.now answer.now) }
{
    let mut text = Bytes::new(alloc);
    answer_line(&mut text, answer)?;
    Ok(unit == text.as_slice())
}

/// Whether the unit is the text of this reply.
pub fn is_reply(alloc: Global, reply: &Reply, unit: &[u8]) -> Result<bool, AllocError>
    ensures { IfOk result (λ yes. SaysReply yes unit.now reply.now) }
{
    let mut bytes = Bytes::new(alloc);
    reply_text(reply, &mut bytes)?;
    Ok(unit == bytes.as_slice())
}

/// Whether the unit is the text of a reply that says that all is done, with these notes.
pub fn tells(alloc: Global, notes: Notes, unit: &[u8]) -> Result<bool, AllocError>
    ensures { IfOk result (λ yes. SaysReply yes unit.now
        (record { answer = answers.Done; notes = notes; rows = [] })) }
{
    let reply = Reply {
        answer: Answer::Done,
        notes,
        rows: Rows::new(alloc),
    };
    is_reply(alloc, &reply, unit)
}

/// The numbers of each note are of 64 bits.
pub fn all_fit(notes: &[Note])
    ensures { AllByRecursion IsNote notes.now }
{
    let mut rest = notes;
    while let [first, others @ ..] = rest {
        fits(*first);
        rest = others;
    }
}
