//! Replies as text.

ghost use Rattle.std.specs.Prelude.{◌≡◌, [], ◌∷◌};
ghost use Rattle.av_trace.specs.declared.reply.Reply.{Reply as AnyReply};
ghost use Rattle.av_trace.specs.Note.{note_line as line_of_note};
ghost use Rattle.av_trace.specs.Print.{notes_text, rows_text, text_of, whole_line};
ghost use Rattle.av_trace.specs.Reply.{IsReply};
ghost use Rattle.av_text.specs.Word.{Adds, field};

use crate::note::{Note, end_line, note_line};
use crate::reply::{Reply, answer_line};
use crate::row::{Row, row_line};
use av_text::Bytes;
use std::alloc::AllocError;

/// What begins the line of a note or a row.
#[inline(always)]
fn begin_row(text: &mut Bytes) -> Result<(), AllocError>
    ensures { Adds result text.old text.new (32 ∷ []) }
{
    text.append(b" ")
}

/// Adds the text of a note: its line, which begins with a space and ends with a newline.
#[inline(always)]
pub fn note_text(text: &mut Bytes, note: Note) -> Result<(), AllocError>
    ensures { Adds result text.old text.new (whole_line (field (line_of_note note))) }
{
    begin_row(text)?;
    note_line(text, note)?;
    end_line(text)
}

#[inline(never)]
fn add_notes(text: &mut Bytes, notes: &[Note]) -> Result<(), AllocError>
    ensures { Adds result text.old text.new (notes_text notes.now) }
{
    for note in notes {
        note_text(text, *note)?;
    }
    Ok(())
}

fn add_rows(text: &mut Bytes, rows: &[Row]) -> Result<(), AllocError>
    ensures { Adds result text.old text.new (rows_text rows.now) }
{
    for row in rows {
        begin_row(text)?;
        row_line(text, row)?;
        end_line(text)?;
    }
    Ok(())
}

/// Adds a reply's text: the answer's line, and then its notes and rows, each on a line that
/// begins with a space.
///
/// Each line ends with a newline. Without memory a part of the text may have been added.
pub fn reply_text(reply: &Reply, text: &mut Bytes) -> Result<(), AllocError>
    ensures { Adds result text.old text.new (text_of reply.now) }
{
    answer_line(text, &reply.answer)?;
    add_notes(text, reply.notes.as_slice())?;
    add_rows(text, reply.rows.as_slice())
}

/// A text is that of one reply at most: a reader loses nothing, even without the command.
pub fn one_reply()
    ensures { (a b : AnyReply) → IsReply a → IsReply b → text_of a ≡ text_of b → a ≡ b }
{}
