//! Notes in front of the bytes of a unit: one that is known is taken off, and of one that is known
//! but for its frame or its slot that is read.

ghost use Rattle.std.specs.Prelude.{◌≡◌, ◌<◌, ◌++◌, ◌∷◌, [], IfOk, IfNone, IfSome, option_map};
ghost use Rattle.std.specs.Prelude.{ℕ, ◌+◌, ◌-◌, ◌≤◌, drop, length, slice_index, take, true};
ghost use Rattle.av_trace.specs.Note.{IsNote};
ghost use Rattle.av_trace.specs.Print.{notes_text};
ghost use Rattle.av_audit_judge.specs.Notes.{IsCut, IsFramed, IsNumbered, IsSlotLine};
ghost use Rattle.av_audit_judge.specs.Notes.{IsSlotted, IsTaken, lacks, note_by};

use av_base::Slot;
use av_text::Bytes;
use av_text::number::number_in;
use av_text::word::after;
use av_trace::{Note, note_text};
use std::alloc::{AllocError, Global};

/// A note that is known but for its frame.
#[derive(Clone, Copy, Drop)]
pub enum Taking {
    New { process: u16, address: u64 },
    Copied { process: u16, address: u64 },
    Loaded(Slot),
}

impl Taking {
    /// The note, with its frame.
    pub fn note(self, frame: u32) -> Note
        ensures { result ≡ note_by self frame }
    {
        match self {
            Taking::New { process, address } => Note::New {
                process,
                address,
                frame,
            },
            Taking::Copied { process, address } => Note::Copied {
                process,
                address,
                frame,
            },
            Taking::Loaded(slot) => Note::Loaded { slot, frame },
        }
    }
}

/// The text of a note.
fn text_of_note(alloc: Global, note: Note) -> Result<Bytes, AllocError>
    ensures { IfOk result (λ text. text ≡ notes_text (note ∷ [])) }
{
    let mut text = Bytes::new(alloc);
    note_text(&mut text, note)?;
    Ok(text)
}

/// A text without its last bytes.
fn front(text: &[u8], less: usize) -> &[u8]
    requires { less ≤ length text.now }
    ensures { result.now ≡ take (length text.now - less) text.now }
{
    &text[..text.len() - less]
}

/// What follows a note, where it stands in front of the bytes.
pub fn take_note<'a>(
    alloc: Global,
    bytes: &'a [u8],
    note: Note,
) -> Result<Option<&'a [u8]>, AllocError>
    ensures { IfOk result (λ value. IsTaken bytes.now note (option_map (λ rest. rest.now) value)) }
{
    let text = text_of_note(alloc, note)?;
    Ok(after(bytes, text.as_slice()))
}

/// Where the byte stands first, if it does.
fn place_of(byte: u8, bytes: &[u8]) -> Option<usize>
    ensures found { IfSome result (λ k. (k < length bytes.now) × (slice_index bytes.now k ≡ byte)
        × ((j : ℕ) → j < k → slice_index bytes.now j ≡ byte → ⊥)) }
    ensures none { IfNone result
        ((j : ℕ) → j < length bytes.now → slice_index bytes.now j ≡ byte → ⊥) }
{
    for (i, other) in bytes.iter().enumerate() {
        if *other == byte {
            return Some(i);
        }
    }
    None
}

/// The bytes before the first that is this one, and those behind it.
pub fn cut(byte: u8, bytes: &[u8]) -> Option<(&[u8], &[u8])>
    ensures found { IfSome result (λ x. IsCut byte bytes.now x.0.now x.1.now) }
    ensures none { IfNone result (lacks byte bytes.now ≡ true) }
{
    match place_of(byte, bytes) {
        None => None,
        Some(end) => Some((&bytes[..end], &bytes[end + 1..])),
    }
}

/// The frame of a note in front of the bytes that is known but for it, and what follows it.
pub fn take_frame<'a>(
    alloc: Global,
    bytes: &'a [u8],
    taking: Taking,
    frames: u32,
) -> Result<Option<(u32, &'a [u8])>, AllocError>
    requires { 0 < frames }
    ensures { IfOk result (λ value. IsFramed frames bytes.now taking
        (option_map (λ x. (x.0, x.1.now)) value)) }
{
    let text = text_of_note(alloc, taking.note(0))?;
    let known = front(text.as_slice(), 2);
    match after(bytes, known) {
        None => Ok(None),
        Some(word) => Ok(number_line(word, frames)),
    }
}

/// A number below this one on a line of its own, and what follows that.
fn number_line(bytes: &[u8], bound: u32) -> Option<(u32, &[u8])>
    requires { 0 < bound }
    ensures { IsNumbered bound bytes.now (option_map (λ x. (x.0, x.1.now)) result) }
{
    match cut(b'\n', bytes) {
        None => None,
        Some((word, rest)) => match number_in(word, 0, u64::from(bound) - 1) {
            None => None,
            Some(n) => Some((n as u32, rest)),
        },
    }
}

/// The slot at which the note in front of the bytes puts the frame, and what follows the note.
pub fn take_slot<'a>(
    alloc: Global,
    bytes: &'a [u8],
    frame: u32,
) -> Result<Option<(Slot, &'a [u8])>, AllocError>
    ensures { IfOk result (λ value. IsSlotted bytes.now frame
        (option_map (λ x. (x.0, x.1.now)) value)) }
{
    let slot = Slot { area: 0, page: 0 };
    let text = text_of_note(alloc, Note::Put { frame, slot })?;
    let known = front(text.as_slice(), 4);
    match after(bytes, known) {
        None => Ok(None),
        Some(word) => Ok(slot_line(word)),
    }
}

/// A slot on a line of its own, and what follows that.
fn slot_line(bytes: &[u8]) -> Option<(Slot, &[u8])>
    ensures { IsSlotLine bytes.now (option_map (λ x. (x.0, x.1.now)) result) }
{
    match cut(b'\n', bytes) {
        None => None,
        Some((line, rest)) => match cut(b':', line) {
            None => None,
            Some((first, second)) => match number_in(first, 0, 255) {
                None => None,
                Some(area) => match number_in(second, 0, 0xffff_ffff) {
                    None => None,
                    Some(page) => Some((
                        Slot {
                            area: area as u8,
                            page: page as u32,
                        },
                        rest,
                    )),
                },
            },
        },
    }
}

/// The numbers of a note are of 64 bits.
pub fn fits(note: Note)
    ensures { IsNote note }
{
    match note {
        Note::Zeroed { process, address } => {
            let _ = (process, address);
        }
        Note::New {
            process,
            address,
            frame,
        }
        | Note::Copied {
            process,
            address,
            frame,
        }
        | Note::Mapped {
            process,
            address,
            frame,
        }
        | Note::Joined {
            process,
            address,
            frame,
        } => {
            let _ = (process, address, frame);
        }
        Note::Loaded { slot, frame } | Note::Put { frame, slot } => {
            let _ = (slot.area, slot.page, frame);
        }
        Note::Unmapped(frame) | Note::Aged(frame) | Note::Shared(frame) => {
            let _ = frame;
        }
        Note::Started(slot) | Note::Written(slot) | Note::Failed(slot) | Note::Dropped(slot) => {
            let _ = (slot.area, slot.page);
        }
        Note::Kept { frame, .. } => {
            let _ = frame;
        }
        Note::Moved { from, to } => {
            let _ = (from, to);
        }
    }
}
