//! Notes: what happened to an entry, a frame or a slot.
//!
//! What makes a note's line is in line up to the function that adds all of a reply (`print.rt`):
//! then the lengths of its words are known where they are copied.

ghost use Rattle.std.specs.Prelude.{◌≡◌, List, [], ◌∷◌, ◌++◌, OnOk, OnErr};
ghost use Rattle.std.specs.Fmt.{decimal as digits_of};
ghost use Rattle.av_text.specs.Hex.{hex as hex_digits_of};
ghost use Rattle.av_trace.specs.Note.{slot_text, cause_name, note_line as line_of_note};
ghost use Rattle.av_text.specs.Word.{Adds, field, line};

use av_base::Slot;
use av_text::Bytes;
use av_text::hex::add_address;
use av_text::number::{add_decimal, add_number};
use av_text::word::add_word;
use std::alloc::{AllocError, Global};
use std::marker::Model;

/// Why `reclaim` kept a frame.
#[derive(Clone, Copy, Drop)]
pub enum Cause {
    Referenced,
    Writeback,
    NoSlot,
    WriteStarted,
    Locked,
    Ksm,
}

/// What happened to an entry, a frame or a slot. Each is printed as a line of its own.
#[derive(Clone, Copy, Drop)]
pub enum Note {
    Zeroed {
        process: u16,
        address: u64,
    },
    New {
        process: u16,
        address: u64,
        frame: u32,
    },
    Copied {
        process: u16,
        address: u64,
        frame: u32,
    },
    Loaded {
        slot: Slot,
        frame: u32,
    },
    Mapped {
        process: u16,
        address: u64,
        frame: u32,
    },
    Put {
        frame: u32,
        slot: Slot,
    },
    Unmapped(u32),
    Started(Slot),
    Written(Slot),
    Failed(Slot),
    Dropped(Slot),
    Kept {
        frame: u32,
        cause: Cause,
    },
    Aged(u32),
    Shared(u32),
    Joined {
        process: u16,
        address: u64,
        frame: u32,
    },
    Moved {
        from: u32,
        to: u32,
    },
}

/// Notes in the order of happening.
#[derive(Drop)]
pub struct Notes {
    items: Vec<Note>,
}

impl Model for Notes {
    ghost use Rattle.std.specs.Prelude.{List};
    ghost use Rattle.av_trace.specs.declared.note.Note.{Note};

    ghost Value = { List Note };

    ghost view = { λ n. n.items.items };
}

impl Notes {
    /// No notes.
    pub fn new(alloc: Global) -> Self
        ensures { result ≡ [] }
    {
        Notes {
            items: Vec::new(alloc),
        }
    }

    /// Adds a note at the end. Without memory all stays.
    pub fn push(&mut self, note: Note) -> Result<(), AllocError>
        ensures ok { OnOk result (self.new ≡ self.old ++ note ∷ []) }
        ensures err { OnErr result (self.new ≡ self.old) }
    {
        self.items.push(note)?;
        Ok(())
    }

    /// Forgets them and keeps the room.
    pub fn clear(&mut self)
        ensures { self.new ≡ [] }
    {
        self.items.clear();
    }

    pub fn as_slice(&self) -> &[Note]
        ensures { result.now ≡ self.now }
    {
        self.items.as_slice()
    }
}

/// Adds a space and a slot.
#[inline(always)]
pub fn add_slot(text: &mut Bytes, slot: Slot) -> Result<(), AllocError>
    ensures { Adds result text.old text.new (field (slot_text slot)) }
{
    add_number(text, u64::from(slot.area))?;
    text.append(b":")?;
    add_decimal(text, u64::from(slot.page))
}

fn add_cause(text: &mut Bytes, cause: Cause) -> Result<(), AllocError>
    ensures { Adds result text.old text.new (field (cause_name cause)) }
{
    match cause {
        Cause::Referenced => add_word(text, b"referenced"),
        Cause::Writeback => add_word(text, b"writeback"),
        Cause::NoSlot => add_word(text, b"noslot"),
        Cause::WriteStarted => add_word(text, b"started"),
        Cause::Locked => add_word(text, b"locked"),
        Cause::Ksm => add_word(text, b"ksm"),
    }
}

/// Ends a line.
#[inline(always)]
pub fn end_line(text: &mut Bytes) -> Result<(), AllocError>
    ensures { Adds result text.old text.new (10 ∷ []) }
{
    text.append(b"\n")
}

/// A name, and a number.
#[inline(always)]
pub fn number_line(text: &mut Bytes, name: &[u8], n: u64) -> Result<(), AllocError>
    ensures { Adds result text.old text.new (line name.now (digits_of n ∷ [])) }
{
    text.append(name)?;
    add_number(text, n)
}

/// A name, and a slot.
#[inline(always)]
pub fn slot_line(text: &mut Bytes, name: &[u8], slot: Slot) -> Result<(), AllocError>
    ensures { Adds result text.old text.new (line name.now (slot_text slot ∷ [])) }
{
    text.append(name)?;
    add_slot(text, slot)
}

/// A name, and the place of an entry.
#[inline(always)]
fn entry_line(text: &mut Bytes, name: &[u8], process: u16, address: u64) -> Result<(), AllocError>
    ensures { Adds result text.old text.new
        (line name.now (digits_of process ∷ hex_digits_of address ∷ [])) }
{
    number_line(text, name, u64::from(process))?;
    add_address(text, address)
}

/// A name, the place of an entry, and its frame.
fn frame_line(
    text: &mut Bytes,
    name: &[u8],
    process: u16,
    address: u64,
    frame: u32,
) -> Result<(), AllocError>
    ensures { Adds result text.old text.new
        (line name.now (digits_of process ∷ hex_digits_of address ∷ digits_of frame ∷ [])) }
{
    entry_line(text, name, process, address)?;
    add_number(text, u64::from(frame))
}

#[inline(always)]
fn load_line(text: &mut Bytes, slot: Slot, frame: u32) -> Result<(), AllocError>
    ensures { Adds result text.old text.new (line_of_note (Note.Loaded slot frame)) }
{
    slot_line(text, b"load", slot)?;
    add_number(text, u64::from(frame))
}

#[inline(always)]
fn put_line(text: &mut Bytes, frame: u32, slot: Slot) -> Result<(), AllocError>
    ensures { Adds result text.old text.new (line_of_note (Note.Put frame slot)) }
{
    number_line(text, b"put", u64::from(frame))?;
    add_slot(text, slot)
}

#[inline(always)]
fn keep_line(text: &mut Bytes, frame: u32, cause: Cause) -> Result<(), AllocError>
    ensures { Adds result text.old text.new (line_of_note (Note.Kept frame cause)) }
{
    number_line(text, b"keep", u64::from(frame))?;
    add_cause(text, cause)
}

#[inline(always)]
fn move_line(text: &mut Bytes, from: u32, to: u32) -> Result<(), AllocError>
    ensures { Adds result text.old text.new (line_of_note (Note.Moved from to)) }
{
    number_line(text, b"move", u64::from(from))?;
    add_number(text, u64::from(to))
}

/// Adds the line of a note, without its newline.
#[inline(always)]
pub fn note_line(text: &mut Bytes, note: Note) -> Result<(), AllocError>
    ensures { Adds result text.old text.new (line_of_note note) }
{
    match note {
        Note::Zeroed { process, address } => entry_line(text, b"zero", process, address),
        Note::New {
            process,
            address,
            frame,
        } => frame_line(text, b"new", process, address, frame),
        Note::Copied {
            process,
            address,
            frame,
        } => frame_line(text, b"copy", process, address, frame),
        Note::Loaded { slot, frame } => load_line(text, slot, frame),
        Note::Mapped {
            process,
            address,
            frame,
        } => frame_line(text, b"map", process, address, frame),
        Note::Put { frame, slot } => put_line(text, frame, slot),
        Note::Unmapped(frame) => number_line(text, b"unmap", u64::from(frame)),
        Note::Started(slot) => slot_line(text, b"start", slot),
        Note::Written(slot) => slot_line(text, b"done", slot),
        Note::Failed(slot) => slot_line(text, b"fail", slot),
        Note::Dropped(slot) => slot_line(text, b"drop", slot),
        Note::Kept { frame, cause } => keep_line(text, frame, cause),
        Note::Aged(frame) => number_line(text, b"age", u64::from(frame)),
        Note::Shared(frame) => number_line(text, b"share", u64::from(frame)),
        Note::Joined {
            process,
            address,
            frame,
        } => frame_line(text, b"join", process, address, frame),
        Note::Moved { from, to } => move_line(text, from, to),
    }
}
