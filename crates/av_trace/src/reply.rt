//! What a command is answered: one answer, and then notes of what happened or the rows of a report.

ghost use Rattle.std.specs.Prelude.{◌≡◌, [], ◌∷◌, true};
ghost use Rattle.std.specs.List.{flat_map};
ghost use Rattle.std.specs.Fmt.{decimal as digits_of};
ghost use Rattle.av_trace.specs.Note.{slot_text};
ghost use Rattle.av_trace.specs.Reply.{answer_only, labelled as labelled_text};
ghost use Rattle.av_trace.specs.Reply.{above_zero, shown_words, out_words, cached_words};
ghost use Rattle.av_trace.specs.Reply.{merged_words, total_words};
ghost use Rattle.av_trace.specs.Reply.{answer_line as line_of_answer, tells};
ghost use Rattle.av_trace.specs.Print.{whole_line};
ghost use Rattle.av_text.specs.Word.{Adds, field, line};

use crate::note::{Notes, add_slot, end_line, number_line, slot_line};
use crate::row::Rows;
use av_base::Slot;
use av_text::Bytes;
use av_text::hex::{add_address, add_bytes};
use av_text::number::{add_decimal, add_number};
use av_text::word::add_word;
use std::alloc::{AllocError, Global};

/// Why a command was refused, by the kernel's error numbers.
#[derive(Clone, Copy, Drop, Debug, PartialEq, Eq)]
pub enum Errno {
    Eperm,
    Esrch,
    Eio,
    Eagain,
    Enomem,
    Efault,
    Ebusy,
    Eexist,
    Einval,
}

/// Why no frame could be had: each frame is pinned, else locked, else merged, else it has no slot
/// to go to, or its write to a slot failed. The five add up to the number of frames.
#[derive(Clone, Copy, Drop, Debug, PartialEq, Eq)]
pub struct OutOf {
    pub pinned: u32,
    pub noslot: u32,
    pub fault: u32,
    pub locked: u32,
    pub ksm: u32,
}

/// The numbers of `stat`.
#[derive(Clone, Copy, Drop)]
pub struct Totals {
    pub frames: u64,
    pub free: u64,
    pub active: u64,
    pub inactive: u64,
    pub flight: u64,
    pub slots: u64,
    pub free_slots: u64,
    pub processes: u64,
}

/// The first line of a reply.
///
/// Where an access stops before its end, `served` counts the bytes before the stop, and `shown`
/// are those of a read.
#[derive(Drop)]
pub enum Answer {
    Done,
    MapAt(u64),
    Data(Bytes),
    Refused(Errno),
    Segv {
        served: u64,
        shown: Bytes,
    },
    Bus {
        served: u64,
        shown: Bytes,
    },
    Oom {
        served: u64,
        out: OutOf,
        shown: Bytes,
    },
    On {
        slots: u32,
        bad: u32,
    },
    NoFrame(OutOf),
    Runs(u64),
    AreaList(u64),
    Walk {
        frame: u32,
        maps: u64,
    },
    NoWalk,
    EntryEmpty,
    EntryZero,
    EntryFrame {
        frame: u32,
        seen: bool,
        cached: Option<Slot>,
        merged: bool,
    },
    EntrySlot {
        slot: Slot,
        cached: Option<u32>,
    },
    SlotBad(Slot),
    SlotCount {
        slot: Slot,
        count: u64,
        cached: Option<u32>,
    },
    Counted(Totals),
}

/// The reply to one command.
#[derive(Drop)]
pub struct Reply {
    pub answer: Answer,
    pub notes: Notes,
    pub rows: Rows,
}

impl Reply {
    /// A reply that says that all is done, and no more.
    pub fn new(alloc: Global) -> Self
        ensures { result ≡ answer_only Answer.Done }
    {
        Reply {
            answer: Answer::Done,
            notes: Notes::new(alloc),
            rows: Rows::new(alloc),
        }
    }

    /// Forgets its notes and rows, and keeps their room. The answer stays until another is given.
    #[inline]
    pub fn clear(&mut self)
        ensures { self.new ≡ answer_only self.old.answer }
    {
        self.notes.clear();
        self.rows.clear();
    }
}

/// Adds a space, a label such as `free=`, and its number.
#[tactic(auto, unfolding(crate::specs::Reply::labelled))]
fn add_labelled(text: &mut Bytes, label: &[u8], n: u64) -> Result<(), AllocError>
    ensures { Adds result text.old text.new (field (labelled_text label.now n)) }
{
    add_word(text, label)?;
    add_decimal(text, n)
}

fn add_shown(text: &mut Bytes, shown: &[u8]) -> Result<(), AllocError>
    ensures { Adds result text.old text.new (flat_map field (shown_words shown.now)) }
{
    if shown.is_empty() {
        Ok(())
    } else {
        add_bytes(text, shown)
    }
}

/// Adds labels with their numbers.
fn add_labels(text: &mut Bytes, labels: &[(&[u8], u64)]) -> Result<(), AllocError>
    ensures { Adds result text.old text.new
        (flat_map (λ x. field (labelled_text x.0.now x.1)) labels.now) }
{
    for &(label, n) in labels {
        add_labelled(text, label, n)?;
    }
    Ok(())
}

/// Adds a label and its number, where that is above 0.
fn add_above_zero(text: &mut Bytes, label: &[u8], n: u64) -> Result<(), AllocError>
    ensures { Adds result text.old text.new (flat_map field (above_zero label.now n)) }
{
    if n > 0 {
        add_labelled(text, label, n)
    } else {
        Ok(())
    }
}

fn add_out(text: &mut Bytes, out: OutOf) -> Result<(), AllocError>
    ensures { Adds result text.old text.new (flat_map field (out_words out)) }
{
    let labels: [(&[u8], u64); 3] = [
        (b"pinned=", u64::from(out.pinned)),
        (b"noslot=", u64::from(out.noslot)),
        (b"fault=", u64::from(out.fault)),
    ];
    add_labels(text, &labels)?;
    add_above_zero(text, b"locked=", u64::from(out.locked))?;
    add_above_zero(text, b"ksm=", u64::from(out.ksm))
}

fn add_cached_slot(text: &mut Bytes, cached: Option<Slot>) -> Result<(), AllocError>
    ensures { Adds result text.old text.new (flat_map field (cached_words slot_text cached)) }
{
    match cached {
        None => Ok(()),
        Some(slot) => {
            add_word(text, b"cached")?;
            add_slot(text, slot)
        }
    }
}

fn add_cached_frame(text: &mut Bytes, cached: Option<u32>) -> Result<(), AllocError>
    ensures { Adds result text.old text.new (flat_map field (cached_words digits_of cached)) }
{
    match cached {
        None => Ok(()),
        Some(frame) => {
            add_word(text, b"cached")?;
            add_number(text, u64::from(frame))
        }
    }
}

/// An access that stopped: the first byte that was not served, and the bytes read before it.
fn stop_line(text: &mut Bytes, name: &[u8], served: u64, shown: &[u8]) -> Result<(), AllocError>
    ensures { Adds result text.old text.new
        (line name.now (digits_of served ∷ shown_words shown.now)) }
{
    text.append(name)?;
    add_number(text, served)?;
    add_shown(text, shown)
}

fn oom_line(text: &mut Bytes, served: u64, out: OutOf, shown: &[u8]) -> Result<(), AllocError>
    ensures { Adds result text.old text.new (line_of_answer (Answer.Oom served out shown.now)) }
{
    number_line(text, b"oom", served)?;
    add_out(text, out)?;
    add_shown(text, shown)
}

/// A name, and a word.
fn word_line(text: &mut Bytes, name: &[u8], word: &[u8]) -> Result<(), AllocError>
    ensures { Adds result text.old text.new (line name.now (word.now ∷ [])) }
{
    text.append(name)?;
    add_word(text, word)
}

fn no_frame_line(text: &mut Bytes, out: OutOf) -> Result<(), AllocError>
    ensures { Adds result text.old text.new (line_of_answer (Answer.NoFrame out)) }
{
    word_line(text, b"err", b"ENOMEM")?;
    add_out(text, out)
}

fn total_line(text: &mut Bytes, totals: &Totals) -> Result<(), AllocError>
    ensures { Adds result text.old text.new (line_of_answer (Answer.Counted totals.now)) }
{
    text.append(b"stat")?;
    let labels: [(&[u8], u64); 8] = [
        (b"frames=", totals.frames),
        (b"free=", totals.free),
        (b"active=", totals.active),
        (b"inactive=", totals.inactive),
        (b"flight=", totals.flight),
        (b"slots=", totals.slots),
        (b"freeslots=", totals.free_slots),
        (b"procs=", totals.processes),
    ];
    add_labels(text, &labels)
}

fn walk_line(text: &mut Bytes, frame: u32, maps: u64) -> Result<(), AllocError>
    ensures { Adds result text.old text.new (line_of_answer (Answer.Walk frame maps)) }
{
    number_line(text, b"frame", u64::from(frame))?;
    add_word(text, b"maps")?;
    add_number(text, maps)
}

fn add_merged(text: &mut Bytes, merged: bool) -> Result<(), AllocError>
    ensures { Adds result text.old text.new (flat_map field (merged_words merged)) }
{
    if merged {
        add_word(text, b"ksm")
    } else {
        Ok(())
    }
}

fn entry_frame_line(
    text: &mut Bytes,
    frame: u32,
    seen: bool,
    cached: Option<Slot>,
    merged: bool,
) -> Result<(), AllocError>
    ensures { Adds result text.old text.new
        (line_of_answer (Answer.EntryFrame frame seen cached merged)) }
{
    number_line(text, b"frame", u64::from(frame))?;
    if seen {
        add_word(text, b"seen")?;
    } else {
        add_word(text, b"old")?;
    }
    add_cached_slot(text, cached)?;
    add_merged(text, merged)
}

fn entry_slot_line(text: &mut Bytes, slot: Slot, cached: Option<u32>) -> Result<(), AllocError>
    ensures { Adds result text.old text.new (line_of_answer (Answer.EntrySlot slot cached)) }
{
    slot_line(text, b"slot", slot)?;
    add_cached_frame(text, cached)
}

fn slot_count_line(
    text: &mut Bytes,
    slot: Slot,
    count: u64,
    cached: Option<u32>,
) -> Result<(), AllocError>
    ensures { Adds result text.old text.new (line_of_answer (Answer.SlotCount slot count cached)) }
{
    slot_line(text, b"slot", slot)?;
    add_word(text, b"count")?;
    add_number(text, count)?;
    add_cached_frame(text, cached)
}

fn map_line(text: &mut Bytes, address: u64) -> Result<(), AllocError>
    ensures { Adds result text.old text.new (line_of_answer (Answer.MapAt address)) }
{
    text.append(b"map")?;
    add_address(text, address)
}

fn data_line(text: &mut Bytes, bytes: &Bytes) -> Result<(), AllocError>
    ensures { Adds result text.old text.new (line_of_answer (Answer.Data bytes.now)) }
{
    text.append(b"data ")?;
    text.append_hex(bytes.as_slice())
}

/// The whole line of a refusal: one append, not four.
fn refusal_line(error: Errno) -> &'static [u8]
    ensures { result.now ≡ whole_line (line_of_answer (Answer.Refused error)) }
{
    match error {
        Errno::Eperm => b"err EPERM\n",
        Errno::Esrch => b"err ESRCH\n",
        Errno::Eio => b"err EIO\n",
        Errno::Eagain => b"err EAGAIN\n",
        Errno::Enomem => b"err ENOMEM\n",
        Errno::Efault => b"err EFAULT\n",
        Errno::Ebusy => b"err EBUSY\n",
        Errno::Eexist => b"err EEXIST\n",
        Errno::Einval => b"err EINVAL\n",
    }
}

fn on_line(text: &mut Bytes, slots: u32, bad: u32) -> Result<(), AllocError>
    ensures { Adds result text.old text.new (line_of_answer (Answer.On slots bad)) }
{
    number_line(text, b"on", u64::from(slots))?;
    add_number(text, u64::from(bad))
}

fn bad_slot_line(text: &mut Bytes, slot: Slot) -> Result<(), AllocError>
    ensures { Adds result text.old text.new (line_of_answer (Answer.SlotBad slot)) }
{
    slot_line(text, b"slot", slot)?;
    add_word(text, b"bad")
}

/// Adds the line of an answer that tells a number or bytes, without its newline.
fn telling_line(text: &mut Bytes, answer: &Answer) -> Result<(), AllocError>
    requires { tells answer.now ≡ true }
    ensures { Adds result text.old text.new (line_of_answer answer.now) }
{
    match answer {
        Answer::MapAt(address) => map_line(text, *address),
        Answer::Data(bytes) => data_line(text, bytes),
        Answer::Segv { served, shown } => stop_line(text, b"segv", *served, shown.as_slice()),
        Answer::Bus { served, shown } => stop_line(text, b"bus", *served, shown.as_slice()),
        Answer::Oom { served, out, shown } => oom_line(text, *served, *out, shown.as_slice()),
        Answer::On { slots, bad } => on_line(text, *slots, *bad),
        Answer::NoFrame(out) => no_frame_line(text, *out),
        Answer::Runs(n) => number_line(text, b"runs", *n),
        Answer::AreaList(n) => number_line(text, b"areas", *n),
        Answer::Walk { frame, maps } => walk_line(text, *frame, *maps),
        Answer::EntryFrame {
            frame,
            seen,
            cached,
            merged,
        } => entry_frame_line(text, *frame, *seen, *cached, *merged),
        Answer::EntrySlot { slot, cached } => entry_slot_line(text, *slot, *cached),
        Answer::SlotBad(slot) => bad_slot_line(text, *slot),
        Answer::SlotCount {
            slot,
            count,
            cached,
        } => slot_count_line(text, *slot, *count, *cached),
        Answer::Counted(totals) => total_line(text, totals),
        Answer::Done
        | Answer::Refused(_)
        | Answer::NoWalk
        | Answer::EntryEmpty
        | Answer::EntryZero => unreachable!(),
    }
}

/// Adds the whole line of an answer. One without a number or bytes is one append.
pub fn answer_line(text: &mut Bytes, answer: &Answer) -> Result<(), AllocError>
    ensures { Adds result text.old text.new (whole_line (line_of_answer answer.now)) }
{
    match answer {
        Answer::Done => text.append(b"ok\n"),
        Answer::Refused(error) => text.append(refusal_line(*error)),
        Answer::NoWalk => text.append(b"none\n"),
        Answer::EntryEmpty => text.append(b"empty\n"),
        Answer::EntryZero => text.append(b"zero\n"),
        _ => {
            telling_line(text, answer)?;
            end_line(text)
        }
    }
}
