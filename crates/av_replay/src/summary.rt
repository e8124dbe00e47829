//! The summary of a load.
//!
//! Its counts are the kernel's own. A program that invents them would have to invent the kernel
//! that it hands back. Its last line is `Kernel::totals`: a `stat` by `step` would be one command
//! more than the load has.

ghost use Rattle.std.specs.Prelude.{◌≡◌, ◌<◌, false, length, IfOk};
ghost use Rattle.av_text.specs.Word.{Adds};
ghost use Rattle.av_plain.specs.Device.{setting_of};
ghost use Rattle.av_plain.specs.Report.{totals as totals_of};
ghost use Rattle.av_plain.specs.Transcript.{State};
ghost use Rattle.av_kernel.specs.Kernel.{Stands};
ghost use Rattle.av_ports.specs.Ports.{OnlySink};
ghost use Rattle.av_replay.specs.Summary.{EndsText, SumsUp, count_line, summary_text, tally_text};

use crate::replay::flush_last;
use crate::status::Status;
use av_io::SinkErr;
use av_kernel::{Kernel, Tally};
use av_ports::{Ports, write_all};
use av_text::Bytes;
use av_text::number::add_number;
use av_trace::{Answer, Reply, Totals, reply_text};
use std::alloc::{AllocError, Global};

/// Adds a line of a word and a number.
fn add_count(text: &mut Bytes, word: &[u8], n: u64) -> Result<(), AllocError>
    ensures { Adds result text.old text.new (count_line word.now n) }
{
    text.append(word)?;
    add_number(text, n)?;
    text.append(b"\n")
}

/// Adds how often each first word of a reply came.
fn add_tally(text: &mut Bytes, tally: &Tally) -> Result<(), AllocError>
    ensures { Adds result text.old text.new (tally_text tally.now) }
{
    add_count(text, b"ok", u64::from(tally.done))?;
    add_count(text, b"map", u64::from(tally.mapped))?;
    add_count(text, b"data", u64::from(tally.shown))?;
    add_count(text, b"on", u64::from(tally.on))?;
    add_count(text, b"err", u64::from(tally.refused))?;
    add_count(text, b"segv", u64::from(tally.segv))?;
    add_count(text, b"bus", u64::from(tally.bus))?;
    add_count(text, b"oom", u64::from(tally.oom))
}

/// The summary of so many lines, by what a kernel counted and what `stat` would answer.
fn make_summary(
    alloc: Global,
    lines: u64,
    tally: &Tally,
    totals: Totals,
) -> Result<Bytes, AllocError>
    ensures { IfOk result (λ text. text ≡ summary_text lines tally.now totals) }
{
    let mut text = Bytes::new(alloc);
    add_count(&mut text, b"lines", lines)?;
    add_tally(&mut text, tally)?;
    let mut reply = Reply::new(alloc);
    reply.answer = Answer::Counted(totals);
    reply_text(&reply, &mut text)?;
    Ok(text)
}

/// Writes a text in the end, and flushes the sink.
pub fn write_last<P: Ports>(ports: &mut P, text: &[u8]) -> Status
    requires { 0 < length text.now }
    ensures ends { EndsText result (P.view ports.old).sink (P.view ports.new).sink text.now }
    ensures only { OnlySink (P.view ports.old) (P.view ports.new) }
    ensures kept { P.kept ports.new ≡ P.kept ports.old }
{
    let status = match write_all(ports, text) {
        Ok(()) => Status::Done,
        Err(SinkErr::Failed) => Status::WriteFault,
        Err(SinkErr::Memory) => Status::Memory,
    };
    flush_last(status, ports)
}

/// Writes the summary of a load of so many lines, which this kernel did, and flushes the sink.
pub fn sum_up<P: Ports>(alloc: Global, lines: u64, kernel: &Kernel, ports: &mut P) -> Status
    requires unspent { kernel.now.spent ≡ false }
    // Its counts are the kernel's, and its last line is that of what the kernel stands for.
    ensures sums { (s : State) → Stands kernel.now (P.view ports.old).device s
        → SumsUp result (P.view ports.old).sink (P.view ports.new).sink
        (summary_text lines kernel.now.tally (totals_of
        (setting_of kernel.now.frames (P.view ports.old).device) s.world s.ledger)) }
    ensures only { OnlySink (P.view ports.old) (P.view ports.new) }
    ensures kept { P.kept ports.new ≡ P.kept ports.old }
{
    let Ok(text) = make_summary(alloc, lines, &kernel.tally(), kernel.totals()) else {
        return Status::Memory;
    };
    write_last(ports, text.as_slice())
}
