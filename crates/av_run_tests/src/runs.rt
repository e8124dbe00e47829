//! Runs over ports in memory, and how they end.
//!
//! Words are run at one place, over one kind of source, of sink and of device: for each kind more
//! all that a run does would be proved once more.

ghost use Rattle.std.specs.Prelude.{◌≡◌, ◌+◌, ◌<◌, ◌≤◌, IfOk, None, length};
ghost use Rattle.av_replay.specs.Attach.{HasNone};

use av_io::{Failed, MemSink, MemSource, Sink, SinkErr, Source};
use av_replay::{NoProgress, Status, run};
use av_swapdev::{AttachErr, MemDev, PAGE_LEN, SwapDev};
use std::alloc::{AllocError, Global};

/// A run over ports in memory, and how it ends.
///
/// It has its words, its trace, and how many pages each swap area of its device has. The calls of a
/// port that it names fail, by their numbers from 1. A slow source or sink passes one byte a call.
/// A device that lies gives back each page but the header with each bit inverted.
///
/// In the end so many commands are done, if there is a kernel; the text is written; and the pages
/// of the first area begin with these bytes, as far as they are told.
#[derive(Clone, Copy)]
pub struct Run<'a> {
    pub words: &'a [&'a str],
    pub trace: &'a [u8],
    pub areas: &'a [u32],
    pub read_fails: u64,
    pub write_fails: u64,
    pub dev_fails: &'a [u64],
    pub slow_source: bool,
    pub slow_sink: bool,
    pub lies: bool,
    pub status: Status,
    pub steps: Option<u32>,
    pub text: &'a [u8],
    pub first_bytes: &'a [u8],
}

/// A run of nothing, in which nothing fails.
pub const NOTHING: Run<'static> = Run {
    words: &[],
    trace: b"",
    areas: &[],
    read_fails: 0,
    write_fails: 0,
    dev_fails: &[],
    slow_source: false,
    slow_sink: false,
    lies: false,
    status: Status::Done,
    steps: None,
    text: b"",
    first_bytes: &[],
};

/// A run in which nothing fails, and of whose end nothing is told yet.
pub fn run_of<'a>(words: &'a [&'a str], areas: &'a [u32], trace: &'a [u8]) -> Run<'a> {
    Run {
        words,
        trace,
        areas,
        ..NOTHING
    }
}

/// So many commands.
pub fn steps_of(count: usize) -> Option<u32> {
    Some(count.min(u32::MAX as usize) as u32)
}

/// How many of so many bytes pass.
fn pass(slow: bool, count: usize) -> usize
    ensures within { result ≤ count }
    ensures some { 0 < count → 0 < result }
{
    if slow { count.min(1) } else { count }
}

/// The source of a run.
#[derive(Drop)]
struct RunSource {
    all: MemSource,
    slow: bool,
}

impl Source for RunSource {
    ghost view = { λ s. ⟦<MemSource as Source>⟧.view s.all };

    fn read(&mut self, into: &mut [u8]) -> Result<usize, Failed> {
        let room = pass(self.slow, into.len());
        self.all.read(&mut into[..room])
    }
}

/// The sink of a run.
#[derive(Drop)]
struct RunSink {
    all: MemSink,
    slow: bool,
}

impl Sink for RunSink {
    ghost view = { λ s. ⟦<MemSink as Sink>⟧.view s.all };

    fn write(&mut self, piece: &[u8]) -> Result<usize, SinkErr> {
        self.all.write(&piece[..pass(self.slow, piece.len())])
    }

    fn flush(&mut self) -> Result<(), Failed> {
        self.all.flush()
    }
}

/// The device of a run, which notes whether each area was attached by the name `s` and the area's
/// number. It tells nothing of what its pages hold, since it may lie.
#[derive(Drop)]
struct RunDev {
    honest: MemDev,
    lies: bool,
    is_in_order: bool,
}

/// Inverts each bit.
fn invert(bytes: &mut [u8])
    ensures { length bytes.new ≡ length bytes.old }
{
    for byte in bytes.iter_mut() {
        *byte = !*byte;
    }
}

impl SwapDev for RunDev {
    ghost sizes = { λ d. ⟦<MemDev as SwapDev>⟧.sizes d.honest };

    ghost pages = { λ _. None };

    ghost failures = { λ d. ⟦<MemDev as SwapDev>⟧.failures d.honest };

    ghost history = { λ d. ⟦<MemDev as SwapDev>⟧.history d.honest };

    fn attach(&mut self, area: u8, name: &str) -> Result<u32, AttachErr> {
        self.is_in_order = self.is_in_order && name.as_bytes() == [b's', b'0' + area].as_slice();
        self.honest.attach(area, name)
    }

    fn read(&mut self, area: u8, page: u32, into: &mut [u8]) -> Result<(), Failed> {
        self.honest.read(area, page, into)?;
        if self.lies && page != 0 {
            invert(into);
        }
        Ok(())
    }

    fn write(&mut self, area: u8, page: u32, from: &[u8]) -> Result<(), Failed> {
        self.honest.write(area, page, from)
    }
}

/// Puts a number into a header.
fn put(page: &mut [u8; PAGE_LEN], at: usize, number: u32)
    requires { at + 4 ≤ 4096 }
{
    page[at..at + 4].copy_from_slice(&number.to_le_bytes());
}

/// The header of an area of so many pages, at least one, without bad ones.
fn header(pages: u32) -> [u8; PAGE_LEN] {
    let mut page = [0; PAGE_LEN];
    page[PAGE_LEN - 10..].copy_from_slice(b"SWAPSPACE2");
    put(&mut page, 1024, 1);
    put(&mut page, 1028, pages.max(1) - 1);
    page
}

/// An area of so many pages, at least one: a header, and zeros.
fn area_of(alloc: Global, pages: u32) -> Result<Vec<[u8; PAGE_LEN]>, AllocError> {
    let mut area = vec![in alloc; [0; PAGE_LEN]; pages.max(1) as usize]?;
    area[0] = header(pages);
    Ok(area)
}

/// Areas of so many pages each.
fn areas_of(alloc: Global, pages: &[u32]) -> Result<Vec<Vec<[u8; PAGE_LEN]>>, AllocError> {
    let mut areas = Vec::new(alloc);
    for count in pages {
        areas.push(area_of(alloc, *count)?)?;
    }
    Ok(areas)
}

/// The source of a run, which was not read yet.
fn source_of(alloc: Global, run: &Run<'_>) -> Result<RunSource, AllocError> {
    let trace = Vec::from_slice(alloc, run.trace)?;
    Ok(RunSource {
        all: MemSource::new(trace, vec![in alloc; run.read_fails]?),
        slow: run.slow_source,
    })
}

/// The sink of a run, which holds nothing yet.
fn sink_of(alloc: Global, run: &Run<'_>) -> Result<RunSink, AllocError> {
    Ok(RunSink {
        all: MemSink::new(alloc, vec![in alloc; run.write_fails]?),
        slow: run.slow_sink,
    })
}

/// The device of a run, none of whose areas is attached yet.
fn dev_of(alloc: Global, run: &Run<'_>) -> Result<RunDev, AllocError>
    ensures { IfOk result (λ dev. HasNone (⟦<RunDev as SwapDev>⟧.sizes dev)) }
{
    let areas = areas_of(alloc, run.areas)?;
    Ok(RunDev {
        honest: MemDev::new(areas, Vec::from_slice(alloc, run.dev_fails)?),
        lies: run.lies,
        is_in_order: true,
    })
}

/// The ports of a run.
#[derive(Drop)]
struct Ports {
    source: RunSource,
    sink: RunSink,
    dev: RunDev,
}

/// Those of a run that has not begun.
fn ports_of(alloc: Global, run: &Run<'_>) -> Result<Ports, AllocError>
    ensures { IfOk result (λ ports. HasNone (⟦<RunDev as SwapDev>⟧.sizes ports.dev)) }
{
    Ok(Ports {
        source: source_of(alloc, run)?,
        sink: sink_of(alloc, run)?,
        dev: dev_of(alloc, run)?,
    })
}

/// The words as a command line has them.
fn words_of(alloc: Global, words: &[&str]) -> Result<Vec<String>, AllocError> {
    let mut line = Vec::new(alloc);
    for word in words {
        line.push(String::from_str(alloc, word)?)?;
    }
    Ok(line)
}

/// Runs words over ports, and tells the status, and how many commands the kernel has done, if there
/// is one.
fn run_over(alloc: Global, words: &[String], ports: &mut Ports) -> (Status, Option<u32>)
    requires { HasNone (⟦<RunDev as SwapDev>⟧.sizes ports.old.dev) }
{
    let outcome = run(
        alloc,
        words,
        &mut ports.source,
        &mut ports.sink,
        &mut ports.dev,
        &mut NoProgress,
    );
    let steps = match &outcome.kernel {
        Some(kernel) => Some(kernel.steps_done()),
        None => None,
    };
    (outcome.into_status(), steps)
}

/// Whether each area was attached by its own name, and has its header still.
fn is_kept(dev: &RunDev, areas: &[u32]) -> bool {
    let mut area: u8 = 0;
    for pages in areas {
        if dev.honest.page(area, 0) != Some(&header(*pages)) {
            return false;
        }
        area = area.saturating_add(1);
    }
    dev.is_in_order
}

/// Whether the pages of the first area begin with these bytes.
fn begins(dev: &RunDev, first_bytes: &[u8]) -> bool {
    let mut page: u32 = 0;
    for byte in first_bytes {
        match dev.honest.page(0, page) {
            Some(bytes) if bytes[0] == *byte => {}
            _ => return false,
        }
        page = page.saturating_add(1);
    }
    true
}

/// Whether the ports hold after a run what they have to.
fn hold(ports: &Ports, run: &Run<'_>) -> bool {
    ports.sink.all.bytes() == run.text
        && is_kept(&ports.dev, run.areas)
        && begins(&ports.dev, run.first_bytes)
}

/// Whether a run ends as it says, with each area attached by its own name, and each header as it
/// was.
pub fn ends_so(alloc: Global, run: &Run<'_>) -> Result<bool, AllocError> {
    let words = words_of(alloc, run.words)?;
    let mut ports = ports_of(alloc, run)?;
    let (status, steps) = run_over(alloc, &words, &mut ports);
    Ok(status == run.status && steps == run.steps && hold(&ports, run))
}
