//! Reports: `maps`, `areas`, `rmap`, `entry` and `stat`. They change nothing.

ghost use Rattle.std.specs.Prelude.{◌≡◌, ℕ, ◌<◌, [], true, false, is_some, map, MatchResult, Some};
ghost use Rattle.std.specs.Prelude.{Ok, IfOk, OnOk};
ghost use Rattle.std.specs.List.{AllByRecursion};
ghost use Rattle.av_base.specs.Limits.{top_page};
ghost use Rattle.av_spaces.specs.Kin.{AnonsFit};
ghost use Rattle.av_spaces.specs.Spaces.{AreRising, areas_of, pages_of};
ghost use Rattle.av_vma.specs.Index.{first_of};
ghost use Rattle.av_plain.specs.Device.{Device, setting_of};
ghost use Rattle.av_plain.specs.Ledger.{entry as entry_of, walk as walk_of};
ghost use Rattle.av_plain.specs.Report.{area_row as row_of_area, entry_answer as answer_of_entry};
ghost use Rattle.av_plain.specs.Report.{key_row, range_of, totals as totals_of};
ghost use Rattle.av_plain.specs.Transcript.{State};
ghost use Rattle.av_mem.specs.Mem.{IsSteady, Keeps, frame_count, view};
ghost use Rattle.av_step.specs.Step.{DoesBeside, reply_in};
ghost use Rattle.av_report.specs.Report.{AreRuns, shown_walk};
ghost use Rattle.av_step.specs.declared.refusal.Refusal.TheVariants as refusals;
ghost use Rattle.av_trace.specs.Reply.{IsCleared};
ghost use Rattle.av_trace.specs.declared.command.Command.TheVariants as commands;
ghost use Rattle.av_trace.specs.declared.reply.Errno.TheVariants as errors;
ghost use Rattle.av_trace.specs.declared.row.Row.TheVariants as row;

use av_base::{PAGE_SIZE, Steps};
use av_lru::Which;
use av_mem::Mem;
use av_mem::walk::walk;
use av_pagetable::Pte;
use av_step::{Refusal, answer_with, check_lives};
use av_trace::{Answer, Chain, Errno, Reply, Row, Rows, Totals};
use av_vma::Area;
use std::alloc::{AllocError, Global};
use std::marker::Brand;
use std::sync::ledger::{Blank, Ledger};

/// Does a `maps`: the longest runs of mapped pages with one protection, rising.
pub fn maps(mem: &Mem, process: u16, reply: &mut Reply) -> Result<(), Refusal>
    requires steady { IsSteady mem.now }
    requires cleared { IsCleared reply.old }
    ensures { DoesBeside mem.now mem.now (commands.Maps process) (reply_in reply.new result) }
{
    check_lives(mem, process)?;
    let areas = mem.spaces.areas(process)?;
    add_runs(&areas, &mut reply.rows)?;
    let runs = reply.rows.as_slice().len() as u64;
    answer_with(reply, Answer::Runs(runs));
    Ok(())
}

/// Does an `areas`: the areas of a process, rising, each with its own anon_vma, its chain and its
/// flags.
pub fn areas(mem: &Mem, alloc: Global, process: u16, reply: &mut Reply) -> Result<(), Refusal>
    requires steady { IsSteady mem.now }
    requires cleared { IsCleared reply.old }
    ensures { DoesBeside mem.now mem.now (commands.Areas process) (reply_in reply.new result) }
{
    check_lives(mem, process)?;
    let areas = mem.spaces.areas(process)?;
    add_areas(mem, alloc, process, &areas, &mut reply.rows)?;
    let count = reply.rows.as_slice().len() as u64;
    answer_with(reply, Answer::AreaList(count));
    Ok(())
}

/// Does an `rmap`: the walk of the frame that the entry of a page names.
pub fn rmap(
    mem: &Mem,
    alloc: Global,
    process: u16,
    address: u64,
    reply: &mut Reply,
) -> Result<(), Refusal>
    requires steady { IsSteady mem.now }
    requires cleared { IsCleared reply.old }
    ensures { DoesBeside mem.now mem.now (commands.Rmap process address)
        (reply_in reply.new result) }
{
    check_lives(mem, process)?;
    let page = address / PAGE_SIZE;
    check_mapped(mem, process, page)?;
    match mem.tables.get(process, page) {
        Pte::Here { frame, .. } => Ok(show_walk(mem, alloc, frame, reply)?),
        Pte::Empty | Pte::Zero | Pte::Away { .. } => {
            answer_with(reply, Answer::NoWalk);
            Ok(())
        }
    }
}

/// Does an `entry`: what the entry of a page is.
pub fn entry(mem: &Mem, process: u16, address: u64, reply: &mut Reply) -> Result<(), Refusal>
    requires steady { IsSteady mem.now }
    requires cleared { IsCleared reply.old }
    ensures { DoesBeside mem.now mem.now (commands.Entry process address)
        (reply_in reply.new result) }
{
    check_lives(mem, process)?;
    let page = address / PAGE_SIZE;
    check_mapped(mem, process, page)?;
    answer_with(reply, entry_answer(mem, process, page));
    Ok(())
}

/// Does a `stat`: how many frames there are, are free, and are in each of the two lists, how many
/// slots are in flight, there are, and are free, and how many processes there are.
pub fn stat(mem: &Mem, reply: &mut Reply)
    requires steady { IsSteady mem.now }
    requires cleared { IsCleared reply.old }
    ensures { DoesBeside mem.now mem.now commands.Stat (Ok reply.new) }
{
    answer_with(reply, Answer::Counted(totals(mem)));
}

/// The numbers of `stat`.
pub fn totals(mem: &Mem) -> Totals
    requires { IsSteady mem.now }
    ensures { (d : Device) (s : State) → Keeps d mem.now s
        → result ≡ totals_of (setting_of (frame_count mem.now) d) s.world s.ledger }
{
    Totals {
        frames: u64::from(mem.frames.count()),
        free: u64::from(mem.frames.free()),
        active: u64::from(mem.lists.len(Which::Active)),
        inactive: u64::from(mem.lists.len(Which::Inactive)),
        flight: u64::from(mem.swap.flight()),
        slots: mem.swap.all_slots(),
        free_slots: mem.swap.all_free_slots(),
        processes: mem.spaces.count() as u64,
    }
}

/// Fills in the longest runs of pages with one protection of these areas of one process.
fn add_runs(areas: &[Area], rows: &mut Rows) -> Result<(), AllocError>
    requires rising { (process : ℕ) × AreRising process areas.now }
    requires none { rows.old ≡ [] }
    ensures { OnOk result (AreRuns (map range_of areas.now) rows.new) }
{
    let Some((first, rest)) = areas.split_first() else {
        return Ok(());
    };
    let mut run = *first;
    for next in rest {
        if goes_on(&run, next) {
            run.end = next.end;
        } else {
            rows.push(row_of(&run))?;
            run = *next;
        }
    }
    rows.push(row_of(&run))?;
    Ok(())
}

/// Whether an area begins where a run ends, with its protection.
fn goes_on(run: &Area, next: &Area) -> bool
    ensures yes { result ≡ true → (run.now.end ≡ next.now.start) × (run.now.prot ≡ next.now.prot) }
    ensures no { result ≡ false → run.now.end ≡ next.now.start → run.now.prot ≡ next.now.prot → ⊥ }
{
    run.end == next.start && run.prot == next.prot
}

/// The row of `maps` for one run.
fn row_of(run: &Area) -> Row
    ensures { result ≡ row.Run run.now.start run.now.end run.now.prot }
{
    Row::Run {
        start: run.start,
        end: run.end,
        prot: run.prot,
    }
}

/// Fills in the rows of the areas of a process.
fn add_areas(
    mem: &Mem,
    alloc: Global,
    process: u16,
    areas: &[Area],
    rows: &mut Rows,
) -> Result<(), AllocError>
    requires fit { AnonsFit mem.now.spaces mem.now.anons }
    requires areas { areas_of mem.now.spaces.processes process ≡ Some areas.now }
    requires rising { AreRising process areas.now }
    requires none { rows.old ≡ [] }
    ensures { OnOk result (rows.new ≡ map (row_of_area (view mem.now).anons) areas.now) }
{
    for area in areas {
        rows.push(area_row(mem, alloc, process, area)?)?;
    }
    Ok(())
}

/// The row of an area of a process.
fn area_row(mem: &Mem, alloc: Global, process: u16, area: &Area) -> Result<Row, AllocError>
    requires fit { AnonsFit mem.now.spaces mem.now.anons }
    requires area { pages_of mem.now.spaces.processes process (first_of area.now) ≡ Some area.now }
    ensures { IfOk result (λ row. row ≡ row_of_area (view mem.now).anons area.now) }
{
    let first = area.start / PAGE_SIZE;
    let chain = match area.anon {
        Some(_) => mem.spaces.chain(&mem.anons, process, first)?,
        None => Vec::new(alloc),
    };
    Ok(Row::Area {
        start: area.start,
        end: area.end,
        prot: area.prot,
        offset: area.pgoff,
        own: area.anon,
        chain: Chain::from_vec(chain),
        flags: area.flags,
    })
}

/// Refuses where the page isn't mapped.
fn check_mapped(mem: &Mem, process: u16, page: u64) -> Result<(), Refusal>
    ensures { MatchResult result
        (λ _. is_some (pages_of mem.now.spaces.processes process page) ≡ true)
        (λ refusal. (is_some (pages_of mem.now.spaces.processes process page) ≡ false)
        × (refusal ≡ refusals.Refused errors.Efault)) }
{
    if mem.spaces.area(process, page).is_none() {
        return Err(Refusal::Refused(Errno::Efault));
    }
    Ok(())
}

/// What the entry of a page is.
fn entry_answer(mem: &Mem, process: u16, page: u64) -> Answer
    requires { IsSteady mem.now }
    ensures { (d : Device) (s : State) → Keeps d mem.now s
        → result ≡ answer_of_entry s.ledger (entry_of s.ledger (process, page)) }
{
    match mem.tables.get(process, page) {
        Pte::Empty => Answer::EntryEmpty,
        Pte::Zero => Answer::EntryZero,
        Pte::Here { frame, seen, .. } => Answer::EntryFrame {
            frame,
            seen,
            cached: mem.frames.slot(frame),
            merged: mem.is_merged(frame),
        },
        Pte::Away { slot } => Answer::EntrySlot {
            slot,
            cached: mem.swap.find(slot),
        },
    }
}

/// Shows the walk of a frame.
fn show_walk(mem: &Mem, alloc: Global, frame: u32, reply: &mut Reply) -> Result<(), AllocError>
    requires steady { IsSteady mem.now }
    requires in_range { frame < frame_count mem.now }
    requires cleared { IsCleared reply.old }
    ensures { (d : Device) (s : State) → Keeps d mem.now s
        → OnOk result (reply.new ≡ shown_walk frame (walk_of s.ledger frame)) }
{
    let keys = keys_of(mem, alloc, frame, Blank::new(1))?;
    add_keys(&keys, &mut reply.rows)?;
    let maps = reply.rows.as_slice().len() as u64;
    answer_with(reply, Answer::Walk { frame, maps });
    Ok(())
}

/// Process and page of each entry of a frame, its walk counted by a ledger of its own.
fn keys_of(
    mem: &Mem,
    alloc: Global,
    frame: u32,
    blank: Blank,
) -> Result<Vec<(u16, u64)>, AllocError>
    requires steady { IsSteady mem.now }
    requires in_range { frame < frame_count mem.now }
    requires some { 0 < blank.parts }
    ensures keys { (d : Device) (s : State) → Keeps d mem.now s
        → IfOk result (λ keys. keys.items ≡ walk_of s.ledger frame) }
    ensures below { IfOk result (λ keys. AllByRecursion (λ key. key.1 < top_page) keys.items) }
{
    keys_by::<Brand>(mem, alloc, frame, blank)
}

/// The same, by a ledger of these steps. A walk asks for steps to count in, so that its cost can be
/// promised; nobody reads those of a report.
fn keys_by<L: Ledger>(
    mem: &Mem,
    alloc: Global,
    frame: u32,
    blank: Blank,
) -> Result<Vec<(u16, u64)>, AllocError>
    requires steady { IsSteady mem.now }
    requires in_range { frame < frame_count mem.now }
    requires name { blank.name ≡ L.name }
    requires parts { blank.parts ≡ L.parts }
    requires some { 0 < blank.parts }
    ensures keys { (d : Device) (s : State) → Keeps d mem.now s
        → IfOk result (λ keys. keys.items ≡ walk_of s.ledger frame) }
    ensures below { IfOk result (λ keys. AllByRecursion (λ key. key.1 < top_page) keys.items) }
{
    let mut steps = Steps::<L>::open(blank);
    walk(mem, alloc, frame, &mut steps)
}

/// Fills in the rows of entries by process and page.
fn add_keys(keys: &[(u16, u64)], rows: &mut Rows) -> Result<(), AllocError>
    requires below { AllByRecursion (λ key. key.1 < top_page) keys.now }
    requires none { rows.old ≡ [] }
    ensures { OnOk result (rows.new ≡ map key_row keys.now) }
{
    for key in keys {
        rows.push(Row::Entry {
            process: key.0,
            address: key.1 * PAGE_SIZE,
        })?;
    }
    Ok(())
}
