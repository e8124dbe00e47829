//! `madvise`: what a fork makes of pages, and that what is in them is needed no more.

ghost use Rattle.std.specs.Prelude.{◌≡◌, ◌==◌, false, true, None, Some, if◌then◌else◌};
ghost use Rattle.std.specs.Prelude.{is_some, nat_lt};
ghost use Rattle.av_mem.specs.Mem.{IsSteady};
ghost use Rattle.av_plain.specs.Advice.{flag_of_advice};
ghost use Rattle.av_plain.specs.Refusal as refusals;
ghost use Rattle.av_spaces.specs.Spaces.{areas_of};
ghost use Rattle.av_step.specs.Step.{DoesBeside, reply_in};
ghost use Rattle.av_trace.specs.Reply.{IsCleared};
ghost use Rattle.av_trace.specs.declared.advice.Advice.{Advice as AdviceWord};
ghost use Rattle.av_trace.specs.declared.command.Command.TheVariants as commands;
ghost use Rattle.av_trace.specs.declared.reply.Answer.TheVariants.{Done, Refused};
ghost use Rattle.av_trace.specs.declared.reply.Errno.TheVariants.{Einval, Enomem};

use av_base::{Flag, PAGE_SIZE};
use av_mem::{Mem, zap_range};
use av_merge::Change;
use av_place::{first_hole, first_locked, is_bad_range};
use av_step::{Refusal, answer_with, check_lives};
use av_trace::{Advice, Answer, Errno, Reply};

/// Does a `madvise`: the pages that are mapped get a flag, or lose it, or what is in them goes.
///
/// What it met on its way, a locked page or one that isn't mapped, it answers itself: such a
/// refusal has the notes of what was done.
pub fn madvise(
    mem: &mut Mem,
    process: u16,
    address: u64,
    len: u64,
    advice: Advice,
    reply: &mut Reply,
) -> Result<(), Refusal>
    requires steady { IsSteady mem.old }
    requires cleared { IsCleared reply.old }
    ensures { DoesBeside mem.old mem.new (commands.Madvise process address len advice)
        (reply_in reply.new result) }
{
    check_lives(mem, process)?;
    if is_bad_range(address, len) {
        return Err(Refusal::Refused(Errno::Einval));
    }
    match flag_of(advice) {
        Some((flag, set)) => set_flag(mem, process, address, len, flag, set, reply),
        None => give_up(mem, process, address, len, reply),
    }
}

/// The flag that an advice sets or clears, and which of both; `dontneed` is about none.
fn flag_of(advice: Advice) -> Option<(Flag, bool)>
    ensures { result ≡ flag_of_advice advice }
{
    match advice {
        Advice::DontNeed => None,
        Advice::DontFork => Some((Flag::DontFork, true)),
        Advice::DoFork => Some((Flag::DontFork, false)),
        Advice::WipeOnFork => Some((Flag::WipeOnFork, true)),
        Advice::KeepOnFork => Some((Flag::WipeOnFork, false)),
        Advice::Mergeable => Some((Flag::Mergeable, true)),
        Advice::Unmergeable => Some((Flag::Mergeable, false)),
    }
}

/// Sets or clears a flag of the pages of a range that are mapped.
fn set_flag(
    mem: &mut Mem,
    process: u16,
    address: u64,
    len: u64,
    flag: Flag,
    set: bool,
    reply: &mut Reply,
) -> Result<(), Refusal>
    requires steady { IsSteady mem.old }
    requires cleared { IsCleared reply.old }
    requires lives { is_some (areas_of mem.old.spaces.processes process) ≡ true }
    requires range { refusals.is_bad_range address len ≡ false }
    ensures { (advice : AdviceWord) → flag_of_advice advice ≡ Some (flag, set) →
        DoesBeside mem.old mem.new (commands.Madvise process address len advice)
        (reply_in reply.new result) }
{
    let (page, pages) = (address / PAGE_SIZE, len.div_ceil(PAGE_SIZE));
    let past = page + pages;
    let change = Change::Flag(flag, set);
    let hole = mem
        .spaces
        .modify_all(&mut mem.anons, process, page, pages, change)?;
    answer_with(reply, answer_to(past, hole, past));
    Ok(())
}

/// Takes away the entries of a range's pages before the first that is locked; the pages stay, and
/// read as zeros.
fn give_up(
    mem: &mut Mem,
    process: u16,
    address: u64,
    len: u64,
    reply: &mut Reply,
) -> Result<(), Refusal>
    requires steady { IsSteady mem.old }
    requires cleared { IsCleared reply.old }
    requires lives { is_some (areas_of mem.old.spaces.processes process) ≡ true }
    requires range { refusals.is_bad_range address len ≡ false }
    ensures { (advice : AdviceWord) → flag_of_advice advice ≡ None →
        DoesBeside mem.old mem.new (commands.Madvise process address len advice)
        (reply_in reply.new result) }
{
    let (page, pages) = (address / PAGE_SIZE, len.div_ceil(PAGE_SIZE));
    let past = page + pages;
    let locked = first_locked(&mem.spaces, process, page, past);
    let hole = first_hole(&mem.spaces, process, page, past);
    zap_range(mem, process, page, locked, &mut reply.notes)?;
    answer_with(reply, answer_to(locked, hole, past));
    Ok(())
}

/// The answer, by the first page that is locked and the first that isn't mapped, of those to below
/// `past`: that itself where there is none.
fn answer_to(locked: u64, hole: u64, past: u64) -> Answer
    ensures { result ≡ (if nat_lt locked past then Refused Einval
        else (if hole == past then Done else Refused Enomem)) }
{
    if locked < past {
        return Answer::Refused(Errno::Einval);
    }
    if hole != past {
        return Answer::Refused(Errno::Enomem);
    }
    Answer::Done
}
