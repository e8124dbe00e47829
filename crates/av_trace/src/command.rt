//! What a line asks for.

ghost use Rattle.std.specs.Prelude.{◌≡◌, ◌++◌, codes, option_map, IfOk, OnOk, OnErr};
ghost use Rattle.av_trace.specs.Command.{at_end, whole, no_words, fork_at, mmap_at, munmap_at};
ghost use Rattle.av_trace.specs.Command.{mprotect_at, mremap_at, read_at, write_at, area_at};
ghost use Rattle.av_trace.specs.Command.{advice_readers, madvise_at, mlock_at, munlock_at};
ghost use Rattle.av_trace.specs.Command.{frames_at, rmap_at, entry_of, slot_at, swapon_at};
ghost use Rattle.av_trace.specs.Command.{command_in, command_of, process_readers, range_readers};
ghost use Rattle.av_trace.specs.Command.{swap_readers, frame_readers, report_readers};
ghost use Rattle.av_trace.specs.Command.{range_words};
ghost use Rattle.av_text.specs.Number.{process_at};
ghost use Rattle.av_text.specs.Word.{BeginsWith};

use crate::advice::{Advice, advice_field};
use crate::mode::{Mode, mode_field};
use crate::place::{Place, place_field};
use crate::priority::priority_field;
use av_base::{MOST_FRAMES, PAGE_SIZE, Prot};
use av_text::Bytes;
use av_text::hex::data_field;
use av_text::number::{address, decimal, entry, len, process};
use av_text::prot::prot;
use av_text::word::after;
use std::alloc::{AllocError, Global};

/// What a line asks for, with the words of the line in order.
///
/// Addresses and lengths are in bytes; each length but that of `Read` is rounded up to whole pages.
/// Swap areas are 0 to 7.
#[derive(Drop)]
pub enum Command {
    Spawn {
        process: u16,
    },
    Fork {
        parent: u16,
        child: u16,
    },
    Exit {
        process: u16,
    },
    Mmap {
        process: u16,
        len: u64,
        prot: Prot,
        place: Place,
    },
    Munmap {
        process: u16,
        address: u64,
        len: u64,
    },
    Mprotect {
        process: u16,
        address: u64,
        len: u64,
        prot: Prot,
    },
    Mremap {
        process: u16,
        address: u64,
        old_len: u64,
        new_len: u64,
        mode: Mode,
    },
    Madvise {
        process: u16,
        address: u64,
        len: u64,
        advice: Advice,
    },
    Mlock {
        process: u16,
        address: u64,
        len: u64,
    },
    Munlock {
        process: u16,
        address: u64,
        len: u64,
    },
    Read {
        process: u16,
        address: u64,
        len: u16,
    },
    Write {
        process: u16,
        address: u64,
        bytes: Bytes,
    },
    Reclaim {
        frames: u16,
    },
    Age {
        frames: u16,
    },
    Complete {
        slots: u16,
    },
    Swapon {
        area: u8,
        /// 0 to 32,767; none is less than each of these.
        priority: Option<u16>,
    },
    Swapoff {
        area: u8,
    },
    Merge,
    Compact,
    Maps {
        process: u16,
    },
    Areas {
        process: u16,
    },
    Rmap {
        process: u16,
        address: u64,
    },
    Entry {
        process: u16,
        address: u64,
    },
    Slot {
        area: u8,
        page: u32,
    },
    Stat,
}

/// The command, if nothing is left.
#[tactic(auto, unfolding(crate::specs::Command::at_end))]
fn end(command: Command, bytes: &[u8]) -> Option<Command>
    ensures { result ≡ at_end command bytes.now }
{
    match bytes {
        [] => Some(command),
        [_, ..] => None,
    }
}

#[tactic(auto, unfolding(crate::specs::Command::whole))]
fn spawn(bytes: &[u8]) -> Option<Command>
    ensures { result ≡ whole process_at Command.Spawn bytes.now }
{
    let (process, rest) = process(bytes)?;
    end(Command::Spawn { process }, rest)
}

#[tactic(auto, unfolding(crate::specs::Command::whole, av_text::specs::Word::both))]
fn fork(bytes: &[u8]) -> Option<Command>
    ensures { result ≡ fork_at bytes.now }
{
    let (parent, rest) = process(bytes)?;
    let (child, rest) = process(rest)?;
    end(Command::Fork { parent, child }, rest)
}

#[tactic(auto, unfolding(crate::specs::Command::whole))]
fn exit(bytes: &[u8]) -> Option<Command>
    ensures { result ≡ whole process_at Command.Exit bytes.now }
{
    let (process, rest) = process(bytes)?;
    end(Command::Exit { process }, rest)
}

#[tactic(auto, unfolding(crate::specs::Command::whole, av_text::specs::Word::both))]
fn mmap(bytes: &[u8]) -> Option<Command>
    ensures { result ≡ mmap_at bytes.now }
{
    let (process, rest) = process(bytes)?;
    let (len, rest) = len(rest)?;
    let (prot, rest) = prot(rest)?;
    let (place, rest) = place_field(rest)?;
    let command = Command::Mmap {
        process,
        len,
        prot,
        place,
    };
    end(command, rest)
}

/// A process, an address and a length, and the rest.
#[tactic(auto, unfolding(av_text::specs::Word::both))]
fn range(bytes: &[u8]) -> Option<(((u16, u64), u64), &[u8])>
    ensures { option_map (λ x. (x.0, x.1.now)) result ≡ range_words bytes.now }
{
    let (entry, rest) = entry(bytes)?;
    let (len, rest) = len(rest)?;
    Some(((entry, len), rest))
}

#[tactic(auto, unfolding(crate::specs::Command::whole))]
fn munmap(bytes: &[u8]) -> Option<Command>
    ensures { result ≡ munmap_at bytes.now }
{
    let (((process, address), len), rest) = range(bytes)?;
    let command = Command::Munmap {
        process,
        address,
        len,
    };
    end(command, rest)
}

#[tactic(auto, unfolding(crate::specs::Command::whole, av_text::specs::Word::both))]
fn mprotect(bytes: &[u8]) -> Option<Command>
    ensures { result ≡ mprotect_at bytes.now }
{
    let (((process, address), len), rest) = range(bytes)?;
    let (prot, rest) = prot(rest)?;
    let command = Command::Mprotect {
        process,
        address,
        len,
        prot,
    };
    end(command, rest)
}

#[tactic(auto, unfolding(crate::specs::Command::whole, av_text::specs::Word::both))]
fn mremap(bytes: &[u8]) -> Option<Command>
    ensures { result ≡ mremap_at bytes.now }
{
    let (((process, address), old_len), rest) = range(bytes)?;
    let (new_len, rest) = len(rest)?;
    let (mode, rest) = mode_field(rest)?;
    let command = Command::Mremap {
        process,
        address,
        old_len,
        new_len,
        mode,
    };
    end(command, rest)
}

#[tactic(auto, unfolding(crate::specs::Command::whole, av_text::specs::Word::both))]
fn madvise(bytes: &[u8]) -> Option<Command>
    ensures { result ≡ madvise_at bytes.now }
{
    let (((process, address), len), rest) = range(bytes)?;
    let (advice, rest) = advice_field(rest)?;
    let command = Command::Madvise {
        process,
        address,
        len,
        advice,
    };
    end(command, rest)
}

#[tactic(auto, unfolding(crate::specs::Command::whole))]
fn mlock(bytes: &[u8]) -> Option<Command>
    ensures { result ≡ mlock_at bytes.now }
{
    let (((process, address), len), rest) = range(bytes)?;
    let command = Command::Mlock {
        process,
        address,
        len,
    };
    end(command, rest)
}

#[tactic(auto, unfolding(crate::specs::Command::whole))]
fn munlock(bytes: &[u8]) -> Option<Command>
    ensures { result ≡ munlock_at bytes.now }
{
    let (((process, address), len), rest) = range(bytes)?;
    let command = Command::Munlock {
        process,
        address,
        len,
    };
    end(command, rest)
}

#[tactic(auto, unfolding(crate::specs::Command::whole, av_text::specs::Word::both))]
fn read(bytes: &[u8]) -> Option<Command>
    ensures { result ≡ read_at bytes.now }
{
    let ((process, address), rest) = entry(bytes)?;
    let (len, rest) = decimal(rest, 1, PAGE_SIZE)?;
    let command = Command::Read {
        process,
        address,
        len: len as u16,
    };
    end(command, rest)
}

#[tactic(auto, unfolding(crate::specs::Command::whole, av_text::specs::Word::both))]
fn write(alloc: Global, bytes: &[u8], spare: &mut Bytes) -> Result<Option<Command>, AllocError>
    ensures { IfOk result (λ found. found ≡ write_at bytes.now) }
{
    let Some(((process, address), rest)) = entry(bytes) else {
        return Ok(None);
    };
    let Some(bytes) = data_field(alloc, rest, spare)? else {
        return Ok(None);
    };
    let command = Command::Write {
        process,
        address,
        bytes,
    };
    Ok(end(command, b""))
}

/// How many frames or slots, and the rest.
fn frames(bytes: &[u8]) -> Option<(u16, &[u8])>
    ensures { option_map (λ x. (x.0, x.1.now)) result ≡ frames_at bytes.now }
{
    let (frames, rest) = decimal(bytes, 1, MOST_FRAMES)?;
    Some((frames as u16, rest))
}

#[tactic(auto, unfolding(crate::specs::Command::whole))]
fn reclaim(bytes: &[u8]) -> Option<Command>
    ensures { result ≡ whole frames_at Command.Reclaim bytes.now }
{
    let (frames, rest) = frames(bytes)?;
    end(Command::Reclaim { frames }, rest)
}

#[tactic(auto, unfolding(crate::specs::Command::whole))]
fn age(bytes: &[u8]) -> Option<Command>
    ensures { result ≡ whole frames_at Command.Age bytes.now }
{
    let (frames, rest) = frames(bytes)?;
    end(Command::Age { frames }, rest)
}

#[tactic(auto, unfolding(crate::specs::Command::whole))]
fn complete(bytes: &[u8]) -> Option<Command>
    ensures { result ≡ whole frames_at Command.Complete bytes.now }
{
    let (slots, rest) = frames(bytes)?;
    end(Command::Complete { slots }, rest)
}

/// A swap area, and the rest.
fn area(bytes: &[u8]) -> Option<(u8, &[u8])>
    ensures { option_map (λ x. (x.0, x.1.now)) result ≡ area_at bytes.now }
{
    let (area, rest) = decimal(bytes, 0, 7)?;
    Some((area as u8, rest))
}

#[tactic(auto, unfolding(crate::specs::Command::whole, av_text::specs::Word::both))]
fn swapon(bytes: &[u8]) -> Option<Command>
    ensures { result ≡ swapon_at bytes.now }
{
    let (area, rest) = area(bytes)?;
    let (priority, rest) = priority_field(rest)?;
    end(Command::Swapon { area, priority }, rest)
}

#[tactic(auto, unfolding(crate::specs::Command::whole))]
fn swapoff(bytes: &[u8]) -> Option<Command>
    ensures { result ≡ whole area_at Command.Swapoff bytes.now }
{
    let (area, rest) = area(bytes)?;
    end(Command::Swapoff { area }, rest)
}

#[tactic(auto, unfolding(crate::specs::Command::whole))]
fn maps(bytes: &[u8]) -> Option<Command>
    ensures { result ≡ whole process_at Command.Maps bytes.now }
{
    let (process, rest) = process(bytes)?;
    end(Command::Maps { process }, rest)
}

#[tactic(auto, unfolding(crate::specs::Command::whole))]
fn areas(bytes: &[u8]) -> Option<Command>
    ensures { result ≡ whole process_at Command.Areas bytes.now }
{
    let (process, rest) = process(bytes)?;
    end(Command::Areas { process }, rest)
}

#[tactic(auto, unfolding(crate::specs::Command::whole))]
fn rmap(bytes: &[u8]) -> Option<Command>
    ensures { result ≡ rmap_at bytes.now }
{
    let ((process, address), rest) = entry(bytes)?;
    end(Command::Rmap { process, address }, rest)
}

#[tactic(auto, unfolding(crate::specs::Command::whole))]
fn one_entry(bytes: &[u8]) -> Option<Command>
    ensures { result ≡ entry_of bytes.now }
{
    let ((process, address), rest) = entry(bytes)?;
    end(Command::Entry { process, address }, rest)
}

#[tactic(auto, unfolding(crate::specs::Command::whole, av_text::specs::Word::both))]
fn slot(bytes: &[u8]) -> Option<Command>
    ensures { result ≡ slot_at bytes.now }
{
    let (area, rest) = area(bytes)?;
    let (page, rest) = decimal(rest, 0, u64::from(u32::MAX))?;
    let command = Command::Slot {
        area,
        page: page as u32,
    };
    end(command, rest)
}

#[tactic(auto, unfolding(crate::specs::Command::whole))]
fn stat(bytes: &[u8]) -> Option<Command>
    ensures { result ≡ whole no_words (λ x. Command.Stat) bytes.now }
{
    end(Command::Stat, bytes)
}

#[tactic(auto, unfolding(crate::specs::Command::whole))]
fn merge(bytes: &[u8]) -> Option<Command>
    ensures { result ≡ whole no_words (λ x. Command.Merge) bytes.now }
{
    end(Command::Merge, bytes)
}

#[tactic(auto, unfolding(crate::specs::Command::whole))]
fn compact(bytes: &[u8]) -> Option<Command>
    ensures { result ≡ whole no_words (λ x. Command.Compact) bytes.now }
{
    end(Command::Compact, bytes)
}

/// Reads the report that a line asks for.
fn read_report(line: &[u8], command: &mut Option<Command>)
    ensures { command.new ≡ command_in report_readers line.now }
{
    if let Some(rest) = after(line, b"maps") {
        *command = maps(rest);
    } else if let Some(rest) = after(line, b"areas") {
        *command = areas(rest);
    } else if let Some(rest) = after(line, b"rmap") {
        *command = rmap(rest);
    } else if let Some(rest) = after(line, b"entry") {
        *command = one_entry(rest);
    } else if let Some(rest) = after(line, b"slot") {
        *command = slot(rest);
    } else if let Some(rest) = after(line, b"stat") {
        *command = stat(rest);
    } else {
        *command = None;
    }
}

/// Reads the change of frames, or the report, that a line asks for.
fn read_frame_change(line: &[u8], command: &mut Option<Command>)
    ensures { command.new ≡ command_in (frame_readers ++ report_readers) line.now }
{
    if let Some(rest) = after(line, b"merge") {
        *command = merge(rest);
    } else if let Some(rest) = after(line, b"compact") {
        *command = compact(rest);
    } else {
        read_report(line, command);
    }
}

/// Reads the change of swap or of frames, or the report, that a line asks for.
fn read_swap_change(line: &[u8], command: &mut Option<Command>)
    ensures { command.new ≡ command_in
        (swap_readers ++ frame_readers ++ report_readers) line.now }
{
    if let Some(rest) = after(line, b"reclaim") {
        *command = reclaim(rest);
    } else if let Some(rest) = after(line, b"age") {
        *command = age(rest);
    } else if let Some(rest) = after(line, b"complete") {
        *command = complete(rest);
    } else if let Some(rest) = after(line, b"swapon") {
        *command = swapon(rest);
    } else if let Some(rest) = after(line, b"swapoff") {
        *command = swapoff(rest);
    } else {
        read_frame_change(line, command);
    }
}

/// Reads the advice or the lock, the change of swap or of frames, or the report, that a line asks
/// for.
fn read_advice(line: &[u8], command: &mut Option<Command>)
    ensures { command.new ≡ command_in
        (advice_readers ++ swap_readers ++ frame_readers ++ report_readers) line.now }
{
    if let Some(rest) = after(line, b"madvise") {
        *command = madvise(rest);
    } else if let Some(rest) = after(line, b"mlock") {
        *command = mlock(rest);
    } else if let Some(rest) = after(line, b"munlock") {
        *command = munlock(rest);
    } else {
        read_swap_change(line, command);
    }
}

/// Reads the change of a range or of swap, or the report, that a line asks for.
fn read_range_change(line: &[u8], command: &mut Option<Command>)
    ensures { command.new ≡ command_in
        (range_readers ++ advice_readers ++ swap_readers ++ frame_readers ++ report_readers)
        line.now }
{
    if let Some(rest) = after(line, b"mmap") {
        *command = mmap(rest);
    } else if let Some(rest) = after(line, b"munmap") {
        *command = munmap(rest);
    } else if let Some(rest) = after(line, b"mprotect") {
        *command = mprotect(rest);
    } else if let Some(rest) = after(line, b"mremap") {
        *command = mremap(rest);
    } else {
        read_advice(line, command);
    }
}

/// Reads the command on a process, a range or swap, or the report, that a line asks for.
fn read_change(line: &[u8], command: &mut Option<Command>)
    ensures { command.new ≡ command_in
        (process_readers ++ range_readers ++ advice_readers ++ swap_readers ++ frame_readers
        ++ report_readers)
        line.now }
{
    if let Some(rest) = after(line, b"spawn") {
        *command = spawn(rest);
    } else if let Some(rest) = after(line, b"fork") {
        *command = fork(rest);
    } else if let Some(rest) = after(line, b"exit") {
        *command = exit(rest);
    } else {
        read_range_change(line, command);
    }
}

/// Reads the command of a whole line. Only a write takes memory, and first that of `spare`.
#[tactic(auto, unfolding(crate::specs::Command::command_of))]
pub fn read_command(
    alloc: Global,
    line: &[u8],
    spare: &mut Bytes,
    command: &mut Option<Command>,
) -> Result<(), AllocError>
    ensures found { OnOk result (command.new ≡ command_of line.now) }
    ensures memory { OnErr result (BeginsWith (codes "write") line.now) }
{
    if let Some(rest) = after(line, b"write") {
        *command = write(alloc, rest, spare)?;
    } else if let Some(rest) = after(line, b"read") {
        *command = read(rest);
    } else {
        read_change(line, command);
    }
    Ok(())
}
