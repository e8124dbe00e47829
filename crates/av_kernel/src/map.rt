//! Commands on ranges of pages: `mmap`, `munmap` and `mprotect`.

ghost use Rattle.std.specs.Prelude.{◌≡◌, ℕ, ◌+◌, ◌≤◌, true, is_some, OnOk};
ghost use Rattle.av_base.specs.Limits.{top_page};
ghost use Rattle.av_plain.specs.Device.{Device};
ghost use Rattle.av_plain.specs.Ledger.{Ledger};
ghost use Rattle.av_plain.specs.Zap.{keys_in, zaps_of};
ghost use Rattle.av_plain.specs.Map.{zaps_for_place};
ghost use Rattle.av_plain.specs.Areas.{with_room};
ghost use Rattle.av_vma.specs.Pages.{after_unmap};
ghost use Rattle.av_spaces.specs.Spaces.{areas_of, is_taken, pages_of};
ghost use Rattle.av_mem.specs.Mem.{frame_count, IsSteady, HasLedger};
ghost use Rattle.av_place.specs.Place.{AreToUnmap};
ghost use Rattle.av_kernel.specs.Map.{AreUnmapped};
ghost use Rattle.av_step.specs.Step.{DoesBeside, reply_in};
ghost use Rattle.av_trace.specs.Reply.{IsCleared};
ghost use Rattle.av_trace.specs.declared.command.Command.TheVariants as commands;

use av_base::{PAGE_SIZE, Prot};
use av_mem::{Mem, unlock_range, zap_range};
use av_merge::Change;
use av_place::{check_protect, find_place, is_no_range, is_too_long};
use av_step::{Refusal, answer_with, check_lives};
use av_trace::{Answer, Errno, Notes, Place, Reply};
use std::alloc::AllocError;

/// Does an `mmap`: the pages are zeros. At a fixed place they replace what stands there.
pub fn mmap(
    mem: &mut Mem,
    process: u16,
    len: u64,
    prot: Prot,
    place: Place,
    reply: &mut Reply,
) -> Result<(), Refusal>
    requires steady { IsSteady mem.old }
    requires cleared { IsCleared reply.old }
    ensures { DoesBeside mem.old mem.new (commands.Mmap process len prot place)
        (reply_in reply.new result) }
{
    check_lives(mem, process)?;
    if len == 0 {
        return Err(Refusal::Refused(Errno::Einval));
    }
    if is_too_long(len) {
        return Err(Refusal::Refused(Errno::Enomem));
    }
    let pages = len.div_ceil(PAGE_SIZE);
    let page = find_place(&mem.spaces, process, pages, place)?;
    make_room(mem, process, page, pages, place, &mut reply.notes)?;
    mem.spaces.map(&mut mem.anons, process, page, pages, prot)?;
    answer_with(reply, Answer::MapAt(PAGE_SIZE * page));
    Ok(())
}

/// Does a `munmap`: the pages go, with their entries. The frames that no other page has become
/// free.
pub fn munmap(
    mem: &mut Mem,
    process: u16,
    address: u64,
    len: u64,
    reply: &mut Reply,
) -> Result<(), Refusal>
    requires steady { IsSteady mem.old }
    requires cleared { IsCleared reply.old }
    ensures { DoesBeside mem.old mem.new (commands.Munmap process address len)
        (reply_in reply.new result) }
{
    check_lives(mem, process)?;
    if is_no_range(address, len) {
        return Err(Refusal::Refused(Errno::Einval));
    }
    let (page, pages) = (address / PAGE_SIZE, len.div_ceil(PAGE_SIZE));
    unmap_pages(mem, process, page, pages, &mut reply.notes)?;
    answer_with(reply, Answer::Done);
    Ok(())
}

/// Does an `mprotect`: the pages before the first that isn't mapped get the protection.
pub fn mprotect(
    mem: &mut Mem,
    process: u16,
    address: u64,
    len: u64,
    prot: Prot,
    reply: &mut Reply,
) -> Result<(), Refusal>
    requires steady { IsSteady mem.old }
    requires cleared { IsCleared reply.old }
    ensures { DoesBeside mem.old mem.new (commands.Mprotect process address len prot)
        (reply_in reply.new result) }
{
    check_lives(mem, process)?;
    check_protect(address, len)?;
    let (page, pages) = (address / PAGE_SIZE, len.div_ceil(PAGE_SIZE));
    let past = page + pages;
    let reached = mem
        .spaces
        .modify(&mut mem.anons, process, page, pages, Change::Prot(prot))?;
    if reached < past {
        return Err(Refusal::Refused(Errno::Enomem));
    }
    answer_with(reply, Answer::Done);
    Ok(())
}

/// Takes away what stands where a mapping goes: all at a fixed place, and at another there is
/// nothing.
fn make_room(
    mem: &mut Mem,
    process: u16,
    page: u64,
    pages: u64,
    place: Place,
    notes: &mut Notes,
) -> Result<(), AllocError>
    requires steady { IsSteady mem.old }
    requires lives { is_some (areas_of mem.old.spaces.processes process) ≡ true }
    requires high { page + pages ≤ top_page }
    requires there { AreToUnmap (is_taken mem.old.spaces.processes process) page pages place }
    ensures unmapped { (d : Device) (l : Ledger) → HasLedger d mem.old l → OnOk result
        (AreUnmapped d mem.old mem.new process page pages
        (with_room pages place (pages_of mem.old.spaces.processes process)) l
        (zaps_for_place l process pages place) notes.old notes.new) }
    ensures count { frame_count mem.new ≡ frame_count mem.old }
{
    match place {
        Place::Fixed(_) => unmap_pages(mem, process, page, pages, notes),
        _ => Ok(()),
    }
}

/// Takes away pages of a process that lives, with their entries, and adds the notes of the slots
/// that were dropped.
fn unmap_pages(
    mem: &mut Mem,
    process: u16,
    page: u64,
    pages: u64,
    notes: &mut Notes,
) -> Result<(), AllocError>
    requires steady { IsSteady mem.old }
    requires lives { is_some (areas_of mem.old.spaces.processes process) ≡ true }
    requires high { page + pages ≤ top_page }
    ensures unmapped { (d : Device) (l : Ledger) → HasLedger d mem.old l → OnOk result
        (AreUnmapped d mem.old mem.new process page pages
        (after_unmap page (page + pages) (pages_of mem.old.spaces.processes process)) l
        (zaps_of l (keys_in l process page pages)) notes.old notes.new) }
    ensures count { frame_count mem.new ≡ frame_count mem.old }
{
    unlock_range(mem, process, page, page + pages);
    zap_range(mem, process, page, page + pages, notes)?;
    mem.spaces.unmap(&mut mem.anons, process, page, pages)
}
