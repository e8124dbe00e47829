//! The command `mremap`: a range of pages moves, shrinks or grows, with what it has.

ghost use Rattle.std.specs.Prelude.{◌≡◌, ℕ, ◌+◌, ◌^◌, ◌<◌, ◌≤◌, ◌⊎◌};
ghost use Rattle.av_kernel.specs.Lock.{locks_lost};
ghost use Rattle.av_step.specs.Step.{DoesBeside, reply_in};
ghost use Rattle.av_mem.specs.Mem.{IsSteady, locks_of, view};
ghost use Rattle.av_trace.specs.Reply.{IsCleared};
ghost use Rattle.av_trace.specs.declared.command.Command.TheVariants as commands;

use av_base::PAGE_SIZE;
use av_mem::{Mem, unlock_range};
use av_mremap::{remap_areas, remap_entries};
use av_place::{check_indices, check_remap, find_target, leaves_old};
use av_step::{Refusal, answer_with, check_lives};
use av_trace::{Answer, Mode, Reply};

/// Does an `mremap`: the pages of the old range are those of the new one, as many as it has, and
/// keep their entries. Pages by which it grows are like the last one, but zeros.
pub fn mremap(
    mem: &mut Mem,
    process: u16,
    address: u64,
    old_len: u64,
    new_len: u64,
    mode: Mode,
    reply: &mut Reply,
) -> Result<(), Refusal>
    requires steady { IsSteady mem.old }
    requires cleared { IsCleared reply.old }
    ensures { DoesBeside mem.old mem.new (commands.Mremap process address old_len new_len mode)
        (reply_in reply.new result) }
{
    check_lives(mem, process)?;
    check_remap(&mem.spaces, process, address, old_len, new_len, mode)?;
    let from = address / PAGE_SIZE;
    let (pages, new_pages) = (old_len.div_ceil(PAGE_SIZE), new_len.div_ceil(PAGE_SIZE));
    let to = find_target(&mem.spaces, process, from, pages, new_pages, mode)?;
    check_indices(&mem.spaces, process, from, pages, new_pages)?;
    let stays = leaves_old(mode);
    unlock_lost(mem, process, from, pages, to, new_pages);
    remap_areas(mem, process, from, pages, to, new_pages, stays)?;
    remap_entries(mem, process, from, pages, to, new_pages, &mut reply.notes)?;
    answer_with(reply, Answer::MapAt(PAGE_SIZE * to));
    Ok(())
}

/// Takes the entries that go off the count of those of locked pages, while the areas still say
/// which these are; an entry that moves keeps its lock.
fn unlock_lost(mem: &mut Mem, process: u16, from: u64, pages: u64, to: u64, new_pages: u64)
    requires steady { IsSteady mem.old }
    requires few { from + pages < 2 ^ 64 }
    requires new_few { from + new_pages < 2 ^ 64 }
    requires new_range { (to ≡ from → ⊥) → to + new_pages < 2 ^ 64 }
    requires apart { (to ≡ from → ⊥) → (to + new_pages ≤ from) ⊎ (from + pages ≤ to) }
    ensures locks { (f : ℕ) → locks_of mem.old f
        ≡ locks_of mem.new f + locks_lost mem.old process from pages to new_pages f }
    ensures view { view mem.new ≡ view mem.old }
    ensures rest { mem.new ≡ record mem.old { frames = mem.new.frames } }
{
    unlock_range(mem, process, from + new_pages, from + pages);
    if to != from {
        unlock_range(mem, process, to, to + new_pages);
    }
}
