//! Whose the slots of a swap area are, by one visit of the page tables.

ghost use Rattle.std.specs.Prelude.{◌≡◌, ◌+◌, ◌^◌, ◌<◌, ◌≤◌, ℕ, None, IfOk, length, replicate};
ghost use Rattle.av_mem.specs.Entries.{AreWithin, HasAll};
ghost use Rattle.av_mem.specs.Mem.{view};
ghost use Rattle.av_swapoff.specs.System.{slot_at};
ghost use Rattle.av_swapoff.specs.Users.{HasUsers, IsUnused, Visits, with_user};

use av_base::Slot;
use av_mem::Mem;
use av_mem::entries::slot_behind;
use av_pagetable::{Pte, RUN};
use std::alloc::{AllocError, Global};

/// By page, process and page of an entry that names the slot of the area, or the frame that caches
/// it; None where there is none.
///
/// Costs by the entries of all processes and the pages of the area.
pub fn users(mem: &Mem, alloc: Global, area: u8) -> Result<Vec<Option<(u16, u64)>>, AllocError>
    requires { AreWithin (view mem.now) }
    ensures few { IfOk result (λ users. length users.items < 2 ^ 32) }
    ensures users { IfOk result (λ users. HasUsers (view mem.now) area users.items) }
{
    mem.spaces.keeps();
    let mut users = no_users(alloc, pages_of(mem, area))?;
    let mut next = 0;
    while let Some(process) = mem.tables.process_from(next) {
        visit_process(mem, area, process, &mut users);
        let Some(following) = process.checked_add(1) else {
            return Ok(users);
        };
        next = following;
    }
    Ok(users)
}

/// How many pages of an area may be slots in use: those that it has, 0 where it is off.
fn pages_of(mem: &Mem, area: u8) -> u32
    ensures { (page : ℕ) → result ≤ page → IsUnused (view mem.now) (slot_at area page) }
{
    mem.swap.keeps();
    if mem.swap.is_on(area) {
        mem.swap.pages(area)
    } else {
        0
    }
}

/// No user of so many slots.
fn no_users(alloc: Global, pages: u32) -> Result<Vec<Option<(u16, u64)>>, AllocError>
    ensures { IfOk result (λ users. users.items ≡ replicate pages None) }
{
    let mut users = Vec::new(alloc);
    users.resize(pages as usize, None)?;
    Ok(users)
}

/// Adds the users among the pages of a process.
fn visit_process(mem: &Mem, area: u8, process: u16, users: &mut [Option<(u16, u64)>])
    requires { AreWithin (view mem.now) }
    ensures { Visits (view mem.now) area (λ key. key.0 ≡ process) users.old users.new }
{
    let mut run = [Pte::Empty; RUN];
    let mut next = 0;
    while let Some(page) = mem.tables.next_from(process, next) {
        let len = mem.tables.read_run(process, page, &mut run);
        next = page + len as u64;
        visit_run(mem, area, &run[..len], (process, page), users);
    }
}

/// Adds the users among the pages of a run, the first of which is that of the key.
fn visit_run(mem: &Mem, area: u8, run: &[Pte], first: (u16, u64), users: &mut [Option<(u16, u64)>])
    requires below { first.1 + length run.now < 2 ^ 64 }
    requires there { HasAll (view mem.now).table first.0 first.1 run.now }
    requires within { AreWithin (view mem.now) }
    ensures { Visits (view mem.now) area
        (λ key. (key.0 ≡ first.0) × (first.1 ≤ key.1) × (key.1 < first.1 + length run.now))
        users.old users.new }
{
    for (i, entry) in run.iter().enumerate() {
        let slot = slot_behind(mem, *entry);
        add_user(users, area, slot, (first.0, first.1 + i as u64));
    }
}

/// Adds the user of a slot, if that is one of the area.
fn add_user(users: &mut [Option<(u16, u64)>], area: u8, slot: Option<Slot>, user: (u16, u64))
    ensures { users.new ≡ with_user area slot user users.old }
{
    if let Some(slot) = slot {
        if slot.area == area && (slot.page as usize) < users.len() {
            users[slot.page as usize] = Some(user);
        }
    }
}
