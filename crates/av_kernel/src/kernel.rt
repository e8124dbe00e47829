//! The kernel, one command at a time.
//!
//! A command fills a reply that the loop over the lines owns: one that is handed up is copied at
//! each call that the compiler leaves apart, and its vectors are made anew for each line.

ghost use Rattle.std.specs.Prelude.{◌≡◌, ◌⊎◌, ◌<◌, ◌≤◌, ◌^◌, IfOk, OnOk, OnErr, length, true};
ghost use Rattle.std.specs.Prelude.{false};
ghost use Rattle.av_base.specs.Limits.{most_commands};
ghost use Rattle.av_plain.specs.Device.{Device, IsSameDevice, setting_of, seen_by};
ghost use Rattle.av_plain.specs.Report.{totals as totals_of};
ghost use Rattle.av_plain.specs.Transcript.{State, at_first};
ghost use Rattle.av_swapdev.specs.Device.{most_areas};
ghost use Rattle.av_kernel.specs.Kernel.{Stands, Steps, Counts, IsNew, IsSpent};
ghost use Rattle.av_step.specs.Step.{sizes_of};
ghost use Rattle.av_kernel.specs.Step.{has_device};

use crate::step::perform;
use crate::tally::Tally;
use av_anon::Anons;
use av_frames::Frames;
use av_lru::Lru;
use av_mem::Mem;
use av_pagetable::{PageTable, Tables};
use av_report::totals;
use av_spaces::Spaces;
use av_swapcache::Swap;
use av_swapdev::SwapDev;
use av_text::Bytes;
use av_trace::{Command, Reply, Totals};
use std::alloc::{AllocError, Global};
use std::marker::Model;

/// The memory of all processes, and how many commands were done.
#[derive(Drop)]
pub struct Kernel {
    mem: Mem,
    /// How many pages each attached swap area has, by its number.
    sizes: Vec<u32>,
    steps: u32,
    tally: Tally,
    spent: bool,
    /// The memory of bytes that a reply showed, for those of a later one.
    spare: Bytes,
}

impl Model for Kernel {
    ghost use Rattle.av_mem.specs.Mem.{frame_count};
    ghost use Rattle.av_mem.specs.contracts.mem.Mem.{the_row};
    ghost use Rattle.av_kernel.specs.contracts.tally.Tally.{the_row as tally_row};
    ghost use Rattle.av_kernel.specs.Machine.{Machine, machine_code, IsSound};

    ghost Value = { Machine };

    ghost coded = { machine_code the_row.coded tally_row.coded };

    ghost view = { λ k. record {
      frames = frame_count k.mem;
      sizes = k.sizes.items;
      mem = k.mem;
      steps = k.steps;
      tally = k.tally;
      spent = k.spent;
    } };

    ghost invariant = { λ k. IsSound k.sizes.items k.mem k.steps k.tally k.spent };
}

impl Kernel {
    /// A kernel with this many frames, all free, and no process. `pages` says how many pages each
    /// attached swap area has, by its number; none is on yet.
    pub fn new(alloc: Global, frames: u32, pages: &[u32]) -> Result<Kernel, AllocError>
        requires { length pages.now ≤ most_areas }
        ensures stands { IfOk result (λ k. (d : Device) →
            Stands k d (at_first (setting_of frames d))) }
        ensures new { IfOk result (IsNew frames pages.now) }
    {
        Ok(Kernel {
            mem: Mem::new(alloc, frames)?,
            sizes: Vec::from_slice(alloc, pages)?,
            steps: 0,
            tally: Tally::new(),
            spent: false,
            spare: Bytes::new(alloc),
        })
    }

    /// Does one command of the grammar. After want of memory the kernel is spent: then it does
    /// nothing more. The device has the swap areas with which the kernel was made.
    pub fn step<D: SwapDev>(
        &mut self,
        alloc: Global,
        command: &Command,
        dev: &mut D,
    ) -> Result<Reply, AllocError>
        requires few { self.old.steps < most_commands }
        requires attached { D.sizes dev.old ≡ sizes_of self.old.sizes }
        ensures stands { let d = seen_by D.sizes D.pages D.failures D.history in (s : State)
            → Stands self.old (d dev.old) s → IfOk result
            (Steps self.old self.new (d dev.old) (d dev.new) s command.now) }
        ensures counts { IfOk result (Counts self.old self.new) }
        ensures spent { OnErr result (IsSpent self.old self.new) }
        ensures same { let d = seen_by D.sizes D.pages D.failures D.history in
            IsSameDevice (d dev.old) (d dev.new) }
        ensures leaves_device { (self.old.spent ≡ true) ⊎ (has_device command.now ≡ false)
            → dev.new ≡ dev.old }
    {
        let mut reply = Reply::new(alloc);
        self.answer(alloc, command, dev, &mut reply)?;
        Ok(reply)
    }

    /// Does one command as `step` does, and makes this its reply, whatever it was. The room of its
    /// notes, its rows and the bytes that a whole read shows serves again.
    ///
    /// After want of memory nothing is promised of the reply.
    // Inlined, as `perform` is: `run` and `work` each have a loop that calls it.
    #[inline(always)]
    pub fn answer<D: SwapDev>(
        &mut self,
        alloc: Global,
        command: &Command,
        dev: &mut D,
        reply: &mut Reply,
    ) -> Result<(), AllocError>
        requires few { self.old.steps < most_commands }
        requires attached { D.sizes dev.old ≡ sizes_of self.old.sizes }
        ensures stands { let d = seen_by D.sizes D.pages D.failures D.history in (s : State)
            → Stands self.old (d dev.old) s → OnOk result
            (Steps self.old self.new (d dev.old) (d dev.new) s command.now reply.new) }
        ensures counts { OnOk result (Counts self.old self.new reply.new) }
        ensures spent { OnErr result (IsSpent self.old self.new) }
        ensures same { let d = seen_by D.sizes D.pages D.failures D.history in
            IsSameDevice (d dev.old) (d dev.new) }
        ensures leaves_device { (self.old.spent ≡ true) ⊎ (has_device command.now ≡ false)
            → dev.new ≡ dev.old }
    {
        if self.spent {
            return Err(AllocError);
        }
        match perform(
            &mut self.mem,
            dev,
            &self.sizes,
            &mut self.spare,
            alloc,
            command,
            reply,
        ) {
            Ok(()) => {
                self.steps += 1;
                self.tally.count(&reply.answer);
                Ok(())
            }
            Err(refused) => {
                self.spent = true;
                Err(refused)
            }
        }
    }

    /// The frames.
    pub fn frames(&self) -> &Frames
        ensures { result.now ≡ self.now.mem.frames }
    {
        &self.mem.frames
    }

    /// The two lists of the frames in use.
    pub fn lists(&self) -> &Lru
        ensures { result.now ≡ self.now.mem.lists }
    {
        &self.mem.lists
    }

    /// The page tables of the processes that live.
    pub fn tables(&self) -> &Tables<PageTable>
        ensures { result.now ≡ self.now.mem.tables }
    {
        &self.mem.tables
    }

    /// The areas of the processes that live.
    pub fn areas(&self) -> &Spaces
        ensures { result.now ≡ self.now.mem.spaces }
    {
        &self.mem.spaces
    }

    /// The anon_vmas, with the links of areas to them.
    pub fn anons(&self) -> &Anons
        ensures { result.now ≡ self.now.mem.anons }
    {
        &self.mem.anons
    }

    /// The swap areas that are on, with the swap cache.
    pub fn swap(&self) -> &Swap
        ensures { result.now ≡ self.now.mem.swap }
    {
        &self.mem.swap
    }

    /// How many commands were answered.
    pub fn steps_done(&self) -> u32
        ensures { result ≡ self.now.steps }
    {
        self.steps
    }

    /// How often each first word of a reply came.
    pub fn tally(&self) -> Tally
        ensures { result ≡ self.now.tally }
    {
        self.tally
    }

    /// What `stat` would answer. It is no command, and nothing counts it.
    pub fn totals(&self) -> Totals
        requires unspent { self.now.spent ≡ false }
        ensures { (d : Device) (s : State) → Stands self.now d s
            → result ≡ totals_of (setting_of self.now.frames d) s.world s.ledger }
    {
        totals(&self.mem)
    }

    /// Whether memory was wanting within a command, so that nothing more is done.
    pub fn is_spent(&self) -> bool
        ensures { result ≡ self.now.spent }
    {
        self.spent
    }
}
