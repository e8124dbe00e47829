//! Pages are mapped, unmapped, protected and flagged.

ghost use Rattle.std.specs.Prelude.{◌≡◌, ◌+◌, ◌<◌, ◌≤◌, ◌^◌, OnErr, OnOk, Some};
ghost use Rattle.av_base.specs.Limits.{top_page};
ghost use Rattle.av_plain.specs.World.{Process, no_pages, wiped, with_change_on, with_page_flag};
ghost use Rattle.av_plain.specs.World.{with_pages, with_prot_on, zeros};
ghost use Rattle.av_audit_world.specs.Space.{IsSpace};
ghost use Rattle.av_audit_world.specs.Mapping.{AreChanged, AreWiped};

use crate::kept::wipe;
use crate::space::Space;
use av_audit_ranges::{Change, Marks};
use av_base::{Flag, Flags, Prot};
use std::alloc::AllocError;

impl Space {
    /// What is said of n pages from one on changes, and their bytes stay. Without memory all stays.
    fn change(&mut self, from: u64, n: u64, change: Change) -> Result<(), AllocError>
        requires { from + n < 2 ^ 64 }
        ensures ok { OnOk result (AreChanged self.old self.new from n change) }
        ensures err { OnErr result ((q : Process) → IsSpace self.old q
            → IsSpace self.new q) }
    {
        self.ranges.change(from, n, change)
    }

    /// n pages from one on have zeros.
    pub fn wipe(&mut self, from: u64, n: u64)
        requires { from + n < 2 ^ 64 }
        ensures bytes { AreWiped self.old self.new from n }
        ensures pages { (q : Process) → IsSpace self.old q
            → IsSpace self.new (with_change_on q from n wiped) }
    {
        wipe(&mut self.bytes, from, n);
    }

    /// n pages from one on aren't mapped any more. Without memory all stays.
    pub fn unmap(&mut self, from: u64, n: u64) -> Result<(), AllocError>
        requires { from + n < 2 ^ 64 }
        ensures ok { OnOk result ((q : Process) → IsSpace self.old q
            → IsSpace self.new (with_pages q from n no_pages)) }
        ensures err { OnErr result ((q : Process) → IsSpace self.old q
            → IsSpace self.new q) }
    {
        self.change(from, n, Change::Unmap)?;
        self.wipe(from, n);
        Ok(())
    }

    /// n pages from one on are mapped, with zeros and no flag. Without memory all stays.
    pub fn map(&mut self, from: u64, n: u64, prot: Prot) -> Result<(), AllocError>
        requires { from + n ≤ top_page }
        ensures ok { OnOk result ((q : Process) → IsSpace self.old q
            → IsSpace self.new (with_pages q from n (λ _. Some (zeros prot)))) }
        ensures err { OnErr result ((q : Process) → IsSpace self.old q
            → IsSpace self.new q) }
    {
        let marks = Marks {
            prot,
            flags: Flags::NONE,
        };
        self.ranges.put(from, n, marks)?;
        self.wipe(from, n);
        Ok(())
    }

    /// Those of n pages from one on that are mapped get a protection. Without memory all stays.
    pub fn protect(&mut self, from: u64, n: u64, prot: Prot) -> Result<(), AllocError>
        requires { from + n < 2 ^ 64 }
        ensures ok { OnOk result ((q : Process) → IsSpace self.old q
            → IsSpace self.new (with_prot_on q from n prot)) }
        ensures err { OnErr result ((q : Process) → IsSpace self.old q
            → IsSpace self.new q) }
    {
        self.change(from, n, Change::Protect(prot))
    }

    /// A flag of those of n pages from one on that are mapped is set, or cleared. Without memory
    /// all stays.
    pub fn mark(&mut self, from: u64, n: u64, flag: Flag, set: bool) -> Result<(), AllocError>
        requires { from + n < 2 ^ 64 }
        ensures ok { OnOk result ((q : Process) → IsSpace self.old q
            → IsSpace self.new (with_change_on q from n (with_page_flag flag set))) }
        ensures err { OnErr result ((q : Process) → IsSpace self.old q
            → IsSpace self.new q) }
    {
        self.change(from, n, Change::Mark { flag, set })
    }
}
