//! What a command does to the pages of a process, but for the bytes that it writes.

ghost use Rattle.std.specs.Prelude.{◌≡◌, ◌+◌, ◌<◌, ◌^◌, OnOk};
ghost use Rattle.av_plain.specs.World.{Process};
ghost use Rattle.av_audit_world.specs.Memories.{Ends, pages_after};
ghost use Rattle.av_audit_world.specs.Space.{IsSpace};

use crate::space::Space;
use av_base::{Flag, Prot};
use std::alloc::AllocError;

/// A change of n pages from one on.
#[derive(Clone, Copy, Drop)]
pub enum Edit {
    /// They are mapped, with zeros.
    Map {
        from: u64,
        n: u64,
        prot: Prot,
    },
    /// They aren't mapped any more.
    Unmap {
        from: u64,
        n: u64,
    },
    /// Those that are mapped get a protection.
    Protect {
        from: u64,
        n: u64,
        prot: Prot,
    },
    /// A flag of those that are mapped is set, or cleared.
    Mark {
        from: u64,
        n: u64,
        flag: Flag,
        set: bool,
    },
    /// Those that are mapped have zeros.
    Wipe {
        from: u64,
        n: u64,
    },
}

impl Space {
    /// The pages change. Without memory a part may be done.
    pub fn edit(&mut self, edit: Edit) -> Result<(), AllocError>
        requires { Ends edit }
        ensures { OnOk result ((q : Process) → IsSpace self.old q
            → IsSpace self.new (pages_after edit q)) }
    {
        match edit {
            Edit::Map { from, n, prot } => self.map(from, n, prot),
            Edit::Unmap { from, n } => self.unmap(from, n),
            Edit::Protect { from, n, prot } => self.protect(from, n, prot),
            Edit::Mark { from, n, flag, set } => self.mark(from, n, flag, set),
            Edit::Wipe { from, n } => {
                self.wipe(from, n);
                Ok(())
            }
        }
    }
}
