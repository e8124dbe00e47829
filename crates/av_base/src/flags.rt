//! What is said of a page beside its protection.

ghost use Rattle.std.specs.Prelude.{◌≡◌};
ghost use Rattle.av_base.specs.Flags.{unlocked, with_flag};

/// What `madvise` and `mlock` said of a page: Linux's VM_DONTCOPY, VM_WIPEONFORK, VM_LOCKED and
/// VM_MERGEABLE.
#[derive(Clone, Copy, Drop, Debug, PartialEq, Eq)]
pub struct Flags {
    pub dont_fork: bool,
    pub wipe_on_fork: bool,
    pub locked: bool,
    pub mergeable: bool,
}

/// One of the flags.
#[derive(Clone, Copy, Drop, Debug, PartialEq, Eq)]
pub enum Flag {
    DontFork,
    WipeOnFork,
    Locked,
    Mergeable,
}

impl Flags {
    /// None of them, as after `mmap`.
    pub const NONE: Flags = Flags {
        dont_fork: false,
        wipe_on_fork: false,
        locked: false,
        mergeable: false,
    };

    /// With one of them set or cleared.
    pub fn with(self, flag: Flag, set: bool) -> Flags
        ensures { result ≡ with_flag flag set self }
    {
        match flag {
            Flag::DontFork => Flags {
                dont_fork: set,
                ..self
            },
            Flag::WipeOnFork => Flags {
                wipe_on_fork: set,
                ..self
            },
            Flag::Locked => Flags {
                locked: set,
                ..self
            },
            Flag::Mergeable => Flags {
                mergeable: set,
                ..self
            },
        }
    }

    /// Without `locked`: what a fork's child has of them, and what a range has that its pages were
    /// moved away from.
    pub fn unlocked(self) -> Flags
        ensures { result ≡ unlocked self }
    {
        self.with(Flag::Locked, false)
    }
}
