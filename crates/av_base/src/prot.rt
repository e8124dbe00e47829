//! The protection of a page.

ghost use Rattle.std.specs.Prelude.{◌≡◌, ◌||◌};

/// What a process may do with a page, as `mmap` and `mprotect` set it.
#[derive(Clone, Copy, Drop, Debug, PartialEq, Eq)]
pub struct Prot {
    pub read: bool,
    pub write: bool,
    pub execute: bool,
}

impl Prot {
    /// Whether the page may be read: any protection but none at all, as on x86 without protection
    /// keys.
    pub fn readable(self) -> bool
        ensures { result ≡ (self.read || self.write || self.execute) }
    {
        self.read || self.write || self.execute
    }

    /// Whether the page may be written.
    pub fn writable(self) -> bool
        ensures { result ≡ self.write }
    {
        self.write
    }
}
