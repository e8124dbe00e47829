//! Which calls of something in memory fail, and how many did.

ghost use Rattle.std.specs.Prelude.{◌≡◌, []};

/// A call failed: a source gave nothing, a sink could not hand on what it kept back, a device did
/// not read or write.
#[derive(Clone, Copy, Drop, Debug, PartialEq, Eq)]
pub struct Failed;

/// Which calls fail, by their numbers from 1; how many were made, and how many of them failed.
#[derive(Drop)]
pub struct Failures {
    pub failing: Vec<u64>,
    pub calls: u64,
    pub count: u64,
    ghost none: { failing.items ≡ [] → count ≡ 0 },
}

impl Failures {
    ghost use Rattle.av_io.specs.Failures.{IsFresh, IsNextCall};

    /// No call was made yet. The calls of these numbers fail, from 1.
    pub fn new(failing: Vec<u64>) -> Failures
        ensures { IsFresh result failing }
    {
        Failures {
            failing,
            calls: 0,
            count: 0,
        }
    }

    /// Counts a call, and says whether it fails.
    pub fn next_fails(&mut self) -> bool
        ensures { IsNextCall self.old self.new result }
    {
        self.calls = self.calls.saturating_add(1);
        if self.failing.contains(&self.calls) {
            self.count = self.count.saturating_add(1);
            return true;
        }
        false
    }
}
