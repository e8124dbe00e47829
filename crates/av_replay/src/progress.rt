//! Who is told how far a load is: a trait, since no other thread or clock is there to look from
//! outside.

/// Who is told how far a load is. No clause of a run speaks of it: its status, output, kernel and
/// device are the same, whoever is told.
pub trait Progress {
    /// So many lines of a load are still to be made.
    fn made(&mut self, left: u32);
}

/// Nobody: what is told is not kept.
#[derive(Clone, Copy, Drop, Debug, PartialEq, Eq)]
pub struct NoProgress;

impl Progress for NoProgress {
    fn made(&mut self, _left: u32) {}
}
