//! How entries and cached pairs change.

ghost use Rattle.std.specs.Prelude.{◌≡◌};
ghost use Rattle.av_base.specs.Words.{renamed};
ghost use Rattle.av_audit_pages.specs.Entries.{changed_at, with_frame_at, with_slot};
ghost use Rattle.av_audit_pages.specs.Entries.{without_seen_of};

use crate::entries::Entry;
use av_base::Slot;

/// What becomes of the entries of a frame: they are unseen, or name a slot, or another frame.
#[derive(Clone, Copy, Drop)]
pub enum Change {
    Unseen,
    ToSlot(Slot),
    ToFrame(u32),
}

/// What becomes of cached pairs: those of a slot are stale or not, or those at a frame are at
/// another.
#[derive(Clone, Copy, Drop)]
pub enum PairChange {
    Stale { slot: Slot, stale: bool },
    Frame { from: u32, to: u32 },
}

/// A frame, where one gives its place to another.
fn place_of(from: u32, to: u32, frame: u32) -> u32
    ensures { result ≡ renamed from to frame }
{
    if frame == from { to } else { frame }
}

impl Entry {
    /// The entry, unseen where it names the frame.
    fn without_seen(self, frame: u32) -> Entry
        ensures { result ≡ without_seen_of frame self }
    {
        match self {
            Entry::InFrame { frame: other, seen } => Entry::InFrame {
                frame: other,
                seen: frame != other && seen,
            },
            _ => self,
        }
    }

    /// The slot in place of the frame.
    fn with_slot(self, frame: u32, slot: Slot) -> Entry
        ensures { result ≡ with_slot frame slot self }
    {
        match self {
            Entry::InFrame { frame: other, seen } => {
                if frame == other {
                    Entry::InSlot(slot)
                } else {
                    Entry::InFrame { frame: other, seen }
                }
            }
            _ => self,
        }
    }

    /// The entry, with its frame at the other place.
    fn with_frame_at(self, from: u32, to: u32) -> Entry
        ensures { result ≡ with_frame_at from to self }
    {
        match self {
            Entry::InFrame { frame, seen } => Entry::InFrame {
                frame: place_of(from, to, frame),
                seen,
            },
            _ => self,
        }
    }

    /// The entry, changed where it names the frame.
    pub(crate) fn changed_at(self, frame: u32, change: Change) -> Entry
        ensures { result ≡ changed_at frame change self }
    {
        match change {
            Change::Unseen => self.without_seen(frame),
            Change::ToSlot(slot) => self.with_slot(frame, slot),
            Change::ToFrame(to) => self.with_frame_at(frame, to),
        }
    }
}
