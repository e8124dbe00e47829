//! What a walk searches for: the entries that name a frame, or a slot.

ghost use Rattle.std.specs.Prelude.{◌≡◌};
ghost use Rattle.av_rmap.specs.Walk.{names};

use av_base::Slot;
use av_pagetable::Pte;

/// What the entries of a walk name.
#[derive(Clone, Copy, Drop)]
pub enum Target {
    Frame(u32),
    Slot(Slot),
}

impl Target {
    /// Whether an entry names it.
    pub fn is_in(self, entry: Pte) -> bool
        ensures { result ≡ names self entry }
    {
        match (self, entry) {
            (Target::Frame(frame), Pte::Here { frame: other, .. }) => frame == other,
            (Target::Slot(slot), Pte::Away { slot: other }) => slot == other,
            _ => false,
        }
    }
}
