//! What does not change: the frames of the machine, and what page 0 of each swap area says.

ghost use Rattle.std.specs.Prelude.{◌≡◌};
ghost use Rattle.av_plain.specs.Ledger.{is_usable, size_of};
ghost use Rattle.av_audit_book.specs.Machine.{setting_of};

use av_base::Slot;

/// What page 0 of a swap area says.
#[derive(Drop)]
pub struct Layout {
    pub pages: u32,
    pub slots: u32,
    pub bad: Vec<u32>,
}

/// A swap area that is attached: its pages, and what its header says, if that has no fault.
#[derive(Drop)]
pub struct Head {
    pub pages: u32,
    pub layout: Option<Layout>,
}

/// The frames, and the swap areas by number.
#[derive(Drop)]
pub struct Machine {
    pub frames: u32,
    pub heads: Vec<Head>,
}

impl Machine {
    /// The pages of a swap area, 0 where none is attached.
    pub fn size(&self, area: u8) -> u32
        ensures { result ≡ size_of (setting_of self.now) area }
    {
        match self.heads.get(area as usize) {
            None => 0,
            Some(head) => head.pages,
        }
    }

    /// Whether the header has the page as a slot.
    pub fn usable(&self, slot: Slot) -> bool
        ensures { result ≡ is_usable (setting_of self.now) slot }
    {
        match self.heads.get(slot.area as usize) {
            None => false,
            Some(head) => match &head.layout {
                None => false,
                Some(layout) => slot.page < layout.pages && !layout.bad.contains(&slot.page),
            },
        }
    }
}
