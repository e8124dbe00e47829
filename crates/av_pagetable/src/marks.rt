//! Which frames are marked: no entry that names one of these is seen.

ghost use Rattle.std.specs.Prelude.{◌≡◌, ℕ, ◌&&◌, ◌==◌, ◌⊎◌, Bool, not, true, false, [], List};
ghost use Rattle.std.specs.Prelude.{if◌then◌else◌, ◌<◌, length, slice_index_or};
ghost use Rattle.av_pagetable.specs.Seen.{is_marked, names_seen};

use crate::pte::Pte;
use std::alloc::Global;
use std::marker::Model;

/// Whether each frame has a mark, by its number. A frame past the end has none, so that an entry is
/// written without memory.
#[derive(Drop)]
pub(crate) struct Marks {
    marks: Vec<bool>,
}

impl Model for Marks {
    ghost Value = { List Bool };

    ghost view = { λ m. m.marks.items };
}

impl Marks {
    /// No mark.
    pub(crate) fn new(alloc: Global) -> Marks
        ensures { result ≡ [] }
    {
        Marks {
            marks: Vec::new(alloc),
        }
    }

    /// Whether a frame has a mark.
    #[inline]
    pub(crate) fn has(&self, frame: u32) -> bool
        ensures { result ≡ is_marked self.now frame }
    {
        match self.marks.get(frame as usize) {
            Some(mark) => *mark,
            None => false,
        }
    }

    /// Takes the mark from the frame that an entry names, if the entry is seen.
    #[inline(always)]
    pub(crate) fn unmark(&mut self, entry: Pte)
        ensures { (f : ℕ) → is_marked self.new f
            ≡ (is_marked self.old f && not (names_seen f entry)) }
    {
        if let Pte::Here {
            frame,
            seen: true,
            ..
        } = entry
        {
            let place = frame as usize;
            if place < self.marks.len() {
                self.marks[place] = false;
            }
        }
    }

    /// Takes the marks from the frames that entries name which are seen.
    pub(crate) fn unmark_all(&mut self, entries: &[Pte])
        ensures { (f : ℕ) → is_marked self.new f ≡ true → (is_marked self.old f ≡ true)
            × ((i : ℕ) → i < length entries.now
            → names_seen f (slice_index_or entries.now i Pte.Empty) ≡ false) }
    {
        for entry in entries {
            self.unmark(*entry);
        }
    }

    /// Marks a frame. Without memory all stays.
    pub(crate) fn mark(&mut self, frame: u32)
        ensures { (f : ℕ) → is_marked self.new f ≡ true
            → (f ≡ frame) ⊎ (is_marked self.old f ≡ true) }
    {
        let place = frame as usize;
        if self.marks.len() <= place && self.marks.resize(place + 1, false).is_err() {
            return;
        }
        self.marks[place] = true;
    }
}
