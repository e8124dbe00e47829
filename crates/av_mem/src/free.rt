//! How a frame becomes free.

ghost use Rattle.std.specs.Prelude.{◌≡◌, ◌<◌, false};
ghost use Rattle.av_base.specs.Words.{is_in};
ghost use Rattle.av_swap_laws.specs.Steps.{view_freed};
ghost use Rattle.av_mem.specs.Mem.{HasItems, HasLists, frame_count, view};
ghost use Rattle.av_mem.specs.Steps.{KeepsRest};

use crate::mem::Mem;

impl Mem {
    /// A frame that nothing has any more is the first free one, in no list, and not merged.
    pub(crate) fn free(&mut self, frame: u32)
        requires listed { HasLists self.old }
        requires itemed { HasItems self.old }
        requires in_range { frame < frame_count self.old }
        requires in_use { is_in frame (view self.old).free ≡ false }
        ensures freed { view self.new ≡ view_freed frame (view self.old) }
        ensures rest { KeepsRest self.old self.new }
    {
        self.frames.give(frame);
        self.lists.remove(frame);
        self.items.clear(frame);
    }
}
