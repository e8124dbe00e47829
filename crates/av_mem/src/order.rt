//! Steps of the two lists alone.

ghost use Rattle.std.specs.Prelude.{◌≡◌, ◌<◌};
ghost use Rattle.av_swap_laws.specs.Steps.{view_to_active, view_to_head};
ghost use Rattle.av_mem.specs.Mem.{HasLists, frame_count, view};
ghost use Rattle.av_mem.specs.Steps.{KeepsParts};

use crate::mem::Mem;

impl Mem {
    /// Moves a frame to the head of inactive.
    pub fn to_head(&mut self, frame: u32)
        requires listed { HasLists self.old }
        requires in_range { frame < frame_count self.old }
        ensures moved { view self.new ≡ view_to_head frame (view self.old) }
        ensures parts { KeepsParts self.old self.new }
    {
        self.lists.to_inactive_head(frame);
    }

    /// Moves a frame to the head of active.
    pub fn to_active(&mut self, frame: u32)
        requires listed { HasLists self.old }
        requires in_range { frame < frame_count self.old }
        ensures moved { view self.new ≡ view_to_active frame (view self.old) }
        ensures parts { KeepsParts self.old self.new }
    {
        self.lists.to_active(frame);
    }
}
