//! The memory system with its device brings the pages of slots back.

ghost use Rattle.std.specs.Prelude.{◌≡◌};
ghost use Rattle.av_spaces.specs.Spaces.{pages_of};
ghost use Rattle.av_vma.specs.Pages.{home_of};

use crate::system::SlotSystem;
use crate::users::users;
use av_base::Slot;
use av_mem::Mem;
use av_reclaim::Driver;
use av_swapdev::SwapDev;
use av_vma::home;
use std::alloc::{AllocError, Global};

impl<'a, D: SwapDev> SlotSystem for Driver<'a, D> {
    fn frame(&self, slot: Slot) -> Option<u32> {
        self.mem.swap.find(slot)
    }

    fn is_in_use(&self, slot: Slot) -> bool {
        self.mem.swap.is_in_use(slot)
    }

    fn users(&self, alloc: Global, area: u8) -> Result<Vec<Option<(u16, u64)>>, AllocError> {
        users(&*self.mem, alloc, area)
    }

    fn namers(&self, alloc: Global, slot: Slot, frame: u32) -> Result<Vec<(u16, u64)>, AllocError> {
        self.mem.namers(alloc, slot, frame)
    }

    fn map(&mut self, key: (u16, u64), slot: Slot, frame: u32) {
        self.mem.map(key.0, key.1, slot, frame);
    }

    fn load(&mut self, slot: Slot, user: (u16, u64)) -> Option<u32> {
        let home = home_at(&*self.mem, user);
        let home = self.mem.home_to_load(slot, home);
        self.mem.load(slot, home, &mut *self.dev).ok()
    }
}

/// The home that a frame has from a page, if the page's area has an anon_vma.
fn home_at(mem: &Mem, key: (u16, u64)) -> Option<(u64, u64)>
    ensures { result ≡ home_of key.1 (pages_of mem.now.spaces.processes key.0 key.1) }
{
    let area = mem.spaces.area(key.0, key.1)?;
    home(&area, key.1)
}
