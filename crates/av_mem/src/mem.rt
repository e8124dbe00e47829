//! The memory system: frames with their lists, page tables, areas, anon_vmas and swap areas.

ghost use Rattle.std.specs.Prelude.{◌≡◌, IfOk};
ghost use Rattle.av_plain.specs.Device.{Device, setting_of};
ghost use Rattle.av_plain.specs.Transcript.{at_first};
ghost use Rattle.av_mem.specs.Mem.{frame_count, Keeps};

use av_anon::Anons;
use av_frames::Frames;
use av_lru::Lru;
use av_pagetable::{PageTable, Tables};
use av_rmap::items::Items;
use av_spaces::Spaces;
use av_swapcache::Swap;
use std::alloc::{AllocError, Global};

/// The frames with the two lists of those in use and the items of those that are merged, the page
/// table of each process, the areas of each, the anon_vmas, and the swap areas that are on with the
/// swap cache.
#[derive(Drop)]
pub struct Mem {
    pub frames: Frames,
    pub lists: Lru,
    pub items: Items,
    pub tables: Tables<PageTable>,
    pub spaces: Spaces,
    pub anons: Anons,
    pub swap: Swap,
}

impl Mem {
    /// This many frames, all free, no process, and no swap area that is on.
    pub fn new(alloc: Global, frames: u32) -> Result<Mem, AllocError>
        ensures keeps { IfOk result (λ k. (d : Device) →
            Keeps d k (at_first (setting_of frames d))) }
        ensures count { IfOk result (λ k. frame_count k ≡ frames) }
    {
        Ok(Mem {
            frames: Frames::new(alloc, frames)?,
            lists: Lru::new(alloc, frames)?,
            items: Items::new(alloc, frames)?,
            tables: Tables::new(alloc),
            spaces: Spaces::new(alloc),
            anons: Anons::new(alloc),
            swap: Swap::new(alloc, frames)?,
        })
    }
}
