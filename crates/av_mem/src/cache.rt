//! Steps of the swap cache, with frames, lists and the device.

ghost use Rattle.std.specs.Prelude.{◌≡◌, ◌-◌, ◌<◌, ◌≤◌, ◌^◌, [], ℕ, None, true, false};
ghost use Rattle.std.specs.Prelude.{IsSome};
ghost use Rattle.std.specs.Option.{ForSome};
ghost use Rattle.av_base.specs.Words.{is_in};
ghost use Rattle.av_pagetable.specs.Entries.{entry_at};
ghost use Rattle.av_swap_laws.specs.Steps.{view_drop, view_map, view_start};
ghost use Rattle.av_swapcache.specs.Swap.{HasAreas, IsUncached, is_flying};
ghost use Rattle.av_swapcache.specs.Swap.{shown as shown_swap};
ghost use Rattle.av_spaces.specs.Kin.{info_of};
ghost use Rattle.av_mem.specs.Cache.{Ends, Loads, Puts, home_by};
ghost use Rattle.av_mem.specs.Locked.{AreFew, locks_more};
ghost use Rattle.av_mem.specs.Mem.{HasItems, HasLists, HasRoom, frame_count, locks_of, view};
ghost use Rattle.av_mem.specs.Steps.{KeepsBut, KeepsParts};

use crate::mem::Mem;
use av_base::Slot;
use av_io::Failed;
use av_pagetable::Pte;
use av_swapcache::Finished;
use av_swapdev::SwapDev;

impl Mem {
    /// Caches a frame at the next slot, if there is one. The frame is dirty then.
    pub fn put(&mut self, frame: u32) -> Option<Slot>
        requires fits { HasRoom self.old }
        requires in_range { frame < frame_count self.old }
        requires uncached { IsUncached (shown_swap self.old.swap) frame }
        ensures put { Puts result self.old self.new frame }
        ensures parts { KeepsParts self.old self.new }
    {
        self.swap.put(&mut self.frames, frame)
    }

    /// Puts the write of the slot at which a frame is cached last in flight. The frame is clean
    /// then.
    pub fn start(&mut self, frame: u32, slot: Slot)
        requires fits { HasRoom self.old }
        requires cached { (view self.old).find slot ≡ Some frame }
        requires landed { is_flying (shown_swap self.old.swap) slot ≡ false }
        ensures started { view self.new ≡ view_start frame slot (view self.old) }
        ensures parts { KeepsParts self.old self.new }
    {
        self.swap.start(&mut self.frames, frame, slot);
    }

    /// Ends the first write in flight, if there is one, and tells its slot and frame, and whether
    /// it failed. A frame that was written goes to the tail of inactive; one that was not is dirty.
    pub fn finish<D: SwapDev>(&mut self, dev: &mut D) -> Option<Finished>
        requires fits { HasRoom self.old }
        requires listed { HasLists self.old }
        requires areas { HasAreas (D.sizes dev.old) (shown_swap self.old.swap) }
        ensures ends { Ends result self.old self.new (D.pages dev.old) (D.pages dev.new)
            (D.failures dev.old, D.history dev.old) (D.failures dev.new, D.history dev.new) }
        ensures same_sizes { D.sizes dev.new ≡ D.sizes dev.old }
        ensures never_falls { D.failures dev.old ≤ D.failures dev.new }
        ensures parts { KeepsParts self.old self.new }
    {
        self.swap.keeps();
        match self.swap.finish(&mut self.frames, dev) {
            None => None,
            Some(Finished::Done { slot, frame }) => {
                self.lists.to_inactive_tail(frame);
                Some(Finished::Done { slot, frame })
            }
            Some(Finished::Failed { slot, frame }) => Some(Finished::Failed { slot, frame }),
        }
    }

    /// Takes the slot at which a frame is cached out of the cache. The frame is free where no entry
    /// names it, and the slot is given back where none names that.
    pub fn drop_slot(&mut self, frame: u32, slot: Slot)
        requires fits { HasRoom self.old }
        requires listed { HasLists self.old }
        requires itemed { HasItems self.old }
        requires in_range { frame < frame_count self.old }
        requires cached { (view self.old).find slot ≡ Some frame }
        requires landed { is_flying (shown_swap self.old.swap) slot ≡ false }
        requires in_use { is_in frame (view self.old).free ≡ false }
        ensures dropped { view self.new ≡ view_drop frame slot (view self.old) }
        ensures parts { KeepsParts self.old self.new }
    {
        self.swap.drop_ref(&mut self.frames, frame, slot);
        if self.frames.maps(frame) == 0 {
            self.free(frame);
        }
    }

    /// The home of a frame that takes the page of a slot: that of a page whose entry names the
    /// slot, where it is the only one; else with the root of its anon_vma, from which all are
    /// reached.
    pub fn home_to_load(&self, slot: Slot, home: Option<(u64, u64)>) -> Option<(u64, u64)>
        requires { ForSome home (λ h. IsSome (info_of self.now.anons h.0)) }
        ensures { result ≡ home_by self.now slot home }
    {
        let (own, index) = home?;
        if self.swap.entries(slot) == 1 {
            return home;
        }
        Some((self.anons.info(own).root, index))
    }

    /// Reads the page of a slot that an entry names from the device into the first free frame, and
    /// caches it there, clean, with this home, at the head of inactive. After a failure the memory
    /// system is as it was.
    pub fn load<D: SwapDev>(
        &mut self,
        slot: Slot,
        home: Option<(u64, u64)>,
        dev: &mut D,
    ) -> Result<u32, Failed>
        requires fits { HasRoom self.old }
        requires listed { HasLists self.old }
        requires free { (view self.old).free ≡ [] → ⊥ }
        requires named { 0 < (view self.old).entries slot }
        requires absent { (view self.old).find slot ≡ None }
        requires uncached { (f : ℕ) → is_in f (view self.old).free ≡ true
            → IsUncached (shown_swap self.old.swap) f }
        requires areas { HasAreas (D.sizes dev.old) (shown_swap self.old.swap) }
        ensures loads { Loads result self.old self.new (D.pages dev.old) slot home
            (D.failures dev.old) (D.failures dev.new) }
        ensures same_pages { D.pages dev.new ≡ D.pages dev.old }
        ensures same_sizes { D.sizes dev.new ≡ D.sizes dev.old }
        ensures never_falls { D.failures dev.old ≤ D.failures dev.new }
        ensures asked { D.history dev.new ≡ D.history dev.old }
        ensures parts { KeepsParts self.old self.new }
    {
        let Some(frame) = self.frames.take() else {
            unreachable!();
        };
        match self.swap.load(&mut self.frames, slot, frame, dev) {
            Ok(()) => {
                self.frames.set_home(frame, home);
                self.lists.to_inactive_head(frame);
                Ok(frame)
            }
            Err(failed) => {
                self.frames.give(frame);
                Err(failed)
            }
        }
    }

    /// The entry of a page that names a cached slot names its frame, not seen and without a write
    /// bit.
    pub fn map(&mut self, process: u16, page: u64, slot: Slot, frame: u32)
        requires in_range { frame < frame_count self.old }
        requires names { entry_at self.old.tables process page ≡ Pte.Away slot }
        requires cached { (view self.old).find slot ≡ Some frame }
        requires named { 0 < (view self.old).entries slot }
        requires few { (view self.old).maps frame < 2 ^ 64 - 1 }
        requires locks { AreFew self.old }
        ensures mapped { view self.new ≡ view_map process page frame slot (view self.old) }
        ensures parts { KeepsBut (locks_more self.old (process, page) frame (locks_of self.old))
            self.old self.new }
    {
        let entry = Pte::Here {
            frame,
            write: false,
            seen: false,
        };
        self.tables.change(process, page, entry);
        self.frames.map_up(frame);
        self.swap.entry_down(slot, 1);
        self.lock_up((process, page), frame);
    }
}
