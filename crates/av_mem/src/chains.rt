//! Steps that go through a frame's home, or its items where it is merged, to its entries.

ghost use Rattle.std.specs.Prelude.{◌≡◌, ◌<◌, ◌≤◌, ◌+◌, ◌^◌, ℕ, true, false, length, List, IfOk};
ghost use Rattle.std.specs.Prelude.{MatchBool, OnOk, OnErr};
ghost use Rattle.av_pagetable.specs.Entries.{entry_at, has};
ghost use Rattle.av_rmap.specs.Seen.{unseen};
ghost use Rattle.av_rmap.specs.Unmap.{away};
ghost use Rattle.av_rmap.specs.Sorted.{AreRising};
ghost use Rattle.av_base.specs.Keys.{Key};
ghost use Rattle.av_rmap.specs.Walk.{AreItsEntries, names_seen, names_slot};
ghost use Rattle.av_spaces.specs.Kin.{AnonsFit};
ghost use Rattle.av_spaces.specs.Spaces.{AllRising};
ghost use Rattle.av_swap_laws.specs.Steps.{view_unmap, view_unseen};
ghost use Rattle.av_swapcache.specs.Swap.{is_cached, shown as shown_swap};
ghost use Rattle.av_mem.specs.Chains.{AreCounted, AreFound, AreReached, AreSlotReached, reach};
ghost use Rattle.av_mem.specs.Mem.{HasItems, frame_count, view};
ghost use Rattle.av_mem.specs.Steps.{KeepsParts};

use crate::mem::Mem;
use av_base::{Slot, Steps};
use av_rmap::seen::{clear_seen, clear_seen_items};
use av_rmap::sorted::walk_slot;
use av_rmap::stores::{Stores, StoresMut};
use av_rmap::unmap::unmap;
use std::alloc::{AllocError, Global};
use std::marker::Brand;
use std::sync::ledger::{Blank, Ledger};

impl Mem {
    /// Each entry of a cached frame becomes its slot. Without memory all stays.
    pub fn unmap(&mut self, frame: u32, slot: Slot) -> Result<(), AllocError>
        requires anons { AnonsFit self.old.spaces self.old.anons }
        requires in_range { frame < frame_count self.old }
        requires reached { AreReached self.old frame }
        requires counted { AreCounted self.old frame }
        requires cached { is_cached (shown_swap self.old.swap) slot ≡ true }
        requires few { (view self.old).entries slot + (view self.old).maps frame < 2 ^ 32 }
        ensures unmapped { OnOk result (view self.new ≡ view_unmap frame slot (view self.old)) }
        ensures none { OnErr result (view self.new ≡ view self.old) }
        ensures parts { KeepsParts self.old self.new }
    {
        let maps = self.frames.maps(frame);
        self.swap.entry_up(slot, maps as u32)?;
        self.send_away::<Brand>(frame, slot, Blank::new(1));
        self.frames.clear_maps(frame);
        Ok(())
    }

    /// No entry of a frame is seen any more, be it merged or not. Answers whether one was.
    pub fn unsee(&mut self, frame: u32) -> bool
        requires anons { AnonsFit self.old.spaces self.old.anons }
        requires itemed { HasItems self.old }
        requires in_range { frame < frame_count self.old }
        requires found { AreFound self.old frame }
        requires counted { AreCounted self.old frame }
        ensures seen { MatchBool result
            ((k : Key) × (names_seen frame (entry_at self.old.tables k.0 k.1) ≡ true))
            ((process page : ℕ)
            → names_seen frame (entry_at self.old.tables process page) ≡ false) }
        ensures unseen { view self.new ≡ view_unseen frame (view self.old) }
        ensures parts { KeepsParts self.old self.new }
    {
        if !self.tables.may_be_seen(frame) {
            return false;
        }
        let seen = self.clear::<Brand>(frame, Blank::new(1));
        self.tables.mark_unseen(frame);
        seen
    }

    /// Process and page of each entry that names a slot which the frame caches, once, by process
    /// and then by page: they are found through the frame's home. `laid` is promised, not asked:
    /// areas rise at all times, but callers don't see it.
    pub fn namers(
        &self,
        alloc: Global,
        slot: Slot,
        frame: u32,
    ) -> Result<Vec<(u16, u64)>, AllocError>
        requires anons { AnonsFit self.now.spaces self.now.anons }
        requires in_range { frame < frame_count self.now }
        requires reached { AreSlotReached self.now slot frame }
        requires count { (keys : List Key) → AreItsEntries (reach self.now) (names_slot slot) keys
            → length keys ≤ (view self.now).entries slot }
        ensures entries { IfOk result (λ keys.
            AreItsEntries (reach self.now) (names_slot slot) keys.items) }
        ensures rising { IfOk result (λ keys. AreRising keys.items) }
        ensures laid { AllRising self.now.spaces.processes }
    {
        self.find_namers::<Brand>(alloc, slot, frame, Blank::new(1))
    }

    // The same. Nobody counts the looks.
    fn find_namers<L: Ledger>(
        &self,
        alloc: Global,
        slot: Slot,
        frame: u32,
        blank: Blank,
    ) -> Result<Vec<(u16, u64)>, AllocError>
        requires name { blank.name ≡ L.name }
        requires parts { blank.parts ≡ L.parts }
        requires some { 0 < blank.parts }
        requires anons { AnonsFit self.now.spaces self.now.anons }
        requires in_range { frame < frame_count self.now }
        requires reached { AreSlotReached self.now slot frame }
        requires count { (keys : List Key) → AreItsEntries (reach self.now) (names_slot slot) keys
            → length keys ≤ (view self.now).entries slot }
        ensures entries { IfOk result (λ keys.
            AreItsEntries (reach self.now) (names_slot slot) keys.items) }
        ensures rising { IfOk result (λ keys. AreRising keys.items) }
        ensures laid { AllRising self.now.spaces.processes }
    {
        let areas = self.spaces.by_number();
        let mut steps = Steps::<L>::open(blank);
        let stores = Stores {
            areas,
            anons: &self.anons,
            tables: &self.tables,
        };
        walk_slot(
            alloc,
            &stores,
            slot,
            self.frames.home(frame),
            u64::from(self.swap.entries(slot)),
            &mut steps,
        )
    }

    // Each entry that names a frame names the slot then. Nobody counts the looks.
    fn send_away<L: Ledger>(&mut self, frame: u32, slot: Slot, blank: Blank)
        requires name { blank.name ≡ L.name }
        requires parts { blank.parts ≡ L.parts }
        requires some { 0 < blank.parts }
        requires anons { AnonsFit self.old.spaces self.old.anons }
        requires in_range { frame < frame_count self.old }
        requires reached { AreReached self.old frame }
        requires counted { AreCounted self.old frame }
        ensures entries { entry_at self.new.tables
            ≡ (λ process page. away frame slot (entry_at self.old.tables process page)) }
        ensures processes { has self.new.tables ≡ has self.old.tables }
        ensures rest { self.new ≡ record self.old { tables = self.new.tables } }
    {
        let areas = self.spaces.by_number();
        let maps = self.frames.maps(frame);
        if let Some(home) = self.frames.home(frame) {
            let mut steps = Steps::<L>::open(blank);
            let mut stores = StoresMut {
                areas,
                anons: &self.anons,
                tables: &mut self.tables,
            };
            unmap(&mut stores, frame, slot, home, maps, &mut steps);
        }
    }

    // No entry that names a frame is seen then. Answers whether one was. Nobody counts the looks.
    fn clear<L: Ledger>(&mut self, frame: u32, blank: Blank) -> bool
        requires name { blank.name ≡ L.name }
        requires parts { blank.parts ≡ L.parts }
        requires some { 0 < blank.parts }
        requires anons { AnonsFit self.old.spaces self.old.anons }
        requires itemed { HasItems self.old }
        requires in_range { frame < frame_count self.old }
        requires found { AreFound self.old frame }
        requires counted { AreCounted self.old frame }
        ensures seen { MatchBool result
            ((k : Key) × (names_seen frame (entry_at self.old.tables k.0 k.1) ≡ true))
            ((process page : ℕ)
            → names_seen frame (entry_at self.old.tables process page) ≡ false) }
        ensures entries { entry_at self.new.tables
            ≡ (λ process page. unseen frame (entry_at self.old.tables process page)) }
        ensures processes { has self.new.tables ≡ has self.old.tables }
        ensures rest { self.new ≡ record self.old { tables = self.new.tables } }
    {
        let mut steps = Steps::<L>::open(blank);
        let mut stores = StoresMut {
            areas: self.spaces.by_number(),
            anons: &self.anons,
            tables: &mut self.tables,
        };
        if self.items.is_merged(frame) {
            return clear_seen_items(&mut stores, frame, self.items.of(frame), &mut steps);
        }
        let Some(home) = self.frames.home(frame) else {
            return false;
        };
        clear_seen(
            &mut stores,
            frame,
            home,
            self.frames.maps(frame),
            &mut steps,
        )
    }
}
