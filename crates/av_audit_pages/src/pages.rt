//! The entries of pages and the cached pairs, with what is kept beside them.

ghost use Rattle.std.specs.Prelude.{◌≡◌, ◌+◌, ◌-◌, ◌^◌, ◌<◌, ◌==◌, ◌&&◌, [], ◌∷◌};
ghost use Rattle.std.specs.Prelude.{IfOk, OnErr, OnOk, None, Some, false, if◌then◌else◌, filter};
ghost use Rattle.std.specs.Prelude.{length, map, nat_lt, not, option_map, slice_get};
ghost use Rattle.std.specs.Bool.{OnFalse, OnTrue};
ghost use Rattle.std.specs.BTreeMap.{insert_entry, is_at};
ghost use Rattle.std.specs.List.{list_any, range_with_len};
ghost use Rattle.std.specs.List.Sorted.{IsStrictlySortedBy};
ghost use Rattle.std.specs.Map.{keys_of, lookup, remove_entry};
ghost use Rattle.av_base.specs.Keys.{Key, key_cmp, same_key};
ghost use Rattle.av_base.specs.Words.{how_many};
ghost use Rattle.av_plain.specs.Ledger.{cached_by, names_frame, names_slot, same_slot};
ghost use Rattle.av_plain.specs.Reclaim.{names_seen};
ghost use Rattle.av_audit_pages.specs.Entries.{cached_of, changed_at, changed_pair};
ghost use Rattle.av_audit_pages.specs.Entries.{entries_of, entry_of};
ghost use Rattle.av_audit_pages.specs.Entries.{without_seen_of};
ghost use Rattle.av_audit_pages.specs.Pages.{used_pages};
ghost use Rattle.av_audit_pages.specs.declared.changes.PairChange.TheVariants.{Frame};

use crate::changes::{Change, PairChange};
use crate::entries::{Cached, Entry};
use crate::index::Index;
use crate::pairs::Pairs;
use av_audit_index::KeysOf;
use av_base::Slot;
use std::alloc::{AllocError, Global};
use std::collections::BTreeMap;
use std::collections::btree_map::Values;
use std::marker::Model;

/// Entries by process and page, cached pairs, and what each frame and slot has of them.
#[derive(Drop)]
pub struct Pages {
    entries: BTreeMap<(u16, u64), Entry>,
    cache: Pairs,
    index: Index,
}

impl Model for Pages {
    ghost use Rattle.av_audit_pages.specs.Pages.{Content};
    ghost use Rattle.std.specs.Map.{values_of};

    ghost Value = { Content };

    ghost use Rattle.av_audit_pages.specs.Pages.{IsIndexed};

    ghost view = { λ a. record { entries = a.entries.entries; cache = values_of a.cache } };

    ghost invariant = { λ a. IsIndexed a.index a.entries.entries (values_of a.cache) };
}

impl Pages {
    /// Nothing.
    pub fn new(alloc: Global) -> Pages
        ensures entries { result.entries ≡ [] }
        ensures cache { result.cache ≡ [] }
    {
        Pages {
            entries: BTreeMap::new(alloc),
            cache: Pairs::new(alloc),
            index: Index::new(alloc),
        }
    }

    /// The entries, by process and page.
    pub fn entries(&self) -> &BTreeMap<(u16, u64), Entry>
        ensures { result.now.entries ≡ self.now.entries }
    {
        &self.entries
    }

    /// The entry of a page goes, if it has one.
    pub fn remove(&mut self, process: u16, page: u64) -> Option<Entry>
        ensures value { result ≡ lookup (is_at (key_cmp (process, page))) self.old.entries }
        ensures entries { self.new.entries
            ≡ remove_entry (is_at (key_cmp (process, page))) self.old.entries }
        ensures gone { lookup (is_at (key_cmp (process, page))) self.new.entries ≡ None }
        ensures cache { self.new.cache ≡ self.old.cache }
    {
        let entry = self.entries.remove(&(process, page));
        self.index.take((process, page), entry);
        entry
    }

    /// The page has this entry now. Without memory it may have lost its old one. Those of others
    /// stay.
    pub fn set(&mut self, process: u16, page: u64, entry: Entry) -> Result<(), AllocError>
        ensures entries { OnOk result (self.new.entries
            ≡ insert_entry key_cmp self.old.entries (process, page) entry) }
        ensures at { OnOk result ((q : Key) → lookup (is_at (key_cmp q)) self.new.entries
            ≡ if same_key (process, page) q then Some entry
            else lookup (is_at (key_cmp q)) self.old.entries) }
        ensures others { (q : Key) → same_key (process, page) q ≡ false
            → lookup (is_at (key_cmp q)) self.new.entries
            ≡ lookup (is_at (key_cmp q)) self.old.entries }
        ensures rising { IsStrictlySortedBy key_cmp (keys_of self.new.entries) }
        ensures cache { self.new.cache ≡ self.old.cache }
    {
        let old = self.entries.insert((process, page), entry)?;
        match self.index.put((process, page), old, entry) {
            Ok(()) => Ok(()),
            Err(error) => {
                let _ = self.entries.remove(&(process, page));
                Err(error)
            }
        }
    }

    /// How many entries name a frame.
    pub fn frame_names(&self, frame: u32) -> u64
        ensures { result ≡ how_many (λ e. names_frame frame e.1) (entries_of self.now.entries) }
    {
        self.index.frames().names(frame)
    }

    /// How many pairs cache at a frame.
    pub fn frame_pairs(&self, frame: u32) -> u64
        ensures { result ≡ how_many (λ c. frame == c.frame) (map cached_of self.now.cache) }
    {
        self.index.frames().pairs(frame)
    }

    /// Whether an entry names the frame, or a pair caches at it.
    pub fn is_frame_used(&self, frame: u32) -> bool
        ensures { result ≡ nat_lt 0
            (how_many (λ e. names_frame frame e.1) (entries_of self.now.entries)
            + how_many (λ c. frame == c.frame) (map cached_of self.now.cache)) }
    {
        self.index.frames().is_used(frame)
    }

    /// How many entries name a slot.
    pub fn slot_names(&self, slot: Slot) -> u64
        ensures names { result
            ≡ how_many (λ e. names_slot slot e.1) (entries_of self.now.entries) }
        ensures fits { result < 2 ^ 63 }
    {
        self.index.slots().names(slot)
    }

    /// How many pairs cache a slot.
    pub fn slot_pairs(&self, slot: Slot) -> u64
        ensures { result ≡ how_many (λ c. same_slot slot c.slot) (map cached_of self.now.cache) }
    {
        self.index.slots().pairs(slot)
    }

    /// Whether a pair is cached.
    pub fn has_pairs(&self) -> bool
        ensures { result ≡ nat_lt 0 (length self.now.cache) }
    {
        self.cache.len() > 0
    }

    /// The cached pairs, the newest first.
    pub fn pairs(&self) -> Values<'_, u64, Cached>
        ensures { result ≡ self.now.cache }
    {
        self.cache.iter()
    }

    /// The slot of the first pair at a frame.
    pub fn slot_of(&self, frame: u32) -> Option<Slot>
        ensures { result ≡ option_map (λ c. c.slot)
            (cached_by (λ c. frame == c.frame) (map cached_of self.now.cache)) }
    {
        // Most frames are in no pair, and often there is none at all.
        if self.cache.len() == 0 {
            return None;
        }
        if self.frame_pairs(frame) == 0 {
            return None;
        }
        let (_, pair) = self.cache.first_at(frame)?;
        Some(pair.slot)
    }

    /// The frame of the first pair of a slot.
    pub fn frame_at(&self, slot: Slot) -> Option<u32>
        ensures { result ≡ option_map (λ c. c.frame)
            (cached_by (λ c. same_slot slot c.slot) (map cached_of self.now.cache)) }
    {
        if self.slot_pairs(slot) == 0 {
            return None;
        }
        let (_, pair) = self.cache.first_of(slot)?;
        Some(pair.frame)
    }

    /// Whether a pair of a slot is stale.
    pub fn is_stale(&self, slot: Slot) -> bool
        ensures { result
            ≡ list_any (λ c. same_slot slot c.slot && c.stale) (map cached_of self.now.cache) }
    {
        self.cache.is_stale(slot)
    }

    /// How many of the first frames are used.
    pub fn frames_used(&self, frames: u32) -> u32
        ensures { result ≡ length (filter (λ f. nat_lt 0
            (how_many (λ e. names_frame f e.1) (entries_of self.now.entries)
            + how_many (λ c. f == c.frame) (map cached_of self.now.cache)))
            (range_with_len 0 frames)) }
    {
        self.index.frames().len_within(0, frames)
    }

    /// How many slots of an area are used, where it has so many pages.
    pub fn slots_used(&self, area: u8, pages: u32) -> u32
        ensures { result ≡ length (used_pages self.now area pages) }
    {
        self.index.slots().len_within(area, 1, pages)
    }

    /// The least page of a slot of an area that is used, where it has so many pages.
    pub fn least_used(&self, area: u8, pages: u32) -> Option<u32>
        ensures { result ≡ slice_get (used_pages self.now area pages) 0 }
    {
        self.index.slots().least(area, 1, pages)
    }

    /// The keys of the entries that name a frame, rising, one after another.
    pub fn walk(&self, frame: u32) -> KeysOf<'_>
        ensures { result
            ≡ keys_of (filter (λ e. names_frame frame (entry_of e.1)) self.now.entries) }
    {
        self.index.frames().keys_of(frame)
    }

    /// The keys of the entries that name a frame, rising.
    pub fn keys_of_frame(&self, alloc: Global, frame: u32) -> Result<Vec<(u16, u64)>, AllocError>
        ensures keys { IfOk result (λ keys. keys.items
            ≡ keys_of (filter (λ e. names_frame frame (entry_of e.1)) self.now.entries)) }
        ensures rising { IsStrictlySortedBy key_cmp (keys_of self.now.entries) }
    {
        self.index.frames().keys(alloc, frame)
    }

    /// The keys of the entries that name a slot, rising.
    pub fn keys_of_slot(&self, alloc: Global, slot: Slot) -> Result<Vec<(u16, u64)>, AllocError>
        ensures { IfOk result (λ keys. keys.items
            ≡ keys_of (filter (λ e. names_slot slot (entry_of e.1)) self.now.entries)) }
    {
        self.index.slots().keys(alloc, slot)
    }

    /// Whether an entry of a frame is seen.
    pub fn is_seen(&self, frame: u32) -> bool
        ensures { result ≡ list_any (λ e. names_seen frame e.1) (entries_of self.now.entries) }
    {
        self.index.frames().seen(frame) > 0
    }

    /// The entries of a frame change. Without memory a part may have changed.
    pub fn change(&mut self, alloc: Global, frame: u32, change: Change) -> Result<(), AllocError>
        ensures entries { OnOk result (self.new.entries
            ≡ map (λ e. (e.0, changed_at frame change e.1)) self.old.entries) }
        ensures cache { self.new.cache ≡ self.old.cache }
    {
        let keys = self.keys_of_frame(alloc, frame)?;
        for key in keys.as_slice() {
            self.change_at(*key, frame, change)?;
        }
        Ok(())
    }

    /// The entries of a frame are unseen. Without memory a part may have changed.
    pub fn unsee(&mut self, alloc: Global, frame: u32) -> Result<(), AllocError>
        ensures entries { OnOk result (self.new.entries
            ≡ map (λ e. (e.0, without_seen_of frame e.1)) self.old.entries) }
        ensures cache { self.new.cache ≡ self.old.cache }
    {
        if !self.is_seen(frame) {
            return Ok(());
        }
        self.change(alloc, frame, Change::Unseen)
    }

    /// The entry of a page changes, if it has one that names the frame. Without memory it may have
    /// lost it.
    fn change_at(&mut self, key: (u16, u64), frame: u32, change: Change) -> Result<(), AllocError>
        ensures at { OnOk result ((q : Key) → lookup (is_at (key_cmp q)) self.new.entries
            ≡ if same_key key q
            then option_map (changed_at frame change) (lookup (is_at (key_cmp q)) self.old.entries)
            else lookup (is_at (key_cmp q)) self.old.entries) }
        ensures rising { IsStrictlySortedBy key_cmp (keys_of self.old.entries)
            → IsStrictlySortedBy key_cmp (keys_of self.new.entries) }
        ensures cache { self.new.cache ≡ self.old.cache }
    {
        let Some(place) = self.entries.get_mut(&key) else {
            return Ok(());
        };
        let old = *place;
        let entry = old.changed_at(frame, change);
        *place = entry;
        match self.index.put(key, Some(old), entry) {
            Ok(()) => Ok(()),
            Err(error) => {
                let _ = self.entries.remove(&key);
                Err(error)
            }
        }
    }

    /// One pair more is cached, before the others. Without memory all stays, and after 2^64 pairs,
    /// too.
    pub fn into_cache(&mut self, pair: Cached) -> Result<(), AllocError>
        ensures cache { OnOk result (self.new.cache ≡ pair ∷ self.old.cache) }
        ensures entries { self.new.entries ≡ self.old.entries }
        ensures err { OnErr result (self.new ≡ self.old) }
    {
        // There are fewer than 2^63 of them.
        let _ = self.cache.len();
        self.index.hold(pair)?;
        match self.cache.push_front(pair) {
            Ok(()) => Ok(()),
            Err(error) => {
                self.index.drop_pair(pair);
                Err(error)
            }
        }
    }

    /// The first pair of a slot goes. Answers whether there was one.
    fn drop_first(&mut self, slot: Slot) -> bool
        ensures others { filter (λ c. not (same_slot slot c.slot)) self.new.cache
            ≡ filter (λ c. not (same_slot slot c.slot)) self.old.cache }
        ensures fewer { OnTrue result (length self.new.cache < length self.old.cache) }
        ensures last { OnFalse result (filter (λ c. not (same_slot slot c.slot)) self.new.cache
            ≡ self.new.cache) }
        ensures entries { self.new.entries ≡ self.old.entries }
    {
        let Some((rank, pair)) = self.cache.first_of(slot) else {
            return false;
        };
        self.cache.take(rank, pair);
        self.index.drop_pair(pair);
        true
    }

    /// The slot is cached no longer.
    pub fn off_cache(&mut self, slot: Slot)
        ensures cache { self.new.cache
            ≡ filter (λ c. not (same_slot slot c.slot)) self.old.cache }
        ensures entries { self.new.entries ≡ self.old.entries }
    {
        while self.drop_first(slot) {}
    }

    /// The first pair at a frame is at another. Answers whether there was one. Without memory all
    /// stays.
    fn rename_first(&mut self, from: u32, to: u32) -> Result<bool, AllocError>
        requires { from ≡ to → ⊥ }
        ensures rest { OnOk result (map (changed_pair (Frame from to)) self.new.cache
            ≡ map (changed_pair (Frame from to)) self.old.cache) }
        ensures fewer { IfOk result (λ more. OnTrue more
            (how_many (λ c. from == c.frame) self.new.cache
            < how_many (λ c. from == c.frame) self.old.cache)) }
        ensures last { IfOk result (λ more. OnFalse more
            (map (changed_pair (Frame from to)) self.new.cache ≡ self.new.cache)) }
        ensures entries { self.new.entries ≡ self.old.entries }
    {
        let Some((rank, pair)) = self.cache.first_at(from) else {
            return Ok(false);
        };
        let renamed = Cached {
            slot: pair.slot,
            frame: to,
            stale: pair.stale,
        };
        // There are fewer than 2^63 of them.
        let _ = self.cache.len();
        self.index.hold(renamed)?;
        match self.cache.set_frame(rank, pair, to) {
            Ok(()) => {
                self.index.drop_pair(pair);
                Ok(true)
            }
            Err(error) => {
                self.index.drop_pair(renamed);
                Err(error)
            }
        }
    }

    /// The pairs at a frame are at another. Without memory some may be.
    fn rename(&mut self, from: u32, to: u32) -> Result<(), AllocError>
        ensures cache { OnOk result (self.new.cache
            ≡ map (changed_pair (Frame from to)) self.old.cache) }
        ensures entries { self.new.entries ≡ self.old.entries }
    {
        if from == to {
            return Ok(());
        }
        while self.rename_first(from, to)? {}
        Ok(())
    }

    /// Cached pairs change. Without memory a part may have changed.
    pub fn change_pairs(&mut self, change: PairChange) -> Result<(), AllocError>
        ensures cache { OnOk result (self.new.cache ≡ map (changed_pair change) self.old.cache) }
        ensures entries { self.new.entries ≡ self.old.entries }
    {
        match change {
            PairChange::Stale { slot, stale } => {
                self.cache.set_stale(slot, stale);
                Ok(())
            }
            PairChange::Frame { from, to } => self.rename(from, to),
        }
    }
}
