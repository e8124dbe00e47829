//! What is kept of frames and slots beside the entries and the cached pairs.

ghost use Rattle.std.specs.Prelude.{◌≡◌, Bool, None, OnErr, OnOk, Some, [], option_map};
ghost use Rattle.av_base.specs.Keys.{Key};
ghost use Rattle.av_plain.specs.Ledger.{InFrame as NamesFrame};
ghost use Rattle.av_audit_pages.specs.Entries.{cached_of, entry_of};
ghost use Rattle.av_audit_pages.specs.Index.{AddsPair, CountsPairs, HasRoom};
ghost use Rattle.av_audit_pages.specs.Index.{KeepsKeys, KeepsOthers};
ghost use Rattle.av_audit_pages.specs.Index.{KeepsPairs, TakesPair, Tells};

use crate::entries::{Cached, Entry};
use crate::slot_holders::SlotHolders;
use av_audit_index::Holders;
use av_base::Slot;
use std::alloc::{AllocError, Global};

/// For each frame and each slot the keys of the entries that name it, and how many cached pairs
/// have it.
#[derive(Drop)]
pub(crate) struct Index {
    frames: Holders,
    slots: SlotHolders,
}

impl Index {
    /// Nothing is named or cached.
    pub(crate) fn new(alloc: Global) -> Index
        ensures tells { (k : Key) → Tells result k None }
        ensures pairs { CountsPairs result [] }
    {
        Index {
            frames: Holders::new(alloc),
            slots: SlotHolders::new(alloc),
        }
    }

    /// What holds each frame.
    pub(crate) fn frames(&self) -> &Holders
        ensures { result.now ≡ self.now.frames }
    {
        &self.frames
    }

    /// What holds each slot.
    pub(crate) fn slots(&self) -> &SlotHolders
        ensures { result.now ≡ self.now.slots }
    {
        &self.slots
    }

    /// The key's entry goes.
    fn take_entry(&mut self, key: (u16, u64), entry: Entry)
        requires { Tells self.old key (Some (entry_of entry)) }
        ensures gone { Tells self.new key None }
        ensures others { KeepsOthers self.old self.new key }
        ensures pairs { KeepsPairs self.old self.new }
    {
        match entry {
            Entry::Zero => {}
            Entry::InFrame { frame, .. } => self.frames.take(frame, key),
            Entry::InSlot(slot) => self.slots.take(slot, key),
        }
    }

    /// The key has no entry any more, if it had one.
    pub(crate) fn take(&mut self, key: (u16, u64), entry: Option<Entry>)
        requires { Tells self.old key (option_map entry_of entry) }
        ensures gone { Tells self.new key None }
        ensures others { KeepsOthers self.old self.new key }
        ensures pairs { KeepsPairs self.old self.new }
    {
        if let Some(entry) = entry {
            self.take_entry(key, entry);
        }
    }

    /// The key, which had no entry, has this one. Without memory all stays.
    fn add(&mut self, key: (u16, u64), entry: Entry) -> Result<(), AllocError>
        requires { Tells self.old key None }
        ensures ok { OnOk result (Tells self.new key (Some (entry_of entry))) }
        ensures err { OnErr result (Tells self.new key None) }
        ensures others { KeepsOthers self.old self.new key }
        ensures pairs { KeepsPairs self.old self.new }
    {
        match entry {
            Entry::Zero => Ok(()),
            Entry::InFrame { frame, seen } => self.frames.add(frame, key, seen),
            Entry::InSlot(slot) => self.slots.add(slot, key),
        }
    }

    /// The key's entry stays at its frame, and is seen or not. Without memory the key has no entry.
    fn see(&mut self, key: (u16, u64), frame: u32, seen: bool) -> Result<(), AllocError>
        requires { (was : Bool) × Tells self.old key (Some (NamesFrame frame was)) }
        ensures ok { OnOk result (Tells self.new key (Some (NamesFrame frame seen))) }
        ensures err { OnErr result (Tells self.new key None) }
        ensures others { KeepsOthers self.old self.new key }
        ensures pairs { KeepsPairs self.old self.new }
    {
        let added = self.frames.add(frame, key, seen);
        if added.is_err() {
            self.frames.take(frame, key);
        }
        added
    }

    /// The key has this entry in place of the one that it had, if it had one. Without memory it has
    /// none.
    pub(crate) fn put(
        &mut self,
        key: (u16, u64),
        old: Option<Entry>,
        entry: Entry,
    ) -> Result<(), AllocError>
        requires { Tells self.old key (option_map entry_of old) }
        ensures ok { OnOk result (Tells self.new key (Some (entry_of entry))) }
        ensures err { OnErr result (Tells self.new key None) }
        ensures others { KeepsOthers self.old self.new key }
        ensures pairs { KeepsPairs self.old self.new }
    {
        let both = (old, entry);
        if let (Some(Entry::InFrame { frame: at, .. }), Entry::InFrame { frame, seen }) = both {
            if at == frame {
                return self.see(key, frame, seen);
            }
        }
        self.take(key, old);
        self.add(key, entry)
    }

    /// One cached pair more. Without memory all stays.
    pub(crate) fn hold(&mut self, cached: Cached) -> Result<(), AllocError>
        requires { HasRoom self.old }
        ensures ok { OnOk result (AddsPair self.old self.new (cached_of cached)) }
        ensures err { OnErr result (KeepsPairs self.old self.new) }
        ensures keys { KeepsKeys self.old self.new }
    {
        self.frames.hold(cached.frame)?;
        let added = self.slots.hold(cached.slot);
        if added.is_err() {
            self.frames.drop_pair(cached.frame);
        }
        added
    }

    /// The cached pair goes.
    pub(crate) fn drop_pair(&mut self, cached: Cached)
        ensures pairs { TakesPair self.old self.new (cached_of cached) }
        ensures keys { KeepsKeys self.old self.new }
    {
        self.frames.drop_pair(cached.frame);
        self.slots.drop_pair(cached.slot);
    }
}
