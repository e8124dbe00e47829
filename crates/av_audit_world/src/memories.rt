//! The processes that live.

ghost use Rattle.std.specs.Prelude.{◌≡◌, [], OnOk, length, option_map, true, false};
ghost use Rattle.std.specs.BTreeMap.{get};
ghost use Rattle.std.specs.Ordering.{nat_cmp};
ghost use Rattle.av_plain.specs.Fault.{is_allowed};
ghost use Rattle.av_plain.specs.Mremap.{marks_at};
ghost use Rattle.av_audit_world.specs.Space.{marks_of};
ghost use Rattle.av_plain.specs.World.{World, is_locked_page, end_process, lives, pages};
ghost use Rattle.av_plain.specs.World.{process as process_of, set_process};
ghost use Rattle.av_audit_world.specs.Locks.{locks_page, marks_kept};
ghost use Rattle.av_audit_world.specs.Memories.{Ends, IsProcess, IsWorld, pages_after};
ghost use Rattle.av_audit_world.specs.Space.{IsSpace};
ghost use Rattle.av_plain.specs.World.{Process as AnyProcess};

use crate::edit::Edit;
use crate::locks::note;
use crate::space::Space;
use av_audit_ranges::Marks;
use std::alloc::{AllocError, Global};
use std::collections::{BTreeMap, BTreeSet};

/// What each process that lives has mapped, by its number. Each that has a locked page is noted, so
/// that no other is looked at for one.
#[derive(Drop)]
pub struct Memories {
    pub(crate) alloc: Global,
    pub(crate) spaces: BTreeMap<u16, Space>,
    pub(crate) locking: BTreeSet<u16>,
}

impl Memories {
    /// No process lives.
    pub fn new(alloc: Global) -> Memories
        ensures { IsWorld result [] }
    {
        Memories {
            alloc,
            spaces: BTreeMap::new(alloc),
            locking: BTreeSet::new(alloc),
        }
    }

    /// How many processes live.
    pub fn count(&self) -> usize
        ensures { (w : World) → IsWorld self.now w → result ≡ length w }
    {
        self.spaces.len()
    }

    /// What a process has mapped, if it lives.
    pub fn get(&self, number: u16) -> Option<&Space>
        ensures is { option_map (λ s. s.now) result ≡ get nat_cmp self.now.spaces number }
        ensures process { (w : World) → IsWorld self.now w
            → IsProcess (option_map (λ s. s.now) result) (process_of w number) }
    {
        self.spaces.get(&number)
    }

    /// Whether a process lives.
    pub fn lives(&self, number: u16) -> bool
        ensures { (w : World) → IsWorld self.now w → result ≡ lives w number }
    {
        self.spaces.contains_key(&number)
    }

    /// What is said of a page of a process, if it is mapped.
    fn marks(&self, number: u16, page: u64) -> Option<Marks>
        ensures kept { result ≡ marks_kept self.now (number, page) }
        ensures pages { (w : World) → IsWorld self.now w
            → option_map marks_of result ≡ marks_at (pages w number) page }
    {
        match self.spaces.get(&number) {
            None => None,
            Some(space) => space.marks(page),
        }
    }

    /// Whether a process may read a page, or write it.
    pub fn allows(&self, write: bool, number: u16, page: u64) -> bool
        ensures { (w : World) → IsWorld self.now w
            → result ≡ is_allowed w write (number, page) }
    {
        match self.marks(number, page) {
            None => false,
            Some(marks) => {
                if write {
                    marks.prot.writable()
                } else {
                    marks.prot.readable()
                }
            }
        }
    }

    /// Whether a page of a process is locked. Nothing is looked up of one that isn't noted.
    pub fn locks(&self, number: u16, page: u64) -> bool
        ensures kept { result ≡ locks_page self.now (number, page) }
        ensures pages { (w : World) → IsWorld self.now w
            → result ≡ is_locked_page (pages w number page) }
    {
        if !self.locking.contains(&number) {
            return false;
        }
        match self.marks(number, page) {
            None => false,
            Some(marks) => marks.flags.locked,
        }
    }

    /// The process has these pages now, and lives. Without memory a part may be done.
    pub fn set(&mut self, number: u16, space: Space) -> Result<(), AllocError>
        ensures { OnOk result ((w : World) (q : AnyProcess) → IsWorld self.old w
            → IsSpace space q → IsWorld self.new (set_process w number q)) }
    {
        let locks = space.ranges.has_lock();
        self.spaces.insert(number, space)?;
        note(&mut self.locking, number, locks)
    }

    /// The process is gone.
    pub fn remove(&mut self, number: u16)
        ensures { (w : World) → IsWorld self.old w → IsWorld self.new (end_process w number) }
    {
        self.spaces.remove(&number);
        self.locking.remove(&number);
    }

    /// Pages of a process change. Without memory a part may be done.
    pub fn edit(&mut self, number: u16, edit: Edit) -> Result<(), AllocError>
        requires { Ends edit }
        ensures { OnOk result ((w : World) → IsWorld self.old w → lives w number ≡ true
            → IsWorld self.new (set_process w number (pages_after edit (pages w number)))) }
    {
        match self.spaces.get_mut(&number) {
            None => Ok(()),
            Some(space) => {
                space.edit(edit)?;
                let locks = space.ranges.has_lock();
                note(&mut self.locking, number, locks)
            }
        }
    }
}
