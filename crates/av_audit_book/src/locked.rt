//! The frames of locked pages.

ghost use Rattle.std.specs.Prelude.{◌≡◌, ◌==◌, ◌&&◌, ◌||◌, ℕ, IfOk, OnOk};
ghost use Rattle.std.specs.BTreeSet.{contains};
ghost use Rattle.std.specs.List.{list_any};
ghost use Rattle.std.specs.Ordering.{nat_cmp};
ghost use Rattle.av_base.specs.Words.{is_in};
ghost use Rattle.av_audit_world.specs.Locks.{locks_page};
ghost use Rattle.av_audit_book.specs.Book.{ledger_of};
ghost use Rattle.av_audit_book.specs.Locked.{frames_of, has_frame};
ghost use Rattle.av_audit_book.specs.Spared.{is_locked_by};

use crate::book::Book;
use av_audit_pages::Entry;
use av_audit_world::Memories;
use std::alloc::AllocError;
use std::collections::BTreeSet;
use std::collections::btree_map::Range;

/// Adds the frames of some entries.
fn add_frames(
    made: &mut BTreeSet<u32>,
    entries: Range<'_, (u16, u64), Entry>,
) -> Result<(), AllocError>
    ensures { OnOk result ((f : ℕ) → contains nat_cmp made.new f
        ≡ (contains nat_cmp made.old f || is_in f (frames_of entries.entry))) }
{
    for (_, entry) in entries {
        if let Entry::InFrame { frame, .. } = *entry {
            made.insert(frame)?;
        }
    }
    Ok(())
}

impl Book {
    /// Adds the frames of a process's locked pages: each run of them, with the entries in it.
    fn add_locked(
        &self,
        made: &mut BTreeSet<u32>,
        memories: &Memories,
        process: u16,
    ) -> Result<(), AllocError>
        ensures { OnOk result ((f : ℕ) → contains nat_cmp made.new f ≡ (contains nat_cmp made.old f
            || has_frame (λ k. k.0 == process && locks_page memories.now k) f
            self.now.pages.entries)) }
    {
        let mut at = 0;
        while let Some((start, end)) = memories.next_locked(process, at) {
            add_frames(made, self.entries().range((process, start)..(process, end)))?;
            at = end;
        }
        Ok(())
    }

    /// The frames of locked pages: those of the processes that have one are gone over.
    pub(crate) fn locked_frames(&self, memories: &Memories) -> Result<BTreeSet<u32>, AllocError>
        ensures { IfOk result (λ made. (f : ℕ) → contains nat_cmp made f
            ≡ is_locked_by memories.now (ledger_of self.now) f) }
    {
        let mut made = BTreeSet::new(self.alloc);
        for process in memories.locking().iter() {
            self.add_locked(&mut made, memories, *process)?;
        }
        Ok(made)
    }
}
