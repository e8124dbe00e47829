//! The memory system: its single steps, the walk over it, and how its entries come and go.
//!
//! `Mem` holds the frames with their two lists and the items of those that are merged, the page
//! tables, the areas, the anon_vmas and the swap areas that are on; the kernel has one. What it
//! stands for, over any device, is said by the definitions' `Stands` over its `view`; what it keeps
//! beside that by `Keeps`; and what stands between two events of a command by `KeepsBetween`.
//!
//! Proved: each step of swap (a frame is put, unmapped, unseen, moved within or between the lists,
//! a write begins or ends, a slot is dropped, a page is loaded and mapped) makes of the view
//! exactly what av_swap_laws has a law of.
//!
//! Entries are found from a frame's home, and those of a merged frame from its items: `walk` and
//! `unsee` serve each frame. `unmap` and `namers` go by the home alone, since a merged frame is
//! never cached. Whether a frame is locked takes no look at an entry: how many entries of locked
//! pages name each is counted, where an entry comes (`entries`, `Mem::map`), and by range where
//! pages are locked, unlocked or about to go (`lock_range`, `unlock_range`). Proved: the counts are
//! those of the entries, in all that the memory system stands for.
//!
//! `entries` has the calls through which entries of frames and slots come and go: they keep the
//! counts. Beside them only the steps of swap change how many entries name a frame or a slot, and
//! take or free a frame; that can be read, and is not proved. The tables themselves are written by
//! `zap`, av_fork, av_mremap and av_fault, too. A frame is taken for a page (`take_frame_of_zeros`,
//! `take_frame_for_copy`), the entries of a child are counted (`count_each_for_child`), and an
//! entry is let go (`let_go`), with the note of the drop where it leaves an orphan. Proved: that
//! the frame is the first free one, and what the view is then; of an entry that goes, what the
//! ledger is. `zap_range` and `zap_all` let the entries of a range of pages or of a process go:
//! they free the frames that nothing has any more, give such slots back, and drop those that they
//! leave as orphans, for every ledger that the parts stand for. Without memory, which only a note
//! takes there, they promise nothing of entries and counts; `unmap` changes nothing then. A frame
//! that was in use becomes free in one way (`free`): it is the first free one then, in no list, and
//! without items.
//!
//! `walk` gives the entries of a frame: proved for every state that the memory system stands for,
//! with the number of its steps. It is one call of av_rmap's `walk_frame` or `walk_merged`, which
//! look through the trait `Look` alone, no more often than they take steps. Not proved: that
//! nothing which holds a `Mem`, `walk` among it, asks the tables past that trait; and how often
//! `unmap`, `unsee`, `namers` and the counting of a range look, whose steps nobody counts.
//! `unsee` does not look where the tables have a mark that no entry of the frame is seen, and
//! leaves one: that there ever is one is not proved either.
#![tactic(auto)]

mod cache;
mod chains;
pub mod entries;
mod free;
mod locked;
mod mem;
mod order;
pub mod walk;
mod zap;

pub use locked::{lock_range, unlock_range};
pub use mem::Mem;
pub use zap::{zap_all, zap_range};
