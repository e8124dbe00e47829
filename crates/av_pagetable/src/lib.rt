//! Page tables: what each page of each process has (Linux's `mm->pgd` and what hangs on it).
//!
//! A page table is a trait, `Table`, seen as a function from page to entry. It has two bodies under
//! one contract: `MapTable`, an ordered map, and `RadixTable`, four levels of 512, which is the
//! `PageTable` that all above uses. `Tables` keeps one table for each process. Proved: what each
//! call answers and changes, that nothing else changes, that want of memory changes nothing (but in
//! `set_run`), and how many tables a `RadixTable` holds.
//!
//! A table of a `RadixTable` keeps the parts that have an entry: the first in itself, in an array
//! once there is a second (`Parts`). Many a process has few pages, and a fork copies each of its
//! tables: a process that never had two parts in one takes no memory for any of the four. An array
//! of which all parts went stays until the next entry or `clear`. Not proved: where parts lie, in
//! the table itself or in an array; no clause tells.
//!
//! `read_run` reads the entries of pages in a row in one call. Where the first page has an entry,
//! it reads on over holes, up to the last entry among 64 pages, and no further than the end of the
//! last table that the page is in; where it has none, it reads that page alone. Proved: it reads 1
//! to 64, each that of its page, and where the first has an entry, none is left behind them among
//! the 64, up to the end of the table. Not proved: that it reads no more than that.
//!
//! `set_run` gives pages in a row the entries of a run, and goes down once for each last table.
//! Without memory the first pages may have theirs; proved: these and no others.
//!
//! `Tables` also keeps a mark for each frame of which no entry is seen, so that nobody has to walk
//! to find that out (`may_be_seen`). Proved: where there is a mark, none is. Not proved: that a
//! mark is ever set; without memory it is not.
#![tactic(auto)]

mod dir;
mod level;
mod marks;
mod middle;
mod parts;
mod places;
mod pte;
mod radix;
mod table;
mod tables;

pub use pte::Pte;
pub use radix::RadixTable;
pub use table::{MapTable, RUN, Table};
pub use tables::Tables;

/// The page table that each process has. What uses page tables names this one alone.
pub type PageTable = RadixTable;
