//! Events that no note tells, as a book follows them.
//!
//! Proved: what each leaves of the ledger, in the definitions' own words. Entries go, with the
//! notes of the slots that they leave as orphans (`zap_process`, `zap_range`); they go over to a
//! child (`fork`) or to other pages (`move_entries`); a page is read or written (`touch`); swap
//! areas go on and off (`turn_on`, `turn_off`). After want of memory a book may have followed a
//! part.
//!
//! To find the entries of a process, or of some of its pages, takes a step for each of these.
//!
//! Only tested: nothing.
#![tactic(auto)]

mod areas;
mod child;
mod keys;
mod puts;
mod remap;
mod usage;
mod zaps;

pub use areas::{turn_off, turn_on};
pub use child::fork;
pub use keys::keys_of;
pub use remap::move_entries;
pub use usage::touch;
pub use zaps::{zap_process, zap_range};
