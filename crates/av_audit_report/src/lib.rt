//! Judges of reports. They know the definitions alone, and no kernel.
//!
//! Proved: for `entry`, `slot`, `stat`, `rmap` and `maps`, where nothing refuses them, the answer
//! is yes exactly where the bytes are the text of a legal reply. Such a reply is known before it is
//! read: it is made and compared. Where one of its numbers is of more than 64 bits, there is none.
//!
//! Only tested: nothing.
#![tactic(auto)]

mod entry;
mod made;
mod maps;
mod rmap;
mod runs;
mod slot;
mod stat;

pub use entry::judges_entry;
pub use maps::judges_maps;
pub use rmap::judges_rmap;
pub use slot::{judges_slot, refuses_slot};
pub use stat::judges_stat;
