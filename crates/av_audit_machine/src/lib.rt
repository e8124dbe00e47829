//! The machine of an audit: its frames, and what page 0 of each swap area says.
//!
//! Proved: the setting of the machine is that of so many frames over the device, where that tells
//! its pages, and else one that it may have; nothing is written; and the device failed exactly
//! where the error says that it did (`read_machine`). Where page 0 is there as bytes it is the
//! setting over a device that has these (`machine_of_heads`).
//!
//! Only tested: that memory suffices. That no page but page 0 is read isn't proved: a device tells
//! of no read.
#![tactic(auto)]

mod first_pages;
mod heads;

pub use first_pages::{Head, machine_of_heads};
pub use heads::{MachineErr, read_machine};
