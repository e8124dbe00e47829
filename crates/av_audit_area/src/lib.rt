//! The judge of `areas`. It knows the definitions alone, and no kernel.
//!
//! A legal reply may cut what a process has mapped into areas in any way, and say what it likes of
//! their offsets and anon_vmas. So a unit is read, and what is read is judged.
//!
//! Proved: where nothing refuses `areas`, the answer is yes exactly where the bytes are the text of
//! a legal reply. Nothing is promised of what is read where they are the text of no reply: the
//! reply that is read is printed again, and has to be the unit.
//!
//! Only tested: nothing.
#![tactic(auto)]

mod alike;
mod areas;
mod read;
mod shown;
mod words;

pub use areas::judges_areas;
