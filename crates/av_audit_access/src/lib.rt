//! Judges of what a transcript tells of pages that are read or written. They know the definitions
//! alone, and no kernel.
//!
//! Proved, both ways, as in `av_audit_judge`: some bytes are the notes of an access of these pages,
//! and where it ends; or they are those of none (`accesses`). Of one page, that it is served, or
//! isn't and the unit ends. Its parts: a page whose entry is a slot comes in, or is kept out; a
//! page that is here gets what it needs, or no frame can be had for it; its slot is dropped where
//! that is needed no more. What a pass spares is what the definitions say (`sparing`). It is asked
//! of the memories as the pass goes (`av_audit_judge`). Which bytes a page holds is not asked here,
//! nor what the answer says.
//!
//! Only tested: nothing.
#![tactic(auto)]

mod accessing;
mod coming;
mod dropping;
mod making;
mod taking;
mod touching;

pub use accessing::{End, accesses};
pub use coming::Stop;
