//! What is said of each page of a process, by ranges: its protection and its flags, if it is
//! mapped.
//!
//! Proved: a change, or what is put, is said of each of its pages and of no other, and without
//! memory all stays. What is said of a page, how far the same is said of the pages from one on,
//! whether a page is locked, and the greatest place where pages fit are exact.
//!
//! Kept is a tree of bounds, each with what is said of the pages from it on, up to the next. No
//! bound stands where nothing changes, so there are at most two for each range. So `marks` and
//! `bound_above` go once down the tree, and a change or a put some times for each end and for each
//! bound between them.
//!
//! Beside it stands an index of the holes, the free runs between what is mapped, by length and then
//! by place. A gap goes once down it for each different length that would fit, and once more; a
//! change or a put takes out the holes that it touches and puts in those that are there then. The
//! index is proved to have just the holes. Where there is no memory for it, it is given up, and
//! from then on a gap goes once down the tree of bounds for each run of pages that it passes from
//! the top: it is as exact, and no call is refused for want of an index.
//!
//! That the trees are gone down so often, and that the index is given up only then, is read off the
//! code, and no clause says it.
//!
//! Only tested: nothing.
#![tactic(auto)]

mod bounds;
mod gap;
mod holes;
mod index;
mod marks;
mod ranges;

pub use marks::{Change, Marks, Range};
pub use ranges::Ranges;
