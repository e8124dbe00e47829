//! Balanced trees of entries whose nodes have numbers: the one balanced tree of the repository.
//!
//! An `Arena` keeps the nodes of any number of trees, each under a number that is used again once
//! it is free. A tree is told by a `Link`: the number of its root, its height and the summary of
//! its entries. `Avl` is one tree with an arena of its own; who keeps many trees over one arena
//! calls `place` and `remove`.
//!
//! Proved: `insert`, `remove`, `replace`, `split` and `join` make exactly the list that the keys
//! call for, all stays where memory is wanting, the sides of each node differ by one level at most,
//! each summary is that of the entries below, and no node is lost: what is in use is the tree's. An
//! entry keeps its number: `place` puts its own under the number that it is given, `remove` answers
//! that of the entry with the key, and under each other number stands what stood there, whatever is
//! rotated. A node whose sides are level stays as it is.
//!
//! A change goes down once, by the numbers of nodes, and comes up to where a link stays. Each step
//! says whether its root is stored otherwise than before, exactly but where the root itself gets an
//! entry. That nothing above is written then is not proved: no clause counts writes.
//!
//! Nor is it proved that a number that is free is used again, as `Arena::add_leaf` does, nor that
//! what `with_room` makes asks for no memory while its nodes fit there: no clause tells the room.
#![tactic(auto)]

mod arena;
mod avl;
mod below;
mod cell;
mod entry;
mod link;
mod tree;

pub use arena::Arena;
pub use avl::{Avl, Part};
pub use entry::Entry;
pub use link::{Link, Side, Stored};
pub use tree::{place, remove, replace};
