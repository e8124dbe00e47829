//! A list whose members are found at once: to put one in at either end and to look for one costs a
//! few look-ups, however long the list is. To take out all that are the same as one, or to give
//! another their place, costs a few for each of these. A member may stand in it more than once.
//!
//! Each member has a rank, which rises from the front to the back. A tree has the members by rank,
//! another the ranks by member. `Places`, the second, serves others too who find by a name what
//! has a rank.
//!
//! Proved: what each call makes of the list, exactly; that the members are listed in their order;
//! that all stays where memory or ranks are wanting, but where `replace` has begun; of the ranks of
//! a name, which is the least, and which the next. Not proved, but read off the code: that a call
//! costs no more than said, since no clause counts look-ups, and that ranks run out at an end only
//! after 2^63 have come there.
//!
//! Only tested: nothing.
#![tactic(auto)]

mod line;
mod member;
mod places;
mod queue;

pub use member::Member;
pub use places::Places;
pub use queue::Queue;
