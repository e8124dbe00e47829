//! Which slot of a swap area is given next: slots are given cluster by cluster (Linux's
//! `swap_cluster_info` and its list of free clusters).
//!
//! Proved: which slot `take` gives, exactly; that each call changes one page and counts it; that
//! only `new` can want memory.
#![tactic(auto)]

mod clusters;

pub use clusters::{Clusters, Page};
