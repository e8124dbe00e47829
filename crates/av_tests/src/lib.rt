//! Tests of the crates that the memory stands on: each shows how a crate's calls are used.
//!
//! They stand in a crate of their own since a crate with tests is proved once more with them: here
//! that costs the proofs of the tests alone.
#![tactic(auto)]

#[cfg(test)]
mod arena;
#[cfg(test)]
mod chain;
#[cfg(test)]
mod clusters;
#[cfg(test)]
mod frames;
#[cfg(test)]
mod interval;
#[cfg(test)]
mod io;
#[cfg(test)]
mod lru;
#[cfg(test)]
mod pagetable;
#[cfg(test)]
mod paths;
#[cfg(test)]
mod rmap;
#[cfg(test)]
mod swapcache;
#[cfg(test)]
mod swapdev;
#[cfg(test)]
mod swapmap;
#[cfg(test)]
mod trace;
#[cfg(test)]
mod vma;
#[cfg(test)]
mod vmatree;
