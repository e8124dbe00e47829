//! Tests of the crates from the memory to whole runs: each shows how a crate's calls are used.
//!
//! They stand in a crate of their own since a crate with tests is proved once more with them: here
//! that costs the proofs of the tests alone.
#![tactic(auto)]

#[cfg(test)]
mod areas;
#[cfg(test)]
mod audit;
#[cfg(test)]
mod device;
#[cfg(test)]
mod fault;
#[cfg(test)]
mod kernel;
#[cfg(test)]
mod lines;
#[cfg(test)]
mod ports;
#[cfg(test)]
mod replay;
#[cfg(test)]
mod row;
#[cfg(test)]
mod rows;
#[cfg(test)]
mod runs;
#[cfg(test)]
mod storm;
#[cfg(test)]
mod swap;
