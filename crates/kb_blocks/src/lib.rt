//! Blocks under their hashes.
#![tactic(auto)]

mod hashing;
mod pointer;
mod steps;
mod store;
#[cfg(test)]
mod tests;

pub use hashing::{BlockHash, Hash, Sha256Hash};
pub use pointer::Ptr;
pub use steps::Steps;
pub use store::{Missing, PutFault, Store};
