//! Disks in memory, whose failures and power cuts are called for.
#![tactic(auto)]

mod cells;
mod disk;
mod pages;
#[cfg(test)]
mod tests;

pub use disk::{MemDisk, Rack};
