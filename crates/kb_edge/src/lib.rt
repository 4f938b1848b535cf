//! The outside of the program: where bytes come from, where they go, disks, links, and how often each has failed.
#![tactic(auto)]

mod disk;
mod ends;
mod faults;
mod link;
mod standard;
mod streams;
#[cfg(test)]
mod tests;

pub use disk::{CrashDisk, Disk, DiskMaker, Pick};
pub use ends::{MemSink, MemSource};
pub use faults::{Failed, Lost, Memory, Stopped};
pub use link::{Link, MemLink, Side};
pub use standard::{StdSink, StdSource};
pub use streams::{Sink, Source};
