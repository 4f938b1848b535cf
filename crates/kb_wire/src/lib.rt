//! Big-endian fields: what is read is what was written.
#![tactic(auto)]

mod reader;
#[cfg(test)]
mod tests;
mod writer;

pub use reader::{Reader, WireFault};
pub use writer::Writer;
