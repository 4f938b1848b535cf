//! Ranges of files, read and written by the blocks that they touch.
#![tactic(auto)]

mod counted;
mod laws;
mod parts;
mod patching;
mod reading;
mod writing;

pub use laws::{byte_law, cut_law, put_law, write_law};
pub use patching::patch;
pub use reading::read_range;
