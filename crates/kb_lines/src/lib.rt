//! The lines that are printed.
#![tactic(auto)]

mod entries;
mod lines;
mod pieces;
mod reasons;
mod rendering;
mod rows;

pub use lines::{Answer, Asked, Did, Line};
pub use reasons::Reason;
pub use rendering::render;
