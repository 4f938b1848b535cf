//! Names, paths, and how they are spelled.
#![tactic(auto)]

mod copies;
mod cuts;
mod escapes;
mod ids;
mod moments;
mod names;
mod paths;

pub use copies::conflicted;
pub use cuts::parts;
pub use escapes::{escape, unescape};
pub use ids::NodeId;
pub use moments::Moment;
pub use names::{DeviceName, Name, NameFault};
pub use paths::{Path, PathFault};

#[cfg(test)]
mod tests;
