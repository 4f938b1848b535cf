//! Directories as sealed blocks.
#![tactic(auto)]

mod building;
mod decode;
mod encode;
mod entries;
mod faults;
mod fields;
mod laws;
mod listing;
#[cfg(test)]
mod tests;

pub use building::build_dir;
pub use entries::Entry;
pub use laws::one_directory_law;
pub use listing::{find_in, list_dir};
