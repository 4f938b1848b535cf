//! Whole trees as sealed blocks.
#![tactic(auto)]

mod blocks;
mod building;
mod chain_laws;
mod laws;
mod listing;
mod loading;
mod order;
mod pointers;
mod rows;

pub use blocks::SealedBlocks;
pub use building::{Built, build};
pub use chain_laws::chains_are_lawful;
pub use laws::{
    left_law, more_blocks_law, more_keys_law, one_tree_law, row_by_row_law, set_law, stays_law,
};
pub use loading::load;
pub use pointers::Pointers;
