//! Files as trees of blocks.
#![tactic(auto)]

mod index;
mod laws;
mod leaves;
mod levels;
mod loading;
mod reading;
mod splitting;
#[cfg(test)]
mod tests;

pub use index::{IndexFault, index_text, read_index};
pub use laws::one_file_law;
pub use leaves::{LeafFault, leaf_text, read_leaf};
pub use levels::{level_of, span};
pub use loading::{LoadFault, open_block};
pub use reading::{join, open_index, open_leaf};
pub use splitting::{FileFault, add_block, split};
