//! The journal of a device: what it knows of the folder, and its queue of operations, on a disk.
#![tactic(auto)]

mod changes;
mod entries;
mod faults;
mod folds;
mod held;
mod journal;
mod laws;
mod lines;
mod pieces;
mod queue;
mod ranges;
mod reading;
mod ready;

pub use entries::{Hash, Note};
pub use faults::{AddFault, JournalFault};
pub use journal::Journal;
pub use laws::{compacted_law, journal_law, once_law, one_state_law, zeros_law};
