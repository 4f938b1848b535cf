//! Revisions as bytes, and what a folder checks of the next one.
#![tactic(auto)]

mod bundles;
mod checks;
mod decode;
mod encode;
mod faults;
mod fields;
mod hashing;
mod laws;
mod opening;
mod private_codec;
mod private_encode;
mod privates;
mod revisions;
mod states;

pub use bundles::{BundlePart, Entries};
pub use checks::{check_next, has_other_writer, is_signed, is_writer, stays};
pub use faults::RevisionFault;
pub use hashing::hash_of;
pub use laws::{proper_law, spelling_law};
pub use opening::open_private;
pub use privates::{Ops, Private};
pub use revisions::{Revision, RevisionKind};
pub use states::{Blocks, ChainState, FolderRequest, PutRefusal, SentHalves};
