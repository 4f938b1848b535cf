//! A device of a shared folder: a journal on its disk, the trees of its known revision and of its queue, its keys, and
//! the calls that it answers.
#![tactic(auto)]

mod answers;
mod behind;
mod block_parts;
mod caching;
mod called;
mod calling;
mod device;
mod fetched;
mod fetching;
mod head;
mod heading;
mod laws;
mod left_pointers;
mod lent;
mod linked;
mod merge_requests;
mod merged_pointers;
mod opened;
mod opening;
mod part_laws;
mod past;
mod patching;
mod power;
mod reading;
mod resting;
mod seqs;
mod session;
mod settled;
mod settling;
mod step_requests;

pub use answers::{NoteFault, Noted, OpenFault, PickFault, Picked, PullFault, PutAnswer};
pub use block_parts::Parts;
pub use called::{CallFault, Called, Closed, LookFault, Status};
pub use device::Device;
pub use fetched::FetchFault;
pub use laws::{landing_law, longer_law, plain_ops_law};
pub use left_pointers::{forget_touched, left_law};
pub use lent::Branch;
pub use linked::{CarryFault, has_lost, put_over};
pub use merge_requests::merge_law;
pub use part_laws::{
    journals_are_plain, others_keep, part_law, picks_law, return_law, settles_law,
};
pub use patching::{OldFile, build_step, few_law};
pub use settled::SettleFault;
pub use step_requests::{remember_law, step_law};
