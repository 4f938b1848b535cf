//! The audit of a folder's revisions.
#![tactic(auto)]

mod auditing;
mod changing;
mod faults;
mod fitting;
mod folding;
mod halving;
mod holding;
mod judging;
mod knowing;
mod laws;
mod merging;
mod opening;
mod reading;
mod stepping;
mod taking;

pub use auditing::audit;
pub use faults::{AuditFault, AuditWhy};
pub use laws::{facts_law, loading_law, whole_law};
