//! Rows, operations and requests, and what they mean on a tree.
#![tactic(auto)]

mod codec;
mod decode;
mod encode;
mod faults;
mod fields;
mod laws;
mod requests;
mod rows;
mod shown;
mod values;

pub use faults::OpFault;
pub use laws::{
    fold_law, join_law, kept_law, kinds_law, others_law, plan_law, planned_law, proper_law,
    spelling_law, start_law,
};
pub use requests::{PlanFault, Planned, Request, Show, Shown, Word};
pub use rows::{Change, Op, Row, WalkFault};
pub use shown::{Names, Placed, PlacedRows, Rows};
pub use values::{Bytes, Kind};

#[cfg(test)]
mod tests;
