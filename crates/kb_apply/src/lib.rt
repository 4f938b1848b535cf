//! What requests and shows come to on a table, and doing an operation.
#![tactic(auto)]

mod doing;
mod fitting;
mod laws;
mod plans;
mod shows;

pub use doing::{Prepared, apply, prepare};
pub use fitting::fits;
pub use laws::{listed_law, placed_law};
pub use plans::plan;
pub use shows::{ShowFault, rows_of, show};
