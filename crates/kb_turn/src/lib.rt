//! A value that one caller at a time takes, with a list of entries that only grows. Each caller has a pass, which knows a beginning of the list.
#![tactic(auto)]

mod closing;
mod held;
mod making;
mod pass;
mod sharing;
mod steps;
mod taking;
#[cfg(test)]
mod tests;
mod told;
mod turn;
mod view;

pub use held::Held;
pub use pass::Pass;
pub use told::Told;
pub use turn::Turn;
pub use view::{Law, View};
