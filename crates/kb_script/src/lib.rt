//! A script's lines as statements.
#![tactic(auto)]

mod choices;
mod cuts;
mod faults;
mod noting;
mod reads;
mod scripts;
mod shows;
mod standing;
mod state;
mod statements;
mod values;
mod verbs;

pub use faults::{ScriptFault, Why};
pub use scripts::parse;
pub use statements::Statement;
