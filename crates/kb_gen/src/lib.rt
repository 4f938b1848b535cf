//! A large script from a number, as statements.
#![tactic(auto)]

mod statements;

pub use statements::generate;
