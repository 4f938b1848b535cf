//! A log on a disk: a list of payloads that a power cut leaves as it was before a call or after it.
#![tactic(auto)]

mod area;
mod faults;
mod log;
mod steps;
#[cfg(test)]
mod tests;
mod text;

pub use faults::{AppendFault, LogFault};
pub use log::Log;
