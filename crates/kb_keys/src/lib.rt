//! Keys of a folder: bundles that devices open, halves that a server keeps, and who may do what.
#![tactic(auto)]

mod bundle;
mod entries;
mod halves;
mod laws;
mod policy;
mod ring;
mod secrets;
#[cfg(test)]
mod tests;

pub use bundle::{Bundle, KeyFault, RotateFault};
pub use entries::Entry;
pub use halves::{Half, Halves};
pub use laws::{added_law, rotated_law};
pub use policy::{Action, Policy, Role};
pub use ring::KeyRing;
pub use secrets::Secrets;
