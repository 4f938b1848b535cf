//! Sealing of texts under a key, and signing.
#![tactic(auto)]

mod hmac_sealer;
mod sealer;
mod states;
#[cfg(test)]
mod tests;

pub use hmac_sealer::HmacSealer;
pub use sealer::{Key, OpenFault, Sealer};
pub use states::hmac;
