//! Secrets that a seed gives.
ghost use Rattle.std.specs.Prelude.{◌≡◌};
ghost use Rattle.kb_keys.specs.Secrets.{device_secret, folder_key, server_half};

use kb_seal::{Key, hmac};
use std::marker::Model;

/// The secrets of a folder, from a seed that stands for what devices would draw at random.
#[derive(Drop)]
pub struct Secrets {
    seed: Key,
}

impl Model for Secrets {
    ghost use Rattle.std.specs.Prelude.{ℕ, List};

    ghost Value = { List ℕ };

    ghost view = { λ s. s.seed };
}

impl Secrets {
    pub fn new(seed: Key) -> Secrets
        ensures { result ≡ seed }
    {
        Secrets { seed }
    }

    /// The secret of a device.
    pub fn device(&self, d: u16) -> Key
        ensures { result ≡ device_secret self.now d }
    {
        let number = d.to_be_bytes();
        hmac(&self.seed, &[0x10, number[0], number[1]])
    }

    /// The folder key of a generation.
    pub fn folder(&self, g: u32) -> Key
        ensures { result ≡ folder_key self.now g }
    {
        let number = g.to_be_bytes();
        hmac(
            &self.seed,
            &[0x11, number[0], number[1], number[2], number[3]],
        )
    }

    /// The half that the server keeps for a device and a generation.
    pub fn half(&self, d: u16, g: u32) -> Key
        ensures { result ≡ server_half self.now d g }
    {
        let device = d.to_be_bytes();
        let number = g.to_be_bytes();
        hmac(
            &self.seed,
            &[
                0x12, device[0], device[1], number[0], number[1], number[2], number[3],
            ],
        )
    }
}
