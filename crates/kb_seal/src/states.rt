//! HMAC over SHA-256, with the states that a key makes.
ghost use Rattle.std.specs.Prelude.{◌≡◌, ◌≤◌, ◌++◌, ◌∷◌, ℕ, List, length, map, bit_xor};
ghost use Rattle.kb_seal.specs.Hmac.{filled, key_block, hmac, AreStatesOf};

use crate::sealer::Key;
use sha2::{Digest, Sha256};

// The two hashers that have taken a key's blocks in.
#[derive(Drop)]
pub(crate) struct KeyStates {
    pub(crate) inner: Sha256,
    pub(crate) outer: Sha256,
}

// At most 64 bytes, filled with zeros to a block.
fn filled(key: &[u8]) -> [u8; 64]
    requires { length key.now ≤ 64 }
    ensures { result ≡ filled key.now }
{
    let mut block = [0u8; 64];
    for i in 0..key.len() {
        block[i] = key[i];
    }
    block
}

fn key_block(key: &[u8]) -> [u8; 64]
    ensures { result ≡ key_block key.now }
{
    if key.len() <= 64 {
        filled(key)
    } else {
        filled(&Sha256::digest(key))
    }
}

fn keyed(mask: u8, block: &[u8; 64]) -> [u8; 64]
    ensures { result ≡ map (λ b. bit_xor b mask) block.now }
{
    let mut out = *block;
    for i in 0..64 {
        out[i] ^= mask;
    }
    out
}

pub(crate) fn states_of(key: &[u8]) -> KeyStates
    ensures { AreStatesOf key.now result }
{
    let block = key_block(key);
    let mut inner = Sha256::new();
    inner.update(keyed(0x36, &block).as_slice());
    let mut outer = Sha256::new();
    outer.update(keyed(0x5c, &block).as_slice());
    KeyStates { inner, outer }
}

fn copied(hasher: &Sha256) -> Sha256
    ensures { result ≡ hasher.now }
{
    match hasher.clone() {
        Ok(copy) => copy,
        Err(_) => unreachable!(),
    }
}

// The code of a message of a leading byte and two pieces.
pub(crate) fn code_of(states: &KeyStates, first: u8, second: &[u8], third: &[u8]) -> Key
    ensures { (key : List ℕ) → AreStatesOf key states.now → result ≡ hmac key (first ∷ (second.now ++ third.now)) }
{
    let mut inner = copied(&states.inner);
    inner.update([first].as_slice());
    inner.update(second);
    inner.update(third);
    let digest = inner.finalize();
    let mut outer = copied(&states.outer);
    outer.update(digest.as_slice());
    outer.finalize()
}

/// HMAC with SHA-256 (RFC 2104) of a message, under a key of any length.
pub fn hmac(key: &[u8], message: &[u8]) -> Key
    ensures { result ≡ hmac key.now message.now }
{
    let KeyStates {
        mut inner,
        mut outer,
    } = states_of(key);
    inner.update(message);
    outer.update(inner.finalize().as_slice());
    outer.finalize()
}
