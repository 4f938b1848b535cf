//! What hashes a block.
ghost use Rattle.std.specs.Prelude.{◌≡◌, ℕ, List, length};
ghost use Rattle.sha2.specs.Sha256.{sha256};
ghost use Rattle.sha2.proofs.Facts256.{length-sha256};

use sha2::{Digest, Sha256};

/// The hash of a block, which is its id.
pub type Hash = [u8; 32];

/// A hash of blocks. Nothing says that it has no collision.
pub trait BlockHash: Drop {
    /// The hash of some bytes.
    ghost hashed: { List ℕ → List ℕ };

    fn hash(bytes: &[u8]) -> Hash
        ensures { result ≡ hashed bytes.now };

    ghost sized: { (bytes : List ℕ) → length (hashed bytes) ≡ 32 };
}

/// SHA-256.
#[derive(Drop)]
pub struct Sha256Hash;

impl BlockHash for Sha256Hash {
    ghost hashed = { sha256 };

    fn hash(bytes: &[u8]) -> Hash {
        Sha256::digest(bytes)
    }

    ghost sized = { length-sha256 };
}
