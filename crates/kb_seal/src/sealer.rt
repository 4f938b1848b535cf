//! What sealing is.
ghost use Rattle.std.specs.Prelude.{◌≡◌, ◌≢◌, ◌+◌, ◌↔◌, ℕ, List, IfOk, IsTrue, Err, length};

use kb_edge::Memory;
use std::alloc::Global;

/// A secret of 32 bytes, or the mark of a text that is signed.
pub type Key = [u8; 32];

/// Why a sealed text wasn't opened.
#[derive(Clone, Copy, Debug, PartialEq, Eq)]
pub enum OpenFault {
    /// No text seals to these bytes under the key.
    NotSealed,
    Memory,
}

/// A way to seal and to sign, under keys of 32 bytes.
pub trait Sealer {
    /// The sealed text of a plain one, under a key.
    ghost sealed: { List ℕ → List ℕ → List ℕ };
    /// The mark of a text, under a key.
    ghost signed: { List ℕ → List ℕ → List ℕ };

    fn seal(alloc: Global, key: &Key, plain: &[u8]) -> Result<Vec<u8>, Memory>
        ensures { IfOk result (λ text. text.items ≡ sealed key.now plain.now) };

    fn open(alloc: Global, key: &Key, text: &[u8]) -> Result<Vec<u8>, OpenFault>
        ensures opened { IfOk result (λ plain. text.now ≡ sealed key.now plain.items) }
        ensures refused { result ≡ Err OpenFault.NotSealed → (plain : List ℕ) → text.now ≢ sealed key.now plain };

    fn sign(key: &Key, bytes: &[u8]) -> Key
        ensures { result ≡ signed key.now bytes.now };

    fn verify(key: &Key, bytes: &[u8], mark: &Key) -> bool
        ensures { IsTrue result ↔ (mark.now ≡ signed key.now bytes.now) };

    // A sealed text opens to one plain text.
    ghost one_plain: { (k p q : List ℕ) → sealed k p ≡ sealed k q → p ≡ q };
    // It is 32 bytes longer.
    ghost longer: { (k p : List ℕ) → length (sealed k p) ≡ length p + 32 };
}
