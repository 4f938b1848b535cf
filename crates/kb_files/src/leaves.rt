//! Leaves.
ghost use Rattle.std.specs.Prelude.{◌≡◌, ◌≢◌, List, ℕ, IfOk, IsErrOf, length};
ghost use Rattle.kb_files.specs.Files.{leaf_text};

use kb_edge::Memory;
use std::alloc::Global;

/// Why a text is no leaf of so many bytes.
#[derive(Clone, Copy, Debug, PartialEq, Eq)]
pub enum LeafFault {
    BadLeaf,
    Memory,
}

pub fn leaf_text(alloc: Global, bytes: &[u8]) -> Result<Vec<u8>, Memory>
    ensures { IfOk result (λ text. text.items ≡ leaf_text bytes.now) }
{
    let mut text = Vec::with_capacity(alloc, 1 + bytes.len())?;
    text.push(0x46)?;
    text.extend_from_slice(bytes)?;
    Ok(text)
}

pub fn read_leaf(alloc: Global, size: usize, text: &[u8]) -> Result<Vec<u8>, LeafFault>
    ensures ok { IfOk result (λ bytes. (length bytes.items ≡ size) × (text.now ≡ leaf_text bytes.items)) }
    ensures bad { IsErrOf result LeafFault.BadLeaf → (bytes : List ℕ) → length bytes ≡ size → text.now ≢ leaf_text bytes }
{
    match text {
        [0x46, bytes @ ..] => {
            if bytes.len() != size {
                return Err(LeafFault::BadLeaf);
            }
            match Vec::from_slice(alloc, bytes) {
                Ok(bytes) => Ok(bytes),
                Err(_) => Err(LeafFault::Memory),
            }
        }
        _ => Err(LeafFault::BadLeaf),
    }
}
