//! Opening the block that a pointer names.
ghost use Rattle.std.specs.FinMap as map;
ghost use Rattle.kb_keys.specs.Rings.{key_at};
ghost use Rattle.kb_files.specs.Opens.{Opens, Reads, RefusalNames};

use kb_blocks::{BlockHash, Hash, Ptr, Store};
use kb_keys::KeyRing;
use kb_seal::{OpenFault, Sealer};
use std::alloc::Global;

/// Why something wasn't loaded.
#[derive(Clone, Copy, Debug, PartialEq, Eq)]
pub enum LoadFault {
    /// No block has the id.
    Missing { id: Hash },
    /// The block has no known key, doesn't open, or isn't of its place's form.
    BadBlock { id: Hash },
    Memory,
}

/// The clear text of the block that the pointer names.
pub fn open_block<S: Sealer, H: BlockHash>(
    alloc: Global,
    ptr: Ptr,
    keys: &KeyRing,
    store: &Store<H>,
) -> Result<Vec<u8>, LoadFault>
    ensures reads { Reads (map.get store.now) (λ text. text.items) (Opens S.sealed H.hashed (map.get store.now) (key_at keys.now) ptr) result }
    ensures names { RefusalNames ptr.id result }
{
    let bytes = match store.find(&ptr.id) {
        Some(bytes) => bytes,
        None => return Err(LoadFault::Missing { id: ptr.id }),
    };
    let key = match keys.key(ptr.generation) {
        Some(key) => key,
        None => return Err(LoadFault::BadBlock { id: ptr.id }),
    };
    match S::open(alloc, key, bytes) {
        Ok(text) => Ok(text),
        Err(OpenFault::NotSealed) => Err(LoadFault::BadBlock { id: ptr.id }),
        Err(OpenFault::Memory) => Err(LoadFault::Memory),
    }
}
