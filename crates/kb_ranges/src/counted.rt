//! Opening a file's blocks by gets of a store, each of which is counted.
ghost use Rattle.std.specs.Prelude.{◌≡◌, ◌+◌};
ghost use Rattle.std.specs.FinMap as map;
ghost use Rattle.kb_keys.specs.Rings.{key_at};
ghost use Rattle.kb_files.specs.Opens.{Opens, Reads, RefusalNames};
ghost use Rattle.kb_files.specs.Files.{IsLeafOf, IsIndexOf};

use kb_blocks::{BlockHash, Ptr, Steps, Store};
use kb_files::{IndexFault, LeafFault, LoadFault, read_index, read_leaf};
use kb_keys::KeyRing;
use kb_seal::{OpenFault, Sealer};
use std::alloc::Global;
use std::sync::ledger::Ledger;

// The clear text of the block that the pointer names, by one get.
fn get_block<S: Sealer, H: BlockHash, L: Ledger>(
    alloc: Global,
    ptr: Ptr,
    keys: &KeyRing,
    store: &Store<H>,
    steps: &mut Steps<L>,
) -> Result<Vec<u8>, LoadFault>
    ensures reads { Reads (map.get store.now) (λ text. text.items) (Opens S.sealed H.hashed (map.get store.now) (key_at keys.now) ptr) result }
    ensures names { RefusalNames ptr.id result }
    ensures gets { steps.new ≡ steps.old + 1 }
{
    let bytes = match store.get(&ptr.id, steps) {
        Ok(bytes) => bytes,
        Err(_) => return Err(LoadFault::Missing { id: ptr.id }),
    };
    let key = match keys.key(ptr.generation) {
        Some(key) => key,
        None => return Err(LoadFault::BadBlock { id: ptr.id }),
    };
    match S::open(alloc, key, bytes) {
        Ok(text) => Ok(text),
        Err(OpenFault::NotSealed) => Err(LoadFault::BadBlock { id: ptr.id }),
        Err(OpenFault::Memory) => Err(LoadFault::Memory),
    }
}

/// The bytes of a leaf, so many, by one get.
pub(crate) fn get_leaf<S: Sealer, H: BlockHash, L: Ledger>(
    alloc: Global,
    ptr: Ptr,
    size: usize,
    keys: &KeyRing,
    store: &Store<H>,
    steps: &mut Steps<L>,
) -> Result<Vec<u8>, LoadFault>
    ensures reads { Reads (map.get store.now) (λ bytes. bytes.items) (IsLeafOf (Opens S.sealed H.hashed (map.get store.now) (key_at keys.now)) size ptr) result }
    ensures names { RefusalNames ptr.id result }
    ensures gets { steps.new ≡ steps.old + 1 }
{
    let id = ptr.id;
    let text = match get_block::<S, H, L>(alloc, ptr, keys, store, steps) {
        Ok(text) => text,
        Err(fault) => return Err(fault),
    };
    match read_leaf(alloc, size, &text) {
        Ok(bytes) => Ok(bytes),
        Err(LeafFault::BadLeaf) => Err(LoadFault::BadBlock { id }),
        Err(LeafFault::Memory) => Err(LoadFault::Memory),
    }
}

/// The pointers of a block of the level, by one get.
pub(crate) fn get_index<S: Sealer, H: BlockHash, L: Ledger>(
    alloc: Global,
    level: u8,
    ptr: Ptr,
    keys: &KeyRing,
    store: &Store<H>,
    steps: &mut Steps<L>,
) -> Result<Vec<Ptr>, LoadFault>
    ensures reads { Reads (map.get store.now) (λ ptrs. ptrs.items) (IsIndexOf (Opens S.sealed H.hashed (map.get store.now) (key_at keys.now)) level ptr) result }
    ensures names { RefusalNames ptr.id result }
    ensures gets { steps.new ≡ steps.old + 1 }
{
    let id = ptr.id;
    let text = match get_block::<S, H, L>(alloc, ptr, keys, store, steps) {
        Ok(text) => text,
        Err(fault) => return Err(fault),
    };
    match read_index(alloc, level, &text) {
        Ok(ptrs) => Ok(ptrs),
        Err(IndexFault::BadIndex) => Err(LoadFault::BadBlock { id }),
        Err(IndexFault::Memory) => Err(LoadFault::Memory),
    }
}
