//! Reading a file's blocks.
ghost use Rattle.std.specs.Prelude.{◌≤◌};
ghost use Rattle.std.specs.FinMap as map;
ghost use Rattle.kb_keys.specs.Rings.{key_at};
ghost use Rattle.kb_files.specs.Opens.{Opens, Reads, RefusalNames};
ghost use Rattle.kb_files.specs.Stops.{Stops, StopsFile};
ghost use Rattle.kb_files.specs.Files.{HoldsSized, IsLeafOf, IsIndexOf, IsFileOf};

use crate::index::{IndexFault, read_index};
use crate::leaves::{LeafFault, read_leaf};
use crate::levels::{level_of, span};
use crate::loading::{LoadFault, open_block};
use kb_blocks::{BlockHash, Ptr, Store};
use kb_keys::KeyRing;
use kb_seal::Sealer;
use std::alloc::Global;

/// The bytes of a leaf, so many.
pub fn open_leaf<S: Sealer, H: BlockHash>(
    alloc: Global,
    ptr: Ptr,
    size: usize,
    keys: &KeyRing,
    store: &Store<H>,
) -> Result<Vec<u8>, LoadFault>
    ensures reads { Reads (map.get store.now) (λ bytes. bytes.items) (IsLeafOf (Opens S.sealed H.hashed (map.get store.now) (key_at keys.now)) size ptr) result }
    ensures names { RefusalNames ptr.id result }
{
    let id = ptr.id;
    let text = match open_block::<S, H>(alloc, ptr, keys, store) {
        Ok(text) => text,
        Err(fault) => return Err(fault),
    };
    match read_leaf(alloc, size, &text) {
        Ok(bytes) => Ok(bytes),
        Err(LeafFault::BadLeaf) => Err(LoadFault::BadBlock { id }),
        Err(LeafFault::Memory) => Err(LoadFault::Memory),
    }
}

/// The pointers of a block of the level.
pub fn open_index<S: Sealer, H: BlockHash>(
    alloc: Global,
    level: u8,
    ptr: Ptr,
    keys: &KeyRing,
    store: &Store<H>,
) -> Result<Vec<Ptr>, LoadFault>
    ensures names { RefusalNames ptr.id result }
    ensures reads { Reads (map.get store.now) (λ ptrs. ptrs.items) (IsIndexOf (Opens S.sealed H.hashed (map.get store.now) (key_at keys.now)) level ptr) result }
{
    let id = ptr.id;
    let text = match open_block::<S, H>(alloc, ptr, keys, store) {
        Ok(text) => text,
        Err(fault) => return Err(fault),
    };
    match read_index(alloc, level, &text) {
        Ok(ptrs) => Ok(ptrs),
        Err(IndexFault::BadIndex) => Err(LoadFault::BadBlock { id }),
        Err(IndexFault::Memory) => Err(LoadFault::Memory),
    }
}

/// The bytes, so many, that the pointer holds by blocks of the level.
fn read_at<S: Sealer, H: BlockHash>(
    alloc: Global,
    level: u8,
    ptr: Ptr,
    size: usize,
    keys: &KeyRing,
    store: &Store<H>,
) -> Result<Vec<u8>, LoadFault>
    requires { level ≤ 2 }
    ensures reads { Reads (map.get store.now) (λ bytes. bytes.items) (HoldsSized (Opens S.sealed H.hashed (map.get store.now) (key_at keys.now)) level size ptr) result }
    ensures first { Stops (Opens S.sealed H.hashed (map.get store.now) (key_at keys.now)) (map.get store.now) level size ptr result }
{
    let id = ptr.id;
    if level == 0 {
        return open_leaf::<S, H>(alloc, ptr, size, keys, store);
    }
    let ptrs = match open_index::<S, H>(alloc, level, ptr, keys, store) {
        Ok(ptrs) => ptrs,
        Err(fault) => return Err(fault),
    };
    let below = level - 1;
    let each = span(below);
    let mut out = Vec::new(alloc);
    'parts: for part in &ptrs {
        let left = size - out.len();
        if left == 0 {
            return Err(LoadFault::BadBlock { id });
        }
        let bytes = match read_at::<S, H>(alloc, below, *part, each.min(left), keys, store) {
            Ok(bytes) => bytes,
            Err(fault) => return Err(fault),
        };
        match out.extend_from_slice(&bytes) {
            Ok(()) => {}
            Err(_) => return Err(LoadFault::Memory),
        }
    }
    if out.len() != size {
        return Err(LoadFault::BadBlock { id });
    }
    Ok(out)
}

/// The bytes, so many, of the file that the pointer holds.
pub fn join<S: Sealer, H: BlockHash>(
    alloc: Global,
    ptr: Ptr,
    size: u32,
    keys: &KeyRing,
    store: &Store<H>,
) -> Result<Vec<u8>, LoadFault>
    ensures reads { Reads (map.get store.now) (λ bytes. bytes.items) (IsFileOf (Opens S.sealed H.hashed (map.get store.now) (key_at keys.now)) size ptr) result }

    // A refusal names the first block in the order of reading that isn't right.
    ensures first { StopsFile (Opens S.sealed H.hashed (map.get store.now) (key_at keys.now)) (map.get store.now) size ptr result }
{
    let id = ptr.id;
    if size > 16_777_216 {
        return match store.find(&id) {
            Some(_) => Err(LoadFault::BadBlock { id }),
            None => Err(LoadFault::Missing { id }),
        };
    }
    let size = size as usize;
    read_at::<S, H>(alloc, level_of(size), ptr, size, keys, store)
}
