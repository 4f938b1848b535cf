//! Patching a file: making only the blocks that a write, a cut or a growth touches.
ghost use Rattle.std.specs.Prelude.{◌≡◌, ◌≤◌, ◌<◌, ◌+◌, ℕ, Some, IsNone, IsSome, IfOk, IfErr, OnOk, length};
ghost use Rattle.std.specs.FinMap as map;
ghost use Rattle.kb_keys.specs.Rings.{key_at};
ghost use Rattle.kb_ops.specs.Trees.{patched};
ghost use Rattle.kb_files.specs.Files.{span, index_text, HoldsAt, IsFit, IsLeafOf};
ghost use Rattle.kb_files.specs.Opens.{Opens};
ghost use Rattle.kb_files.specs.Splits.{OnceStored, Keeps};
ghost use Rattle.kb_ranges.specs.Patches.{IsPart, PartHeld, FileHeld, Patches, PatchesFile};
ghost use Rattle.kb_ranges.specs.Refusals.{OrMemory, PartIsBad, PartRefused, PatchRefused};
ghost use Rattle.kb_ranges.specs.Tells.{Tells};

use crate::parts::{Part, front_of, kept, left_of, parts_of, pointer_at};
use crate::writing::patched;
use kb_blocks::{BlockHash, Ptr, Store};
use kb_edge::Memory;
use kb_files::{LoadFault, add_block, index_text, leaf_text, level_of, span};
use kb_keys::KeyRing;
use kb_seal::{Key, Sealer};
use std::alloc::Global;

// The pointer itself: its id has 32 bytes and its generation fits four.
fn fit(ptr: Ptr) -> Ptr
    ensures same { result ≡ ptr }
    ensures fit { IsFit result }
{
    ptr
}

// Seals a leaf behind the blocks made so far.
fn add_leaf<S: Sealer, H: BlockHash>(
    alloc: Global,
    bytes: &[u8],
    key: &Key,
    generation: u32,
    made: &mut Vec<Vec<u8>>,
) -> Result<Ptr, Memory>
    ensures opens { IfOk result (λ ptr. OnceStored H.hashed S.sealed generation key.now made.new.items (λ vault. HoldsAt vault 0 ptr bytes.now)) }
    ensures fit { IfOk result IsFit }
    ensures kept { OnOk result (Keeps H.hashed made.old.items made.new.items) }
    ensures one { OnOk result (length made.new.items ≡ length made.old.items + 1) }
{
    let text = leaf_text(alloc, bytes)?;
    Ok(add_block::<S, H>(alloc, &text, key, generation, made)?)
}

// Seals a block of pointers behind the blocks made so far.
fn add_index<S: Sealer, H: BlockHash>(
    alloc: Global,
    level: u8,
    ptrs: &[Ptr],
    key: &Key,
    generation: u32,
    made: &mut Vec<Vec<u8>>,
) -> Result<Ptr, Memory>
    requires { length ptrs.now ≤ 64 }
    ensures opens { IfOk result (λ ptr. OnceStored H.hashed S.sealed generation key.now made.new.items (λ vault. vault ptr (index_text level ptrs.now))) }
    ensures fit { IfOk result IsFit }
    ensures kept { OnOk result (Keeps H.hashed made.old.items made.new.items) }
    ensures one { OnOk result (length made.new.items ≡ length made.old.items + 1) }
{
    let text = index_text(alloc, level, ptrs)?;
    Ok(add_block::<S, H>(alloc, &text, key, generation, made)?)
}

// The pointer to a leaf with the bytes after the write, sealed behind the blocks made so far.
fn patch_leaf<S: Sealer, H: BlockHash>(
    alloc: Global,
    part: Part,
    offset: usize,
    bytes: &[u8],
    size: usize,
    keys: &KeyRing,
    key: &Key,
    generation: u32,
    store: &Store<H>,
    made: &mut Vec<Vec<u8>>,
) -> Result<Ptr, LoadFault>
    requires leaf { part.level ≡ 0 }
    requires within { offset + length bytes.now ≤ size }
    requires small { size ≤ 16777216 }
    ensures tells { Tells (map.get store.now) (IsPart (Opens S.sealed H.hashed (map.get store.now) (key_at keys.now)) part) (λ ptr old. OnceStored H.hashed S.sealed generation key.now made.new.items (λ vault. HoldsAt vault 0 ptr (patched old offset bytes.now size))) result }
    ensures bad { IfErr result (λ f. OrMemory f (PartIsBad (map.get store.now) (IsLeafOf (Opens S.sealed H.hashed (map.get store.now) (key_at keys.now)) part.size) part f)) }
    ensures fit { IfOk result IsFit }
    ensures kept { OnOk result (Keeps H.hashed made.old.items made.new.items) }
    ensures one { OnOk result (length made.new.items ≡ length made.old.items + 1) }
{
    let old = match left_of::<S, H>(alloc, part, offset, bytes, size, keys, store) {
        Ok(old) => old,
        Err(fault) => return Err(fault),
    };
    let new = match patched(alloc, &old, offset, bytes, size) {
        Ok(new) => new,
        Err(Memory) => return Err(LoadFault::Memory),
    };
    match add_leaf::<S, H>(alloc, &new, key, generation, made) {
        Ok(ptr) => Ok(ptr),
        Err(Memory) => Err(LoadFault::Memory),
    }
}

// The pointer to a part with the bytes after the write, by blocks of the level and below. A part that stays keeps its
// block.
fn patch_at<S: Sealer, H: BlockHash>(
    alloc: Global,
    level: u8,
    part: Part,
    offset: usize,
    bytes: &[u8],
    size: usize,
    keys: &KeyRing,
    key: &Key,
    generation: u32,
    store: &Store<H>,
    made: &mut Vec<Vec<u8>>,
) -> Result<Ptr, LoadFault>
    requires level { level ≤ 2 }
    requires lower { part.level ≤ level }
    requires sized { part.size ≤ span part.level }
    requires grows { part.level < level → part.size < size }
    requires fits { size ≤ span level }
    requires within { offset + length bytes.now ≤ size }
    requires some { 0 < level → 0 < size }
    requires there { IsNone part.ptr → 0 < size }
    requires key { key_at keys.now generation ≡ Some key.now }
    ensures tells { Tells (map.get store.now) (PartHeld S.sealed H.hashed (map.get store.now) (key_at keys.now) part) (λ ptr few. Patches H.hashed S.sealed few.0 (key_at keys.now) level part.size offset bytes.now size made.old.items made.new.items ptr few.1) result }
    ensures touched { IfErr result (PartRefused (Opens S.sealed H.hashed (map.get store.now) (key_at keys.now)) (map.get store.now) part offset (length bytes.now) size) }
    ensures fit { IfOk result IsFit }
    ensures kept { OnOk result (Keeps H.hashed made.old.items made.new.items) }
{
    match kept(part, level, bytes, size) {
        Some(ptr) => return Ok(fit(ptr)),
        None => {}
    }
    if level == 0 {
        return patch_leaf::<S, H>(
            alloc, part, offset, bytes, size, keys, key, generation, store, made,
        );
    }
    let ptrs = match parts_of::<S, H>(alloc, level, part, keys, store) {
        Ok(ptrs) => ptrs,
        Err(fault) => return Err(fault),
    };
    let below = level - 1;
    let each = span(below);
    let lower = part.level.min(below);
    let mut new = Vec::new(alloc);
    let mut old_left = part.size;
    let mut start = offset;
    let mut rest = bytes;
    let mut left = size;
    'parts: while left > 0 {
        let here = each.min(left);
        let (front, behind) = rest.split_at(each.saturating_sub(start).min(rest.len()));
        let old = Part {
            ptr: pointer_at(&ptrs, new.len()),
            level: lower,
            size: each.min(old_left),
        };
        let ptr = match patch_at::<S, H>(
            alloc,
            below,
            old,
            start.min(here),
            front,
            here,
            keys,
            key,
            generation,
            store,
            made,
        ) {
            Ok(ptr) => ptr,
            Err(fault) => return Err(fault),
        };
        match new.push(ptr) {
            Ok(()) => {}
            Err(_) => return Err(LoadFault::Memory),
        }
        old_left = old_left.saturating_sub(each);
        start = start.saturating_sub(each);
        rest = behind;
        left -= here;
    }
    match add_index::<S, H>(alloc, level, &new, key, generation, made) {
        Ok(ptr) => Ok(ptr),
        Err(Memory) => Err(LoadFault::Memory),
    }
}

/// The pointer to a file after a write and a new size, and the sealed blocks that were made for it. `ptr` is the old
/// file's pointer and `size` its size in bytes; `bytes` are written from `offset` on, at most up to `new_size`, which is
/// at most 16,777,216. What is neither written nor old is zeros. The blocks are sealed under the ring's key of
/// `generation`; they are those that the change touches, and all others of the old file stay.
///
/// `Missing` and `BadBlock` name a block that the change touches and that isn't stored, or isn't right at its place;
/// neither comes on a pointer that holds a file of that size. A leaf whose bytes are all written over isn't read. No file
/// has more than 16,777,216 bytes: for a greater `size` they name the pointer's own block.
pub fn patch<S: Sealer, H: BlockHash>(
    alloc: Global,
    ptr: Ptr,
    size: u32,
    offset: u32,
    bytes: &[u8],
    new_size: u32,
    keys: &KeyRing,
    generation: u32,
    store: &Store<H>,
) -> Result<(Ptr, Vec<Vec<u8>>), LoadFault>
    requires within { offset + length bytes.now ≤ new_size }
    requires small { new_size ≤ 16777216 }
    requires key { IsSome (key_at keys.now generation) }
    ensures tells { Tells (map.get store.now) (FileHeld S.sealed H.hashed (map.get store.now) (key_at keys.now) size ptr) (λ made few. PatchesFile H.hashed S.sealed few.0 (key_at keys.now) size offset bytes.now new_size made.0 made.1.items few.1) result }
    ensures touched { IfErr result (PatchRefused (Opens S.sealed H.hashed (map.get store.now) (key_at keys.now)) (map.get store.now) size offset (length bytes.now) new_size ptr) }
    ensures fit { IfOk result (λ made. IsFit made.0) }
{
    let id = ptr.id;
    if size > 16_777_216 {
        return match store.find(&id) {
            Some(_) => Err(LoadFault::BadBlock { id }),
            None => Err(LoadFault::Missing { id }),
        };
    }
    let Some(key) = keys.key(generation) else {
        unreachable!()
    };
    let level = level_of(new_size as usize);
    let part = match front_of::<S, H>(alloc, ptr, size as usize, level, keys, store) {
        Ok(part) => part,
        Err(fault) => return Err(fault),
    };
    let mut made = Vec::new(alloc);
    match patch_at::<S, H>(
        alloc,
        level,
        part,
        offset as usize,
        bytes,
        new_size as usize,
        keys,
        key,
        generation,
        store,
        &mut made,
    ) {
        Ok(ptr) => Ok((ptr, made)),
        Err(fault) => Err(fault),
    }
}
