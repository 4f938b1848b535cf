//! The parts of a file that is patched.
ghost use Rattle.std.specs.Prelude.{◌≡◌, ◌≤◌, ◌<◌, ◌-◌, [], ◌∷◌, min, Some, IfSome, IfOk, IfErr, IsNone, IsSome, take, slice_get};
ghost use Rattle.std.specs.FinMap as map;
ghost use Rattle.std.specs.List.{AllByRecursion};
ghost use Rattle.kb_keys.specs.Rings.{key_at};
ghost use Rattle.kb_blocks.specs.declared.pointer.Ptr.{Ptr};
ghost use Rattle.kb_files.specs.Opens.{Opens};
ghost use Rattle.kb_files.specs.Files.{span, level_of, InOrder, HoldsAt, IsFit, IsLeafOf, IsIndexOf};
ghost use Rattle.kb_ops.specs.Trees.{patched};
ghost use Rattle.kb_ranges.specs.Patches.{IsPart, PartHeld, FileHeld};
ghost use Rattle.kb_ranges.specs.Refusals.{OrMemory, PartIsBad, StandFor, StandsForFile, StopsAbove};
ghost use Rattle.kb_ranges.specs.Tells.{Tells};

use kb_blocks::{BlockHash, Ptr, Store};
use kb_edge::Memory;
use kb_files::{LoadFault, level_of, open_index, open_leaf, span};
use kb_keys::KeyRing;
use kb_seal::Sealer;
use std::alloc::Global;

/// A part of a file: the pointer to its block, which is none behind the file's end, the level of that block, and how
/// many bytes it has.
#[derive(Clone, Copy, Debug, PartialEq, Eq)]
pub(crate) struct Part {
    pub ptr: Option<Ptr>,
    pub level: u8,
    pub size: usize,
}

/// The pointer to a part that stays as it is.
pub(crate) fn kept(part: Part, level: u8, bytes: &[u8], size: usize) -> Option<Ptr>
    ensures some { IfSome result (λ p. (part.ptr ≡ Some p) × (part.level ≡ level) × (part.size ≡ size) × (bytes.now ≡ [])) }
    ensures none { IsNone result → (p : Ptr) → part.ptr ≡ Some p → part.level ≡ level → part.size ≡ size → bytes.now ≡ [] → ⊥ }
{
    if part.level != level {
        return None;
    }
    if part.size != size {
        return None;
    }
    if !bytes.is_empty() {
        return None;
    }
    part.ptr
}

/// The pointer at a place, or none behind the last.
pub(crate) fn pointer_at(ptrs: &[Ptr], place: usize) -> Option<Ptr>
    ensures { result ≡ slice_get ptrs.now place }
{
    ptrs.get(place).copied()
}

// The bytes of a part that is a leaf, none where it isn't there.
fn leaf_of<S: Sealer, H: BlockHash>(
    alloc: Global,
    part: Part,
    keys: &KeyRing,
    store: &Store<H>,
) -> Result<Vec<u8>, LoadFault>
    requires { part.level ≡ 0 }
    ensures tells { Tells (map.get store.now) (IsPart (Opens S.sealed H.hashed (map.get store.now) (key_at keys.now)) part) (λ leaf bytes. leaf.items ≡ bytes) result }
    ensures bad { IfErr result (PartIsBad (map.get store.now) (IsLeafOf (Opens S.sealed H.hashed (map.get store.now) (key_at keys.now)) part.size) part) }
{
    match part.ptr {
        None => Ok(Vec::new(alloc)),
        Some(ptr) => open_leaf::<S, H>(alloc, ptr, part.size, keys, store),
    }
}

/// The bytes of a part that is a leaf. It isn't read where all of its bytes that stay are written over: then none.
pub(crate) fn left_of<S: Sealer, H: BlockHash>(
    alloc: Global,
    part: Part,
    offset: usize,
    bytes: &[u8],
    size: usize,
    keys: &KeyRing,
    store: &Store<H>,
) -> Result<Vec<u8>, LoadFault>
    requires { part.level ≡ 0 }
    ensures tells { Tells (map.get store.now) (IsPart (Opens S.sealed H.hashed (map.get store.now) (key_at keys.now)) part) (λ leaf old. patched leaf.items offset bytes.now size ≡ patched old offset bytes.now size) result }
    ensures bad { IfErr result (PartIsBad (map.get store.now) (IsLeafOf (Opens S.sealed H.hashed (map.get store.now) (key_at keys.now)) part.size) part) }
{
    if offset == 0 && part.size.min(size) <= bytes.len() {
        return Ok(Vec::new(alloc));
    }
    match leaf_of::<S, H>(alloc, part, keys, store) {
        Ok(leaf) => Ok(leaf),
        Err(fault) => Err(fault),
    }
}

// The pointer alone.
fn alone(alloc: Global, ptr: Ptr) -> Result<Vec<Ptr>, Memory>
    ensures one { IfOk result (λ ptrs. ptrs.items ≡ ptr ∷ []) }
    ensures fit { IfOk result (λ ptrs. AllByRecursion IsFit ptrs.items) }
{
    let mut ptrs = Vec::new(alloc);
    ptrs.push(ptr)?;
    Ok(ptrs)
}

/// The pointers that a block of the level has for the part, where the part is all that it has: those of the part's own
/// block, or the part's own pointer where its level is lower. An empty part has none.
pub(crate) fn parts_of<S: Sealer, H: BlockHash>(
    alloc: Global,
    level: u8,
    part: Part,
    keys: &KeyRing,
    store: &Store<H>,
) -> Result<Vec<Ptr>, LoadFault>
    requires above { 0 < level }
    requires lower { part.level ≤ level }
    requires sized { part.size ≤ span part.level }
    ensures tells { Tells (map.get store.now) (PartHeld S.sealed H.hashed (map.get store.now) (key_at keys.now) part) (λ ptrs few. InOrder (HoldsAt (Opens S.sealed H.hashed few.0 (key_at keys.now)) (min part.level (level - 1))) (span (level - 1)) ptrs.items few.1) result }
    ensures fit { IfOk result (λ ptrs. AllByRecursion IsFit ptrs.items) }
    ensures stand { IfOk result (λ ptrs. StandFor (Opens S.sealed H.hashed (map.get store.now) (key_at keys.now)) (map.get store.now) (min part.level (level - 1)) (span (level - 1)) part ptrs.items) }
    ensures bad { IfErr result (λ f. OrMemory f ((part.level ≡ level) × PartIsBad (map.get store.now) (IsIndexOf (Opens S.sealed H.hashed (map.get store.now) (key_at keys.now)) level) part f)) }
{
    if part.size == 0 {
        return Ok(Vec::new(alloc));
    }
    match part.ptr {
        None => Ok(Vec::new(alloc)),
        Some(ptr) => {
            if part.level < level {
                return match alone(alloc, ptr) {
                    Ok(ptrs) => Ok(ptrs),
                    Err(Memory) => Err(LoadFault::Memory),
                };
            }
            match open_index::<S, H>(alloc, level, ptr, keys, store) {
                Ok(ptrs) => Ok(ptrs),
                Err(fault) => Err(fault),
            }
        }
    }
}

/// The part of a file that a block of the level spans from the file's begin on: a part of that level, or of the file's
/// own where it is lower.
pub(crate) fn front_of<S: Sealer, H: BlockHash>(
    alloc: Global,
    ptr: Ptr,
    size: usize,
    level: u8,
    keys: &KeyRing,
    store: &Store<H>,
) -> Result<Part, LoadFault>
    requires level { level ≤ 2 }
    requires small { size ≤ 16777216 }
    ensures tells { Tells (map.get store.now) (FileHeld S.sealed H.hashed (map.get store.now) (key_at keys.now) size ptr) (λ part few. IsPart (Opens S.sealed H.hashed few.0 (key_at keys.now)) part (take (span level) few.1)) result }
    ensures part { IfOk result (λ part. IsSome part.ptr × (part.level ≡ min level (level_of size)) × (part.size ≡ min size (span level))) }
    ensures stands { IfOk result (StandsForFile (Opens S.sealed H.hashed (map.get store.now) (key_at keys.now)) (map.get store.now) level size ptr) }
    ensures bad { IfErr result (StopsAbove (Opens S.sealed H.hashed (map.get store.now) (key_at keys.now)) (map.get store.now) level size ptr) }
{
    let mut at = ptr;
    let mut above = level_of(size);
    'levels: while above > level {
        let ptrs = match open_index::<S, H>(alloc, above, at, keys, store) {
            Ok(ptrs) => ptrs,
            Err(fault) => return Err(fault),
        };
        at = ptrs[0];
        above -= 1;
    }
    Ok(Part {
        ptr: Some(at),
        level: above,
        size: size.min(span(level)),
    })
}
