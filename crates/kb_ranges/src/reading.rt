//! Reading a range of a file by the blocks that have bytes of it.
ghost use Rattle.std.specs.Prelude.{◌≡◌, ◌≤◌, ◌+◌, ◌*◌, ◌/◌, ◌++◌, slice_range};
ghost use Rattle.std.specs.FinMap as map;
ghost use Rattle.kb_keys.specs.Rings.{key_at};
ghost use Rattle.kb_files.specs.Opens.{Opens};
ghost use Rattle.kb_files.specs.Files.{span, HoldsSized, IsFileOf};
ghost use Rattle.kb_files.specs.Counts.{touched};
ghost use Rattle.kb_ranges.specs.Tells.{Tells};
ghost use Rattle.kb_ranges.specs.Ways.{ReachesEach, ReachesRange};

use crate::counted::{get_index, get_leaf};
use kb_blocks::{BlockHash, Ptr, Steps, Store};
use kb_files::{LoadFault, level_of, span};
use kb_keys::KeyRing;
use kb_seal::Sealer;
use std::alloc::Global;
use std::sync::ledger::Ledger;

// Puts the bytes from one place up to another behind those that were read: of a file's part of so many bytes, which the
// pointer holds by blocks of the level.
fn range_at<S: Sealer, H: BlockHash, L: Ledger>(
    alloc: Global,
    level: u8,
    ptr: Ptr,
    size: usize,
    from: usize,
    to: usize,
    keys: &KeyRing,
    store: &Store<H>,
    steps: &mut Steps<L>,
    out: &mut Vec<u8>,
) -> Result<(), LoadFault>
    requires level { level ≤ 2 }
    requires fits { size ≤ span level }
    requires within { to ≤ size }
    ensures tells { Tells (map.get store.now) (HoldsSized (Opens S.sealed H.hashed (map.get store.now) (key_at keys.now)) level size ptr) (λ _ bytes. out.new.items ≡ out.old.items ++ slice_range bytes from to) result }
    ensures first { ReachesEach (Opens S.sealed H.hashed (map.get store.now) (key_at keys.now)) (map.get store.now) level size ptr from to result }
    ensures gets { steps.new ≤ steps.old + touched level from to }
{
    if from >= to {
        return Ok(());
    }
    if level == 0 {
        let bytes = match get_leaf::<S, H, L>(alloc, ptr, size, keys, store, steps) {
            Ok(bytes) => bytes,
            Err(fault) => return Err(fault),
        };
        match out.extend_from_slice(&bytes[from..to]) {
            Ok(()) => return Ok(()),
            Err(_) => return Err(LoadFault::Memory),
        }
    }
    let id = ptr.id;
    let ptrs = match get_index::<S, H, L>(alloc, level, ptr, keys, store, steps) {
        Ok(ptrs) => ptrs,
        Err(fault) => return Err(fault),
    };
    let below = level - 1;
    let each = span(below);
    let mut left = size;
    let mut start = from;
    let mut end = to;
    'parts: for part in &ptrs {
        let here = each.min(left);
        match range_at::<S, H, L>(
            alloc,
            below,
            *part,
            here,
            start,
            end.min(here),
            keys,
            store,
            steps,
            out,
        ) {
            Ok(()) => {}
            Err(fault) => return Err(fault),
        }
        left -= here;
        start = start.saturating_sub(each);
        end = end.saturating_sub(each);
    }
    if end > 0 {
        return Err(LoadFault::BadBlock { id });
    }
    Ok(())
}

/// The bytes of a file of `size` bytes from `offset` on, at most `length` of them and as far as the file goes. It makes
/// at most `3 * (length / 4096 + 2)` gets, each of which `steps` counts.
///
/// `Missing` and `BadBlock` name the first block that was read and isn't stored, or isn't right at its place; neither
/// comes on a pointer that holds a file of that size. What the range doesn't touch isn't looked at. No file has more
/// than 16,777,216 bytes: for a greater `size` they name the pointer's own block.
pub fn read_range<S: Sealer, H: BlockHash, L: Ledger>(
    alloc: Global,
    ptr: Ptr,
    size: u32,
    offset: u32,
    length: u32,
    keys: &KeyRing,
    store: &Store<H>,
    steps: &mut Steps<L>,
) -> Result<Vec<u8>, LoadFault>
    ensures tells { Tells (map.get store.now) (IsFileOf (Opens S.sealed H.hashed (map.get store.now) (key_at keys.now)) size ptr) (λ part bytes. part.items ≡ slice_range bytes offset (offset + length)) result }
    ensures first { ReachesRange (Opens S.sealed H.hashed (map.get store.now) (key_at keys.now)) (map.get store.now) size ptr offset length result }
    ensures gets { steps.new ≤ steps.old + 3 * (length / 4096 + 2) }
{
    let id = ptr.id;
    if size > 16_777_216 {
        return match store.get(&id, steps) {
            Ok(_) => Err(LoadFault::BadBlock { id }),
            Err(_) => Err(LoadFault::Missing { id }),
        };
    }
    let size = size as usize;
    let from = (offset as usize).min(size);
    let to = from + (length as usize).min(size - from);
    let mut out = Vec::new(alloc);
    match range_at::<S, H, L>(
        alloc,
        level_of(size),
        ptr,
        size,
        from,
        to,
        keys,
        store,
        steps,
        &mut out,
    ) {
        Ok(()) => Ok(out),
        Err(fault) => Err(fault),
    }
}
