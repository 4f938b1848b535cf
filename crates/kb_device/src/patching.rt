//! The blocks of a tree after an operation. A file that was written is patched by the blocks that the write touches.
ghost use Rattle.std.specs.Prelude.{◌≡◌, ◌≤◌, ◌+◌, false, Some, IfOk, IsSome, length};
ghost use Rattle.std.specs.FinMap as map;
ghost use Rattle.kb_name.specs.declared.ids.NodeId.{NodeId};
ghost use Rattle.kb_name.specs.Nodes.{root as root_id};
ghost use Rattle.kb_ops.specs.Grammar.{IsProper};
ghost use Rattle.kb_ops.specs.Plan.{is_below};
ghost use Rattle.kb_ops.specs.Trees.{look};
ghost use Rattle.kb_keys.specs.Rings.{key_at};
ghost use Rattle.kb_snap.specs.Builds.{OnceAllStored, IsMade};
ghost use Rattle.kb_snap.specs.Holds.{Holds};
ghost use Rattle.kb_snap.specs.Pointers.{AllHold};
ghost use Rattle.kb_ranges.specs.Patches.{FewBlocks, FileHeld};
ghost use Rattle.kb_device.specs.Counting.{TakesFew};
ghost use Rattle.kb_device.specs.Left.{AreOf, KeepsBeside, PointsAll};
ghost use Rattle.kb_device.specs.declared.patching.OldFile.{OldFile};
ghost use Rattle.kb_device.specs.Patching.{BuildsWritten, MakesFew, BuildsStep, MakesRest, StepMakes, IsOldAt, WasAt, FindsOld};

use kb_blocks::{BlockHash, Ptr, Store};
use kb_edge::Memory;
use kb_files::LoadFault;
use kb_keys::KeyRing;
use kb_name::NodeId;
use kb_ops::{Change, Op};
use kb_ranges::{cut_law, patch, write_law};
use kb_seal::{Key, Sealer};
use kb_snap::{Built, Pointers, SealedBlocks, build};
use kb_tree::Table;
use std::alloc::Global;

/// A file's pointer and its size in bytes, as they were before a write.
#[derive(Clone, Copy)]
pub struct OldFile {
    pub ptr: Ptr,
    pub size: u32,
}

// The tree's root pointer, where one more row has a pointer, which isn't kept.
fn build_with<S: Sealer, H: BlockHash>(
    alloc: Global,
    table: &Table,
    left: &mut Pointers,
    node: NodeId,
    ptr: Ptr,
    key: &Key,
    generation: u32,
) -> Result<Built, Memory>
    ensures tree { IfOk result (λ built. OnceAllStored H.hashed S.sealed generation key.now built.blocks (λ vault. AllHold vault (look table.now.tree) (map.insert left.old node ptr) → Holds vault (look table.now.tree) root_id built.root)) }
    ensures holds { IfOk result (λ built. OnceAllStored H.hashed S.sealed generation key.now built.blocks (λ vault. AllHold vault (look table.now.tree) (map.insert left.old node ptr) → AllHold vault (look table.now.tree) built.pointers)) }
    ensures made { IfOk result (λ built. IsMade S.sealed H.hashed key.now generation table.now.tree (map.insert left.old node ptr) built.pointers built.blocks) }
    ensures all { IfOk result (λ built. PointsAll table.now.tree built.pointers) }
    ensures left { AreOf left.new left.old }
    ensures beside { (q : NodeId) → is_below table.now.tree q node ≡ false → map.get left.new q ≡ map.get left.old q }
{
    match left.set(node, ptr) {
        Ok(()) => {}
        Err(_) => return Err(Memory),
    }
    let built = build::<S, H>(alloc, table, left, key, generation);
    left.forget(table, node);
    built
}

// The same where the file isn't patched: it is split whole, as no blocks of the store hold the old one.
fn build_whole<S: Sealer, H: BlockHash>(
    alloc: Global,
    table: &Table,
    left: &Pointers,
    node: NodeId,
    old: OldFile,
    offset: u32,
    bytes: &[u8],
    new_size: u32,
    keys: &KeyRing,
    generation: u32,
    store: &Store<H>,
) -> Result<Built, Memory>
    requires key { IsSome (key_at keys.now generation) }
    requires refused { (few : FewBlocks) → FileHeld S.sealed H.hashed (map.get store.now) (key_at keys.now) old.size old.ptr few → ⊥ }
    ensures holds { IfOk result (λ built. BuildsWritten S.sealed H.hashed (map.get store.now) (key_at keys.now) table.now.tree left.now node old.ptr old.size offset bytes.now new_size built.root built.blocks built.pointers) }
    ensures few { IfOk result (λ built. MakesFew S.sealed H.hashed (map.get store.now) (key_at keys.now) generation table.now.tree left.now node old.ptr old.size offset bytes.now new_size built.blocks built.pointers) }
    ensures all { IfOk result (λ built. PointsAll table.now.tree built.pointers) }
{
    let Some(key) = keys.key(generation) else {
        unreachable!()
    };
    let built = build::<S, H>(alloc, table, left, key, generation)?;
    Ok(built)
}

// The tree's root pointer after a write of a file, with the pointers that the write leaves. Only the blocks that the
// write touches are made, where the store has those that hold the old file.
fn build_written<S: Sealer, H: BlockHash>(
    alloc: Global,
    table: &Table,
    left: &mut Pointers,
    node: NodeId,
    old: OldFile,
    offset: u32,
    bytes: &[u8],
    new_size: u32,
    keys: &KeyRing,
    generation: u32,
    store: &Store<H>,
) -> Result<Built, Memory>
    requires within { offset + length bytes.now ≤ new_size }
    requires small { new_size ≤ 16777216 }
    requires key { IsSome (key_at keys.now generation) }
    ensures holds { IfOk result (λ built. BuildsWritten S.sealed H.hashed (map.get store.now) (key_at keys.now) table.now.tree left.old node old.ptr old.size offset bytes.now new_size built.root built.blocks built.pointers) }
    ensures few { IfOk result (λ built. MakesFew S.sealed H.hashed (map.get store.now) (key_at keys.now) generation table.now.tree left.old node old.ptr old.size offset bytes.now new_size built.blocks built.pointers) }
    ensures all { IfOk result (λ built. PointsAll table.now.tree built.pointers) }
    ensures left { AreOf left.new left.old }
    ensures beside { (q : NodeId) → is_below table.now.tree q node ≡ false → map.get left.new q ≡ map.get left.old q }
{
    let Some(key) = keys.key(generation) else {
        unreachable!()
    };
    let (ptr, mut made) = match patch::<S, H>(
        alloc, old.ptr, old.size, offset, bytes, new_size, keys, generation, store,
    ) {
        Ok(patched) => patched,
        Err(LoadFault::Memory) => return Err(Memory),
        Err(LoadFault::Missing { id: _ }) => {
            return build_whole::<S, H>(
                alloc, table, left, node, old, offset, bytes, new_size, keys, generation, store,
            );
        }
        Err(LoadFault::BadBlock { id: _ }) => {
            return build_whole::<S, H>(
                alloc, table, left, node, old, offset, bytes, new_size, keys, generation, store,
            );
        }
    };
    let built = build_with::<S, H>(alloc, table, left, node, ptr, key, generation)?;
    let mut more = built.blocks.into_vec();
    made.append(&mut more)?;
    Ok(Built {
        root: built.root,
        blocks: SealedBlocks::new(made),
        pointers: built.pointers,
    })
}

// The blocks of exactly the rows that have no pointer.
fn build_rest<S: Sealer, H: BlockHash>(
    alloc: Global,
    table: &Table,
    left: &Pointers,
    op: &Op,
    old: Option<OldFile>,
    cache: &Option<Store<H>>,
    keys: &KeyRing,
    generation: u32,
) -> Result<Built, Memory>
    requires key { IsSome (key_at keys.now generation) }
    ensures holds { IfOk result (λ built. BuildsStep S.sealed H.hashed cache.now (key_at keys.now) table.now.tree left.now op.now.change old built.root built.blocks built.pointers) }
    ensures made { IfOk result (λ built. MakesRest S.sealed H.hashed (key_at keys.now) generation table.now.tree left.now built.blocks built.pointers) }
    ensures all { IfOk result (λ built. PointsAll table.now.tree built.pointers) }
{
    let Some(key) = keys.key(generation) else {
        unreachable!()
    };
    let built = build::<S, H>(alloc, table, left, key, generation)?;
    Ok(built)
}

/// The tree's root pointer after an operation, with the pointers that it leaves. Where the operation wrote a file whose
/// old pointer and size are given, and the cache has the blocks of that file, only those that the write touches are
/// made.
pub fn build_step<S: Sealer, H: BlockHash>(
    alloc: Global,
    table: &Table,
    left: &mut Pointers,
    op: &Op,
    old: Option<OldFile>,
    cache: &Option<Store<H>>,
    keys: &KeyRing,
    generation: u32,
) -> Result<Built, Memory>
    requires proper { IsProper op.now }
    requires key { IsSome (key_at keys.now generation) }
    ensures holds { IfOk result (λ built. BuildsStep S.sealed H.hashed cache.now (key_at keys.now) table.now.tree left.old op.now.change old built.root built.blocks built.pointers) }
    ensures few { IfOk result (λ built. StepMakes S.sealed H.hashed cache.now (key_at keys.now) generation table.now.tree left.old op.now.change old built.blocks built.pointers) }
    ensures all { IfOk result (λ built. PointsAll table.now.tree built.pointers) }
    ensures left { AreOf left.new left.old }
    ensures beside { KeepsBeside table.now.tree op.now.change left.old left.new }
{
    let Some(file) = old else {
        return build_rest::<S, H>(alloc, table, left, op, old, cache, keys, generation);
    };
    let Some(store) = cache else {
        return build_rest::<S, H>(alloc, table, left, op, old, cache, keys, generation);
    };
    match &op.change {
        Change::Sync {
            node,
            offset,
            bytes,
            length,
        } => build_written::<S, H>(
            alloc,
            table,
            left,
            *node,
            file,
            *offset,
            bytes.as_slice(),
            *length,
            keys,
            generation,
            store,
        ),
        _ => build_rest::<S, H>(alloc, table, left, op, old, cache, keys, generation),
    }
}

fn old_at(pointers: &Pointers, table: &Table, node: NodeId) -> Option<OldFile>
    ensures is { (old : OldFile) → result ≡ Some old → IsOldAt table.now.tree pointers.now node old }
    ensures finds { IsSome (look table.now.tree node) → IsSome (map.get pointers.now node) → IsSome result }
{
    let ptr = match pointers.get(node) {
        Some(ptr) => ptr,
        None => return None,
    };
    let row = match table.get(node) {
        Some(row) => row,
        None => return None,
    };
    let size = row.bytes.as_slice().len() as u32;
    Some(OldFile { ptr, size })
}

/// The pointer and the size of the file that a change writes, by the tree and its pointers before the change.
pub fn old_file(pointers: &Pointers, table: &Table, change: &Change) -> Option<OldFile>
    ensures is { (old : OldFile) → result ≡ Some old → WasAt table.now.tree pointers.now change.now old }
    ensures finds { FindsOld table.now.tree pointers.now change.now result }
{
    match change {
        Change::Sync { node, .. } => old_at(pointers, table, *node),
        _ => None,
    }
}

/// A law of how many blocks a step has that wrote a file. The function does nothing: what it ensures is the law.
pub fn few_law<S: Sealer, H: BlockHash>()
    ensures { TakesFew S.sealed H.hashed }
{
    write_law();
    cut_law();
}
