//! A device's own blocks: those of its tree, copied from the folder's.
ghost use Rattle.std.specs.Prelude.{◌≡◌, ◌≤◌, ℕ, List, Some, IfOk, OnOk, OnErr, length, map as each};
ghost use Rattle.std.specs.List.{AllByRecursion};
ghost use Rattle.std.specs.FinMap as map;
ghost use Rattle.kb_blocks.specs.declared.pointer.Ptr.{Ptr};
ghost use Rattle.kb_ops.specs.Trees.{look};
ghost use Rattle.kb_keys.specs.Rings.{key_at};
ghost use Rattle.kb_files.specs.Opens.{Opens};
ghost use Rattle.kb_snap.specs.Holds.{HoldsEach};
ghost use Rattle.kb_ranges.specs.Patches.{StaysIn};
ghost use Rattle.kb_device.specs.Caches.{Copies, IsCopied, FileCopied, KindCopied, RowCopied, Caches, Takes, told};

use kb_blocks::{BlockHash, Hash, Ptr, PutFault, Store};
use kb_edge::Memory;
use kb_files::{LoadFault, level_of, open_index};
use kb_keys::KeyRing;
use kb_ops::{Kind, Row};
use kb_seal::Sealer;
use kb_snap::Pointers;
use kb_tree::Table;
use std::alloc::Global;

// Why blocks weren't copied.
#[derive(Clone, Copy)]
enum CopyFault {
    // Two blocks have one hash.
    Clash,
    Memory,
}

fn told(put: &Result<Hash, PutFault>) -> Result<(), CopyFault>
    ensures { result ≡ told put.now }
{
    match put {
        Ok(_) => Ok(()),
        Err(PutFault::Collision { .. }) => Err(CopyFault::Clash),
        Err(PutFault::Memory) => Err(CopyFault::Memory),
    }
}

// Copies the block with the id, where the store has one.
fn copy_block<H: BlockHash>(
    store: &Store<H>,
    cache: &mut Store<H>,
    id: &Hash,
) -> Result<(), CopyFault>
    ensures grows { Copies (map.get store.now) (map.get cache.old) (map.get cache.new) }
    ensures copied { OnOk result ((bytes : List ℕ) → map.get store.now id.now ≡ Some bytes → map.get cache.new id.now ≡ Some bytes) }
{
    match store.find(id) {
        Some(bytes) => {
            let put = cache.put(bytes);
            told(&put)
        }
        None => Ok(()),
    }
}

// Copies the blocks of the level and below that a pointer reaches.
fn copy_at<S: Sealer, H: BlockHash>(
    alloc: Global,
    level: u8,
    ptr: Ptr,
    keys: &KeyRing,
    store: &Store<H>,
    cache: &mut Store<H>,
) -> Result<(), CopyFault>
    requires { level ≤ 2 }
    ensures grows { Copies (map.get store.now) (map.get cache.old) (map.get cache.new) }
    ensures copied { OnOk result (IsCopied (Opens S.sealed H.hashed (map.get store.now) (key_at keys.now)) (Opens S.sealed H.hashed (map.get cache.new) (key_at keys.now)) level ptr) }
{
    match copy_block(store, cache, &ptr.id) {
        Ok(()) => {}
        Err(fault) => return Err(fault),
    }
    if level == 0 {
        return Ok(());
    }
    let ptrs = match open_index::<S, H>(alloc, level, ptr, keys, store) {
        Ok(ptrs) => ptrs,
        Err(LoadFault::Memory) => return Err(CopyFault::Memory),
        Err(LoadFault::Missing { id: _ }) => return Ok(()),
        Err(LoadFault::BadBlock { id: _ }) => return Ok(()),
    };
    let below = level - 1;
    'parts: for part in &ptrs {
        match copy_at::<S, H>(alloc, below, *part, keys, store, cache) {
            Ok(()) => {}
            Err(fault) => return Err(fault),
        }
    }
    Ok(())
}

// Copies the blocks of a file with these bytes.
fn copy_file<S: Sealer, H: BlockHash>(
    alloc: Global,
    bytes: &[u8],
    ptr: Ptr,
    keys: &KeyRing,
    store: &Store<H>,
    cache: &mut Store<H>,
) -> Result<(), CopyFault>
    ensures grows { Copies (map.get store.now) (map.get cache.old) (map.get cache.new) }
    ensures copied { OnOk result (FileCopied (Opens S.sealed H.hashed (map.get store.now) (key_at keys.now)) (Opens S.sealed H.hashed (map.get cache.new) (key_at keys.now)) (length bytes.now) ptr) }
{
    let copied = copy_at::<S, H>(alloc, level_of(bytes.len()), ptr, keys, store, cache);
    copied
}

// Copies the blocks of a row by itself.
fn copy_row<S: Sealer, H: BlockHash>(
    alloc: Global,
    row: &Row,
    ptr: Ptr,
    keys: &KeyRing,
    store: &Store<H>,
    cache: &mut Store<H>,
) -> Result<(), CopyFault>
    ensures grows { Copies (map.get store.now) (map.get cache.old) (map.get cache.new) }
    ensures copied { OnOk result (KindCopied (Opens S.sealed H.hashed (map.get store.now) (key_at keys.now)) (Opens S.sealed H.hashed (map.get cache.new) (key_at keys.now)) row.now.kind row.now.bytes ptr) }
{
    let bytes = row.bytes.as_slice();
    match row.kind {
        Kind::Dir => copy_block(store, cache, &ptr.id),
        Kind::File => copy_file::<S, H>(alloc, bytes, ptr, keys, store, cache),
        Kind::Link => copy_file::<S, H>(alloc, bytes, ptr, keys, store, cache),
    }
}

fn copy_kept<S: Sealer, H: BlockHash>(
    alloc: Global,
    row: &Row,
    pointers: &Pointers,
    keys: &KeyRing,
    store: &Store<H>,
    cache: &mut Store<H>,
) -> Result<(), CopyFault>
    ensures grows { Copies (map.get store.now) (map.get cache.old) (map.get cache.new) }
    ensures copied { OnOk result (RowCopied (Opens S.sealed H.hashed (map.get store.now) (key_at keys.now)) (Opens S.sealed H.hashed (map.get cache.new) (key_at keys.now)) pointers.now row.now) }
{
    match pointers.get(row.id) {
        Some(ptr) => copy_row::<S, H>(alloc, row, ptr, keys, store, cache),
        None => Ok(()),
    }
}

fn copy_rows<S: Sealer, H: BlockHash>(
    alloc: Global,
    rows: &[Row],
    pointers: &Pointers,
    keys: &KeyRing,
    store: &Store<H>,
    cache: &mut Store<H>,
) -> Result<(), CopyFault>
    ensures grows { Copies (map.get store.now) (map.get cache.old) (map.get cache.new) }
    ensures copied { OnOk result (AllByRecursion (RowCopied (Opens S.sealed H.hashed (map.get store.now) (key_at keys.now)) (Opens S.sealed H.hashed (map.get cache.new) (key_at keys.now)) pointers.now) rows.now) }
{
    'rows: for row in rows {
        match copy_kept::<S, H>(alloc, row, pointers, keys, store, cache) {
            Ok(()) => {}
            Err(fault) => return Err(fault),
        }
    }
    Ok(())
}

fn copy_tree<S: Sealer, H: BlockHash>(
    alloc: Global,
    table: &Table,
    pointers: &Pointers,
    keys: &KeyRing,
    store: &Store<H>,
) -> Result<Store<H>, CopyFault>
    ensures from { IfOk result (λ cache. StaysIn (map.get cache) (map.get store.now)) }
    ensures each { IfOk result (λ cache. (p : Ptr) → HoldsEach (Opens S.sealed H.hashed (map.get store.now) (key_at keys.now)) (look table.now.tree) p (map.get pointers.now) → HoldsEach (Opens S.sealed H.hashed (map.get cache) (key_at keys.now)) (look table.now.tree) p (map.get pointers.now)) }
{
    let rows = match table.rows() {
        Ok(rows) => rows,
        Err(_) => return Err(CopyFault::Memory),
    };
    let mut cache = Store::new(alloc);
    match copy_rows::<S, H>(alloc, rows.as_slice(), pointers, keys, store, &mut cache) {
        Ok(()) => {}
        Err(fault) => return Err(fault),
    }
    Ok(cache)
}

/// Copies of a store's blocks that a tree's pointers reach. None where two blocks of one hash meet.
pub fn cache_of<S: Sealer, H: BlockHash>(
    alloc: Global,
    table: &Table,
    pointers: &Pointers,
    keys: &KeyRing,
    store: &Store<H>,
) -> Result<Option<Store<H>>, Memory>
    ensures { IfOk result (λ cache. Caches S.sealed H.hashed (map.get store.now) (key_at keys.now) table.now.tree pointers.now cache) }
{
    table.is_well_formed();
    match copy_tree::<S, H>(alloc, table, pointers, keys, store) {
        Ok(cache) => Ok(Some(cache)),
        Err(CopyFault::Clash) => Ok(None),
        Err(CopyFault::Memory) => Err(Memory),
    }
}

/// Puts blocks into a cache, which is given up where two blocks of one hash meet.
pub fn keep_blocks<H: BlockHash>(
    cache: &mut Option<Store<H>>,
    blocks: &[Vec<u8>],
) -> Result<(), Memory>
    ensures takes { OnOk result (Takes H.hashed cache.old (each (λ b. b.items) blocks.now) cache.new) }
    ensures same { OnErr result (cache.new ≡ cache.old) }
{
    let Some(mut store) = cache.take() else {
        return Ok(());
    };
    match store.put_all(blocks) {
        Ok(()) => {
            *cache = Some(store);
            Ok(())
        }
        Err(PutFault::Memory) => {
            *cache = Some(store);
            Err(Memory)
        }
        Err(PutFault::Collision { .. }) => Ok(()),
    }
}
