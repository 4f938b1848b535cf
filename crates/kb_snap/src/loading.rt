//! Reading a tree from its blocks.
ghost use Rattle.std.specs.Prelude.{◌≡◌, ◌++◌, IfOk, IfErr, OnOk, OnErr, is_some, Some, Err};
ghost use Rattle.std.specs.FinMap as map;
ghost use Rattle.kb_name.specs.declared.ids.NodeId.{NodeId};
ghost use Rattle.kb_name.specs.Nodes.{root as root_id};
ghost use Rattle.kb_ops.specs.Trees.{look};
ghost use Rattle.kb_keys.specs.Rings.{key_at};
ghost use Rattle.kb_files.specs.Opens.{Opens, Reads};
ghost use Rattle.kb_snap.specs.Holds.{HoldsTree, HoldsEach};
ghost use Rattle.kb_snap.specs.Pointers.{AllHold};
ghost use Rattle.kb_snap.specs.Reads.{stacked, row_of, root_of, ReadsDir, ReadsBytes, StopsFirst};

use crate::pointers::Pointers;
use crate::rows::Rows;
use kb_blocks::{BlockHash, Hash, Ptr, Store};
use kb_dirs::{Entry, list_dir};
use kb_edge::Memory;
use kb_files::{LoadFault, join};
use kb_keys::KeyRing;
use kb_name::{Moment, NodeId};
use kb_ops::{Bytes, Kind, Row};
use kb_seal::Sealer;
use kb_tree::Table;
use std::alloc::Global;

/// An entry that is still to be read, its directory, and the id of the block that it stands in.
#[derive(Drop)]
pub(crate) struct Waiting {
    parent: NodeId,
    block: Hash,
    entry: Entry,
}

// Puts the entries of a directory behind those that wait, the first at the end.
fn wait(
    waiting: &mut Vec<Waiting>,
    parent: NodeId,
    block: Hash,
    mut entries: Vec<Entry>,
) -> Result<(), Memory>
    ensures { OnOk result (waiting.new.items ≡ waiting.old.items ++ stacked parent block entries.items) }
{
    while let Some(entry) = entries.pop() {
        waiting.push(Waiting {
            parent,
            block,
            entry,
        })?;
    }
    Ok(())
}

// The entries of the directory that the entry's pointer holds wait then.
fn read_dir<S: Sealer, H: BlockHash>(
    alloc: Global,
    next: &Waiting,
    keys: &KeyRing,
    store: &Store<H>,
    waiting: &mut Vec<Waiting>,
) -> Result<(), LoadFault>
    ensures { ReadsDir (Opens S.sealed H.hashed (map.get store.now) (key_at keys.now)) (map.get store.now) next.now waiting.old.items waiting.new.items result }
{
    let id = next.entry.ptr.id;
    let entries = match list_dir::<S, H>(alloc, next.entry.ptr, keys, store) {
        Ok(entries) => entries,
        Err(fault) => return Err(fault),
    };
    match wait(waiting, next.entry.id, id, entries) {
        Ok(()) => Ok(()),
        Err(Memory) => Err(LoadFault::Memory),
    }
}

// What the entry's pointer holds: the bytes of a file or a link, or none and a directory, whose entries wait then.
fn read_bytes<S: Sealer, H: BlockHash>(
    alloc: Global,
    next: &Waiting,
    keys: &KeyRing,
    store: &Store<H>,
    waiting: &mut Vec<Waiting>,
) -> Result<Vec<u8>, LoadFault>
    ensures { ReadsBytes (Opens S.sealed H.hashed (map.get store.now) (key_at keys.now)) (map.get store.now) next.now waiting.old.items waiting.new.items result }
{
    match next.entry.kind {
        Kind::Dir => match read_dir::<S, H>(alloc, next, keys, store, waiting) {
            Ok(()) => Ok(Vec::new(alloc)),
            Err(fault) => Err(fault),
        },
        Kind::File => join::<S, H>(alloc, next.entry.ptr, next.entry.size, keys, store),
        Kind::Link => join::<S, H>(alloc, next.entry.ptr, next.entry.size, keys, store),
    }
}

fn row_of(next: Waiting, bytes: Vec<u8>) -> Row
    ensures { result ≡ row_of next bytes.items }
{
    let entry = next.entry;
    Row {
        id: entry.id,
        parent: next.parent,
        name: entry.name,
        kind: entry.kind,
        bytes: Bytes::new(bytes),
        exec: entry.exec,
        mtime: entry.mtime,
    }
}

fn root_row(alloc: Global, mtime: Moment) -> Row
    ensures { result ≡ root_of mtime }
{
    let mut row = Row::root(alloc);
    row.mtime = mtime;
    row
}

// Keeps a row that was read, with its pointer.
fn keep(rows: &mut Rows, pointers: &mut Pointers, row: Row, ptr: Ptr) -> Result<(), LoadFault>
    ensures rows { OnOk result (rows.new ≡ map.insert rows.old row.id row) }
    ensures pointers { OnOk result (pointers.new ≡ map.insert pointers.old row.id ptr) }
    ensures memory { OnErr result (result ≡ Err LoadFault.Memory) }
{
    match pointers.set(row.id, ptr) {
        Ok(()) => {}
        Err(_) => return Err(LoadFault::Memory),
    }
    match rows.add(row) {
        Ok(()) => Ok(()),
        Err(_) => Err(LoadFault::Memory),
    }
}

/// The tree that the pointer holds, whose root has this mtime, and the pointers of its rows. A directory's entries are
/// read in their order, each with all that is below it before the next.
///
/// A directory's block that has an entry with the root's id, or with an id that came in an entry read before, is bad:
/// so no tree of blocks is read without end. A refusal names the first block in this order that isn't stored or isn't
/// right at its place.
pub fn load<S: Sealer, H: BlockHash>(
    alloc: Global,
    root: Ptr,
    mtime: Moment,
    keys: &KeyRing,
    store: &Store<H>,
) -> Result<(Table, Pointers), LoadFault>
    ensures reads { Reads (map.get store.now) (λ made. made.0.tree) (HoldsTree (Opens S.sealed H.hashed (map.get store.now) (key_at keys.now)) root mtime) result }
    ensures first { IfErr result (StopsFirst (Opens S.sealed H.hashed (map.get store.now) (key_at keys.now)) (map.get store.now) root mtime) }
    ensures pointers { IfOk result (λ made. AllHold (Opens S.sealed H.hashed (map.get store.now) (key_at keys.now)) (look made.0.tree) made.1) }
    ensures each { IfOk result (λ made. HoldsEach (Opens S.sealed H.hashed (map.get store.now) (key_at keys.now)) (look made.0.tree) root (map.get made.1)) }
    ensures all { IfOk result (λ made. (q : NodeId) → is_some (map.get made.1 q) ≡ is_some (look made.0.tree q)) }
    ensures top { IfOk result (λ made. map.get made.1 root_id ≡ Some root) }
{
    let id = root.id;
    let entries = match list_dir::<S, H>(alloc, root, keys, store) {
        Ok(entries) => entries,
        Err(fault) => return Err(fault),
    };
    let mut waiting = Vec::new(alloc);
    match wait(&mut waiting, NodeId::ROOT, id, entries) {
        Ok(()) => {}
        Err(Memory) => return Err(LoadFault::Memory),
    }
    let mut rows = Rows::new(alloc);
    let mut pointers = Pointers::new(alloc);
    match keep(&mut rows, &mut pointers, root_row(alloc, mtime), root) {
        Ok(()) => {}
        Err(fault) => return Err(fault),
    }
    'entries: while let Some(next) = waiting.pop() {
        // Each turn keeps one pointer more, and there is no room for them without end.
        let _ = pointers.len();
        let ptr = next.entry.ptr;
        if pointers.has(next.entry.id) {
            return Err(LoadFault::BadBlock { id: next.block });
        }
        let bytes = match read_bytes::<S, H>(alloc, &next, keys, store, &mut waiting) {
            Ok(bytes) => bytes,
            Err(fault) => return Err(fault),
        };
        match keep(&mut rows, &mut pointers, row_of(next, bytes), ptr) {
            Ok(()) => {}
            Err(fault) => return Err(fault),
        }
    }
    match rows.into_table(alloc) {
        Ok(table) => Ok((table, pointers)),
        Err(Memory) => Err(LoadFault::Memory),
    }
}
