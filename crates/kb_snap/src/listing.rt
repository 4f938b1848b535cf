//! The entries of a directory of a table.
ghost use Rattle.std.specs.Prelude.{◌≡◌, ◌≤◌, length, IfOk, IsSome, Some};
ghost use Rattle.std.specs.FinMap as map;
ghost use Rattle.kb_ops.specs.Trees.{look};
ghost use Rattle.kb_dirs.specs.Dirs.{AreProper};
ghost use Rattle.kb_dirs.specs.declared.entries.Entry.{Entry};
ghost use Rattle.kb_snap.specs.Holds.{IsOneOf, IsEntryOf, AreChildren};
ghost use Rattle.kb_snap.specs.Builds.{IsEntryAt, ArePointed};

use crate::pointers::Pointers;
use kb_blocks::Ptr;
use kb_dirs::Entry;
use kb_edge::Memory;
use kb_name::NodeId;
use kb_ops::Row;
use kb_tree::Table;
use std::alloc::Global;

fn entry_of(row: &Row, ptr: Ptr) -> Result<Entry, Memory>
    requires { length row.now.bytes ≤ 16777216 }
    ensures { IfOk result (λ e. IsEntryOf e row.now × (e.ptr ≡ ptr)) }
{
    let size = row.bytes.as_slice().len() as u32;
    Ok(Entry {
        name: row.name.clone()?,
        id: row.id,
        kind: row.kind,
        exec: row.exec,
        mtime: row.mtime,
        size,
        ptr,
    })
}

fn entry_at(table: &Table, pointers: &Pointers, id: NodeId) -> Result<Entry, Memory>
    requires row { IsSome (look table.now.tree id) }
    requires pointed { IsSome (map.get pointers.now id) }
    ensures { IfOk result (λ e. IsEntryAt (look table.now.tree) (map.get pointers.now) id e) }
{
    let Some(ptr) = pointers.get(id) else {
        unreachable!()
    };
    let Some(row) = table.get(id) else {
        unreachable!()
    };
    Ok(entry_of(row, ptr)?)
}

/// The entries of a row's children, all of which have pointers.
pub(crate) fn entries_below(
    alloc: Global,
    table: &Table,
    pointers: &Pointers,
    parent: NodeId,
) -> Result<Vec<Entry>, Memory>
    requires { ArePointed (look table.now.tree) (map.get pointers.now) parent }
    ensures proper { IfOk result (λ es. AreProper es.items) }
    ensures children { IfOk result (λ es. AreChildren (look table.now.tree) parent es.items) }
    ensures pointed { IfOk result (λ es. (e : Entry) → IsOneOf e es.items → map.get pointers.now e.id ≡ Some e.ptr) }
{
    table.is_well_formed();
    let children = table.children(parent)?;
    let mut entries = Vec::with_capacity(alloc, children.len())?;
    for id in &children {
        let entry = entry_at(table, pointers, *id)?;
        entries.push(entry)?;
    }
    Ok(entries)
}
