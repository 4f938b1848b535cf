//! Whether an operation fits a tree.
ghost use Rattle.std.specs.Prelude.{◌≡◌, ◌↔◌, IsTrue, is_some};
ghost use Rattle.kb_name.specs.Names.{is_name};
ghost use Rattle.kb_ops.specs.Trees.{Fits};
ghost use Rattle.kb_ops.specs.Plan.{file_at};
ghost use Rattle.kb_apply.specs.FitTests.{can_go, is_content, creates, is_child, makes_way, has_place, renames, is_write, change_fits};

use kb_name::{Name, NodeId};
use kb_ops::{Bytes, Change, Kind, Op};
use kb_tree::Table;

/// Whether an operation, which may be anyone's, can be done on a table.
pub fn fits(table: &Table, op: &Op) -> bool
    ensures { IsTrue result ↔ Fits op.now table.now.tree }
{
    table.is_well_formed();
    let id = NodeId {
        device: op.device,
        seq: op.seq,
        part: 0,
    };
    change_fits(table, id, &op.change)
}

fn change_fits(table: &Table, id: NodeId, change: &Change) -> bool
    ensures { result ≡ change_fits id table.now.tree change.now }
{
    match change {
        Change::Create {
            parent,
            name,
            kind,
            bytes,
        } => creates(table, id, *parent, name, *kind, bytes),
        Change::Remove { node } => can_go(table, *node),
        Change::Rename {
            node,
            parent,
            name,
            replaced,
        } => renames(table, *node, *parent, name, *replaced),
        Change::Sync {
            node,
            offset,
            bytes,
            length,
        } => is_file(table, *node) && is_write(*offset, bytes, *length),
        Change::Exec { node, .. } => is_file(table, *node),
        Change::Touch { node, .. } => table.get(*node).is_some(),
    }
}

fn is_file(table: &Table, node: NodeId) -> bool
    ensures { result ≡ is_some (file_at table.now.tree node) }
{
    table.file(node).is_some()
}

/// Whether this is the name of a row that isn't the root's.
fn is_name(name: &Name) -> bool
    ensures { result ≡ is_name name.now }
{
    !name.bytes().is_empty()
}

fn creates(
    table: &Table,
    id: NodeId,
    parent: NodeId,
    name: &Name,
    kind: Kind,
    bytes: &Bytes,
) -> bool
    ensures { result ≡ creates id table.now.tree parent name.now kind bytes.now }
{
    table.get(id).is_none()
        && table.is_dir(parent)
        && table.child(parent, name).is_none()
        && is_name(name)
        && is_content(kind, bytes)
}

/// Whether a new row may have these bytes.
fn is_content(kind: Kind, bytes: &Bytes) -> bool
    ensures { result ≡ is_content kind bytes.now }
{
    let count = bytes.as_slice().len();
    count <= 16_777_216 && (kind != Kind::Dir || count == 0)
}

/// Whether a row is there, isn't the root's and has no child.
fn can_go(table: &Table, node: NodeId) -> bool
    ensures { result ≡ can_go table.now.tree node }
{
    table.get(node).is_some() && node != NodeId::ROOT && !table.has_child(node)
}

fn renames(
    table: &Table,
    node: NodeId,
    parent: NodeId,
    name: &Name,
    replaced: Option<NodeId>,
) -> bool
    ensures { result ≡ renames table.now.tree node parent name.now replaced }
{
    table.get(node).is_some()
        && node != NodeId::ROOT
        && table.is_dir(parent)
        && !table.is_below(node, parent)
        && is_name(name)
        && has_place(table, node, parent, name, replaced)
}

/// Whether a place is free, or the row that stands there may make way.
fn has_place(
    table: &Table,
    node: NodeId,
    parent: NodeId,
    name: &Name,
    replaced: Option<NodeId>,
) -> bool
    ensures { result ≡ has_place table.now.tree node parent name.now replaced }
{
    match replaced {
        Some(gone) => makes_way(table, node, parent, name, gone),
        None => table.child(parent, name).is_none(),
    }
}

fn makes_way(table: &Table, node: NodeId, parent: NodeId, name: &Name, gone: NodeId) -> bool
    ensures { result ≡ makes_way table.now.tree node parent name.now gone }
{
    is_child(table, parent, name, gone)
        && gone != node
        && !table.has_child(gone)
        && table.is_dir(gone) == table.is_dir(node)
}

/// Whether this row stands at the place.
fn is_child(table: &Table, parent: NodeId, name: &Name, node: NodeId) -> bool
    ensures { result ≡ is_child table.now.tree parent name.now node }
{
    match table.child(parent, name) {
        Some(there) => there == node,
        None => false,
    }
}

/// Whether a write's numbers are in range.
fn is_write(offset: u32, bytes: &Bytes, length: u32) -> bool
    ensures { result ≡ is_write offset bytes.now length }
{
    let count = bytes.as_slice().len();
    count <= 65_536
        && offset as usize + count <= length as usize
        && length <= 16_777_216
        && (count != 0 || offset == 0)
}
