//! Whether a pointer holds a tree.
ghost use Rattle.std.specs.Prelude.{◌≡◌, ◌↔◌, IfOk, IsTrue};
ghost use Rattle.std.specs.FinMap as map;
ghost use Rattle.kb_keys.specs.Rings.{key_at};
ghost use Rattle.kb_files.specs.Opens.{Opens};
ghost use Rattle.kb_snap.specs.Holds.{HoldsTree};

use kb_blocks::{BlockHash, Ptr, Store};
use kb_edge::Memory;
use kb_files::LoadFault;
use kb_keys::KeyRing;
use kb_name::{Moment, Name, NodeId};
use kb_ops::{Bytes, Kind, Row};
use kb_seal::Sealer;
use kb_snap::{load, one_tree_law};
use kb_tree::Table;
use std::alloc::Global;

fn is_same_node(a: NodeId, b: NodeId) -> bool
    ensures { IsTrue result ↔ (a ≡ b) }
{
    a == b
}

fn is_same_name(a: &Name, b: &Name) -> bool
    ensures { IsTrue result ↔ (a.now ≡ b.now) }
{
    a == b
}

pub(crate) fn is_same_kind(a: Kind, b: Kind) -> bool
    ensures { IsTrue result ↔ (a ≡ b) }
{
    a == b
}

fn is_same_text(a: &Bytes, b: &Bytes) -> bool
    ensures { IsTrue result ↔ (a.now ≡ b.now) }
{
    a == b
}

fn is_same_moment(a: Moment, b: Moment) -> bool
    ensures { IsTrue result ↔ (a ≡ b) }
{
    a == b
}

fn is_same_row(a: &Row, b: &Row) -> bool
    ensures { IsTrue result ↔ (a.now ≡ b.now) }
{
    is_same_node(a.id, b.id)
        && is_same_node(a.parent, b.parent)
        && is_same_name(&a.name, &b.name)
        && is_same_kind(a.kind, b.kind)
        && is_same_text(&a.bytes, &b.bytes)
        && a.exec == b.exec
        && is_same_moment(a.mtime, b.mtime)
}

fn are_same(a: &[Row], b: &[Row]) -> bool
    ensures { IsTrue result ↔ (a.now ≡ b.now) }
{
    if a.len() != b.len() {
        return false;
    }
    'rows: for i in 0..a.len() {
        if !is_same_row(&a[i], &b[i]) {
            return false;
        }
    }
    true
}

fn is_same_tree(a: &Table, b: &Table) -> Result<bool, Memory>
    ensures { IfOk result (λ same. IsTrue same ↔ (a.now.tree ≡ b.now.tree)) }
{
    let rows = a.rows()?;
    let others = b.rows()?;
    Ok(are_same(rows.as_slice(), others.as_slice()))
}

/// Whether the pointer holds the table's tree, the root's mtime being this one.
pub(crate) fn holds<S: Sealer, H: BlockHash>(
    alloc: Global,
    table: &Table,
    root: Ptr,
    mtime: Moment,
    keys: &KeyRing,
    store: &Store<H>,
) -> Result<bool, Memory>
    ensures { IfOk result (λ b. IsTrue b ↔ HoldsTree (Opens S.sealed H.hashed (map.get store.now) (key_at keys.now)) root mtime table.now.tree) }
{
    one_tree_law::<S, H>();
    match load::<S, H>(alloc, root, mtime, keys, store) {
        Ok((held, _pointers)) => is_same_tree(&held, table),
        Err(LoadFault::Missing { .. }) => Ok(false),
        Err(LoadFault::BadBlock { .. }) => Ok(false),
        Err(LoadFault::Memory) => Err(Memory),
    }
}
