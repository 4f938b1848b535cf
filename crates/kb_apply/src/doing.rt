//! Doing an operation: first all memory is taken, and then nothing can fail.
ghost use Rattle.std.specs.Prelude.{◌≡◌, ◌≤◌, length, max, IfOk, IfSome, OnOk};
ghost use Rattle.std.specs.Option.{option_copied};
ghost use Rattle.std.specs.Vec.{vec_capacity};
ghost use Rattle.std.specs.FinMap as map;
ghost use Rattle.kb_ops.specs.Trees as trees;
ghost use Rattle.kb_ops.specs.Rows.{FitsRename};
ghost use Rattle.kb_ops.specs.Trees.{look, edit, make_way, apply_change, Fits, FitsChange};
ghost use Rattle.kb_apply.specs.Prepared.{done, CanGo, HasRoom, HasSpare, IsReady};

use kb_edge::Memory;
use kb_name::{Moment, Name, NodeId};
use kb_ops::{Change, Op, Row};
use kb_tree::Table;
use std::alloc::Global;

/// An operation with all that it needs to be done without memory. A file's bytes move to the spare buffer where a write
/// makes them more than they have room for.
#[derive(Debug, Drop)]
pub struct Prepared {
    pub op: Op,
    pub spare: Vec<u8>,
}

/// Takes all the memory that an operation needs, which fits the table. No row is copied.
pub fn prepare(alloc: Global, table: &mut Table, op: &Op) -> Result<Prepared, Memory>
    requires { Fits op.now table.old.tree }
    ensures tree { table.new.tree ≡ table.old.tree }
    ensures ready { IfOk result (λ p. IsReady p table.old.tree table.new.room) }
    ensures does { IfOk result (λ p. done p table.old.tree ≡ trees.apply op.now table.old.tree) }
{
    let own = owned(op)?;
    let spare = spare_for(alloc, table, &own.change)?;
    Ok(Prepared { op: own, spare })
}

fn owned(op: &Op) -> Result<Op, Memory>
    ensures { IfOk result (λ own. own ≡ op.now) }
{
    let own = op.clone()?;
    Ok(own)
}

/// Makes room for the row that a change adds, if it adds one, and the spare buffer.
fn spare_for(alloc: Global, table: &mut Table, change: &Change) -> Result<Vec<u8>, Memory>
    ensures tree { table.new.tree ≡ table.old.tree }
    ensures room { OnOk result (HasRoom change.now table.new.room) }
    ensures spare { IfOk result (λ spare. HasSpare change.now (vec_capacity spare) table.old.tree) }
{
    match change {
        Change::Create { .. } => {
            table.reserve()?;
            Ok(Vec::new(alloc))
        }
        Change::Remove { .. } => Ok(Vec::new(alloc)),
        Change::Rename { .. } => Ok(Vec::new(alloc)),
        Change::Sync { node, length, .. } => spare_of(alloc, table.get(*node), *length as usize),
        Change::Exec { .. } => Ok(Vec::new(alloc)),
        Change::Touch { .. } => Ok(Vec::new(alloc)),
    }
}

/// A buffer for the bytes of a row that a write makes more. It has room for twice the old ones, so that a file which
/// grows by small writes moves seldom.
fn spare_of(alloc: Global, row: Option<&Row>, size: usize) -> Result<Vec<u8>, Memory>
    ensures { IfOk result (λ spare. IfSome (option_copied row.entry) (λ r. size ≤ max (length r.bytes) (vec_capacity spare))) }
{
    let Some(row) = row else {
        return Ok(Vec::new(alloc));
    };
    let old = row.bytes.as_slice().len();
    if size <= old {
        return Ok(Vec::new(alloc));
    }
    let spare = Vec::with_capacity(alloc, size.max(old.saturating_mul(2)))?;
    Ok(spare)
}

/// Does a prepared operation, for which all is there.
pub fn apply(table: &mut Table, prepared: Prepared)
    requires { IsReady prepared table.old.tree table.old.room }
    ensures { table.new.tree ≡ done prepared table.old.tree }
{
    let Prepared { op, spare } = prepared;
    let Op {
        device,
        seq,
        moment,
        change,
    } = op;
    let id = NodeId {
        device,
        seq,
        part: 0,
    };
    carry_out(table, id, moment, change, spare)
}

fn carry_out(table: &mut Table, id: NodeId, moment: Moment, change: Change, spare: Vec<u8>)
    requires fits { FitsChange id moment change table.old.tree }
    requires room { HasRoom change table.old.room }
    requires spare { HasSpare change (vec_capacity spare) table.old.tree }
    ensures { table.new.tree ≡ apply_change id moment change table.old.tree }
{
    match change {
        Change::Create {
            parent,
            name,
            kind,
            bytes,
        } => table.insert(Row {
            id,
            parent,
            name,
            kind,
            bytes,
            exec: false,
            mtime: moment,
        }),
        Change::Remove { node } => {
            let _ = table.remove(node);
        }
        Change::Rename {
            node,
            parent,
            name,
            replaced,
        } => rename(table, node, parent, name, replaced),
        Change::Sync {
            node,
            offset,
            bytes,
            length,
        } => table.write(node, offset, bytes.as_slice(), length, moment, spare),
        Change::Exec { node, on } => table.set_exec(node, on),
        Change::Touch { node, mtime } => table.set_mtime(node, mtime),
    }
}

fn rename(table: &mut Table, node: NodeId, parent: NodeId, name: Name, gone: Option<NodeId>)
    requires { FitsRename (map.len table.old.tree) (look table.old.tree) node parent name gone }
    ensures { table.new.tree ≡ edit (make_way table.old.tree gone) node (λ r. record r { parent = parent; name = name }) }
{
    table.is_well_formed();
    make_way(table, gone);
    table.relocate(node, parent, name)
}

/// Takes out the row that goes first, if one does.
fn make_way(table: &mut Table, gone: Option<NodeId>)
    requires { CanGo gone table.old.tree }
    ensures tree { table.new.tree ≡ make_way table.old.tree gone }
    ensures room { table.old.room ≤ table.new.room }
{
    if let Some(gone) = gone {
        let _ = table.remove(gone);
    }
}
