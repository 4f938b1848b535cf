//! Split files, their copies, and the ids of all rows.
ghost use Rattle.std.specs.Prelude.{◌≡◌, ◌+◌, ◌<◌, ◌≤◌, ◌^◌, ◌++◌, ◌∷◌, [], true, length, map, if◌then◌else◌, IfOk, OnOk, None, Some};
ghost use Rattle.std.specs.Option.{option_copied, option_map, option_to_list};
ghost use Rattle.kb_ops.specs.declared.rows.Row.{Row};
ghost use Rattle.kb_ops.specs.Lists.{rises};
ghost use Rattle.kb_rules.specs.Three.{is_split};
ghost use Rattle.kb_rules.specs.Merge.{copy_id, copy_ids, put_id, put_ids, split_among};
ghost use Rattle.kb_rules.specs.Code.{row_in, ids_of, copies_of};

use super::fates;
use super::found::row;
use super::stamp::Stamp;
use kb_edge::Memory;
use kb_name::NodeId;
use kb_ops::Row;
use std::alloc::{AllocError, Global};
use std::collections::BTreeSet;

fn is_split(base: &[Row], merged: &[Row], ours: &[Row], q: NodeId) -> bool
    requires base { rises base.now ≡ true }
    requires merged { rises merged.now ≡ true }
    requires ours { rises ours.now ≡ true }
    ensures { result ≡ is_split (row_in base.now) (row_in merged.now) (row_in ours.now) q }
{
    fates::is_split(row(merged, q), row(ours, q), row(base, q))
}

fn push_if(ids: &mut Vec<NodeId>, id: NodeId, is_in: bool) -> Result<(), Memory>
    ensures { OnOk result (ids.new.items ≡ ids.old.items ++ (if is_in then id ∷ [] else [])) }
{
    if is_in {
        ids.push(id)?;
    }
    Ok(())
}

/// The split files, in the order of their ids.
pub fn splits_of(
    alloc: Global,
    base: &[Row],
    merged: &[Row],
    ours: &[Row],
) -> Result<Vec<NodeId>, Memory>
    requires base { rises base.now ≡ true }
    requires merged { rises merged.now ≡ true }
    requires ours { rises ours.now ≡ true }
    ensures { IfOk result (λ v. v.items ≡ split_among (row_in base.now) (row_in merged.now) (row_in ours.now) (ids_of merged.now)) }
{
    let mut splits = Vec::new(alloc);
    for row in merged {
        push_if(&mut splits, row.id, is_split(base, merged, ours, row.id))?;
    }
    Ok(splits)
}

/// The id of the copy with a number, from 1.
fn copy_id(stamp: &Stamp, number: u16) -> NodeId
    ensures { result ≡ copy_id stamp.now number }
{
    NodeId {
        device: stamp.device,
        seq: stamp.last,
        part: number,
    }
}

/// A row under another id.
fn under(row: &Row, id: NodeId) -> Result<Row, AllocError>
    ensures { IfOk result (λ same. same ≡ record row.now { id = id }) }
{
    let mut copy = row.clone()?;
    copy.id = id;
    Ok(copy)
}

fn push_copy(copies: &mut Vec<Row>, row: Option<&Row>, id: NodeId) -> Result<(), Memory>
    ensures { OnOk result (copies.new.items ≡ copies.old.items ++ option_to_list (option_map (λ (r : Row). record r { id = id }) (option_copied row.entry))) }
{
    if let Some(row) = row {
        copies.push(under(row, id)?)?;
    }
    Ok(())
}

/// The copies of split files, each ours' row under the id of its copy.
pub fn copies_of(
    alloc: Global,
    stamp: &Stamp,
    splits: &[NodeId],
    ours: &[Row],
) -> Result<Vec<Row>, Memory>
    requires ours { rises ours.now ≡ true }
    requires few { length splits.now < 2 ^ 16 }
    ensures { IfOk result (λ v. v.items ≡ copies_of stamp.now 1 splits.now (row_in ours.now)) }
{
    let mut copies = Vec::new(alloc);
    for i in 0..splits.len() {
        let number = (i + 1) as u16;
        push_copy(&mut copies, row(ours, splits[i]), copy_id(stamp, number))?;
    }
    Ok(copies)
}

fn put(ids: &mut BTreeSet<NodeId>, id: NodeId) -> Result<(), Memory>
    ensures { OnOk result (ids.new.keys ≡ put_id id ids.old.keys) }
{
    ids.insert(id)?;
    Ok(())
}

fn put_rows(ids: &mut BTreeSet<NodeId>, rows: &[Row]) -> Result<(), Memory>
    ensures { OnOk result (ids.new.keys ≡ put_ids (ids_of rows.now) ids.old.keys) }
{
    for row in rows {
        put(ids, row.id)?;
    }
    Ok(())
}

fn put_copies(ids: &mut BTreeSet<NodeId>, stamp: &Stamp, splits: &[NodeId]) -> Result<(), Memory>
    requires { length splits.now < 2 ^ 16 }
    ensures { OnOk result (ids.new.keys ≡ put_ids (copy_ids stamp.now 1 splits.now) ids.old.keys) }
{
    for i in 0..splits.len() {
        let number = (i + 1) as u16;
        put(ids, copy_id(stamp, number))?;
    }
    Ok(())
}

fn listed(alloc: Global, ids: &BTreeSet<NodeId>) -> Result<Vec<NodeId>, Memory>
    ensures { IfOk result (λ v. v.items ≡ ids.now.keys) }
{
    let ids = ids.iter().copied().collect(alloc)?;
    Ok(ids)
}

/// The ids of the rows of merged, of ours and of the copies, in their order.
pub fn all_ids(
    alloc: Global,
    stamp: &Stamp,
    splits: &[NodeId],
    merged: &[Row],
    ours: &[Row],
) -> Result<Vec<NodeId>, Memory>
    requires merged { rises merged.now ≡ true }
    requires few { length splits.now < 2 ^ 16 }
    ensures { IfOk result (λ v. v.items ≡ put_ids (copy_ids stamp.now 1 splits.now) (put_ids (ids_of ours.now) (ids_of merged.now))) }
{
    let mut ids = BTreeSet::new(alloc);
    put_rows(&mut ids, merged)?;
    put_rows(&mut ids, ours)?;
    put_copies(&mut ids, stamp, splits)?;
    listed(alloc, &ids)
}
