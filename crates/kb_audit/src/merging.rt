//! Merging three tables.
ghost use Rattle.std.specs.Prelude.{◌≡◌, ◌<◌, ◌≤◌, ◌^◌, ◌↔◌, IfOk, IsTrue, length};
ghost use Rattle.std.specs.List.{AllByRecursion};
ghost use Rattle.kb_ops.specs.declared.rows.Row.{Row as AnyRow};
ghost use Rattle.kb_ops.specs.Trees.{look};
ghost use Rattle.kb_ops.specs.Lists.{tree_of};
ghost use Rattle.kb_tree.specs.Held.{AreKept};
ghost use Rattle.kb_rules.specs.Meet.{Meet};
ghost use Rattle.kb_rules.specs.Merge.{merge, splits};
ghost use Rattle.kb_audit.specs.Merging.{KindsAt, CommonAt, NoCopyAt, MeetAt, AllMeet, Merges};

use crate::holding::is_same_kind;
use kb_edge::Memory;
use kb_name::NodeId;
use kb_ops::Row;
use kb_rules::{Stamp, merge_laws, merge_rows};
use kb_tree::Table;
use std::alloc::Global;

fn few(rows: &[Row])
    ensures { length rows.now < 2 ^ 57 }
{
    let _count = rows.len();
}

fn kinds_at(a: &Table, b: &Table, id: NodeId) -> bool
    ensures { IsTrue result ↔ KindsAt (look a.now.tree) (look b.now.tree) id }
{
    match a.get(id) {
        None => true,
        Some(row) => match b.get(id) {
            None => true,
            Some(other) => is_same_kind(row.kind, other.kind),
        },
    }
}

fn common_at(base: &Table, merged: &Table, ours: &Table, id: NodeId) -> bool
    ensures { IsTrue result ↔ CommonAt (look base.now.tree) (look merged.now.tree) (look ours.now.tree) id }
{
    merged.get(id).is_none() || ours.get(id).is_none() || base.get(id).is_some()
}

fn no_copy_at(table: &Table, stamp: &Stamp, id: NodeId) -> bool
    ensures { IsTrue result ↔ NoCopyAt stamp.now (look table.now.tree) id }
{
    table.get(id).is_none() || id.device != stamp.device || id.seq != stamp.last || id.part == 0
}

fn meet_at(base: &Table, merged: &Table, ours: &Table, stamp: &Stamp, id: NodeId) -> bool
    ensures { IsTrue result ↔ MeetAt (look base.now.tree) (look merged.now.tree) (look ours.now.tree) stamp.now id }
{
    kinds_at(base, merged, id)
        && kinds_at(base, ours, id)
        && kinds_at(merged, ours, id)
        && common_at(base, merged, ours, id)
        && no_copy_at(base, stamp, id)
        && no_copy_at(merged, stamp, id)
        && no_copy_at(ours, stamp, id)
}

fn meet_all(base: &Table, merged: &Table, ours: &Table, stamp: &Stamp, rows: &[Row]) -> bool
    ensures { IsTrue result ↔ AllByRecursion (λ (r : AnyRow). MeetAt (look base.now.tree) (look merged.now.tree) (look ours.now.tree) stamp.now r.id) rows.now }
{
    'rows: for row in rows {
        if !meet_at(base, merged, ours, stamp, row.id) {
            return false;
        }
    }
    true
}

// Whether all rows of three tables allow that they are merged.
fn can_meet(
    base: &Table,
    merged: &Table,
    ours: &Table,
    stamp: &Stamp,
    base_rows: &[Row],
    merged_rows: &[Row],
    our_rows: &[Row],
) -> bool
    ensures { IsTrue result ↔ AllMeet base.now.tree merged.now.tree ours.now.tree stamp.now base_rows.now merged_rows.now our_rows.now }
{
    meet_all(base, merged, ours, stamp, base_rows)
        && meet_all(base, merged, ours, stamp, merged_rows)
        && meet_all(base, merged, ours, stamp, our_rows)
}

// The merge of rows that can be merged.
fn merge_kept(
    alloc: Global,
    base: &[Row],
    merged: &[Row],
    ours: &[Row],
    stamp: &Stamp,
) -> Result<Table, Memory>
    requires base { AreKept base.now }
    requires merged { AreKept merged.now }
    requires ours { AreKept ours.now }
    requires meet { Meet (tree_of base.now) (tree_of merged.now) (tree_of ours.now) stamp.now }
    requires few { length (splits (tree_of base.now) (tree_of merged.now) (tree_of ours.now)) ≤ 65535 }
    ensures { IfOk result (λ t. t.tree ≡ merge (tree_of base.now) (tree_of merged.now) (tree_of ours.now) stamp.now) }
{
    // The rules' code merges by the first rule alone so far.
    if stamp.rule != 1 {
        return Err(Memory);
    }
    merge_laws(base, merged, ours, stamp);
    let made = merge_rows(alloc, base, merged, ours, stamp)?;
    Table::from_rows(made.rows)
}

/// The merge of three tables, where they can be merged.
pub(crate) fn merge_tables(
    alloc: Global,
    base: &Table,
    merged: &Table,
    ours: &Table,
    stamp: &Stamp,
) -> Result<Option<Table>, Memory>
    requires few { length (splits base.now.tree merged.now.tree ours.now.tree) ≤ 65535 }
    ensures { Merges base.now.tree merged.now.tree ours.now.tree stamp.now result }
{
    let base_rows = base.rows()?;
    let merged_rows = merged.rows()?;
    let our_rows = ours.rows()?;
    let b = base_rows.as_slice();
    let m = merged_rows.as_slice();
    let u = our_rows.as_slice();
    if !can_meet(base, merged, ours, stamp, b, m, u) {
        return Ok(None);
    }
    few(m);
    few(u);
    match merge_kept(alloc, b, m, u, stamp) {
        Ok(table) => Ok(Some(table)),
        Err(Memory) => Err(Memory),
    }
}
