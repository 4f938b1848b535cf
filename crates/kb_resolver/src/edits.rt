//! The edits that make one list of rows of another.
ghost use Rattle.std.specs.Prelude.{◌≡◌, ◌++◌, true, slice_get, IfOk, OnOk};
ghost use Rattle.std.specs.Option.{option_copied};
ghost use Rattle.kb_ops.specs.Lists.{rises, tree_of, place_of};
ghost use Rattle.kb_rules.specs.Code.{row_in};
ghost use Rattle.kb_opchains.specs.Edits.{edited, edits_rise};
ghost use Rattle.kb_opchains.specs.Nets.{same_rows};
ghost use Rattle.kb_actions.specs.Edits.{edit_if, edits_in};

use kb_edge::Memory;
use kb_name::NodeId;
use kb_opchains::Edit;
use kb_ops::Row;
use kb_rules::{Stamp, all_ids};
use std::alloc::Global;

/// How many rows have smaller ids.
fn rows_before(rows: &[Row], id: NodeId) -> usize
    requires { rises rows.now ≡ true }
    ensures { result ≡ place_of id rows.now }
{
    rows.partition_point(|row| row.id < id)
}

fn row_at(rows: &[Row], place: usize) -> Option<&Row>
    ensures { option_copied result ≡ slice_get rows.now place }
{
    rows.get(place)
}

/// The row of an id.
fn row(rows: &[Row], id: NodeId) -> Option<&Row>
    requires { rises rows.now ≡ true }
    ensures { option_copied result ≡ row_in rows.now id }
{
    match row_at(rows, rows_before(rows, id)) {
        Some(row) => if row.id == id { Some(row) } else { None },
        None => None,
    }
}

fn is_same(before: Option<&Row>, after: Option<&Row>) -> bool
    ensures { result ≡ same_rows (option_copied before.entry) (option_copied after.entry) }
{
    match before {
        Some(before) => match after {
            Some(after) => *before == *after,
            None => false,
        },
        None => match after {
            Some(_) => false,
            None => true,
        },
    }
}

fn copied(row: Option<&Row>) -> Result<Option<Row>, Memory>
    ensures { IfOk result (λ copy. copy ≡ option_copied row.entry) }
{
    match row {
        Some(row) => Ok(Some(row.clone()?)),
        None => Ok(None),
    }
}

/// An edit, where the row is to be another one.
fn push_edit(
    edits: &mut Vec<Edit>,
    id: NodeId,
    before: Option<&Row>,
    after: Option<&Row>,
) -> Result<(), Memory>
    ensures { OnOk result (edits.new.items ≡ edits.old.items ++ edit_if id (option_copied before.entry) (option_copied after.entry)) }
{
    if is_same(before, after) {
        return Ok(());
    }
    let row = copied(after)?;
    edits.push(Edit { id, row })?;
    Ok(())
}

/// An edit for each of the ids whose rows differ.
fn edits_at(
    alloc: Global,
    ids: &[NodeId],
    before: &[Row],
    after: &[Row],
) -> Result<Vec<Edit>, Memory>
    requires before { rises before.now ≡ true }
    requires after { rises after.now ≡ true }
    ensures { IfOk result (λ v. v.items ≡ edits_in (row_in before.now) (row_in after.now) ids.now) }
{
    let mut edits = Vec::new(alloc);
    for id in ids {
        push_edit(&mut edits, *id, row(before, *id), row(after, *id))?;
    }
    Ok(edits)
}

/// The edits that make the rows after of those before, all in ascending order of ids.
pub fn edits_between(
    alloc: Global,
    stamp: &Stamp,
    before: &[Row],
    after: &[Row],
) -> Result<Vec<Edit>, Memory>
    requires before { rises before.now ≡ true }
    requires after { rises after.now ≡ true }
    ensures edits { IfOk result (λ v. edited (tree_of before.now) v.items ≡ tree_of after.now) }
    ensures ascending { IfOk result (λ v. edits_rise v.items ≡ true) }
{
    let ids = all_ids(alloc, stamp, &[], before, after)?;
    edits_at(alloc, &ids, before, after)
}
