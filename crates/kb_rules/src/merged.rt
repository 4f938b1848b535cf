//! The rows of a merge.
ghost use Rattle.std.specs.Prelude.{◌≡◌, ◌++◌, if◌then◌else◌, Option, Some, List, ℕ, IfOk, OnOk};
ghost use Rattle.std.specs.List.{filter_map};
ghost use Rattle.std.specs.Option.{option_copied, option_map, option_to_list, unwrap_or};
ghost use Rattle.kb_ops.specs.declared.rows.Row.{Row};
ghost use Rattle.kb_rules.specs.Three.{mixed_mtime, mixed, fields_by};
ghost use Rattle.kb_rules.specs.Code.{AreSeats, base_in, merged_in, ours_in};
ghost use Rattle.kb_rules.specs.Naming.{name_of, row_by};

use super::seats::Seats;
use kb_edge::Memory;
use kb_name::{Moment, Name, NodeId};
use kb_ops::Row;
use std::alloc::{AllocError, Global};
use std::collections::BTreeMap;

fn mixed_mtime(merged: Moment, ours: Moment, base: Moment) -> Moment
    ensures { result ≡ mixed_mtime merged ours base }
{
    if merged == base {
        ours
    } else if ours == base || ours <= merged {
        merged
    } else {
        ours
    }
}

/// The fields of a row, in another directory and under another name.
fn placed(row: &Row, parent: NodeId, name: Name) -> Result<Row, AllocError>
    ensures { IfOk result (λ f. f ≡ record row.now { parent = parent; name = name }) }
{
    let bytes = row.bytes.clone()?;
    Ok(Row {
        id: row.id,
        parent,
        name,
        kind: row.kind,
        bytes,
        exec: row.exec,
        mtime: row.mtime,
    })
}

/// The fields of a row of all three trees: each is that of ours where merged has base's, and else merged's; the time
/// is the greater where both changed it.
fn mixed(
    merged: &Row,
    ours: &Row,
    base: &Row,
    parent: NodeId,
    name: Name,
) -> Result<Row, AllocError>
    ensures { IfOk result (λ f. f ≡ record (mixed merged.now ours.now base.now) { parent = parent; name = name }) }
{
    let bytes = if merged.bytes == base.bytes {
        ours.bytes.clone()?
    } else {
        merged.bytes.clone()?
    };
    let exec = if merged.exec == base.exec {
        ours.exec
    } else {
        merged.exec
    };
    Ok(Row {
        id: merged.id,
        parent,
        name,
        kind: merged.kind,
        bytes,
        exec,
        mtime: mixed_mtime(merged.mtime, ours.mtime, base.mtime),
    })
}

/// The fields of the row of an id, in another directory and under another name.
fn fields(
    merged: Option<&Row>,
    ours: Option<&Row>,
    base: Option<&Row>,
    parent: NodeId,
    name: Name,
) -> Result<Option<Row>, AllocError>
    ensures { IfOk result (λ o. o ≡ option_map (λ (f : Row). record f { parent = parent; name = name })
        (fields_by (option_copied merged.entry) (option_copied ours.entry) (option_copied base.entry))) }
{
    match merged {
        None => match ours {
            None => Ok(None),
            Some(ours) => Ok(Some(placed(ours, parent, name)?)),
        },
        Some(merged) => match ours {
            None => Ok(Some(placed(merged, parent, name)?)),
            Some(ours) => match base {
                None => Ok(Some(placed(merged, parent, name)?)),
                Some(base) => Ok(Some(mixed(merged, ours, base, parent, name)?)),
            },
        },
    }
}

/// The name that the row of an id was given, or else its own.
#[tactic(auto, unfolding(crate::specs::Naming::name_of))]
fn name(names: &BTreeMap<NodeId, Name>, q: NodeId, own: &Name) -> Result<Name, AllocError>
    ensures { IfOk result (λ n. n ≡ unwrap_or (name_of names.now q) own.now) }
{
    match names.get(&q) {
        Some(given) => given.clone(),
        None => own.clone(),
    }
}

/// The row of an id in the merge.
#[tactic(auto, unfolding(crate::specs::Naming::row_by))]
pub fn merged_row(
    seats: &Seats,
    names: &BTreeMap<NodeId, Name>,
    q: NodeId,
) -> Result<Option<Row>, AllocError>
    requires { AreSeats seats.now }
    ensures { IfOk result (λ o. o ≡ row_by seats.now.sides.now (name_of names.now q) q) }
{
    match seats.left(q) {
        Some(row) => {
            let name = name(names, q, &row.name)?;
            let sides = seats.sides;
            fields(
                sides.merged(q),
                sides.ours(q),
                sides.base(q),
                seats.into(row.parent),
                name,
            )
        }
        None => Ok(None),
    }
}

fn push_some(rows: &mut Vec<Row>, row: Option<Row>) -> Result<(), Memory>
    ensures { OnOk result (rows.new.items ≡ rows.old.items ++ option_to_list row) }
{
    if let Some(row) = row {
        rows.push(row)?;
    }
    Ok(())
}

/// The rows of the merge, in ascending order of ids.
pub fn merged_rows(
    alloc: Global,
    seats: &Seats,
    names: &BTreeMap<NodeId, Name>,
) -> Result<Vec<Row>, Memory>
    requires { AreSeats seats.now }
    ensures { IfOk result (λ v. v.items
        ≡ filter_map (λ q. row_by seats.now.sides.now (name_of names.now q) q) seats.now.sides.now.ids.now) }
{
    let mut rows = Vec::new(alloc);
    let ids = seats.sides.ids;
    for q in ids {
        let row = merged_row(seats, names, *q)?;
        push_some(&mut rows, row)?;
    }
    Ok(rows)
}
