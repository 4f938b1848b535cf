//! What stands under an id, in lists in ascending order of ids.
ghost use Rattle.std.specs.Prelude.{◌≡◌, ◌≤◌, ◌<◌, true, length, slice_get, IfSome};
ghost use Rattle.std.specs.Option.{option_copied};
ghost use Rattle.kb_ops.specs.Lists.{rises, place_of};
ghost use Rattle.kb_rules.specs.Code.{row_in, ascend, before, place_in};

use kb_name::NodeId;
use kb_ops::Row;

/// How many rows have smaller ids.
fn rows_before(rows: &[Row], id: NodeId) -> usize
    requires { rises rows.now ≡ true }
    ensures { result ≡ place_of id rows.now }
{
    rows.partition_point(|row| row.id < id)
}

pub fn row_at(rows: &[Row], place: usize) -> Option<&Row>
    ensures { option_copied result ≡ slice_get rows.now place }
{
    rows.get(place)
}

/// The row of an id.
pub fn row(rows: &[Row], id: NodeId) -> Option<&Row>
    requires { rises rows.now ≡ true }
    ensures { option_copied result ≡ row_in rows.now id }
{
    match row_at(rows, rows_before(rows, id)) {
        Some(row) => if row.id == id { Some(row) } else { None },
        None => None,
    }
}

/// How many ids are smaller.
fn ids_before(ids: &[NodeId], id: NodeId) -> usize
    requires { ascend ids.now ≡ true }
    ensures { result ≡ before id ids.now }
{
    ids.partition_point(|q| *q < id)
}

pub fn id_at(ids: &[NodeId], place: usize) -> Option<NodeId>
    ensures { result ≡ slice_get ids.now place }
{
    ids.get(place).copied()
}

/// Where an id stands.
pub fn place(ids: &[NodeId], id: NodeId) -> Option<usize>
    requires { ascend ids.now ≡ true }
    ensures is { result ≡ place_in ids.now id }
    ensures within { IfSome result (λ i. i < length ids.now) }
{
    let place = ids_before(ids, id);
    match id_at(ids, place) {
        Some(q) => if q == id { Some(place) } else { None },
        None => None,
    }
}
