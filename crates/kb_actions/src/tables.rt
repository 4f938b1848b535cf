//! A table that is changed by edits.
ghost use Rattle.std.specs.Prelude.{◌≡◌, ◌<◌, ◌≤◌, true, length, is_some, slice_get, IfSome, IfOk, OnOk};
ghost use Rattle.std.specs.FinMap as map;
ghost use Rattle.std.specs.Option.{option_copied};
ghost use Rattle.kb_ops.specs.Trees.{look, IsWellFormed};
ghost use Rattle.kb_ops.specs.Lists.{rises, tree_of, place_of};
ghost use Rattle.kb_opchains.specs.Edits.{with_row, edited, edits_rise};
ghost use Rattle.kb_actions.specs.Edits.{IsOfIt};

use kb_edge::Memory;
use kb_name::NodeId;
use kb_opchains::Edit;
use kb_ops::Row;
use kb_tree::Table;

/// How many rows have smaller ids.
fn rows_before(rows: &[Row], id: NodeId) -> usize
    requires { rises rows.now ≡ true }
    ensures is { result ≡ place_of id rows.now }
    ensures within { result ≤ length rows.now }
{
    rows.partition_point(|row| row.id < id)
}

fn row_at(rows: &[Row], place: usize) -> Option<&Row>
    ensures is { option_copied result ≡ slice_get rows.now place }
    ensures within { IfSome result (λ _. place < length rows.now) }
{
    rows.get(place)
}

/// Whether the row in a place has the id.
fn has_id(rows: &[Row], place: usize, id: NodeId) -> bool
    requires rise { rises rows.now ≡ true }
    requires place { place ≡ place_of id rows.now }
    ensures is { result ≡ is_some (look (tree_of rows.now) id) }
    ensures within { result ≡ true → place < length rows.now }
{
    match row_at(rows, place) {
        Some(row) => row.id == id,
        None => false,
    }
}

/// Puts a row in its place, in which one of its id may stand.
fn put_row(rows: &mut Vec<Row>, row: Row) -> Result<(), Memory>
    requires { rises rows.old.items ≡ true }
    ensures rise { OnOk result (rises rows.new.items ≡ true) }
    ensures tree { OnOk result (tree_of rows.new.items ≡ map.insert (tree_of rows.old.items) row.id row) }
{
    let place = rows_before(rows, row.id);
    if has_id(rows, place, row.id) {
        rows[place] = row;
        return Ok(());
    }
    rows.insert(place, row)?;
    Ok(())
}

/// Takes out the row of an id, if there is one.
fn take_row(rows: &mut Vec<Row>, id: NodeId)
    requires { rises rows.old.items ≡ true }
    ensures rise { rises rows.new.items ≡ true }
    ensures tree { tree_of rows.new.items ≡ map.remove (tree_of rows.old.items) id }
{
    let place = rows_before(rows, id);
    if has_id(rows, place, id) {
        let _ = rows.remove(place);
    }
}

fn edit_rows(rows: &mut Vec<Row>, edit: &Edit) -> Result<(), Memory>
    requires rise { rises rows.old.items ≡ true }
    requires of { IsOfIt edit.now }
    ensures rise { OnOk result (rises rows.new.items ≡ true) }
    ensures tree { OnOk result (tree_of rows.new.items ≡ with_row (tree_of rows.old.items) edit.now.id edit.now.row) }
{
    match &edit.row {
        Some(row) => put_row(rows, row.clone()?),
        None => {
            take_row(rows, edit.id);
            Ok(())
        }
    }
}

/// The table of the edited tree, which is well formed. The edits are in ascending order of ids, each once.
pub fn edit_table(table: &Table, edits: &[Edit]) -> Result<Table, Memory>
    requires rise { edits_rise edits.now ≡ true }
    requires formed { IsWellFormed (edited table.now.tree edits.now) }
    ensures { IfOk result (λ t. t.tree ≡ edited table.now.tree edits.now) }
{
    let mut rows = table.rows()?;
    for edit in edits {
        edit_rows(&mut rows, edit)?;
    }
    Table::from_rows(rows)
}
