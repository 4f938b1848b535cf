//! The pointers that a merge leaves.
ghost use Rattle.std.specs.Prelude.{◌≡◌, true, Some, IfOk, OnOk};
ghost use Rattle.std.specs.List.{AllByRecursion};
ghost use Rattle.std.specs.FinMap as map;
ghost use Rattle.kb_blocks.specs.declared.pointer.Ptr.{Ptr};
ghost use Rattle.kb_name.specs.declared.ids.NodeId.{NodeId};
ghost use Rattle.kb_ops.specs.Trees.{look};
ghost use Rattle.kb_rules.specs.Three.{same_row};
ghost use Rattle.kb_device.specs.Left.{AreOf, StaysBeside, IsStillThere, LeavesSame};

use kb_edge::Memory;
use kb_name::NodeId;
use kb_ops::Row;
use kb_snap::Pointers;
use kb_tree::Table;
use std::alloc::Global;

fn is_same(r: &Row, s: &Row) -> bool
    ensures { result ≡ same_row r.now s.now }
{
    r.id == s.id
        && r.parent == s.parent
        && r.name == s.name
        && r.kind == s.kind
        && r.bytes == s.bytes
        && r.exec == s.exec
        && r.mtime == s.mtime
}

// Only where the table has this row.
fn has_row(table: &Table, row: &Row) -> bool
    ensures { result ≡ true → look table.now.tree row.now.id ≡ Some row.now }
{
    match table.get(row.id) {
        Some(was) => is_same(was, row),
        None => false,
    }
}

// A row of the new tree: unless the old one has it too, the pointers of the rows above its old place and its new one go.
fn forget_changed(pointers: &mut Pointers, old: &Table, row: &Row)
    ensures { (q : NodeId) (p : Ptr) → map.get pointers.new q ≡ Some p → (map.get pointers.old q ≡ Some p) × StaysBeside old.now.tree q row.now }
{
    if has_row(old, row) {
        return;
    }
    pointers.forget(old, row.id);
    pointers.forget(old, row.parent);
}

// A row of the old tree: unless its id is in the new one, its pointer goes, and those of the rows above it.
fn forget_gone(pointers: &mut Pointers, old: &Table, new: &Table, row: &Row)
    ensures { (q : NodeId) (p : Ptr) → map.get pointers.new q ≡ Some p → (map.get pointers.old q ≡ Some p) × IsStillThere old.now.tree new.now.tree q row.now }
{
    if new.get(row.id).is_some() {
        return;
    }
    pointers.forget(old, row.id);
}

fn forget_all_changed(pointers: &mut Pointers, old: &Table, rows: &[Row])
    ensures { (q : NodeId) (p : Ptr) → map.get pointers.new q ≡ Some p → (map.get pointers.old q ≡ Some p) × AllByRecursion (StaysBeside old.now.tree q) rows.now }
{
    for row in rows {
        forget_changed(pointers, old, row);
    }
}

fn forget_all_gone(pointers: &mut Pointers, old: &Table, new: &Table, rows: &[Row])
    ensures { (q : NodeId) (p : Ptr) → map.get pointers.new q ≡ Some p → (map.get pointers.old q ≡ Some p) × AllByRecursion (IsStillThere old.now.tree new.now.tree q) rows.now }
{
    for row in rows {
        forget_gone(pointers, old, new, row);
    }
}

// The pointer of one more row.
fn keep_pointer(left: &mut Pointers, kept: &Pointers, id: NodeId) -> Result<(), Memory>
    ensures { OnOk result (AreOf left.old kept.now → AreOf left.new kept.now) }
{
    match kept.get(id) {
        Some(ptr) => left.set(id, ptr),
        None => Ok(()),
    }
}

// The pointers of these rows.
fn pointers_of(alloc: Global, kept: &Pointers, rows: &[Row]) -> Result<Pointers, Memory>
    ensures { IfOk result (λ left. AreOf left kept.now) }
{
    let mut left = Pointers::new(alloc);
    for row in rows {
        keep_pointer(&mut left, kept, row.id)?;
    }
    Ok(left)
}

/// The pointers of an old tree's rows that hold the same rows of a new one: those of the rows that changed are dropped, with
/// those of the rows above them.
pub fn left_by_merge(
    alloc: Global,
    kept: &Pointers,
    old: &Table,
    new: &Table,
) -> Result<Pointers, Memory>
    ensures { IfOk result (λ left. LeavesSame old.now.tree new.now.tree kept.now left) }
{
    let old_rows = old.rows()?;
    let new_rows = new.rows()?;
    let mut left = pointers_of(alloc, kept, old_rows.as_slice())?;
    forget_all_gone(&mut left, old, new, old_rows.as_slice());
    forget_all_changed(&mut left, old, new_rows.as_slice());
    Ok(left)
}
