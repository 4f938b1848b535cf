//! Lists of slots in the order of the rows' places: by parent, and then by name.
ghost use Rattle.std.specs.Prelude.{◌≡◌, ◌≤◌, ◌<◌, true, not, IfOk, filter, length, slice_get, vec_len};
ghost use Rattle.std.specs.List.{remove};
ghost use Rattle.std.specs.Vec.{vec_capacity};
ghost use Rattle.std.specs.List.Sorted.{IsPermutation, IsSortedBy};
ghost use Rattle.std.specs.Ordering.{is_lt};
ghost use Rattle.kb_name.specs.Nodes.{root, same_node};
ghost use Rattle.std.specs.FinMap.Entries as entries;
ghost use Rattle.kb_ops.specs.Sorted.{place_in_order};
ghost use Rattle.std.specs.Option.{option_copied};
ghost use Rattle.kb_ops.specs.Spots.{spot_cmp, spot_of};
ghost use Rattle.kb_tree.specs.Slots.{row_in, spot_in, spots_in, redirected, spot_place, IsMoved, followed, moved};

use super::slots::{id_in, put, put_over, row_in, slot_at};
use kb_edge::Memory;
use kb_name::{Name, NodeId};
use kb_ops::Row;
use std::alloc::Global;
use std::cmp::Ordering;

/// Where the slot of a place is among slots in the order of places, or would go.
pub fn place(rows: &[Row], slots: &[u32], parent: NodeId, name: &Name) -> usize
    requires { entries.is_sorted spot_cmp (spots_in rows.now slots.now) ≡ true }
    ensures is { result ≡ place_in_order spot_cmp (parent, name.now) (spots_in rows.now slots.now) }
    ensures within { result ≤ length slots.now }
{
    slots.partition_point(|slot| compare(rows, *slot, parent, name).is_lt())
}

/// The id of the row at a place.
pub fn child(rows: &[Row], slots: &[u32], parent: NodeId, name: &Name) -> Option<NodeId>
    requires { entries.is_sorted spot_cmp (spots_in rows.now slots.now) ≡ true }
    ensures { result ≡ entries.find spot_cmp (parent, name.now) (spots_in rows.now slots.now) }
{
    match slot_at(slots, place(rows, slots, parent, name)) {
        Some(slot) => {
            if compare(rows, slot, parent, name).is_eq() {
                Some(id_in(rows, slot))
            } else {
                None
            }
        }
        None => None,
    }
}

/// How the place of a slot's row compares with another place.
pub fn compare(rows: &[Row], slot: u32, parent: NodeId, name: &Name) -> Ordering
    ensures { result ≡ spot_cmp (spot_in rows.now slot).0 (parent, name.now) }
{
    let spot = spot_in(rows, slot);
    match spot.0.cmp(&parent) {
        Ordering::Equal => spot.1.cmp(name.bytes()),
        apart => apart,
    }
}

/// The slots of the rows with a parent.
pub fn of_parent<'a>(rows: &[Row], slots: &'a [u32], parent: NodeId) -> &'a [u32]
    requires { entries.is_sorted spot_cmp (spots_in rows.now slots.now) ≡ true }
    ensures { result.now ≡ filter (λ slot. same_node (row_in rows.now slot).parent parent) slots.now }
{
    let from = slots.partition_point(|slot| spot_in(rows, *slot).0 < parent);
    let until = slots.partition_point(|slot| !(parent < spot_in(rows, *slot).0));
    &slots[from..until]
}

/// Puts the last slot's row into another slot, in a list of slots in the order of places.
pub fn redirect(rows: &[Row], slots: &mut Vec<u32>, last: u32, slot: u32)
    requires rise { entries.is_sorted spot_cmp (spots_in rows.now slots.old.items) ≡ true }
    requires there { last < length rows.now }
    ensures items { slots.new.items ≡ redirected last slot slots.old.items }
    ensures len { vec_len slots.new ≡ vec_len slots.old }
    ensures capacity { vec_capacity slots.new ≡ vec_capacity slots.old }
{
    let row = &rows[last as usize];
    let at = place(rows, slots, row.parent, &row.name);
    put_over(slots, at, last, slot)
}

/// Puts the slot of a row that is about to change to another place where it belongs then. The list has room for it,
/// since it had the slot before.
pub fn follow(rows: &[Row], slots: &mut Vec<u32>, slot: u32, parent: NodeId, name: &Name)
    requires rise { entries.is_sorted spot_cmp (spots_in rows.now slots.old.items) ≡ true }
    requires there { slot < length rows.now }
    requires listed { IsMoved rows.now slot (moved parent name.now (row_in rows.now slot)) → slice_get slots.old.items (spot_place rows.now slots.old.items slot) ≡ Some slot }
    requires left { IsMoved rows.now slot (moved parent name.now (row_in rows.now slot)) → entries.is_sorted spot_cmp (spots_in rows.now (remove slots.old.items (spot_place rows.now slots.old.items slot))) ≡ true }
    ensures items { slots.new.items ≡ followed rows.now slots.old.items slot (moved parent name.now (row_in rows.now slot)) }
    ensures len { vec_len slots.new ≡ vec_len slots.old }
    ensures capacity { vec_capacity slots.new ≡ vec_capacity slots.old }
{
    let old = &rows[slot as usize];
    if old.parent != parent || old.name != *name {
        let from = place(rows, slots, old.parent, &old.name);
        slots.remove(from);
        let to = place(rows, slots, parent, name);
        put(slots, to, slot)
    }
}

/// Takes the slot of a row that is about to go out of the list.
pub fn leave(rows: &[Row], slots: &mut Vec<u32>, slot: u32)
    requires rise { entries.is_sorted spot_cmp (spots_in rows.now slots.old.items) ≡ true }
    requires there { slot < length rows.now }
    requires listed { slice_get slots.old.items (spot_place rows.now slots.old.items slot) ≡ Some slot }
    ensures items { slots.new.items ≡ remove slots.old.items (spot_place rows.now slots.old.items slot) }
    ensures len { vec_len slots.new ≤ vec_len slots.old }
    ensures capacity { vec_capacity slots.new ≡ vec_capacity slots.old }
{
    let row = &rows[slot as usize];
    let place = place(rows, slots, row.parent, &row.name);
    slots.remove(place);
}

/// The slots of all rows but the root's, in the order of places.
pub fn sorted(alloc: Global, rows: &[Row], slots: &[u32]) -> Result<Vec<u32>, Memory>
    ensures moved { IfOk result (λ spots. IsPermutation (filter (λ slot. not (same_node (row_in rows.now slot).id root)) slots.now) spots.items) }
    ensures sorted { IfOk result (λ spots. IsSortedBy (λ a b. is_lt (spot_cmp (spot_in rows.now a).0 (spot_in rows.now b).0)) spots.items) }
{
    let mut spots: Vec<u32> = slots
        .iter()
        .copied()
        .filter(|slot| id_in(rows, *slot) != NodeId::ROOT)
        .collect(alloc)?;
    spots.sort_by(|a, b| compare_slots(rows, *a, *b))?;
    Ok(spots)
}

fn compare_slots(rows: &[Row], a: u32, b: u32) -> Ordering
    ensures { result ≡ spot_cmp (spot_in rows.now a).0 (spot_in rows.now b).0 }
{
    let a = spot_in(rows, a);
    let b = spot_in(rows, b);
    a.0.cmp(&b.0).then(a.1.cmp(b.1))
}

fn spot_in(rows: &[Row], slot: u32) -> (NodeId, &[u8])
    ensures parent { result.0 ≡ (row_in rows.now slot).parent }
    ensures name { result.1.now ≡ (row_in rows.now slot).name }
{
    match rows.get(slot as usize) {
        Some(row) => (row.parent, row.name.bytes()),
        None => (NodeId::ROOT, [].as_slice()),
    }
}
