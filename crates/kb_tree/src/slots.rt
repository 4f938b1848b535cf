//! Rows in slots, and lists of slots in the order of the rows' ids.
ghost use Rattle.std.specs.Prelude.{◌≡◌, ◌+◌, ◌≤◌, ◌<◌, true, find, slice_get, length, max, IfOk, OnOk, ◌^◌, vec_len, slice_set, ◌≢◌};
ghost use Rattle.std.specs.Option.{option_copied};
ghost use Rattle.std.specs.Vec.{vec_capacity};
ghost use Rattle.std.specs.List.{insert, range_with_len};
ghost use Rattle.kb_name.specs.Nodes.{same_node};
ghost use Rattle.kb_ops.specs.Lists.{rises, place_of};
ghost use Rattle.kb_ops.specs.declared.rows.Row.{Row};
ghost use Rattle.kb_tree.specs.Slots.{row_in, rows_in, ids_in, AreWithin, redirected, changed, moved, with_exec, with_mtime, written};

use super::patching::patched;
use kb_edge::Memory;
use kb_name::{Moment, Name, NodeId};
use kb_ops::{Bytes, Row};
use std::alloc::{AllocError, Global};
use std::mem;

/// The id of a slot's row.
pub fn id_in(rows: &[Row], slot: u32) -> NodeId
    ensures { result ≡ (row_in rows.now slot).id }
{
    match rows.get(slot as usize) {
        Some(row) => row.id,
        None => NodeId::ROOT,
    }
}

/// Where the slot of an id is among slots in the order of ids, or would go.
pub fn place(rows: &[Row], slots: &[u32], id: NodeId) -> usize
    requires { rises (rows_in rows.now slots.now) ≡ true }
    ensures is { result ≡ place_of id (rows_in rows.now slots.now) }
    ensures within { result ≤ length slots.now }
{
    slots.partition_point(|slot| id_in(rows, *slot) < id)
}

/// The row of an id.
pub fn row<'a>(rows: &'a [Row], slots: &[u32], id: NodeId) -> Option<&'a Row>
    requires rise { rises (rows_in rows.now slots.now) ≡ true }
    requires within { AreWithin (length rows.now) slots.now }
    ensures { option_copied result ≡ find (λ r. same_node r.id id) (rows_in rows.now slots.now) }
{
    match at(rows, slots, place(rows, slots, id)) {
        Some(row) => if row.id == id { Some(row) } else { None },
        None => None,
    }
}

fn at<'a>(rows: &'a [Row], slots: &[u32], place: usize) -> Option<&'a Row>
    requires { AreWithin (length rows.now) slots.now }
    ensures { option_copied result ≡ slice_get (rows_in rows.now slots.now) place }
{
    match slot_at(slots, place) {
        Some(slot) => row_in(rows, slot),
        None => None,
    }
}

/// The slot at a place of a list.
pub fn slot_at(slots: &[u32], place: usize) -> Option<u32>
    ensures { result ≡ slice_get slots.now place }
{
    slots.get(place).copied()
}

/// The row in a slot.
pub fn row_in(rows: &[Row], slot: u32) -> Option<&Row>
    ensures { option_copied result ≡ slice_get rows.now slot }
{
    rows.get(slot as usize)
}

/// The ids of the rows of slots.
pub fn ids(alloc: Global, rows: &[Row], slots: &[u32]) -> Result<Vec<NodeId>, Memory>
    ensures { IfOk result (λ ids. ids.items ≡ ids_in rows.now slots.now) }
{
    let ids = slots.iter().map(|slot| id_in(rows, *slot)).collect(alloc)?;
    Ok(ids)
}

/// The rows of slots.
pub fn rows(alloc: Global, rows: &[Row], slots: &[u32]) -> Result<Vec<Row>, Memory>
    requires { AreWithin (length rows.now) slots.now }
    ensures { IfOk result (λ copies. copies.items ≡ rows_in rows.now slots.now) }
{
    let mut copies = Vec::new(alloc);
    for slot in slots {
        let Some(row) = row_in(rows, *slot) else {
            unreachable!()
        };
        copies.push(copy(row)?)?;
    }
    Ok(copies)
}

/// The same row.
pub fn copy(row: &Row) -> Result<Row, AllocError>
    ensures { IfOk result (λ same. same ≡ row.now) }
{
    row.clone()
}

/// Puts a slot into a list that has room for it.
pub fn put(slots: &mut Vec<u32>, place: usize, slot: u32)
    requires place { place ≤ vec_len slots.old }
    requires room { vec_len slots.old < vec_capacity slots.old }
    ensures items { slots.new.items ≡ insert slots.old.items place slot }
    ensures capacity { vec_capacity slots.new ≡ vec_capacity slots.old }
{
    if slots.insert(place, slot).is_err() {
        unreachable!()
    }
}

/// Puts the last slot's row into another slot, in a list of slots in the order of ids.
pub fn redirect(rows: &[Row], slots: &mut Vec<u32>, last: u32, slot: u32)
    requires { rises (rows_in rows.now slots.old.items) ≡ true }
    ensures items { slots.new.items ≡ redirected last slot slots.old.items }
    ensures len { vec_len slots.new ≡ vec_len slots.old }
    ensures capacity { vec_capacity slots.new ≡ vec_capacity slots.old }
{
    let at = place(rows, slots, id_in(rows, last));
    put_over(slots, at, last, slot)
}

/// Puts a slot over another, if that stands at a place.
pub fn put_over(slots: &mut Vec<u32>, at: usize, last: u32, slot: u32)
    ensures here { slice_get slots.old.items at ≡ Some last → slots.new.items ≡ slice_set slots.old.items at slot }
    ensures not_here { slice_get slots.old.items at ≢ Some last → slots.new.items ≡ slots.old.items }
    ensures len { vec_len slots.new ≡ vec_len slots.old }
    ensures capacity { vec_capacity slots.new ≡ vec_capacity slots.old }
{
    if let Some(found) = slots.get_mut(at) {
        if *found == last {
            *found = slot;
        }
    }
}

/// All rows, slot by slot.
pub fn copies(rows: &Vec<Row>) -> Result<Vec<Row>, Memory>
    ensures { IfOk result (λ same. same.items ≡ rows.now.items) }
{
    let same = rows.clone()?;
    Ok(same)
}

/// The slots of all rows, in their order. More rows than there are slots are refused for want of memory.
pub fn all(alloc: Global, rows: &[Row]) -> Result<Vec<u32>, Memory>
    ensures slots { IfOk result (λ slots. slots.items ≡ range_with_len 0 (length rows.now)) }
    ensures few { OnOk result (length rows.now ≤ 2 ^ 32) }
{
    let Ok(count) = u32::try_from(rows.len()) else {
        return Err(Memory);
    };
    below(alloc, count)
}

fn below(alloc: Global, count: u32) -> Result<Vec<u32>, Memory>
    ensures { IfOk result (λ slots. slots.items ≡ range_with_len 0 count) }
{
    let mut slots = Vec::with_capacity(alloc, count as usize)?;
    for slot in 0..count {
        slots.push(slot)?;
    }
    Ok(slots)
}

/// Puts the row of a slot at another place.
pub fn set_place(rows: &mut Vec<Row>, slot: u32, parent: NodeId, name: Name)
    requires { slot < length rows.old.items }
    ensures items { rows.new.items ≡ changed rows.old.items slot (moved parent name) }
    ensures len { vec_len rows.new ≡ vec_len rows.old }
    ensures capacity { vec_capacity rows.new ≡ vec_capacity rows.old }
{
    let row = &mut rows[slot as usize];
    row.parent = parent;
    row.name = name;
}

/// Sets the exec mark of the row of a slot.
pub fn set_exec(rows: &mut Vec<Row>, slot: u32, on: bool)
    requires { slot < length rows.old.items }
    ensures items { rows.new.items ≡ changed rows.old.items slot (with_exec on) }
    ensures len { vec_len rows.new ≡ vec_len rows.old }
    ensures capacity { vec_capacity rows.new ≡ vec_capacity rows.old }
{
    let row = &mut rows[slot as usize];
    row.exec = on;
}

/// Sets the time of the row of a slot.
pub fn set_mtime(rows: &mut Vec<Row>, slot: u32, mtime: Moment)
    requires { slot < length rows.old.items }
    ensures items { rows.new.items ≡ changed rows.old.items slot (with_mtime mtime) }
    ensures len { vec_len rows.new ≡ vec_len rows.old }
    ensures capacity { vec_capacity rows.new ≡ vec_capacity rows.old }
{
    let row = &mut rows[slot as usize];
    row.mtime = mtime;
}

/// Writes into the bytes of the row of a slot. Where they outgrow their buffer they move to the spare one.
pub fn write(
    rows: &mut Vec<Row>,
    slot: u32,
    offset: u32,
    bytes: &[u8],
    size: u32,
    mtime: Moment,
    spare: Vec<u8>,
)
    requires there { slot < length rows.old.items }
    requires within { offset + length bytes.now ≤ size }
    requires room { size ≤ max (length (row_in rows.old.items slot).bytes) (vec_capacity spare) }
    ensures items { rows.new.items ≡ changed rows.old.items slot (written offset bytes.now size mtime) }
    ensures len { vec_len rows.new ≡ vec_len rows.old }
    ensures capacity { vec_capacity rows.new ≡ vec_capacity rows.old }
{
    let row = &mut rows[slot as usize];
    let none = Bytes::new(Vec::new(*spare.allocator()));
    let old = mem::replace(&mut row.bytes, none);
    row.bytes = Bytes::new(patched(old.into_vec(), offset, bytes, size, spare));
    row.mtime = mtime;
}
