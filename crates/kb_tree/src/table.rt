//! The table and its calls.
ghost use Rattle.std.specs.Prelude.{true, ◌≡◌, ◌+◌, ◌≤◌, length, max, None, IsSome, IsSomeAnd, IfSome, IfOk, OnOk};
ghost use Rattle.std.specs.Vec.{vec_capacity};
ghost use Rattle.std.specs.Option.{option_copied};
ghost use Rattle.std.specs.FinMap as map;
ghost use Rattle.kb_ops.specs.Trees.{look, start, edit, patched, IsFileAt, IsWellFormed};
ghost use Rattle.kb_ops.specs.Rows.{is_dir, FitsNew, FitsReplace, FitsRemove, FitsRename};
ghost use Rattle.kb_name.specs.Nodes.{root};
ghost use Rattle.kb_ops.specs.Find.{child, find_from};
ghost use Rattle.kb_ops.specs.Plan.{has_child, is_below, file_at};
ghost use Rattle.kb_tree.specs.Children.{IsChildren};

use super::{slots, spots};
use kb_edge::Memory;
use kb_name::{Moment, Name, NodeId, Path};
use kb_ops::{Kind, Row, WalkFault};
use std::alloc::Global;
use std::marker::Model;
use std::mem;

/// A well formed tree, with its rows found by id and by place. A place is a parent with a name.
#[derive(Drop)]
pub struct Table {
    rows: Vec<Row>,
    by_id: Vec<u32>,
    by_spot: Vec<u32>,
}

impl Model for Table {
    ghost use Rattle.std.specs.Prelude.{◌-◌, ◌^◌, vec_len};
    ghost use Rattle.std.specs.Vec.{vec_capacity};
    ghost use Rattle.kb_ops.specs.Lists.{tree_of};
    ghost use Rattle.kb_tree.specs.Held.{Held, coded_held};
    ghost use Rattle.kb_tree.specs.Slots.{rows_in, IsTable, room_of};

    ghost Value = { Held };

    ghost coded = { coded_held };

    ghost view = { λ a. record { tree = tree_of (rows_in a.rows.items a.by_id.items); room = room_of (vec_capacity a.rows - vec_len a.rows) (vec_capacity a.by_id - vec_len a.by_id) (vec_capacity a.by_spot - vec_len a.by_spot) (2 ^ 32 - vec_len a.rows) } };

    ghost invariant = { λ a. IsTable a.rows.items a.by_id.items a.by_spot.items };
}

impl Table {
    ghost use Rattle.std.specs.Prelude.{◌^◌};
    ghost use Rattle.kb_ops.specs.Lists.{tree_of};
    ghost use Rattle.kb_tree.specs.Held.{AreKept};

    /// Each table holds a well formed tree.
    pub fn is_well_formed(&self)
        ensures { IsWellFormed self.now.tree }
    {
        let _ = &self.rows;
    }

    /// Each table has at most 4,294,967,296 rows.
    pub fn is_bounded(&self)
        ensures { map.len self.now.tree ≤ 2 ^ 32 }
    {
        let _ = &self.rows;
    }

    /// The root alone, with mtime 0.
    pub fn new(alloc: Global) -> Result<Table, Memory>
        ensures { IfOk result (λ table. table.tree ≡ start) }
    {
        let mut rows = Vec::new(alloc);
        rows.push(Row::root(alloc))?;
        let mut by_id = Vec::new(alloc);
        by_id.push(0)?;
        Ok(Table {
            rows,
            by_id,
            by_spot: Vec::new(alloc),
        })
    }

    /// The table of rows that are in ascending order of ids and form a well formed tree.
    pub fn from_rows(rows: Vec<Row>) -> Result<Table, Memory>
        requires { AreKept rows.items }
        ensures { IfOk result (λ table. table.tree ≡ tree_of rows.items) }
    {
        let alloc = *rows.allocator();
        let by_id = slots::all(alloc, &rows)?;
        let by_spot = spots::sorted(alloc, &rows, &by_id)?;
        Ok(Table {
            rows,
            by_id,
            by_spot,
        })
    }

    /// A table of the same tree.
    pub fn copy(&self) -> Result<Table, Memory>
        ensures { IfOk result (λ table. table.tree ≡ self.now.tree) }
    {
        let rows = slots::copies(&self.rows)?;
        let by_id = self.by_id.clone()?;
        let by_spot = self.by_spot.clone()?;
        Ok(Table {
            rows,
            by_id,
            by_spot,
        })
    }

    /// How many rows there are.
    pub fn len(&self) -> usize
        ensures { result ≡ map.len self.now.tree }
    {
        self.by_id.len()
    }

    /// The row of an id.
    pub fn get(&self, id: NodeId) -> Option<&Row>
        ensures found { option_copied result ≡ look self.now.tree id }
        ensures small { IfSome result (λ row. length row.now.bytes ≤ 16777216) }
    {
        slots::row(&self.rows, &self.by_id, id)
    }

    /// All rows, in ascending order of ids.
    pub fn rows(&self) -> Result<Vec<Row>, Memory>
        ensures values { IfOk result (λ rows. rows.items ≡ map.values self.now.tree) }
        ensures kept { IfOk result (λ rows. AreKept rows.items) }
        ensures tree { IfOk result (λ rows. tree_of rows.items ≡ self.now.tree) }
    {
        slots::rows(*self.rows.allocator(), &self.rows, &self.by_id)
    }

    /// Makes room for one more row.
    pub fn reserve(&mut self) -> Result<(), Memory>
        ensures room { OnOk result (1 ≤ self.new.room) }
        ensures kept { self.old.room ≤ self.new.room }
        ensures tree { self.new.tree ≡ self.old.tree }
    {
        if self.rows.len() > u32::MAX as usize {
            return Err(Memory);
        }
        self.rows.reserve(1)?;
        self.by_id.reserve(1)?;
        self.by_spot.reserve(1)?;
        Ok(())
    }

    /// Adds a row, for which there is room.
    pub fn insert(&mut self, row: Row)
        requires room { 1 ≤ self.old.room }
        requires fits { FitsNew (look self.old.tree) row }
        ensures tree { self.new.tree ≡ map.insert self.old.tree row.id row }
        ensures room { self.old.room ≤ self.new.room + 1 }
    {
        let id_place = slots::place(&self.rows, &self.by_id, row.id);
        let spot_place = spots::place(&self.rows, &self.by_spot, row.parent, &row.name);
        let slot = self.rows.len() as u32;
        slots::put(&mut self.by_id, id_place, slot);
        slots::put(&mut self.by_spot, spot_place, slot);
        self.rows.push_reserved(row)
    }

    /// Puts a row in the place of the one with its id, which is given back.
    pub fn replace(&mut self, row: Row) -> Row
        requires { IsSomeAnd (look self.old.tree row.id) (λ was. FitsReplace (map.len self.old.tree) (look self.old.tree) was row) }
        ensures was { look self.old.tree row.id ≡ Some result }
        ensures tree { self.new.tree ≡ map.insert self.old.tree row.id row }
        ensures room { self.old.room ≤ self.new.room }
    {
        let id_place = slots::place(&self.rows, &self.by_id, row.id);
        let slot = self.by_id[id_place];
        spots::follow(&self.rows, &mut self.by_spot, slot, row.parent, &row.name);
        mem::replace(&mut self.rows[slot as usize], row)
    }

    /// Puts a row at another place, which is free and not below it.
    pub fn relocate(&mut self, node: NodeId, parent: NodeId, name: Name)
        requires { FitsRename (map.len self.old.tree) (look self.old.tree) node parent name None }
        ensures tree { self.new.tree ≡ edit self.old.tree node (λ r. record r { parent = parent; name = name }) }
        ensures room { self.old.room ≤ self.new.room }
    {
        let id_place = slots::place(&self.rows, &self.by_id, node);
        let slot = self.by_id[id_place];
        spots::follow(&self.rows, &mut self.by_spot, slot, parent, &name);
        slots::set_place(&mut self.rows, slot, parent, name)
    }

    /// Sets the exec mark of a File.
    pub fn set_exec(&mut self, node: NodeId, on: bool)
        requires { IsFileAt (look self.old.tree) node }
        ensures tree { self.new.tree ≡ edit self.old.tree node (λ r. record r { exec = on }) }
        ensures room { self.old.room ≤ self.new.room }
    {
        let id_place = slots::place(&self.rows, &self.by_id, node);
        let slot = self.by_id[id_place];
        slots::set_exec(&mut self.rows, slot, on)
    }

    /// Sets the time of a row.
    pub fn set_mtime(&mut self, node: NodeId, mtime: Moment)
        requires { IsSome (look self.old.tree node) }
        ensures tree { self.new.tree ≡ edit self.old.tree node (λ r. record r { mtime = mtime }) }
        ensures room { self.old.room ≤ self.new.room }
    {
        let id_place = slots::place(&self.rows, &self.by_id, node);
        let slot = self.by_id[id_place];
        slots::set_mtime(&mut self.rows, slot, mtime)
    }

    /// Writes into the bytes of a File, which are so many then, and sets its time. Where they outgrow the room that
    /// they have, they move to the spare buffer.
    pub fn write(
        &mut self,
        node: NodeId,
        offset: u32,
        bytes: &[u8],
        size: u32,
        mtime: Moment,
        spare: Vec<u8>,
    )
        requires file { IsFileAt (look self.old.tree) node }
        requires within { offset + length bytes.now ≤ size }
        requires small { size ≤ 16777216 }
        requires room { IfSome (look self.old.tree node) (λ r. size ≤ max (length r.bytes) (vec_capacity spare)) }
        ensures tree { self.new.tree ≡ edit self.old.tree node (λ r. record r { bytes = patched r.bytes offset bytes.now size; mtime = mtime }) }
        ensures room { self.old.room ≤ self.new.room }
    {
        let id_place = slots::place(&self.rows, &self.by_id, node);
        let slot = self.by_id[id_place];
        slots::write(&mut self.rows, slot, offset, bytes, size, mtime, spare)
    }

    /// Takes out a row that has no child and isn't the root's.
    pub fn remove(&mut self, id: NodeId) -> Row
        requires { FitsRemove (look self.old.tree) id }
        ensures was { look self.old.tree id ≡ Some result }
        ensures tree { self.new.tree ≡ map.remove self.old.tree id }
        ensures room { self.old.room ≤ self.new.room }
    {
        let id_place = slots::place(&self.rows, &self.by_id, id);
        let slot = self.by_id.remove(id_place);
        spots::leave(&self.rows, &mut self.by_spot, slot);
        let last = (self.rows.len() - 1) as u32;
        slots::redirect(&self.rows, &mut self.by_id, last, slot);
        spots::redirect(&self.rows, &mut self.by_spot, last, slot);
        self.rows.swap_remove(slot as usize)
    }

    /// The row with this parent and this name, but for the root's.
    pub fn child(&self, parent: NodeId, name: &Name) -> Option<NodeId>
        ensures { result ≡ child self.now.tree parent name.now }
    {
        spots::child(&self.rows, &self.by_spot, parent, name)
    }

    /// The children of a row, in byte order of their names.
    pub fn children(&self, parent: NodeId) -> Result<Vec<NodeId>, Memory>
        ensures { IfOk result (λ ids. IsChildren self.now.tree parent ids.items) }
    {
        let below = spots::of_parent(&self.rows, &self.by_spot, parent);
        slots::ids(*self.rows.allocator(), &self.rows, below)
    }

    /// Whether some row has this parent.
    pub fn has_child(&self, node: NodeId) -> bool
        ensures { result ≡ has_child self.now.tree node }
    {
        !spots::of_parent(&self.rows, &self.by_spot, node).is_empty()
    }

    /// Whether the row of an id is there and is a Dir.
    pub fn is_dir(&self, id: NodeId) -> bool
        ensures { result ≡ is_dir (look self.now.tree) id }
    {
        match self.get(id) {
            Some(row) => row.kind == Kind::Dir,
            None => false,
        }
    }

    /// The row of an id, if it is a File.
    pub fn file(&self, id: NodeId) -> Option<&Row>
        ensures found { option_copied result ≡ file_at self.now.tree id }
        ensures small { IfSome result (λ row. length row.now.bytes ≤ 16777216) }
    {
        match self.get(id) {
            Some(row) => if row.kind == Kind::File {
                Some(row)
            } else {
                None
            },
            None => None,
        }
    }

    /// Whether the walk of parents from a row meets the node. It ends at the root.
    pub fn is_below(&self, node: NodeId, mut from: NodeId) -> bool
        ensures { result ≡ is_below self.now.tree node from }
    {
        self.is_well_formed();
        for _ in 0..self.len() {
            if from == node {
                return true;
            }
            if from == NodeId::ROOT {
                return false;
            }
            match self.get(from) {
                Some(row) => from = row.parent,
                None => return false,
            }
        }
        from == node
    }

    /// From the root, name by name to the child of that name.
    pub fn walk(&self, path: &Path) -> Result<NodeId, WalkFault>
        ensures { result ≡ find_from self.now.tree root path.now }
    {
        self.walk_names(path.names())
    }

    /// The same, by the names themselves.
    pub fn walk_names(&self, names: &[Name]) -> Result<NodeId, WalkFault>
        ensures { result ≡ find_from self.now.tree root names.now }
    {
        let mut at = NodeId::ROOT;
        for name in names {
            match self.child_of_dir(at, name) {
                Some(next) => at = next,
                None => return Err(if self.is_dir(at) {
                    WalkFault::NotFound
                } else {
                    WalkFault::NotDir
                }),
            }
        }
        Ok(at)
    }

    /// The child of a name. Only a Dir has one, so a walk looks at the row itself only where it ends.
    fn child_of_dir(&self, parent: NodeId, name: &Name) -> Option<NodeId>
        ensures is { result ≡ child self.now.tree parent name.now }
        ensures dir { IfSome result (λ _. is_dir (look self.now.tree) parent ≡ true) }
    {
        self.is_well_formed();
        self.child(parent, name)
    }
}
