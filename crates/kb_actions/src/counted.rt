//! A table whose looks are counted.
ghost use Rattle.std.specs.Prelude.{◌≡◌, ◌+◌, ◌^◌, ◌≤◌, length, IfOk};
ghost use Rattle.std.specs.FinMap as map;
ghost use Rattle.std.proofs.Props.{props};
ghost use Rattle.kb_ops.specs.Trees.{IsWellFormed};

use kb_edge::Memory;
use kb_name::{Name, NodeId};
use kb_opchains::View;
use kb_ops::Row;
use kb_tree::Table;

/// A table that is seen by counted calls.
#[derive(Drop)]
pub struct Counted<'a> {
    table: &'a Table,
    count: u64,
    pub ghost formed: { IsWellFormed table.now.tree } by { Prim.hlevel props },
    pub ghost few: { map.len table.now.tree ≤ 2 ^ 32 } by { Prim.hlevel props },
}

impl<'a> Counted<'a> {
    /// Nothing was looked at yet.
    pub fn new(table: &'a Table) -> Counted<'a>
        ensures table { result.table.now.tree ≡ table.now.tree }
        ensures count { result.count ≡ 0 }
    {
        table.is_well_formed();
        table.is_bounded();
        Counted { table, count: 0 }
    }

    /// How many rows were looked at.
    pub fn count(&self) -> u64
        ensures { result ≡ self.now.count }
    {
        self.count
    }
}

impl View for Counted<'_> {
    ghost tree = { λ c. c.table.now.tree };

    ghost looks = { λ c. c.count };

    fn get(&mut self, id: NodeId) -> Option<&Row> {
        self.count = self.count.saturating_add(1);
        self.table.get(id)
    }

    fn child(&mut self, parent: NodeId, name: &Name) -> Option<NodeId> {
        self.count = self.count.saturating_add(1);
        self.table.child(parent, name)
    }

    fn children(&mut self, parent: NodeId) -> Result<Vec<NodeId>, Memory> {
        match self.table.children(parent) {
            Ok(ids) => {
                self.count = self.count.saturating_add(ids.len() as u64 + 1);
                Ok(ids)
            }
            Err(Memory) => Err(Memory),
        }
    }

    fn rows(&mut self) -> Result<Vec<Row>, Memory> {
        match self.table.rows() {
            Ok(rows) => {
                self.count = self.count.saturating_add(rows.len() as u64 + 1);
                Ok(rows)
            }
            Err(Memory) => Err(Memory),
        }
    }

    ghost formed = { λ c. c.formed };

    ghost few = { λ c. c.few };
}
