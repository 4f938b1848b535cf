//! The rows of a tree that is being read.
ghost use Rattle.std.specs.Prelude.{◌≡◌, OnOk, IfOk};
ghost use Rattle.std.specs.FinMap as map;
ghost use Rattle.std.specs.BTreeMap as entries;
ghost use Rattle.kb_ops.specs.Trees.{IsWellFormed};

use kb_edge::Memory;
use kb_name::NodeId;
use kb_ops::Row;
use kb_tree::Table;
use std::alloc::Global;
use std::collections::BTreeMap;
use std::marker::Model;

/// Rows by their ids.
#[derive(Drop)]
pub(crate) struct Rows {
    by_id: BTreeMap<NodeId, Row>,
}

impl Model for Rows {
    ghost use Rattle.std.specs.FinMap.{from_entries};
    ghost use Rattle.std.specs.BTreeMap.{IsOrdered};
    ghost use Rattle.kb_name.specs.Nodes.{node_cmp};
    ghost use Rattle.kb_ops.specs.Trees.{Tree};
    ghost use Rattle.kb_ops.specs.Codes.{coded_tree};

    ghost Value = { Tree };

    ghost coded = { coded_tree };

    ghost view = { λ a. from_entries a.by_id.entries };

    ghost invariant = { λ a. IsOrdered node_cmp a.by_id };
}

fn values(alloc: Global, by_id: BTreeMap<NodeId, Row>) -> Result<Vec<Row>, Memory>
    ensures { IfOk result (λ rows. rows.items ≡ entries.values by_id) }
{
    let rows = by_id.into_values().collect(alloc)?;
    Ok(rows)
}

impl Rows {
    pub(crate) fn new(alloc: Global) -> Rows
        ensures { result ≡ map.empty }
    {
        Rows {
            by_id: BTreeMap::new(alloc),
        }
    }

    pub(crate) fn add(&mut self, row: Row) -> Result<(), Memory>
        ensures { OnOk result (self.new ≡ map.insert self.old row.id row) }
    {
        self.by_id.insert(row.id, row)?;
        Ok(())
    }

    /// The table of these rows.
    pub(crate) fn into_table(self, alloc: Global) -> Result<Table, Memory>
        requires { IsWellFormed self }
        ensures { IfOk result (λ table. table.tree ≡ self) }
    {
        let rows = self.into_rows(alloc)?;
        Table::from_rows(rows)
    }

    // In ascending order of ids.
    fn into_rows(self, alloc: Global) -> Result<Vec<Row>, Memory>
        ensures { IfOk result (λ rows. rows.items ≡ map.values self) }
    {
        values(alloc, self.by_id)
    }
}
