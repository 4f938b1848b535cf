//! The rows of a tree, from the root down.
ghost use Rattle.std.specs.Prelude.{IfOk, OnOk};
ghost use Rattle.kb_ops.specs.Trees.{look};
ghost use Rattle.kb_snap.specs.Orders.{IsTopDown, AddsChildren};

use kb_edge::Memory;
use kb_name::NodeId;
use kb_tree::Table;
use std::alloc::Global;

// Puts the ids of a row's children behind those that are there.
fn add_children(table: &Table, id: NodeId, ids: &mut Vec<NodeId>) -> Result<(), Memory>
    ensures { OnOk result (AddsChildren table.now.tree id ids.old.items ids.new.items) }
{
    let children = table.children(id)?;
    ids.extend_from_slice(&children)?;
    Ok(())
}

/// The ids of all rows, each before those of its children.
pub(crate) fn top_down(alloc: Global, table: &Table) -> Result<Vec<NodeId>, Memory>
    ensures { IfOk result (λ ids. IsTopDown (look table.now.tree) ids.items) }
{
    table.is_well_formed();
    let mut ids = Vec::with_capacity(alloc, table.len())?;
    ids.push(NodeId::ROOT)?;
    let mut next = 0;
    'rows: while next < ids.len() {
        let id = ids[next];
        add_children(table, id, &mut ids)?;
        next += 1;
    }
    Ok(ids)
}
