//! The pointers that an operation leaves.
ghost use Rattle.std.specs.Prelude.{◌≡◌, if◌then◌else◌, None};
ghost use Rattle.std.specs.FinMap as map;
ghost use Rattle.kb_name.specs.declared.ids.NodeId.{NodeId};
ghost use Rattle.kb_device.specs.Left.{left_of, left_way, LeftHolds};

use kb_blocks::BlockHash;
use kb_name::NodeId;
use kb_ops::Change;
use kb_seal::Sealer;
use kb_snap::Pointers;
use kb_tree::Table;

fn forget_way(pointers: &mut Pointers, table: &Table, replaced: Option<NodeId>)
    ensures { (q : NodeId) → map.get pointers.new q ≡ left_way table.now.tree replaced q (map.get pointers.old q) }
{
    match replaced {
        Some(gone) => pointers.forget(table, gone),
        None => {}
    }
}

/// Drops the pointers of the rows that a change touches, and of those above them, by the table before it.
pub fn forget_touched(pointers: &mut Pointers, table: &Table, change: &Change)
    ensures { (q : NodeId) → map.get pointers.new q ≡ left_of table.now.tree change.now q (map.get pointers.old q) }
{
    match change {
        Change::Create { parent, .. } => pointers.forget(table, *parent),
        Change::Remove { node } => pointers.forget(table, *node),
        Change::Rename {
            node,
            parent,
            replaced,
            ..
        } => {
            pointers.forget(table, *node);
            pointers.forget(table, *parent);
            forget_way(pointers, table, *replaced);
        }
        Change::Sync { node, .. } => pointers.forget(table, *node),
        Change::Exec { node, .. } => pointers.forget(table, *node),
        Change::Touch { node, .. } => pointers.forget(table, *node),
    }
}

/// Pointers that held their rows hold them after an operation, where those that it touches are dropped.
pub fn left_law<S: Sealer, H: BlockHash>()
    ensures { LeftHolds S.sealed H.hashed }
{}
