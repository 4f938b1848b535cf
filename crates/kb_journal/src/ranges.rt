//! The numbers of an operation have room in their fields, as those of every value have.
ghost use Rattle.kb_ops.specs.Grammar.{HasRoom, IsNode, IsOp, IsProper, MayBeNode};

use kb_name::NodeId;
use kb_ops::{Change, Op as Operation};

fn node_fits(node: NodeId)
    ensures { IsNode node }
{
    let NodeId {
        device: _,
        seq: _,
        part: _,
    } = node;
}

fn replaced_fits(replaced: Option<NodeId>)
    ensures { MayBeNode replaced }
{
    match replaced {
        None => {}
        Some(node) => node_fits(node),
    }
}

fn change_fits(change: &Change)
    ensures { HasRoom change.now }
{
    match change {
        Change::Create { parent, .. } => node_fits(*parent),
        Change::Remove { node } => node_fits(*node),
        Change::Rename {
            node,
            parent,
            replaced,
            ..
        } => {
            node_fits(*node);
            node_fits(*parent);
            replaced_fits(*replaced);
        }
        Change::Sync { node, .. } => node_fits(*node),
        Change::Exec { node, .. } => node_fits(*node),
        Change::Touch { node, mtime } => {
            node_fits(*node);
            let _seconds = mtime.seconds();
        }
    }
}

/// An operation that meets the further rules of the grammar is one of the grammar.
pub fn op_fits(op: &Operation)
    requires { IsProper op.now }
    ensures { IsOp op.now }
{
    let _device = op.device;
    let _seq = op.seq;
    let _seconds = op.moment.seconds();
    change_fits(&op.change);
}
