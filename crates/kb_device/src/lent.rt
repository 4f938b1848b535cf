//! What a device lends of its branch.
ghost use Rattle.kb_device.specs.Lending.{IsLent};
ghost use Rattle.kb_device.specs.Views.{inside};

use crate::session::Session;
use kb_blocks::BlockHash;
use kb_edge::Disk;
use kb_ops::Op;
use kb_tree::Table;

/// A branch, and what it is to be merged into: the tree of the revision that it began at, the tree of the revision that was
/// fetched with the operations of the revisions up to it, those of merges included, and the branch's own tree with the
/// operations that wait. It is plain where none of these revisions is a merge, so that their operations lead from the one
/// tree to the other.
#[derive(Clone, Copy)]
pub struct Branch<'a> {
    pub base: &'a Table,
    pub merged: &'a Table,
    pub merged_ops: &'a [Op],
    pub ours: &'a Table,
    pub our_ops: &'a [Op],
    pub plain: bool,
}

impl<D: Disk, H: BlockHash> Session<D, H> {
    /// The branch, where something was fetched that it is to be merged into.
    pub fn branch(&self) -> Option<Branch<'_>>
        ensures { IsLent (inside self.now) result }
    {
        let Some(goal) = &self.plan else {
            return None;
        };
        Some(Branch {
            base: &goal.base,
            merged: &goal.merged,
            merged_ops: goal.done.ops.as_slice(),
            ours: &self.shown,
            our_ops: self.journal.queue(),
            plain: goal.done.plain,
        })
    }
}
