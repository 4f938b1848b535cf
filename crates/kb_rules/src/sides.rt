ghost use Rattle.std.specs.Prelude.{◌≡◌, true, slice_get, ◌-◌, ◌∷◌, [], IfSome, IfNone, None, Some};
ghost use Rattle.std.specs.Option.{option_copied, is_some};
ghost use Rattle.std.specs.List.{list_any};
ghost use Rattle.kb_name.specs.Nodes.{same_node};
ghost use Rattle.kb_rules.specs.Merge.{copied};
ghost use Rattle.kb_rules.specs.Code.{AreSides, base_in, merged_in, ours_in, moved_in, stays_in, guess_in};

use super::fates;
use super::found::{place, row, row_at};
use super::stamp::Stamp;
use kb_name::NodeId;
use kb_ops::Row;

/// Three trees, each the list of its rows in ascending order of ids, the split files with their copies, and the ids
/// of the rows of merged, of ours and of the copies.
#[derive(Drop)]
pub struct Sides<'a> {
    pub stamp: &'a Stamp,
    pub base: &'a [Row],
    pub merged: &'a [Row],
    pub ours: &'a [Row],
    pub splits: &'a [NodeId],
    pub copies: &'a [Row],
    pub ids: &'a [NodeId],
}

impl Sides<'_> {
    /// The row in base.
    #[tactic(auto, unfolding(crate::specs::Code::base_in))]
    pub fn base(&self, q: NodeId) -> Option<&Row>
        requires { AreSides self.now }
        ensures { option_copied result ≡ base_in self.now q }
    {
        row(self.base, q)
    }

    /// The row in merged.
    #[tactic(auto, unfolding(crate::specs::Code::merged_in))]
    pub fn merged(&self, q: NodeId) -> Option<&Row>
        requires { AreSides self.now }
        ensures { option_copied result ≡ merged_in self.now q }
    {
        row(self.merged, q)
    }

    /// Which split file has its copy under the id, and the copy.
    fn copy(&self, q: NodeId) -> Option<&Row>
        requires { AreSides self.now }
        ensures found { is_some (copied self.now.stamp.now self.now.splits.now q) ≡ true → option_copied result ≡ ours_in self.now q }
        ensures none { copied self.now.stamp.now self.now.splits.now q ≡ None → option_copied result ≡ None }
    {
        if q.device == self.stamp.device && q.seq == self.stamp.last && q.part != 0 {
            row_at(self.copies, q.part as usize - 1)
        } else {
            None
        }
    }

    fn is_split(&self, q: NodeId) -> bool
        requires { AreSides self.now }
        ensures { result ≡ list_any (same_node q) self.now.splits.now }
    {
        place(self.splits, q).is_some()
    }

    /// The row in ours, which has each copy as a row of its own.
    pub fn ours(&self, q: NodeId) -> Option<&Row>
        requires { AreSides self.now }
        ensures { option_copied result ≡ ours_in self.now q }
    {
        match self.copy(q) {
            Some(copy) => Some(copy),
            None => if self.is_split(q) {
                None
            } else {
                row(self.ours, q)
            },
        }
    }

    #[tactic(auto, unfolding(crate::specs::Code::moved_in, crate::specs::Code::merged_in, crate::specs::Code::ours_in, crate::specs::Code::base_in))]
    pub fn is_moved(&self, q: NodeId) -> bool
        requires { AreSides self.now }
        ensures { result ≡ moved_in self.now q }
    {
        fates::is_moved(self.merged(q), self.ours(q), self.base(q))
    }

    #[tactic(auto, unfolding(crate::specs::Code::stays_in, crate::specs::Code::merged_in, crate::specs::Code::ours_in, crate::specs::Code::base_in))]
    pub fn stays(&self, q: NodeId) -> bool
        requires { AreSides self.now }
        ensures { result ≡ stays_in self.now q }
    {
        fates::stays(self.merged(q), self.ours(q), self.base(q))
    }

    /// The row with the place of the first guess.
    #[tactic(auto, unfolding(crate::specs::Code::guess_in, crate::specs::Code::moved_in, crate::specs::Code::merged_in, crate::specs::Code::ours_in))]
    pub fn guess(&self, q: NodeId) -> Option<&Row>
        requires { AreSides self.now }
        ensures { option_copied result ≡ guess_in self.now q }
    {
        if self.is_moved(q) {
            self.ours(q)
        } else {
            self.merged(q)
        }
    }
}
