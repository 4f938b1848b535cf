//! A tree whose rows are seen only by calls, which are counted.
ghost use Rattle.std.specs.Prelude.{◌≡◌, ◌+◌, ◌^◌, ◌≤◌, length, IfOk, ℕ, ⊤};
ghost use Rattle.std.specs.Borrow.{sem, follows_so};
ghost use mathlib.Core.Option.{none};
ghost use Rattle.std.specs.Option.{option_copied};
ghost use Rattle.std.specs.FinMap as map;
ghost use Rattle.kb_ops.specs.Trees.{Tree, look, IsWellFormed};
ghost use Rattle.kb_ops.specs.Find.{child};
ghost use Rattle.kb_opchains.specs.Views.{added, IsLookedAt, IsChildren, listed};

use kb_edge::Memory;
use kb_name::{Name, NodeId};
use kb_ops::Row;

/// A well formed tree, which no call changes, and the count of rows that were looked at.
pub trait View {
    /// The rows.
    ghost tree: { Self → Tree };
    /// How many rows were looked at.
    ghost looks: { Self → ℕ };

    /// The row of an id.
    fn get(&mut self, id: NodeId) -> Option<&Row>
        ensures* ends { sem 𝓛 (follows_so Self.row Self.row self.entry.ghost_name none (λ _ _. ⊤) (λ v. IsLookedAt (tree self.old) (looks self.old) (tree v) (looks v))) }
        ensures found { option_copied result ≡ look (tree self.old) id };

    /// The row with this parent and this name, but for the root's.
    fn child(&mut self, parent: NodeId, name: &Name) -> Option<NodeId>
        ensures found { result ≡ child (tree self.old) parent name.now }
        ensures tree { tree self.new ≡ tree self.old }
        ensures looks { looks self.new ≡ added (looks self.old) 1 };

    /// The children of a row, in byte order of their names.
    fn children(&mut self, parent: NodeId) -> Result<Vec<NodeId>, Memory>
        ensures found { IfOk result (λ ids. IsChildren (tree self.old) parent ids.items) }
        ensures tree { tree self.new ≡ tree self.old }
        ensures looks { looks self.new ≡ listed (looks self.old) result };

    /// All rows, in ascending order of ids.
    fn rows(&mut self) -> Result<Vec<Row>, Memory>
        ensures found { IfOk result (λ rows. rows.items ≡ map.values (tree self.old)) }
        ensures tree { tree self.new ≡ tree self.old }
        ensures looks { looks self.new ≡ listed (looks self.old) result };

    /// The tree is well formed.
    ghost formed: { (view : Self) → IsWellFormed (tree view) };
    /// It has at most 4,294,967,296 rows.
    ghost few: { (view : Self) → map.len (tree view) ≤ 2 ^ 32 };
}

/// The row that a node is to have, or none.
#[derive(Debug, Drop)]
pub struct Edit {
    pub id: NodeId,
    pub row: Option<Row>,
}
