//! The pointers of a tree's rows.
ghost use Rattle.std.specs.Prelude.{◌≡◌, ◌<◌, ◌^◌, OnOk, OnErr, is_some, if◌then◌else◌, None};
ghost use Rattle.std.specs.FinMap as map;
ghost use Rattle.kb_name.specs.declared.ids.NodeId.{NodeId};
ghost use Rattle.kb_ops.specs.Plan.{is_below};

use kb_blocks::Ptr;
use kb_edge::Memory;
use kb_name::NodeId;
use kb_tree::Table;
use std::alloc::Global;
use std::collections::BTreeMap;
use std::marker::Model;

/// Pointers that are kept, by the ids of their rows.
#[derive(Drop)]
pub struct Pointers {
    by_id: BTreeMap<NodeId, Ptr>,
}

impl Model for Pointers {
    ghost use Rattle.std.specs.FinMap.{from_entries};
    ghost use Rattle.kb_snap.specs.Pointers.{Kept, coded_kept};

    ghost Value = { Kept };

    ghost coded = { coded_kept };

    ghost view = { λ a. from_entries a.by_id.entries };
}

impl Pointers {
    /// No pointers.
    pub fn new(alloc: Global) -> Pointers
        ensures { result ≡ map.empty }
    {
        Pointers {
            by_id: BTreeMap::new(alloc),
        }
    }

    /// The pointer that is kept for a row.
    pub fn get(&self, id: NodeId) -> Option<Ptr>
        ensures { result ≡ map.get self.now id }
    {
        self.by_id.get(&id).copied()
    }

    /// How many pointers are kept.
    pub(crate) fn len(&self) -> usize
        ensures len { result ≡ map.len self.now }
        ensures small { result < 2 ^ 63 }
    {
        self.by_id.len()
    }

    /// Whether a pointer is kept for a row.
    pub(crate) fn has(&self, id: NodeId) -> bool
        ensures { result ≡ is_some (map.get self.now id) }
    {
        self.get(id).is_some()
    }

    /// Keeps a pointer for a row, in place of any other.
    pub fn set(&mut self, id: NodeId, ptr: Ptr) -> Result<(), Memory>
        ensures ok { OnOk result (self.new ≡ map.insert self.old id ptr) }
        ensures err { OnErr result (self.new ≡ self.old) }
    {
        self.by_id.insert(id, ptr)?;
        Ok(())
    }

    fn drop_one(&mut self, id: NodeId)
        ensures { self.new ≡ map.remove self.old id }
    {
        let _ = self.by_id.remove(&id);
    }

    /// Drops the pointers of a row and of every row on its walk of parents.
    pub fn forget(&mut self, table: &Table, id: NodeId)
        ensures { (q : NodeId) → map.get self.new q ≡ (if is_below table.now.tree q id then None else map.get self.old q) }
    {
        table.is_well_formed();
        let mut from = id;
        'rows: for _ in 0..table.len() {
            self.drop_one(from);
            if from == NodeId::ROOT {
                return;
            }
            match table.get(from) {
                Some(row) => from = row.parent,
                None => return,
            }
        }
        self.drop_one(from);
    }
}
