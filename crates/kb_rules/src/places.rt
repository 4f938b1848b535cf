//! Sets of places in a tree.
ghost use Rattle.std.specs.Prelude.{◌≡◌, ◌||◌, ℕ, List, false, OnOk, IfOk};
ghost use Rattle.kb_name.specs.declared.ids.NodeId.{NodeId};
ghost use Rattle.kb_rules.specs.PlaceSets.{is_place, has_place};

use kb_edge::Memory;
use kb_name::{Name, NodeId};
use std::alloc::Global;
use std::collections::BTreeSet;

/// A name in a directory.
#[derive(Debug, Drop, PartialEq, Eq, PartialOrd, Ord)]
pub struct Place {
    pub parent: NodeId,
    pub name: Vec<u8>,
}

/// The place with the name in the directory.
pub fn place_of(alloc: Global, parent: NodeId, name: &Name) -> Result<Place, Memory>
    ensures { IfOk result (λ p. (p.parent ≡ parent) × (p.name.items ≡ name.now)) }
{
    let name = Vec::from_slice(alloc, name.bytes())?;
    Ok(Place { parent, name })
}

/// Places.
#[derive(Drop)]
pub struct Places {
    set: BTreeSet<Place>,
}

impl Places {
    pub fn new(alloc: Global) -> Places
        ensures { (p : NodeId) (n : List ℕ) → has_place result p n ≡ false }
    {
        Places {
            set: BTreeSet::new(alloc),
        }
    }

    pub fn has(&self, place: &Place) -> bool
        ensures { result ≡ has_place self.now place.now.parent place.now.name.items }
    {
        self.set.contains(place)
    }

    pub fn add(&mut self, place: Place) -> Result<(), Memory>
        ensures { OnOk result ((p : NodeId) (n : List ℕ) → has_place self.new p n ≡ (has_place self.old p n || is_place place p n)) }
    {
        self.set.insert(place)?;
        Ok(())
    }
}
