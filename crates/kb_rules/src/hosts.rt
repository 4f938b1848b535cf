//! The directories to which others may be joined, by their places.
ghost use Rattle.std.specs.Prelude.{◌≡◌, ◌-◌, ℕ, List, None, Some, map, find, if◌then◌else◌, OnOk, IfOk};
ghost use Rattle.std.specs.Option.{option_copied};
ghost use Rattle.kb_name.specs.declared.ids.NodeId.{NodeId};
ghost use Rattle.kb_rules.specs.PlaceSets.{is_place};
ghost use Rattle.kb_rules.specs.Code.{AreSides, kept_in};
ghost use Rattle.kb_rules.specs.Hosting.{host_at, host_in, AreHosts, IsAdded, is_at};

use super::places::{Place, place_of};
use super::sides::Sides;
use kb_edge::Memory;
use kb_name::NodeId;
use kb_ops::{Kind, Row};
use std::alloc::Global;
use std::collections::BTreeMap;

/// Directories by their places.
#[derive(Drop)]
pub struct Hosts {
    map: BTreeMap<Place, NodeId>,
}

impl Hosts {
    pub fn new(alloc: Global) -> Hosts
        ensures { (p : NodeId) (n : List ℕ) → host_at result p n ≡ None }
    {
        Hosts {
            map: BTreeMap::new(alloc),
        }
    }

    pub fn find(&self, place: &Place) -> Option<NodeId>
        ensures { result ≡ host_at self.now place.now.parent place.now.name.items }
    {
        self.map.get(place).copied()
    }

    fn add(&mut self, place: Place, id: NodeId) -> Result<(), Memory>
        ensures { OnOk result ((p : NodeId) (n : List ℕ) → host_at self.new p n ≡ (if is_place place p n then Some id else host_at self.old p n)) }
    {
        self.map.insert(place, id)?;
        Ok(())
    }
}

/// Adds the row of an id, if it may be a host.
fn add_host(
    alloc: Global,
    sides: &Sides,
    hosts: &mut Hosts,
    q: NodeId,
    kept: bool,
) -> Result<(), Memory>
    requires sides { AreSides sides.now }
    requires kept { kept ≡ kept_in sides.now q }
    ensures { OnOk result (IsAdded sides.now q hosts.old hosts.new) }
{
    if !kept || sides.ours(q).is_some() {
        return Ok(());
    }
    match sides.merged(q) {
        Some(row) => add_dir(alloc, hosts, q, row),
        None => Ok(()),
    }
}

fn add_dir(alloc: Global, hosts: &mut Hosts, q: NodeId, row: &Row) -> Result<(), Memory>
    ensures { OnOk result ((p : NodeId) (n : List ℕ) → host_at hosts.new p n ≡ (if is_at p n row.now then Some q else host_at hosts.old p n)) }
{
    if row.kind != Kind::Dir {
        return Ok(());
    }
    hosts.add(place_of(alloc, row.parent, &row.name)?, q)
}

/// The directories of merged that are kept and that ours lacks; the first where several stand at one place.
pub fn hosts_of(alloc: Global, sides: &Sides, kept: &[bool]) -> Result<Hosts, Memory>
    requires sides { AreSides sides.now }
    requires kept { kept.now ≡ map (kept_in sides.now) sides.now.ids.now }
    ensures { IfOk result (AreHosts sides.now) }
{
    let mut hosts = Hosts::new(alloc);
    let count = sides.ids.len();
    for k in 0..count {
        let i = count - 1 - k;
        add_host(alloc, sides, &mut hosts, sides.ids[i], kept[i])?;
    }
    Ok(hosts)
}
