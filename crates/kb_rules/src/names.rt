//! The names of rows of ours that stand where a row of merged does.
ghost use Rattle.std.specs.Prelude.{◌≡◌, ◌+◌, ◌<◌, ◌≤◌, ◌^◌, ◌||◌, ◌&&◌, true, false, length, if◌then◌else◌, is_some, Some, IfOk, OnOk, ℕ, List};
ghost use Rattle.std.specs.BTreeMap.{get};
ghost use Rattle.std.specs.List.{list_any};
ghost use Rattle.std.specs.Option.{option_map, option_map_or, option_or};
ghost use Rattle.std.specs.Str.{bytes_eq};
ghost use Rattle.kb_name.specs.declared.ids.NodeId.{NodeId};
ghost use Rattle.kb_name.specs.Nodes.{same_node, node_cmp};
ghost use Rattle.kb_rules.specs.Merge.{conflicted};
ghost use Rattle.kb_rules.specs.Code.{AreSeats};
ghost use Rattle.kb_rules.specs.Names.{given};
ghost use Rattle.kb_rules.specs.PlaceSets.{has_place};
ghost use Rattle.kb_rules.specs.Naming.{stands_in, merged_stands_in, free_by, clash_by, name_by, name_of, as_pair, is_given, name_after, count_of, named_three, given_to};

use super::places::{Places, place_of};
use super::seats::Seats;
use super::stamp::Stamp;
use kb_edge::Memory;
use kb_name::{Name, NodeId};
use kb_ops::Row;
use std::alloc::Global;
use std::collections::BTreeMap;

/// A name for a row, in the directory in which it stands.
#[derive(Debug, Drop)]
struct Given {
    parent: NodeId,
    name: Name,
}

/// The names that rows were given, and the places that are taken.
#[derive(Drop)]
pub struct Naming {
    taken: Places,
    pub names: BTreeMap<NodeId, Name>,
    pub count: u64,
}

/// Adds the place in which a row stands.
#[tactic(auto, unfolding(crate::specs::Naming::stands_in))]
fn add_place(alloc: Global, seats: &Seats, q: NodeId, places: &mut Places) -> Result<(), Memory>
    requires { AreSeats seats.now }
    ensures { OnOk result ((p : NodeId) (n : List ℕ)
        → has_place places.new p n ≡ (has_place places.old p n || stands_in seats.now.sides.now p n q)) }
{
    match seats.left(q) {
        Some(row) => places.add(place_of(alloc, seats.into(row.parent), &row.name)?),
        None => Ok(()),
    }
}

/// Adds the place in which a row of merged's side stands.
#[tactic(auto, unfolding(crate::specs::Naming::merged_stands_in))]
fn add_merged_place(
    alloc: Global,
    seats: &Seats,
    q: NodeId,
    places: &mut Places,
) -> Result<(), Memory>
    requires { AreSeats seats.now }
    ensures { OnOk result ((p : NodeId) (n : List ℕ)
        → has_place places.new p n ≡ (has_place places.old p n || merged_stands_in seats.now.sides.now p n q)) }
{
    if seats.on_ours(q) {
        return Ok(());
    }
    add_place(alloc, seats, q, places)
}

/// The places in which rows stand.
pub fn all_places(alloc: Global, seats: &Seats) -> Result<Places, Memory>
    requires { AreSeats seats.now }
    ensures { IfOk result (λ s. (p : NodeId) (n : List ℕ)
        → has_place s p n ≡ list_any (stands_in seats.now.sides.now p n) seats.now.sides.now.ids.now) }
{
    let mut places = Places::new(alloc);
    let ids = seats.sides.ids;
    for q in ids {
        add_place(alloc, seats, *q, &mut places)?;
    }
    Ok(places)
}

/// The places in which rows of merged's side stand.
pub fn merged_places(alloc: Global, seats: &Seats) -> Result<Places, Memory>
    requires { AreSeats seats.now }
    ensures { IfOk result (λ s. (p : NodeId) (n : List ℕ)
        → has_place s p n ≡ list_any (merged_stands_in seats.now.sides.now p n) seats.now.sides.now.ids.now) }
{
    let mut places = Places::new(alloc);
    let ids = seats.sides.ids;
    for q in ids {
        add_merged_place(alloc, seats, *q, &mut places)?;
    }
    Ok(places)
}

#[tactic(auto, unfolding(crate::specs::Merge::conflicted))]
pub fn conflicted(alloc: Global, stamp: &Stamp, name: &Name, k: u64) -> Result<Name, Memory>
    requires { 1 ≤ k }
    ensures { IfOk result (λ n. n ≡ conflicted stamp.now name.now k) }
{
    kb_name::conflicted(alloc, name, &stamp.name, stamp.moment, k)
}

/// Whether a name in a directory is taken.
fn is_taken(alloc: Global, taken: &Places, parent: NodeId, name: &Name) -> Result<bool, Memory>
    ensures { IfOk result (λ b. b ≡ has_place taken.now parent name.now) }
{
    let place = place_of(alloc, parent, name)?;
    Ok(taken.has(&place))
}

/// The first conflicted name that isn't taken, where one of the first `all` and one more isn't.
fn free_name(
    alloc: Global,
    stamp: &Stamp,
    taken: &Places,
    parent: NodeId,
    name: &Name,
    all: u64,
) -> Result<Name, Memory>
    requires { all < 2 ^ 63 }
    ensures { IfOk result (λ n. n ≡ free_by (has_place taken.now parent) (conflicted stamp.now name.now) all 1) }
{
    let last = all + 1;
    for k in 1..last {
        let free = conflicted(alloc, stamp, name, k)?;
        if !is_taken(alloc, taken, parent, &free)? {
            return Ok(free);
        }
    }
    conflicted(alloc, stamp, name, last)
}

/// A name for a row of ours that stands where one of merged's side does.
#[tactic(auto, unfolding(crate::specs::Naming::clash_by))]
fn clash(
    alloc: Global,
    seats: &Seats,
    merged: &Places,
    taken: &Places,
    all: u64,
    row: &Row,
) -> Result<Option<Given>, Memory>
    requires seats { AreSeats seats.now }
    requires few { all < 2 ^ 63 }
    ensures { IfOk result (λ o. option_map as_pair o
        ≡ clash_by (has_place merged.now) (has_place taken.now) seats.now.sides.now all row.now) }
{
    let parent = seats.into(row.parent);
    if !is_taken(alloc, merged, parent, &row.name)? {
        return Ok(None);
    }
    let name = free_name(alloc, seats.sides.stamp, taken, parent, &row.name, all)?;
    Ok(Some(Given { parent, name }))
}

/// A name for the row of an id, if it needs one.
#[tactic(auto, unfolding(crate::specs::Naming::name_by))]
fn new_name(
    alloc: Global,
    seats: &Seats,
    merged: &Places,
    taken: &Places,
    all: u64,
    q: NodeId,
) -> Result<Option<Given>, Memory>
    requires seats { AreSeats seats.now }
    requires few { all < 2 ^ 63 }
    ensures { IfOk result (λ o. option_map as_pair o
        ≡ name_by (has_place merged.now) (has_place taken.now) seats.now.sides.now all q) }
{
    if !seats.on_ours(q) {
        return Ok(None);
    }
    match seats.left(q) {
        Some(row) => clash(alloc, seats, merged, taken, all, row),
        None => Ok(None),
    }
}

impl Naming {
    fn put(&mut self, alloc: Global, q: NodeId, given: Given) -> Result<(), Memory>
        requires { self.old.count < 2 ^ 63 }
        ensures taken { OnOk result ((p : NodeId) (n : List ℕ) → has_place self.new.taken p n
            ≡ (has_place self.old.taken p n || (same_node p given.parent && bytes_eq n given.name))) }
        ensures names { OnOk result ((k : NodeId) → name_of self.new.names k
            ≡ (if same_node q k then Some given.name else name_of self.old.names k)) }
        ensures count { OnOk result (self.new.count ≡ self.old.count + 1) }
    {
        let place = place_of(alloc, given.parent, &given.name)?;
        self.taken.add(place)?;
        self.names.insert(q, given.name)?;
        self.count += 1;
        Ok(())
    }
}

/// Gives the row of an id a name, if it needs one.
fn give(
    alloc: Global,
    seats: &Seats,
    merged: &Places,
    naming: &mut Naming,
    q: NodeId,
) -> Result<(), Memory>
    requires seats { AreSeats seats.now }
    requires few { length seats.now.sides.now.ids.now + naming.old.count < 2 ^ 63 }
    ensures taken { OnOk result ((p : NodeId) (n : List ℕ) → has_place naming.new.taken p n
        ≡ (has_place naming.old.taken p n || is_given (name_by (has_place merged.now) (has_place naming.old.taken) seats.now.sides.now (length seats.now.sides.now.ids.now + naming.old.count) q) p n)) }
    ensures names { OnOk result ((k : NodeId) → name_of naming.new.names k
        ≡ name_after (name_by (has_place merged.now) (has_place naming.old.taken) seats.now.sides.now (length seats.now.sides.now.ids.now + naming.old.count) q) q (name_of naming.old.names k) k) }
    ensures count { OnOk result (naming.new.count ≡ naming.old.count
        + count_of (name_by (has_place merged.now) (has_place naming.old.taken) seats.now.sides.now (length seats.now.sides.now.ids.now + naming.old.count) q)) }
{
    let all = seats.sides.ids.len() as u64 + naming.count;
    match new_name(alloc, seats, merged, &naming.taken, all, q)? {
        Some(given) => naming.put(alloc, q, given),
        None => Ok(()),
    }
}

/// The names that rows are given, in ascending order of their ids.
pub fn give_all(alloc: Global, seats: &Seats) -> Result<Naming, Memory>
    requires seats { AreSeats seats.now }
    requires few { length seats.now.sides.now.ids.now < 2 ^ 62 }
    ensures names { IfOk result (λ n. (k : NodeId)
        → name_of n.names k ≡ given_to (given (named_three seats.now.sides.now)) k) }
    ensures count { IfOk result (λ n. n.count ≡ length (given (named_three seats.now.sides.now))) }
{
    let merged = merged_places(alloc, seats)?;
    let mut naming = Naming {
        taken: all_places(alloc, seats)?,
        names: BTreeMap::new(alloc),
        count: 0,
    };
    let ids = seats.sides.ids;
    for q in ids {
        give(alloc, seats, &merged, &mut naming, *q)?;
    }
    Ok(naming)
}
