//! What each row is joined to, from the root downwards.
ghost use Rattle.std.specs.Prelude.{◌≡◌, ◌-◌, ◌<◌, ℕ, map, length, drop, take, find, get_or, slice_get, IfOk, OnOk, is_some, None, Some, if◌then◌else◌, set, false};
ghost use Rattle.std.specs.Option.{option_copied};
ghost use Rattle.kb_rules.specs.Code.{AreSides, kept_in, merged_in, ours_in, seat_in, joined_in, up_of};
ghost use Rattle.kb_rules.specs.Hosting.{AreHosts, into_known, join_in, join_at, path_of, settle, settle_from, at_first, is_joined, takes_in};

use super::fates::is_dir_row;
use super::found::id_at;
use super::hosts::{Hosts, hosts_of};
use super::places::place_of;
use super::sides::Sides;
use super::walks::next;
use kb_edge::Memory;
use kb_name::NodeId;
use kb_ops::Row;
use std::alloc::Global;

/// What a parent is or is joined to.
fn into(above: Option<Option<NodeId>>, parent: NodeId) -> NodeId
    ensures { result ≡ into_known above parent }
{
    match above {
        Some(joined) => match joined {
            Some(a) => a,
            None => parent,
        },
        None => parent,
    }
}

/// The first host for a row in a directory.
fn host(
    alloc: Global,
    sides: &Sides,
    hosts: &Hosts,
    row: &Row,
    parent: NodeId,
) -> Result<Option<NodeId>, Memory>
    requires sides { AreSides sides.now }
    requires hosts { AreHosts sides.now hosts.now }
    ensures { IfOk result (λ a. a ≡ find (takes_in sides.now row.now parent) sides.now.ids.now) }
{
    if !is_dir_row(row) {
        return Ok(None);
    }
    let place = place_of(alloc, parent, &row.name)?;
    Ok(hosts.find(&place))
}

/// What a row is joined to, by what is known of its parent.
fn join(
    alloc: Global,
    sides: &Sides,
    hosts: &Hosts,
    kept: bool,
    above: Option<Option<NodeId>>,
    q: NodeId,
) -> Result<Option<NodeId>, Memory>
    requires sides { AreSides sides.now }
    requires hosts { AreHosts sides.now hosts.now }
    requires kept { kept ≡ kept_in sides.now q }
    ensures { IfOk result (λ a. a ≡ join_in sides.now above q) }
{
    if !kept || sides.merged(q).is_some() {
        return Ok(None);
    }
    match sides.ours(q) {
        Some(row) => host(alloc, sides, hosts, row, into(above, row.parent)),
        None => Ok(None),
    }
}

fn is_known(known: &[Option<Option<NodeId>>], at: usize) -> bool
    ensures { result ≡ is_some (get_or known.now at (Some None)) }
{
    match known.get(at) {
        Some(joined) => joined.is_some(),
        None => true,
    }
}

/// The places of a walk up to the first that is known.
fn path(
    alloc: Global,
    ups: &[usize],
    known: &[Option<Option<NodeId>>],
    from: usize,
) -> Result<Vec<usize>, Memory>
    ensures { IfOk result (λ v. v.items ≡ path_of ups.now known.now (length ups.now) from) }
{
    let mut path = Vec::new(alloc);
    let mut at = from;
    for _ in 0..ups.len() {
        if is_known(known, at) {
            return Ok(path);
        }
        path.push(at)?;
        at = next(ups, at);
    }
    Ok(path)
}

fn known_at(known: &[Option<Option<NodeId>>], at: usize) -> Option<Option<NodeId>>
    ensures { result ≡ get_or known.now at None }
{
    match known.get(at) {
        Some(joined) => *joined,
        None => None,
    }
}

fn write(known: &mut Vec<Option<Option<NodeId>>>, at: usize, joined: Option<NodeId>)
    ensures { known.new.items ≡ set known.old.items at (Some joined) }
{
    if at < known.len() {
        known[at] = Some(joined);
    }
}

/// What the row in a place is joined to, by what is known.
fn join_at(
    alloc: Global,
    sides: &Sides,
    hosts: &Hosts,
    kept: &[bool],
    ups: &[usize],
    known: &[Option<Option<NodeId>>],
    i: usize,
) -> Result<Option<NodeId>, Memory>
    requires sides { AreSides sides.now }
    requires hosts { AreHosts sides.now hosts.now }
    requires kept { kept.now ≡ map (kept_in sides.now) sides.now.ids.now }
    ensures { IfOk result (λ a. a ≡ join_at sides.now ups.now known.now i) }
{
    match id_at(sides.ids, i) {
        Some(q) => join(
            alloc,
            sides,
            hosts,
            flag_at(kept, i),
            known_at(known, next(ups, i)),
            q,
        ),
        None => Ok(None),
    }
}

fn flag_at(flags: &[bool], i: usize) -> bool
    ensures { result ≡ get_or flags.now i false }
{
    match flags.get(i) {
        Some(flag) => *flag,
        None => false,
    }
}

/// Makes known what the rows of a path are joined to, the last first.
fn settle(
    alloc: Global,
    sides: &Sides,
    hosts: &Hosts,
    kept: &[bool],
    ups: &[usize],
    known: &mut Vec<Option<Option<NodeId>>>,
    path: &[usize],
) -> Result<(), Memory>
    requires sides { AreSides sides.now }
    requires hosts { AreHosts sides.now hosts.now }
    requires kept { kept.now ≡ map (kept_in sides.now) sides.now.ids.now }
    ensures { OnOk result (known.new.items ≡ settle sides.now ups.now path.now known.old.items) }
{
    let count = path.len();
    for k in 0..count {
        let i = path[count - 1 - k];
        let joined = join_at(alloc, sides, hosts, kept, ups, known, i)?;
        write(known, i, joined);
    }
    Ok(())
}

/// Makes known what a row is joined to, if it is kept, and what the rows of its walk are.
fn settle_from(
    alloc: Global,
    sides: &Sides,
    hosts: &Hosts,
    kept: &[bool],
    ups: &[usize],
    known: &mut Vec<Option<Option<NodeId>>>,
    from: usize,
) -> Result<(), Memory>
    requires sides { AreSides sides.now }
    requires hosts { AreHosts sides.now hosts.now }
    requires kept { kept.now ≡ map (kept_in sides.now) sides.now.ids.now }
    ensures { OnOk result (known.new.items ≡ settle_from sides.now ups.now (get_or kept.now from false) from known.old.items) }
{
    if !flag_at(kept, from) {
        return Ok(());
    }
    let path = path(alloc, ups, known, from)?;
    settle(alloc, sides, hosts, kept, ups, known, &path)
}

/// At first it is known that the root isn't joined.
fn first_known(alloc: Global, ids: &[NodeId]) -> Result<Vec<Option<Option<NodeId>>>, Memory>
    ensures { IfOk result (λ v. v.items ≡ map at_first ids.now) }
{
    let known = ids.iter().map(|q| at_first(*q)).collect(alloc)?;
    Ok(known)
}

fn at_first(q: NodeId) -> Option<Option<NodeId>>
    ensures { result ≡ at_first q }
{
    if q == NodeId::ROOT { Some(None) } else { None }
}

fn all_known(alloc: Global, known: &[Option<Option<NodeId>>]) -> Result<Vec<Option<NodeId>>, Memory>
    ensures { IfOk result (λ v. v.items ≡ map is_joined known.now) }
{
    let joined = known.iter().map(|k| is_joined(*k)).collect(alloc)?;
    Ok(joined)
}

fn is_joined(known: Option<Option<NodeId>>) -> Option<NodeId>
    ensures { result ≡ is_joined known }
{
    match known {
        Some(joined) => joined,
        None => None,
    }
}

/// For each id, what its row is joined to.
pub fn joins_of(
    alloc: Global,
    sides: &Sides,
    kept: &[bool],
    ups: &[usize],
) -> Result<Vec<Option<NodeId>>, Memory>
    requires sides { AreSides sides.now }
    requires kept { kept.now ≡ map (kept_in sides.now) sides.now.ids.now }
    requires ups { ups.now ≡ map (up_of sides.now.ids.now (seat_in sides.now)) sides.now.ids.now }
    ensures { IfOk result (λ v. v.items ≡ map (joined_in sides.now) sides.now.ids.now) }
{
    let hosts = hosts_of(alloc, sides, kept)?;
    let mut known = first_known(alloc, sides.ids)?;
    for i in 0..sides.ids.len() {
        settle_from(alloc, sides, &hosts, kept, ups, &mut known, i)?;
    }
    all_known(alloc, &known)
}
