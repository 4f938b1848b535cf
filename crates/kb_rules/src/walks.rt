//! Which walks of parents under the first guess reach the root, and so which side each row is on.
ghost use Rattle.std.specs.Prelude.{◌≡◌, ◌≤◌, ◌<◌, ◌^◌, ℕ, map, length, IfOk, IfSome, get_or, true, nat_eq};
ghost use Rattle.std.specs.Option.{unwrap_or};
ghost use Rattle.kb_name.specs.Nodes.{root};
ghost use Rattle.kb_rules.specs.Code.{AreSides, guess_in, side_in, lost_in, reaches_in, up_of, ascend, place_in, twice, IsFar};

use super::fates::is_dir;
use super::found::place;
use super::sides::Sides;
use kb_edge::Memory;
use kb_name::NodeId;
use std::alloc::Global;

/// The place of a row's parent under the first guess; past the end, where there is none.
fn up(sides: &Sides, q: NodeId) -> usize
    requires { AreSides sides.now }
    ensures { result ≡ up_of sides.now.ids.now (guess_in sides.now) q }
{
    match sides.guess(q) {
        Some(row) => match place(sides.ids, row.parent) {
            Some(i) => i,
            None => sides.ids.len(),
        },
        None => sides.ids.len(),
    }
}

fn ups(alloc: Global, sides: &Sides) -> Result<Vec<usize>, Memory>
    requires { AreSides sides.now }
    ensures { IfOk result (λ v. v.items ≡ map (up_of sides.now.ids.now (guess_in sides.now)) sides.now.ids.now) }
{
    let ups = sides.ids.iter().map(|q| up(sides, *q)).collect(alloc)?;
    Ok(ups)
}

/// Where a place leads; past the end, nowhere.
pub fn next(jumps: &[usize], i: usize) -> usize
    ensures { result ≡ get_or jumps.now i (length jumps.now) }
{
    match jumps.get(i) {
        Some(j) => *j,
        None => jumps.len(),
    }
}

/// Jumps of twice as many steps.
fn doubled(alloc: Global, jumps: &[usize]) -> Result<Vec<usize>, Memory>
    ensures { IfOk result (λ v. v.items ≡ twice jumps.now) }
{
    let twice = jumps.iter().map(|i| next(jumps, *i)).collect(alloc)?;
    Ok(twice)
}

/// The place that many steps up from each, at least as many as there are places.
fn far(alloc: Global, ups: Vec<usize>) -> Result<Vec<usize>, Memory>
    requires { length ups.items < 2 ^ 62 }
    ensures { IfOk result (λ v. IsFar ups.items v.items) }
{
    let count = ups.len();
    let mut jumps = ups;
    let mut steps = 1;
    while steps < count {
        jumps = doubled(alloc, &jumps)?;
        steps *= 2;
    }
    Ok(jumps)
}

fn root_place(ids: &[NodeId]) -> usize
    requires { ascend ids.now ≡ true }
    ensures { result ≡ unwrap_or (place_in ids.now root) (length ids.now) }
{
    match place(ids, NodeId::ROOT) {
        Some(i) => i,
        None => ids.len(),
    }
}

/// Which walks under the first guess reach the root.
fn reached(alloc: Global, sides: &Sides) -> Result<Vec<bool>, Memory>
    requires { AreSides sides.now }
    ensures { IfOk result (λ v. v.items ≡ map (reaches_in sides.now) sides.now.ids.now) }
{
    let ends = far(alloc, ups(alloc, sides)?)?;
    are(alloc, &ends, root_place(sides.ids))
}

/// Which places are this one.
fn are(alloc: Global, places: &[usize], place: usize) -> Result<Vec<bool>, Memory>
    ensures { IfOk result (λ v. v.items ≡ map (λ i. nat_eq i place) places.now) }
{
    let are = places.iter().map(|i| *i == place).collect(alloc)?;
    Ok(are)
}

#[tactic(auto, unfolding(crate::specs::Code::lost_in, crate::specs::Code::reaches_in, crate::specs::Code::merged_in, crate::specs::Code::ours_in))]
fn is_lost(sides: &Sides, q: NodeId, reaches: bool) -> bool
    requires sides { AreSides sides.now }
    requires reaches { reaches ≡ reaches_in sides.now q }
    ensures { result ≡ lost_in sides.now q }
{
    is_dir(sides.merged(q)) && is_dir(sides.ours(q)) && !reaches
}

#[tactic(auto, unfolding(crate::specs::Code::side_in, crate::specs::Code::lost_in, crate::specs::Code::moved_in))]
fn on_ours(sides: &Sides, q: NodeId, reaches: bool) -> bool
    requires sides { AreSides sides.now }
    requires reaches { reaches ≡ reaches_in sides.now q }
    ensures { result ≡ side_in sides.now q }
{
    sides.is_moved(q) && !is_lost(sides, q, reaches)
}

/// For each id, whether its row is on our side.
pub fn sides_of(alloc: Global, sides: &Sides) -> Result<Vec<bool>, Memory>
    requires { AreSides sides.now }
    ensures { IfOk result (λ v. v.items ≡ map (side_in sides.now) sides.now.ids.now) }
{
    let reached = reached(alloc, sides)?;
    let mut table = Vec::new(alloc);
    for i in 0..sides.ids.len() {
        table.push(on_ours(sides, sides.ids[i], reached[i]))?;
    }
    Ok(table)
}
