//! Which rows are kept: what stays, and what the walks of parents from there come to.
ghost use Rattle.std.specs.Prelude.{◌≡◌, ◌<◌, map, length, IfOk, get_or, true, false, nat_eq, if◌then◌else◌};
ghost use Rattle.std.specs.Option.{option_copied};
ghost use Rattle.kb_name.specs.Nodes.{root, same_node};
ghost use Rattle.kb_rules.specs.Code.{AreSides, side_in, seat_in, kept_in, up_of, mark};

use super::found::place;
use super::sides::Sides;
use super::walks::next;
use kb_edge::Memory;
use kb_name::NodeId;
use kb_ops::Row;
use std::alloc::Global;

/// The row with its place, by its side.
#[tactic(auto, unfolding(crate::specs::Code::seat_in, crate::specs::Code::side_in, crate::specs::Code::ours_in, crate::specs::Code::merged_in))]
fn seat<'a>(sides: &'a Sides, q: NodeId, on_ours: bool) -> Option<&'a Row>
    requires sides { AreSides sides.now }
    requires side { on_ours ≡ side_in sides.now q }
    ensures { option_copied result ≡ seat_in sides.now q }
{
    if on_ours {
        sides.ours(q)
    } else {
        sides.merged(q)
    }
}

/// The place of a row's parent; past the end, where there is none.
fn up(sides: &Sides, q: NodeId, on_ours: bool) -> usize
    requires sides { AreSides sides.now }
    requires side { on_ours ≡ side_in sides.now q }
    ensures { result ≡ up_of sides.now.ids.now (seat_in sides.now) q }
{
    match seat(sides, q, on_ours) {
        Some(row) => match place(sides.ids, row.parent) {
            Some(i) => i,
            None => sides.ids.len(),
        },
        None => sides.ids.len(),
    }
}

/// For each id, the place of its row's parent.
pub fn ups_of(alloc: Global, sides: &Sides, ours: &[bool]) -> Result<Vec<usize>, Memory>
    requires sides { AreSides sides.now }
    requires ours { ours.now ≡ map (side_in sides.now) sides.now.ids.now }
    ensures { IfOk result (λ v. v.items ≡ map (up_of sides.now.ids.now (seat_in sides.now)) sides.now.ids.now) }
{
    let mut ups = Vec::new(alloc);
    for i in 0..sides.ids.len() {
        ups.push(up(sides, sides.ids[i], ours[i]))?;
    }
    Ok(ups)
}

fn is_marked(kept: &[bool], at: usize) -> bool
    ensures is { result ≡ get_or kept.now at true }
    ensures within { result ≡ false → at < length kept.now }
{
    match kept.get(at) {
        Some(flag) => *flag,
        None => true,
    }
}

/// Marks the rows of a walk up to the first that is marked.
fn mark(ups: &[usize], kept: &mut Vec<bool>, from: usize)
    ensures { kept.new.items ≡ mark ups.now (length ups.now) from kept.old.items }
{
    let mut at = from;
    for _ in 0..ups.len() {
        if is_marked(kept, at) {
            return;
        }
        kept[at] = true;
        at = next(ups, at);
    }
}

fn mark_if(ups: &[usize], kept: &mut Vec<bool>, from: usize, stays: bool)
    ensures { kept.new.items ≡ (if stays then mark ups.now (length ups.now) from kept.old.items else kept.old.items) }
{
    if stays {
        mark(ups, kept, from)
    }
}

fn roots(alloc: Global, ids: &[NodeId]) -> Result<Vec<bool>, Memory>
    ensures { IfOk result (λ v. v.items ≡ map (λ q. same_node q root) ids.now) }
{
    let roots = ids.iter().map(|q| *q == NodeId::ROOT).collect(alloc)?;
    Ok(roots)
}

/// For each id, whether its row is kept.
pub fn kept_of(alloc: Global, sides: &Sides, ups: &[usize]) -> Result<Vec<bool>, Memory>
    requires sides { AreSides sides.now }
    requires ups { ups.now ≡ map (up_of sides.now.ids.now (seat_in sides.now)) sides.now.ids.now }
    ensures { IfOk result (λ v. v.items ≡ map (kept_in sides.now) sides.now.ids.now) }
{
    let mut kept = roots(alloc, sides.ids)?;
    for i in 0..sides.ids.len() {
        mark_if(ups, &mut kept, i, sides.stays(sides.ids[i]));
    }
    Ok(kept)
}
