//! The merge of three trees by what operations changed in each branch.
ghost use Rattle.std.specs.Prelude.{true, ◌≡◌, ◌+◌, ◌*◌, ◌<◌, ◌≤◌, ◌^◌, [], length, IfOk};
ghost use Rattle.std.specs.FinMap as map;
ghost use Rattle.kb_ops.specs.Trees.{look, IsWellFormed};
ghost use Rattle.kb_ops.specs.Lists.{tree_of, rises};
ghost use Rattle.kb_opchains.specs.Edits.{edited, edits_rise};
ghost use Rattle.kb_opchains.specs.Nets.{AreNets};
ghost use Rattle.kb_rules.specs.Meet.{Meet};
ghost use Rattle.kb_rules.specs.Merge.{joins, splits, merge, report, three};
ghost use Rattle.kb_rules.specs.Names.{result_with};
ghost use Rattle.kb_rules.specs.Ready.{is_in};
ghost use Rattle.kb_rules.specs.Code.{AreSeats, AreSides, merged_in};
ghost use Rattle.kb_rules.specs.Naming.{named_three};
ghost use Rattle.kb_actions.specs.Bounds.{LooksFew};
ghost use Rattle.kb_actions.specs.Seen.{seen_in, name_all};
ghost use Rattle.kb_actions.specs.Looking.{look_all};
ghost use Rattle.kb_actions.specs.Edits.{edits_in};
ghost use Rattle.kb_actions.specs.Merges.{named_by, IsMergeOf, looks_for};

use super::edits::edits_of;
use super::known::gather;
use super::names::give_all;
use super::rows::{Lists, lists_of};
use kb_edge::Memory;
use kb_opchains::{Edit, Net, View};
use kb_ops::Row;
use kb_rules::{
    Report, Seats, Sides, Stamp, all_ids, copies_of, device, few, joined_count, moment, seats_of,
    splits_of,
};
use std::alloc::Global;

/// The merge, once it stands where the rows are.
fn merge_seats<V: View>(
    alloc: Global,
    seats: &Seats,
    merged: &mut V,
    all: u64,
) -> Result<(Vec<Edit>, Report), Memory>
    requires seats { AreSeats seats.now }
    requires few { length seats.now.sides.now.ids.now < 2 ^ 62 }
    requires all { all + 1 < 2 ^ 64 }
    requires copies { length seats.now.sides.now.splits.now ≤ 65535 }
    ensures edits { IfOk result (λ d. d.0.items ≡ edits_in (merged_in seats.now.sides.now) (result_with (named_three seats.now.sides.now) (named_by (V.tree merged.old) all (named_three seats.now.sides.now))) seats.now.sides.now.ids.now) }
    ensures copies { IfOk result (λ d. d.1.copies ≡ length seats.now.sides.now.splits.now) }
    ensures renamed { IfOk result (λ d. d.1.renamed ≡ length (named_by (V.tree merged.old) all (named_three seats.now.sides.now))) }
    ensures joined { IfOk result (λ d. d.1.joined ≡ joins (named_three seats.now.sides.now)) }
    ensures tree { V.tree merged.new ≡ V.tree merged.old }
    ensures looks { V.looks merged.new ≤ V.looks merged.old + looks_for (V.tree merged.old) all (named_three seats.now.sides.now) }
{
    let naming = give_all(alloc, seats, merged, all)?;
    let edits = edits_of(alloc, seats, &naming.names)?;
    let report = Report {
        copies: seats.sides.splits.len() as u32,
        renamed: naming.count,
        joined: joined_count(seats),
    };
    Ok((edits, report))
}

/// The merge of three lists of rows with their split files, copies and ids.
fn merge_sides<V: View>(
    alloc: Global,
    sides: &Sides,
    merged: &mut V,
    all: u64,
) -> Result<(Vec<Edit>, Report), Memory>
    requires sides { AreSides sides.now }
    requires few { length sides.now.ids.now < 2 ^ 62 }
    requires all { all + 1 < 2 ^ 64 }
    requires copies { length sides.now.splits.now ≤ 65535 }
    ensures edits { IfOk result (λ d. d.0.items ≡ edits_in (merged_in sides.now) (result_with (named_three sides.now) (named_by (V.tree merged.old) all (named_three sides.now))) sides.now.ids.now) }
    ensures copies { IfOk result (λ d. d.1.copies ≡ length sides.now.splits.now) }
    ensures renamed { IfOk result (λ d. d.1.renamed ≡ length (named_by (V.tree merged.old) all (named_three sides.now))) }
    ensures joined { IfOk result (λ d. d.1.joined ≡ joins (named_three sides.now)) }
    ensures tree { V.tree merged.new ≡ V.tree merged.old }
    ensures looks { V.looks merged.new ≤ V.looks merged.old + looks_for (V.tree merged.old) all (named_three sides.now) }
{
    let seats = seats_of(alloc, sides)?;
    merge_seats(alloc, &seats, merged, all)
}

/// The merge by lists of the rows that matter, each in ascending order of ids.
fn merge_lists<V: View>(
    alloc: Global,
    base: &[Row],
    part: &[Row],
    ours: &[Row],
    merged: &mut V,
    stamp: &Stamp,
    all: u64,
) -> Result<(Vec<Edit>, Report), Memory>
    requires base { rises base.now ≡ true }
    requires merged { rises part.now ≡ true }
    requires ours { rises ours.now ≡ true }
    requires meet { Meet (tree_of base.now) (tree_of part.now) (tree_of ours.now) stamp.now }
    requires rule { stamp.now.rule ≡ 1 }
    requires few { length (splits (tree_of base.now) (tree_of part.now) (tree_of ours.now)) ≤ 65535 }
    requires all { all + 1 < 2 ^ 64 }
    ensures merge { IfOk result (λ d. IsMergeOf (V.tree merged.old) all (tree_of part.now) (three (tree_of base.now) (tree_of part.now) (tree_of ours.now) stamp.now) (splits (tree_of base.now) (tree_of part.now) (tree_of ours.now)) d.0.items d.1) }
    ensures tree { V.tree merged.new ≡ V.tree merged.old }
    ensures looks { V.looks merged.new ≤ V.looks merged.old + looks_for (V.tree merged.old) all (three (tree_of base.now) (tree_of part.now) (tree_of ours.now) stamp.now) }
{
    few(part);
    few(ours);
    let splits = splits_of(alloc, base, part, ours)?;
    let copies = copies_of(alloc, stamp, &splits, ours)?;
    let ids = all_ids(alloc, stamp, &splits, part, ours)?;
    let sides = Sides {
        stamp,
        base,
        merged: part,
        ours,
        splits: &splits,
        copies: &copies,
        ids: &ids,
    };
    merge_sides(alloc, &sides, merged, all)
}

/// How many conflicted names there are to try. More than rows can need.
fn most() -> u64
    ensures big { 2 ^ 63 ≤ result }
    ensures small { result + 1 < 2 ^ 64 }
{
    9_223_372_036_854_775_808
}

/// The edits that change the merged tree into the merge of three trees, by the nets of both branches. Only rows of
/// merged are looked at: those on the walks of parents from nodes that a branch changed, and those at places that
/// rows of ours would take.
pub fn merge_by_actions<V: View>(
    alloc: Global,
    base: &mut V,
    merged: &mut V,
    merged_ops: &[Net],
    ours: &mut V,
    our_ops: &[Net],
    stamp: &Stamp,
) -> Result<(Vec<Edit>, Report), Memory>
    requires meet { Meet (V.tree base.old) (V.tree merged.old) (V.tree ours.old) stamp.now }
    requires merged_nets { AreNets (look (V.tree base.old)) (look (V.tree merged.old)) merged_ops.now }
    requires our_nets { AreNets (look (V.tree base.old)) (look (V.tree ours.old)) our_ops.now }
    requires rule { stamp.now.rule ≡ 1 }
    requires few { length (splits (V.tree base.old) (V.tree merged.old) (V.tree ours.old)) ≤ 65535 }
    ensures merge { IfOk result (λ d. edited (V.tree merged.old) d.0.items ≡ merge (V.tree base.old) (V.tree merged.old) (V.tree ours.old) stamp.now) }
    ensures formed { IfOk result (λ d. IsWellFormed (edited (V.tree merged.old) d.0.items)) }
    ensures ascending { IfOk result (λ d. edits_rise d.0.items ≡ true) }
    ensures report { IfOk result (λ d. d.1 ≡ report (V.tree base.old) (V.tree merged.old) (V.tree ours.old) stamp.now) }
    ensures base_tree { V.tree base.new ≡ V.tree base.old }
    ensures merged_tree { V.tree merged.new ≡ V.tree merged.old }
    ensures our_tree { V.tree ours.new ≡ V.tree ours.old }
    ensures looks { LooksFew (V.tree base.old) (V.tree merged.old) (V.tree ours.old) stamp.now
        (V.looks base.old + (V.looks merged.old + V.looks ours.old)) (V.looks base.new + (V.looks merged.new + V.looks ours.new)) }
{
    device(stamp);
    moment(stamp);
    let known = gather(alloc, base, merged, ours, merged_ops, our_ops)?;
    let lists = lists_of(alloc, known)?;
    let all = most();
    merge_lists(
        alloc,
        &lists.base,
        &lists.merged,
        &lists.ours,
        merged,
        stamp,
        all,
    )
}
