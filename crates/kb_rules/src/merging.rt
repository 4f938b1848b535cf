//! The merge of three trees.
ghost use Rattle.kb_ops.specs.Lists.{tree_of, rises};
ghost use Rattle.kb_rules.specs.Meet.{Meet};
ghost use Rattle.std.specs.Prelude.{true, ◌≡◌, ◌<◌, ◌≤◌, ◌^◌, length, is_some, count_by, IfOk};
ghost use Rattle.std.specs.List.{filter_map};
ghost use Rattle.kb_rules.specs.Names.{given, result as merged_row_of};
ghost use Rattle.kb_rules.specs.Merge.{joins, splits, merge, report};
ghost use Rattle.kb_rules.specs.Code.{AreSeats, AreSides};
ghost use Rattle.kb_rules.specs.Naming.{named_three};

use super::laws::{device, few, moment};
use super::merged::merged_rows;
use super::names::give_all;
use super::report::{Merged, Report};
use super::seats::{Seats, seats_of};
use super::sides::Sides;
use super::splits::{all_ids, copies_of, splits_of};
use super::stamp::Stamp;
use kb_edge::Memory;
use kb_name::NodeId;
use kb_ops::Row;
use std::alloc::Global;

fn somes(joined: &[Option<NodeId>]) -> u64
    ensures { result ≡ count_by is_some joined.now }
{
    joined.iter().filter(|to| to.is_some()).count() as u64
}

/// How many rows are joined to another.
pub fn joins(seats: &Seats) -> u64
    requires { AreSeats seats.now }
    ensures { result ≡ joins (named_three seats.now.sides.now) }
{
    somes(&seats.joined)
}

/// The merge, once it stands where the rows are.
fn merge_seats(alloc: Global, seats: &Seats) -> Result<Merged, Memory>
    requires seats { AreSeats seats.now }
    requires few { length seats.now.sides.now.ids.now < 2 ^ 62 }
    requires copies { length seats.now.sides.now.splits.now ≤ 65535 }
    ensures rows { IfOk result (λ d. d.rows.items
        ≡ filter_map (merged_row_of (named_three seats.now.sides.now)) seats.now.sides.now.ids.now) }
    ensures copies { IfOk result (λ d. d.report.copies ≡ length seats.now.sides.now.splits.now) }
    ensures renamed { IfOk result (λ d. d.report.renamed ≡ length (given (named_three seats.now.sides.now))) }
    ensures joined { IfOk result (λ d. d.report.joined ≡ joins (named_three seats.now.sides.now)) }
{
    let naming = give_all(alloc, seats)?;
    let rows = merged_rows(alloc, seats, &naming.names)?;
    let report = Report {
        copies: seats.sides.splits.len() as u32,
        renamed: naming.count,
        joined: joins(seats),
    };
    Ok(Merged { rows, report })
}

/// The merge of three trees with their split files, copies and ids.
fn merge_sides(alloc: Global, sides: &Sides) -> Result<Merged, Memory>
    requires sides { AreSides sides.now }
    requires few { length sides.now.ids.now < 2 ^ 62 }
    requires copies { length sides.now.splits.now ≤ 65535 }
    ensures rows { IfOk result (λ d. d.rows.items
        ≡ filter_map (merged_row_of (named_three sides.now)) sides.now.ids.now) }
    ensures copies { IfOk result (λ d. d.report.copies ≡ length sides.now.splits.now) }
    ensures renamed { IfOk result (λ d. d.report.renamed ≡ length (given (named_three sides.now))) }
    ensures joined { IfOk result (λ d. d.report.joined ≡ joins (named_three sides.now)) }
{
    let seats = seats_of(alloc, sides)?;
    merge_seats(alloc, &seats)
}

/// Merges three trees, each the list of its rows in ascending order of ids: that of the common revision, the merged
/// one and ours. The rows of the result are in that order too.
pub fn merge_rows(
    alloc: Global,
    base: &[Row],
    merged: &[Row],
    ours: &[Row],
    stamp: &Stamp,
) -> Result<Merged, Memory>
    requires base { rises base.now ≡ true }
    requires merged { rises merged.now ≡ true }
    requires ours { rises ours.now ≡ true }
    requires meet { Meet (tree_of base.now) (tree_of merged.now) (tree_of ours.now) stamp.now }
    requires rule { stamp.now.rule ≡ 1 }
    requires few { length (splits (tree_of base.now) (tree_of merged.now) (tree_of ours.now)) ≤ 65535 }
    ensures merge { IfOk result (λ d. tree_of d.rows.items
        ≡ merge (tree_of base.now) (tree_of merged.now) (tree_of ours.now) stamp.now) }
    ensures ascending { IfOk result (λ d. rises d.rows.items ≡ true) }
    ensures report { IfOk result (λ d. d.report
        ≡ report (tree_of base.now) (tree_of merged.now) (tree_of ours.now) stamp.now) }
{
    few(merged);
    few(ours);
    device(stamp);
    moment(stamp);
    let splits = splits_of(alloc, base, merged, ours)?;
    let copies = copies_of(alloc, stamp, &splits, ours)?;
    let ids = all_ids(alloc, stamp, &splits, merged, ours)?;
    let sides = Sides {
        stamp,
        base,
        merged,
        ours,
        splits: &splits,
        copies: &copies,
        ids: &ids,
    };
    merge_sides(alloc, &sides)
}
