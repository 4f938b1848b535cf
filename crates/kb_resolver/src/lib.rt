//! A resolution of a branch: the edits that change the merged tree into the rules' merge, and what the merge did.
#![tactic(auto)]

ghost use Rattle.std.specs.Prelude.{◌≡◌, ◌+◌, ◌≤◌, true, length, IfOk};
ghost use Rattle.kb_ops.specs.Trees.{IsWellFormed};
ghost use Rattle.kb_ops.specs.Lists.{rises, tree_of};
ghost use Rattle.kb_rules.specs.Meet.{Meet};
ghost use Rattle.kb_rules.specs.Merge.{splits, merge, report};
ghost use Rattle.kb_opchains.specs.Edits.{edited, edits_rise};
ghost use Rattle.kb_resolver.specs.Few.{FewAreSplit};
ghost use Rattle.kb_resolver.specs.Branches.{Lead, LooksFew};

mod edits;

use self::edits::edits_between;
use kb_actions::merge_by_actions;
use kb_edge::Memory;
use kb_opchains::{Edit, View, nets};
use kb_ops::{Op, Row};
use kb_rules::{Merged, Report, Stamp, merge_laws, merge_rows};
use std::alloc::Global;

/// A branch of so many operations splits at most two files for each.
pub fn few_are_split()
    ensures { FewAreSplit }
{}

/// By what both branches did: only rows that matter are looked at.
fn by_actions<V: View>(
    alloc: Global,
    base: &mut V,
    merged: &mut V,
    merged_ops: &[Op],
    ours: &mut V,
    our_ops: &[Op],
    stamp: &Stamp,
) -> Result<(Vec<Edit>, Report), Memory>
    requires meet { Meet (V.tree base.old) (V.tree merged.old) (V.tree ours.old) stamp.now }
    requires merged_leads { Lead merged_ops.now (V.tree base.old) (V.tree merged.old) }
    requires our_leads { Lead our_ops.now (V.tree base.old) (V.tree ours.old) }
    requires rule { stamp.now.rule ≡ 1 }
    requires few { length (splits (V.tree base.old) (V.tree merged.old) (V.tree ours.old)) ≤ 65535 }
    ensures merge { IfOk result (λ d. edited (V.tree merged.old) d.0.items ≡ merge (V.tree base.old) (V.tree merged.old) (V.tree ours.old) stamp.now) }
    ensures formed { IfOk result (λ d. IsWellFormed (edited (V.tree merged.old) d.0.items)) }
    ensures ascending { IfOk result (λ d. edits_rise d.0.items ≡ true) }
    ensures report { IfOk result (λ d. d.1 ≡ report (V.tree base.old) (V.tree merged.old) (V.tree ours.old) stamp.now) }
    ensures base_tree { V.tree base.new ≡ V.tree base.old }
    ensures merged_tree { V.tree merged.new ≡ V.tree merged.old }
    ensures our_tree { V.tree ours.new ≡ V.tree ours.old }
    ensures looks { LooksFew (length merged_ops.now + length our_ops.now) (V.tree base.old) (V.tree merged.old) (V.tree ours.old) stamp.now
        (V.looks base.old + (V.looks merged.old + V.looks ours.old)) (V.looks base.new + (V.looks merged.new + V.looks ours.new)) }
{
    let merged_nets = nets(alloc, merged_ops, base)?;
    let our_nets = nets(alloc, our_ops, base)?;
    merge_by_actions(alloc, base, merged, &merged_nets, ours, &our_nets, stamp)
}

/// By lists of all rows, in ascending order of ids.
fn by_lists(
    alloc: Global,
    base: &[Row],
    merged: &[Row],
    ours: &[Row],
    stamp: &Stamp,
) -> Result<(Vec<Edit>, Report), Memory>
    requires base { rises base.now ≡ true }
    requires merged { rises merged.now ≡ true }
    requires ours { rises ours.now ≡ true }
    requires meet { Meet (tree_of base.now) (tree_of merged.now) (tree_of ours.now) stamp.now }
    requires rule { stamp.now.rule ≡ 1 }
    requires few { length (splits (tree_of base.now) (tree_of merged.now) (tree_of ours.now)) ≤ 65535 }
    ensures merge { IfOk result (λ d. edited (tree_of merged.now) d.0.items ≡ merge (tree_of base.now) (tree_of merged.now) (tree_of ours.now) stamp.now) }
    ensures formed { IfOk result (λ d. IsWellFormed (edited (tree_of merged.now) d.0.items)) }
    ensures ascending { IfOk result (λ d. edits_rise d.0.items ≡ true) }
    ensures report { IfOk result (λ d. d.1 ≡ report (tree_of base.now) (tree_of merged.now) (tree_of ours.now) stamp.now) }
{
    merge_laws(base, merged, ours, stamp);
    let made = merge_rows(alloc, base, merged, ours, stamp)?;
    let Merged { rows, report } = made;
    let edits = edits_between(alloc, stamp, merged, &rows)?;
    Ok((edits, report))
}

/// By all rows of the three trees.
fn by_rows<V: View>(
    alloc: Global,
    base: &mut V,
    merged: &mut V,
    ours: &mut V,
    stamp: &Stamp,
) -> Result<(Vec<Edit>, Report), Memory>
    requires meet { Meet (V.tree base.old) (V.tree merged.old) (V.tree ours.old) stamp.now }
    requires rule { stamp.now.rule ≡ 1 }
    requires few { length (splits (V.tree base.old) (V.tree merged.old) (V.tree ours.old)) ≤ 65535 }
    ensures merge { IfOk result (λ d. edited (V.tree merged.old) d.0.items ≡ merge (V.tree base.old) (V.tree merged.old) (V.tree ours.old) stamp.now) }
    ensures formed { IfOk result (λ d. IsWellFormed (edited (V.tree merged.old) d.0.items)) }
    ensures ascending { IfOk result (λ d. edits_rise d.0.items ≡ true) }
    ensures report { IfOk result (λ d. d.1 ≡ report (V.tree base.old) (V.tree merged.old) (V.tree ours.old) stamp.now) }
    ensures base_tree { V.tree base.new ≡ V.tree base.old }
    ensures merged_tree { V.tree merged.new ≡ V.tree merged.old }
    ensures our_tree { V.tree ours.new ≡ V.tree ours.old }
{
    let base_rows = base.rows()?;
    let merged_rows = merged.rows()?;
    let our_rows = ours.rows()?;
    by_lists(alloc, &base_rows, &merged_rows, &our_rows, stamp)
}

/// The edits that change the merged tree into the rules' merge of three trees, that of the common revision, the merged
/// one and ours, with what the merge did. Ours comes of the common tree by our operations. Where the branch is plain,
/// merged comes of it by the merged operations, and only rows that one of the branches touched are looked at, those
/// above them and those at places that rows of ours would take. Where it isn't, as it holds merges itself, the merge
/// goes by all rows, and the merged operations tell nothing.
pub fn resolve<V: View>(
    alloc: Global,
    base: &mut V,
    merged: &mut V,
    merged_ops: &[Op],
    ours: &mut V,
    our_ops: &[Op],
    plain: bool,
    stamp: &Stamp,
) -> Result<(Vec<Edit>, Report), Memory>
    requires meet { Meet (V.tree base.old) (V.tree merged.old) (V.tree ours.old) stamp.now }
    requires merged_leads { plain ≡ true → Lead merged_ops.now (V.tree base.old) (V.tree merged.old) }
    requires our_leads { Lead our_ops.now (V.tree base.old) (V.tree ours.old) }
    requires rule { stamp.now.rule ≡ 1 }
    requires few { length (splits (V.tree base.old) (V.tree merged.old) (V.tree ours.old)) ≤ 65535 }
    ensures merge { IfOk result (λ d. edited (V.tree merged.old) d.0.items ≡ merge (V.tree base.old) (V.tree merged.old) (V.tree ours.old) stamp.now) }
    ensures formed { IfOk result (λ d. IsWellFormed (edited (V.tree merged.old) d.0.items)) }
    ensures ascending { IfOk result (λ d. edits_rise d.0.items ≡ true) }
    ensures report { IfOk result (λ d. d.1 ≡ report (V.tree base.old) (V.tree merged.old) (V.tree ours.old) stamp.now) }
    ensures base_tree { V.tree base.new ≡ V.tree base.old }
    ensures merged_tree { V.tree merged.new ≡ V.tree merged.old }
    ensures our_tree { V.tree ours.new ≡ V.tree ours.old }
    ensures looks { plain ≡ true → LooksFew (length merged_ops.now + length our_ops.now) (V.tree base.old) (V.tree merged.old) (V.tree ours.old) stamp.now
        (V.looks base.old + (V.looks merged.old + V.looks ours.old)) (V.looks base.new + (V.looks merged.new + V.looks ours.new)) }
{
    if plain {
        by_actions(alloc, base, merged, merged_ops, ours, our_ops, stamp)
    } else {
        by_rows(alloc, base, merged, ours, stamp)
    }
}
