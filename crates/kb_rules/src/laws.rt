//! Laws of each merge. They hold of the definition of a merge, and so of each result of `merge_rows`.
ghost use Rattle.std.specs.Prelude.{◌≡◌, ◌≤◌, ◌<◌, ◌^◌, true, length};
ghost use Rattle.kb_name.specs.Names.{is_device_name};
ghost use Rattle.kb_name.specs.Moments.{last_second};
ghost use Rattle.kb_ops.specs.Lists.{tree_of, rises};
ghost use Rattle.kb_rules.specs.Merge.{merge, three};
ghost use Rattle.kb_rules.specs.Meanings.{PlacesReach, KeptIsLeast, JoinsAreOne, NamesAreLeast};
ghost use Rattle.kb_rules.specs.Meet.{Meet};
ghost use Rattle.kb_rules.specs.Laws.{KeepsOurs, KeepsMerged};
ghost use Rattle.kb_ops.specs.Trees.{IsWellFormed};

use super::stamp::Stamp;
use kb_ops::Row;

/// Memory holds fewer rows than numbers of conflicted names.
pub fn few(rows: &[Row])
    ensures { length rows.now < 2 ^ 57 }
{}

/// The stamp's name is that of a device.
pub fn device(stamp: &Stamp)
    ensures { is_device_name stamp.now.name ≡ true }
{
    let _name = stamp.name.bytes();
}

/// The stamp's moment is one.
pub fn moment(stamp: &Stamp)
    ensures { stamp.now.moment ≤ last_second }
{
    let _seconds = stamp.moment.seconds();
}

/// Of three lists of rows in ascending order of ids and a stamp that meet the conditions of a merge: where merged is
/// base, the merge is ours. Where ours is base, it is merged. No bytes of ours are lost: each file of ours that is
/// new or has new bytes is in the merge with these, itself or as its copy, by its name in ours or merged or by a
/// conflicted name. No bytes of merged are lost either. The merge is a well formed tree.
pub fn merge_laws(base: &[Row], merged: &[Row], ours: &[Row], stamp: &Stamp)
    requires base { rises base.now ≡ true }
    requires merged { rises merged.now ≡ true }
    requires ours { rises ours.now ≡ true }
    requires meet { Meet (tree_of base.now) (tree_of merged.now) (tree_of ours.now) stamp.now }
    ensures merged_unchanged { tree_of merged.now ≡ tree_of base.now → merge (tree_of base.now) (tree_of merged.now) (tree_of ours.now) stamp.now ≡ tree_of ours.now }
    ensures ours_unchanged { tree_of ours.now ≡ tree_of base.now → merge (tree_of base.now) (tree_of merged.now) (tree_of ours.now) stamp.now ≡ tree_of merged.now }
    ensures keeps_ours { KeepsOurs (tree_of base.now) (tree_of merged.now) (tree_of ours.now) stamp.now }
    ensures keeps_merged { KeepsMerged (tree_of base.now) (tree_of merged.now) (tree_of ours.now) stamp.now }
    ensures formed { IsWellFormed (merge (tree_of base.now) (tree_of merged.now) (tree_of ours.now) stamp.now) }
{
    few(merged);
    few(ours);
    device(stamp);
    moment(stamp);
}

/// What the words of the rules mean, of the three trees of such lists: the walk of parents from each row's place
/// reaches the root. What is kept is the least set that has what stays and the parent of each of its rows. A
/// directory is joined to another exactly where both are kept, merged lacks the one and ours the other, they have
/// one name, and the parents are or become one. A conflicted name is that of the least number that isn't taken.
pub fn rule_laws(base: &[Row], merged: &[Row], ours: &[Row], stamp: &Stamp)
    requires base { rises base.now ≡ true }
    requires merged { rises merged.now ≡ true }
    requires ours { rises ours.now ≡ true }
    requires meet { Meet (tree_of base.now) (tree_of merged.now) (tree_of ours.now) stamp.now }
    ensures places { PlacesReach (three (tree_of base.now) (tree_of merged.now) (tree_of ours.now) stamp.now) }
    ensures kept { KeptIsLeast (three (tree_of base.now) (tree_of merged.now) (tree_of ours.now) stamp.now) }
    ensures joined { JoinsAreOne (three (tree_of base.now) (tree_of merged.now) (tree_of ours.now) stamp.now) }
    ensures names { NamesAreLeast (three (tree_of base.now) (tree_of merged.now) (tree_of ours.now) stamp.now) }
{
    few(merged);
    few(ours);
    device(stamp);
    moment(stamp);
}
