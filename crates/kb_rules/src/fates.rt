//! What the rules say of one node, by its rows in the three trees.
ghost use Rattle.std.specs.Prelude.{◌≡◌, Some, false};
ghost use Rattle.std.specs.Option.{option_copied, option_map_or};
ghost use Rattle.kb_ops.specs.Rows.{is_dir_row};
ghost use Rattle.kb_rules.specs.Three.{same_place, same_content, same_row, is_base, stays_by, is_parted, is_split_by};
ghost use Rattle.kb_rules.specs.Places.{is_moved_by};

use kb_ops::{Kind, Row};

/// Whether two rows have one place.
pub fn same_place(r: &Row, s: &Row) -> bool
    ensures { result ≡ same_place r.now s.now }
{
    r.parent == s.parent && r.name == s.name
}

fn same_content(r: &Row, s: &Row) -> bool
    ensures { result ≡ same_content r.now s.now }
{
    r.kind == s.kind && r.bytes == s.bytes && r.exec == s.exec && r.mtime == s.mtime
}

fn same_row(r: &Row, s: &Row) -> bool
    ensures { result ≡ same_row r.now s.now }
{
    r.id == s.id && same_place(r, s) && same_content(r, s)
}

fn is_base(r: &Row, base: Option<&Row>) -> bool
    ensures { result ≡ is_base r.now (option_copied base.entry) }
{
    match base {
        Some(o) => same_row(r, o),
        None => false,
    }
}

/// Whether a node stays by itself.
pub fn stays(merged: Option<&Row>, ours: Option<&Row>, base: Option<&Row>) -> bool
    ensures { result ≡ stays_by (option_copied merged.entry) (option_copied ours.entry) (option_copied base.entry) }
{
    match merged {
        None => match ours {
            None => false,
            Some(s) => !is_base(s, base),
        },
        Some(r) => match ours {
            None => !is_base(r, base),
            Some(_) => true,
        },
    }
}

/// Whether the first guess is the place in ours.
pub fn is_moved(merged: Option<&Row>, ours: Option<&Row>, base: Option<&Row>) -> bool
    ensures { result ≡ is_moved_by (option_copied merged.entry) (option_copied ours.entry) (option_copied base.entry) }
{
    match merged {
        None => true,
        Some(r) => match ours {
            None => false,
            Some(s) => match base {
                None => false,
                Some(o) => same_place(r, o) && !same_place(s, o),
            },
        },
    }
}

/// Whether merged and ours changed a thing to different ones.
fn is_parted(merged_is_base: bool, ours_is_base: bool, same: bool) -> bool
    ensures { result ≡ is_parted merged_is_base ours_is_base same }
{
    !merged_is_base && !ours_is_base && !same
}

/// Whether a node is a split file.
pub fn is_split(merged: Option<&Row>, ours: Option<&Row>, base: Option<&Row>) -> bool
    ensures { result ≡ is_split_by (option_copied merged.entry) (option_copied ours.entry) (option_copied base.entry) }
{
    match merged {
        None => false,
        Some(r) => match ours {
            None => false,
            Some(s) => match base {
                None => false,
                Some(o) => are_split(r, s, o),
            },
        },
    }
}

fn are_split(r: &Row, s: &Row, o: &Row) -> bool
    ensures { result ≡ is_split_by (Some r.now) (Some s.now) (Some o.now) }
{
    r.kind == Kind::File
        && (is_parted(r.bytes == o.bytes, s.bytes == o.bytes, r.bytes == s.bytes)
            || is_parted(same_place(r, o), same_place(s, o), same_place(r, s)))
}

pub fn is_dir_row(row: &Row) -> bool
    ensures { result ≡ is_dir_row row.now }
{
    row.kind == Kind::Dir
}

/// Whether a Dir's row is there.
pub fn is_dir(row: Option<&Row>) -> bool
    ensures { result ≡ option_map_or is_dir_row (option_copied row.entry) false }
{
    match row {
        Some(r) => is_dir_row(r),
        None => false,
    }
}
