//! The lines of rows.
ghost use Rattle.std.specs.Prelude.{◌≡◌, ◌++◌, OnOk};
ghost use Rattle.std.specs.List.{flat_map};
ghost use Rattle.std.specs.String.{string_bytes};
ghost use Rattle.kb_lines.specs.RowTexts.{rest_of, named_row, placed_row, stat_text};

use super::pieces::{escaped, exec_text, kind_text, push_path};
use kb_ops::{Kind, Placed, Row};
use std::alloc::AllocError;

fn push_rest(text: &mut String, row: &Row) -> Result<(), AllocError>
    ensures { OnOk result (string_bytes text.new ≡ string_bytes text.old ++ rest_of row.now.kind row.now.bytes row.now.exec) }
{
    let bytes = row.bytes.as_slice();
    match row.kind {
        Kind::Dir => Ok(()),
        Kind::File => write!(text, " {} {}", bytes.len(), exec_text(row.exec)),
        Kind::Link => write!(text, " ={}", escaped(bytes)),
    }
}

fn push_named(text: &mut String, row: &Row) -> Result<(), AllocError>
    ensures { OnOk result (string_bytes text.new ≡ string_bytes text.old ++ named_row row.now) }
{
    write!(
        text,
        "{} {}",
        kind_text(row.kind),
        escaped(row.name.bytes())
    )?;
    push_rest(text, row)?;
    writeln!(text, " {}", row.mtime.seconds())
}

fn push_placed(text: &mut String, placed: &Placed) -> Result<(), AllocError>
    ensures { OnOk result (string_bytes text.new ≡ string_bytes text.old ++ placed_row placed.now) }
{
    let row = &placed.row;
    write!(text, "{} ", kind_text(row.kind))?;
    push_path(text, placed.names.as_slice())?;
    push_rest(text, row)?;
    writeln!(text, " {}", row.mtime.seconds())
}

/// A line for each row, with its name.
pub fn push_rows(text: &mut String, rows: &[Row]) -> Result<(), AllocError>
    ensures { OnOk result (string_bytes text.new ≡ string_bytes text.old ++ flat_map named_row rows.now) }
{
    for row in rows {
        push_named(text, row)?;
    }
    Ok(())
}

/// A line for each row, with its path.
pub fn push_paths(text: &mut String, rows: &[Placed]) -> Result<(), AllocError>
    ensures { OnOk result (string_bytes text.new ≡ string_bytes text.old ++ flat_map placed_row rows.now) }
{
    for placed in rows {
        push_placed(text, placed)?;
    }
    Ok(())
}

/// All of a row but its name and target.
pub fn push_stat(text: &mut String, row: &Row) -> Result<(), AllocError>
    ensures { OnOk result (string_bytes text.new ≡ string_bytes text.old ++ stat_text row.now) }
{
    let kind = kind_text(row.kind);
    let id = row.id;
    write!(text, "stat {kind} {}.{}.{}", id.device, id.seq, id.part)?;
    let size = row.bytes.as_slice().len();
    let exec = exec_text(row.exec);
    let mtime = row.mtime.seconds();
    write!(text, " size {size} exec {exec} mtime {mtime}")
}
