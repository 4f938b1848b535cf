//! The seqs of a device's ids in a tree.
ghost use Rattle.std.specs.Prelude.{◌≡◌};
ghost use Rattle.kb_device.specs.Fresh.{IsLastOf, with_row, last_in};
ghost use Rattle.kb_device.specs.Filling.{IfRead};

use crate::reading::ReadFault;
use kb_edge::Memory;
use kb_ops::Row;
use kb_tree::Table;

fn with_row(d: u16, row: &Row, last: u32) -> u32
    ensures { result ≡ with_row d row.now last }
{
    if d == row.id.device {
        row.id.seq.max(last)
    } else {
        last
    }
}

// The last seq of the device's ids in rows, or 0.
fn last_in(d: u16, rows: &[Row]) -> u32
    ensures { result ≡ last_in d rows.now }
{
    let mut last = 0;
    for row in rows {
        last = with_row(d, row, last);
    }
    last
}

/// A table of the same tree, and the last seq of the device's ids in it, or 0.
pub fn copy_with_last(table: &Table, d: u16) -> Result<(Table, u32), ReadFault>
    ensures same { IfRead result (λ made. made.0.tree ≡ table.now.tree) }
    ensures last { IfRead result (λ made. IsLastOf d table.now.tree made.1) }
{
    let rows = match table.rows() {
        Ok(rows) => rows,
        Err(Memory) => return Err(ReadFault::Memory),
    };
    let last = last_in(d, rows.as_slice());
    match Table::from_rows(rows) {
        Ok(copy) => Ok((copy, last)),
        Err(Memory) => Err(ReadFault::Memory),
    }
}
