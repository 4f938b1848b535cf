//! What a device shows of its tree.
ghost use Rattle.std.specs.Prelude.{◌≡◌, ◌≢◌, ◌++◌, map, Some, None, IfOk, OnOk};
ghost use Rattle.kb_ops.specs.Trees.{look};
ghost use Rattle.kb_apply.specs.Children.{children};
ghost use Rattle.kb_apply.specs.Shows.{GivesShow, shown_of, row_at, bytes_of, bytes_in, children_of, rows_of};
ghost use Rattle.kb_apply.specs.Waiting.{placed, stacked};

use kb_edge::Memory;
use kb_name::{Name, NodeId, Path, PathFault};
use kb_ops::{Bytes, Kind, Names, Placed, PlacedRows, Row, Rows, Show, Shown, WalkFault, Word};
use kb_tree::Table;
use std::alloc::{AllocError, Global};

/// Why nothing was shown, in the order in which the refusals are given.
#[derive(Clone, Copy, Debug, PartialEq, Eq)]
pub enum ShowFault {
    BadPath,
    TooDeep,
    NotFound,
    NotDir,
    NotFile,
    Memory,
}

impl From<AllocError> for ShowFault {
    ghost use Rattle.std.specs.Prelude.{◌≡◌};
    ghost use Rattle.kb_apply.specs.declared.shows.ShowFault.TheVariants as faults;

    ghost from_gives = { λ _ e. e ≡ faults.Memory };

    fn from(_: AllocError) -> Self {
        ShowFault::Memory
    }
}

impl From<Memory> for ShowFault {
    ghost use Rattle.std.specs.Prelude.{◌≡◌};
    ghost use Rattle.kb_apply.specs.declared.shows.ShowFault.TheVariants as faults;

    ghost from_gives = { λ _ e. e ≡ faults.Memory };

    fn from(_: Memory) -> Self {
        ShowFault::Memory
    }
}

impl From<PathFault> for ShowFault {
    ghost use Rattle.std.specs.Prelude.{◌≡◌};
    ghost use Rattle.kb_apply.specs.Shows.{path_fault};

    ghost from_gives = { λ p e. e ≡ path_fault p };

    fn from(fault: PathFault) -> Self {
        match fault {
            PathFault::BadPath => ShowFault::BadPath,
            PathFault::TooDeep => ShowFault::TooDeep,
            PathFault::Memory => ShowFault::Memory,
        }
    }
}

impl From<WalkFault> for ShowFault {
    ghost use Rattle.std.specs.Prelude.{◌≡◌};
    ghost use Rattle.kb_apply.specs.Shows.{walk_fault};

    ghost from_gives = { λ w e. e ≡ walk_fault w };

    fn from(fault: WalkFault) -> Self {
        match fault {
            WalkFault::NotDir => ShowFault::NotDir,
            WalkFault::NotFound => ShowFault::NotFound,
        }
    }
}

/// What is shown of a table's tree. `at` is the known revision and `queue` the number of queued operations, which are
/// shown beside the rows of a tree.
pub fn show(
    alloc: Global,
    table: &Table,
    show: &Show,
    at: u32,
    queue: u32,
) -> Result<Shown, ShowFault>
    ensures { GivesShow (λ s. s) result (shown_of table.now.tree show.now at queue) }
{
    match show {
        Show::Cat { path, range } => {
            let row = row_at(alloc, table, path)?;
            let bytes = bytes_of(alloc, row, *range)?;
            Ok(Shown::Cat { bytes })
        }
        Show::Ls { path } => {
            let row = row_at(alloc, table, path)?;
            let rows = children_of(alloc, table, row)?;
            Ok(Shown::Ls { rows })
        }
        Show::Tree => {
            let rows = rows_of(alloc, table)?;
            Ok(Shown::Tree {
                at,
                queue,
                rows: PlacedRows::new(rows),
            })
        }
        Show::Stat { path } => {
            let row = row_at(alloc, table, path)?;
            Ok(Shown::Stat { row: row.clone()? })
        }
    }
}

/// The row that a path's word leads to.
#[tactic(auto, unfolding(crate::specs::Shows::row_at))]
fn row_at<'a>(alloc: Global, table: &'a Table, word: &Word) -> Result<&'a Row, ShowFault>
    ensures { GivesShow (λ r. r.now) result (row_at table.now.tree word.now) }
{
    let path = Path::read(alloc, word.as_str())?;
    let node = table.walk(&path)?;
    match table.get(node) {
        Some(row) => Ok(row),
        None => Err(ShowFault::NotFound),
    }
}

/// The bytes of a File or the target of a Link.
fn bytes_of(alloc: Global, row: &Row, range: Option<(u32, u32)>) -> Result<Bytes, ShowFault>
    ensures { GivesShow (λ b. b) result (bytes_of range row.now) }
{
    if row.kind == Kind::Dir {
        return Err(ShowFault::NotFile);
    }
    let bytes = Vec::from_slice(alloc, bytes_in(range, row.bytes.as_slice()))?;
    Ok(Bytes::new(bytes))
}

fn bytes_in(range: Option<(u32, u32)>, bytes: &[u8]) -> &[u8]
    ensures { result.now ≡ bytes_in range bytes.now }
{
    match range {
        None => bytes,
        Some((offset, length)) => {
            let from = (offset as usize).min(bytes.len());
            let behind = &bytes[from..];
            &behind[..(length as usize).min(behind.len())]
        }
    }
}

fn children_of(alloc: Global, table: &Table, row: &Row) -> Result<Rows, ShowFault>
    ensures { GivesShow (λ rows. rows) result (children_of table.now.tree row.now) }
{
    if row.kind != Kind::Dir {
        return Err(ShowFault::NotDir);
    }
    let rows = children(alloc, table, row.id)?;
    Ok(Rows::new(rows))
}

/// The rows with a parent, in byte order of names.
fn children(alloc: Global, table: &Table, parent: NodeId) -> Result<Vec<Row>, Memory>
    ensures { IfOk result (λ rows. rows.items ≡ children table.now.tree parent) }
{
    table.is_well_formed();
    let ids = table.children(parent)?;
    let mut rows = Vec::with_capacity(alloc, ids.len())?;
    for id in &ids {
        rows.push(copied(table, *id)?)?;
    }
    Ok(rows)
}

fn copied(table: &Table, id: NodeId) -> Result<Row, Memory>
    requires { look table.now.tree id ≢ None }
    ensures { IfOk result (λ row. look table.now.tree id ≡ Some row) }
{
    match table.get(id) {
        Some(row) => Ok(row.clone()?),
        None => unreachable!(),
    }
}

/// All rows but the root's, each directory before its children. Directories wait on a stack, so that a deep tree takes
/// no deep recursion.
pub fn rows_of(alloc: Global, table: &Table) -> Result<Vec<Placed>, Memory>
    ensures { IfOk result (λ rows. rows.items ≡ rows_of table.now.tree) }
{
    table.is_well_formed();
    let mut listed = Vec::with_capacity(alloc, table.len())?;
    let mut waiting = Vec::new(alloc);
    push_children(alloc, table, &mut waiting, &[], NodeId::ROOT)?;
    while let Some(next) = waiting.pop() {
        push_children(
            alloc,
            table,
            &mut waiting,
            next.names.as_slice(),
            next.row.id,
        )?;
        listed.push(next)?;
    }
    Ok(listed)
}

/// Puts the children of a row on the stack, the first one last.
fn push_children(
    alloc: Global,
    table: &Table,
    waiting: &mut Vec<Placed>,
    names: &[Name],
    parent: NodeId,
) -> Result<(), Memory>
    ensures { OnOk result (waiting.new.items ≡ waiting.old.items ++ stacked (map (placed names.now) (children table.now.tree parent))) }
{
    let mut rows = children(alloc, table, parent)?;
    while let Some(row) = rows.pop() {
        waiting.push(placed(alloc, names, row)?)?;
    }
    Ok(())
}

/// A row below names.
fn placed(alloc: Global, names: &[Name], row: Row) -> Result<Placed, Memory>
    ensures { IfOk result (λ p. p ≡ placed names.now row) }
{
    let mut below = Vec::with_capacity(alloc, names.len() + 1)?;
    for name in names {
        below.push(name.clone()?)?;
    }
    below.push(row.name.clone()?)?;
    Ok(Placed {
        names: Names::new(below),
        row,
    })
}
