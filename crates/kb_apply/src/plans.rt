//! The operation that a request comes to.
ghost use Rattle.std.specs.Prelude.{◌≡◌, Some, None, IfOk, option_copied};
ghost use Rattle.kb_ops.specs.declared.values.Kind.TheVariants.{Dir, File, Link};
ghost use Rattle.kb_ops.specs.Plan.{Gives, place_in, place_at, split_last, has_child, is_below, plan_create, plan_remove, plan_onto, plan_into, plan_move, plan_write, plan_cut, plan_exec, plan_touch, change_for, plan_of, both, read, path_fault, both_paths};
ghost use Rattle.kb_name.specs.Paths.{path_of};
ghost use Rattle.kb_ops.specs.Trees.{look};
ghost use Rattle.kb_apply.specs.Prepared.{FitsIfMade};
ghost use Rattle.kb_apply.specs.Places.{name_of, place_of, answer, least};

use kb_name::{Moment, Name, NodeId, Path, PathFault};
use kb_ops::{Bytes, Change, Kind, Op, PlanFault, Planned, Request, WalkFault, Word};
use kb_tree::Table;
use std::alloc::{AllocError, Global};

/// Where a row goes: its parent, its name, and the row that stands there.
#[derive(Clone, Copy)]
struct Place<'a> {
    parent: NodeId,
    name: Option<&'a Name>,
    target: Option<NodeId>,
}

#[tactic(auto, unfolding(kb_ops::specs::Plan::place_in))]
fn place_in<'a>(table: &Table, names: &[Name], name: &'a Name) -> Result<Place<'a>, WalkFault>
    ensures { answer place_of result ≡ place_in table.now.tree names.now name.now }
{
    let parent = table.walk_names(names)?;
    if !table.is_dir(parent) {
        return Err(WalkFault::NotDir);
    }
    Ok(Place {
        parent,
        name: Some(name),
        target: table.child(parent, name),
    })
}

#[tactic(auto, unfolding(kb_ops::specs::Plan::place_at))]
fn place_at<'a>(table: &Table, names: &'a [Name]) -> Result<Place<'a>, WalkFault>
    ensures { answer place_of result ≡ place_at table.now.tree names.now }
{
    match names.split_last() {
        Some((name, names)) => place_in(table, names, name),
        None => Ok(Place {
            parent: NodeId::ROOT,
            name: None,
            target: Some(NodeId::ROOT),
        }),
    }
}

/// Of two walks that end before their last names, NotFound comes first.
fn both<'a>(
    row: Result<NodeId, WalkFault>,
    place: Result<Place<'a>, WalkFault>,
) -> Result<(NodeId, Place<'a>), WalkFault>
    ensures { answer (λ ends. (ends.0, place_of ends.1)) result ≡ both row (answer place_of place.entry) }
{
    match (row, place) {
        (Ok(row), Ok(place)) => Ok((row, place)),
        (Ok(_), Err(fault)) => Err(fault),
        (Err(fault), Ok(_)) => Err(fault),
        (Err(WalkFault::NotFound), Err(_)) => Err(WalkFault::NotFound),
        (Err(WalkFault::NotDir), Err(fault)) => Err(fault),
    }
}

fn owned(alloc: Global, name: Option<&Name>) -> Result<Name, AllocError>
    ensures { IfOk result (λ n. n ≡ name_of name.entry) }
{
    match name {
        Some(name) => name.clone(),
        None => Ok(Name::none(alloc)),
    }
}

#[tactic(auto, unfolding(kb_ops::specs::Plan::plan_create))]
fn plan_create(
    alloc: Global,
    table: &Table,
    names: &[Name],
    kind: Kind,
    bytes: &Bytes,
) -> Result<Option<Change>, PlanFault>
    ensures { Gives result (plan_create table.now.tree names.now kind bytes.now) }
{
    let place = place_at(table, names)?;
    if place.target.is_some() {
        return Err(PlanFault::Exists);
    }
    if bytes.as_slice().len() > 1024 {
        return Err(PlanFault::TooBig);
    }
    if table.len() >= 32768 {
        return Err(PlanFault::TreeFull);
    }
    Ok(Some(Change::Create {
        parent: place.parent,
        name: owned(alloc, place.name)?,
        kind,
        bytes: bytes.clone()?,
    }))
}

#[tactic(auto, unfolding(kb_ops::specs::Plan::plan_remove))]
fn plan_remove(table: &Table, names: &[Name]) -> Result<Option<Change>, PlanFault>
    ensures { Gives result (plan_remove table.now.tree names.now) }
{
    let node = table.walk_names(names)?;
    if table.has_child(node) {
        return Err(PlanFault::NotEmpty);
    }
    if node == NodeId::ROOT {
        return Err(PlanFault::Inside);
    }
    Ok(Some(Change::Remove { node }))
}

/// Whether the place is in the row that goes there, or below it.
fn is_inside(table: &Table, node: NodeId, place: &Place) -> bool
    ensures { result ≡ is_below table.now.tree node place.now.parent }
{
    table.is_below(node, place.parent)
}

#[tactic(auto, unfolding(kb_ops::specs::Plan::plan_into))]
fn plan_into(
    alloc: Global,
    table: &Table,
    node: NodeId,
    place: &Place,
) -> Result<Option<Change>, PlanFault>
    ensures { Gives result (plan_into table.now.tree node (place_of place.now)) }
{
    if is_inside(table, node, place) {
        return Err(PlanFault::Inside);
    }
    Ok(Some(Change::Rename {
        node,
        parent: place.parent,
        name: owned(alloc, place.name)?,
        replaced: None,
    }))
}

#[tactic(auto, unfolding(kb_ops::specs::Plan::plan_onto))]
fn plan_onto(
    alloc: Global,
    table: &Table,
    node: NodeId,
    place: &Place,
    gone: NodeId,
) -> Result<Option<Change>, PlanFault>
    ensures { Gives result (plan_onto table.now.tree node (place_of place.now) gone) }
{
    let is_dir = table.is_dir(node);
    let onto_dir = table.is_dir(gone);
    if is_dir && !onto_dir {
        return Err(PlanFault::NotDir);
    }
    if !is_dir && onto_dir {
        return Err(PlanFault::NotFile);
    }
    if gone != node && table.has_child(gone) {
        return Err(PlanFault::NotEmpty);
    }
    if is_inside(table, node, place) {
        return Err(PlanFault::Inside);
    }
    if gone == node {
        return Ok(None);
    }
    Ok(Some(Change::Rename {
        node,
        parent: place.parent,
        name: owned(alloc, place.name)?,
        replaced: Some(gone),
    }))
}

#[tactic(auto, unfolding(kb_ops::specs::Plan::plan_move))]
fn plan_move(
    alloc: Global,
    table: &Table,
    from: &[Name],
    to: &[Name],
) -> Result<Option<Change>, PlanFault>
    ensures { Gives result (plan_move table.now.tree from.now to.now) }
{
    let (node, place) = both(table.walk_names(from), place_at(table, to))?;
    match place.target {
        Some(gone) => plan_onto(alloc, table, node, &place, gone),
        None => plan_into(alloc, table, node, &place),
    }
}

#[tactic(auto, unfolding(kb_ops::specs::Plan::plan_write))]
fn plan_write(
    table: &Table,
    names: &[Name],
    offset: u32,
    bytes: &Bytes,
) -> Result<Option<Change>, PlanFault>
    ensures { Gives result (plan_write table.now.tree names.now offset bytes.now) }
{
    let node = table.walk_names(names)?;
    let Some(row) = table.file(node) else {
        return Err(PlanFault::NotFile);
    };
    let count = bytes.as_slice().len() as u64;
    let end = u64::from(offset) + count;
    if end > 16_777_216 || count > 65_536 {
        return Err(PlanFault::TooBig);
    }
    if count == 0 {
        return Ok(None);
    }
    let length = (row.bytes.as_slice().len() as u64).max(end) as u32;
    Ok(Some(Change::Sync {
        node,
        offset,
        bytes: bytes.clone()?,
        length,
    }))
}

#[tactic(auto, unfolding(kb_ops::specs::Plan::plan_cut))]
fn plan_cut(
    alloc: Global,
    table: &Table,
    names: &[Name],
    length: u32,
) -> Result<Option<Change>, PlanFault>
    ensures { Gives result (plan_cut table.now.tree names.now length) }
{
    let node = table.walk_names(names)?;
    let Some(row) = table.file(node) else {
        return Err(PlanFault::NotFile);
    };
    if length > 16_777_216 {
        return Err(PlanFault::TooBig);
    }
    if length as usize == row.bytes.as_slice().len() {
        return Ok(None);
    }
    Ok(Some(Change::Sync {
        node,
        offset: 0,
        bytes: Bytes::new(Vec::new(alloc)),
        length,
    }))
}

#[tactic(auto, unfolding(kb_ops::specs::Plan::plan_exec))]
fn plan_exec(table: &Table, names: &[Name], on: bool) -> Result<Option<Change>, PlanFault>
    ensures { Gives result (plan_exec table.now.tree names.now on) }
{
    let node = table.walk_names(names)?;
    let Some(row) = table.file(node) else {
        return Err(PlanFault::NotFile);
    };
    if row.exec == on {
        return Ok(None);
    }
    Ok(Some(Change::Exec { node, on }))
}

#[tactic(auto, unfolding(kb_ops::specs::Plan::plan_touch))]
fn plan_touch(table: &Table, names: &[Name], mtime: Moment) -> Result<Option<Change>, PlanFault>
    ensures { Gives result (plan_touch table.now.tree names.now mtime) }
{
    let node = table.walk_names(names)?;
    let Some(row) = table.get(node) else {
        return Err(PlanFault::NotFound);
    };
    if row.mtime == mtime {
        return Ok(None);
    }
    Ok(Some(Change::Touch { node, mtime }))
}

fn fault_of(fault: PathFault) -> PlanFault
    ensures { result ≡ path_fault fault }
{
    match fault {
        PathFault::BadPath => PlanFault::BadPath,
        PathFault::TooDeep => PlanFault::TooDeep,
        PathFault::Memory => PlanFault::Memory,
    }
}

/// The path that a word spells.
fn read(alloc: Global, word: &Word) -> Result<Path, PlanFault>
    ensures { Gives result (read (path_of word.now)) }
{
    Path::read(alloc, word.as_str()).map_err(fault_of)
}

/// BadPath of either comes first.
fn least(
    from: Result<Path, PathFault>,
    to: Result<Path, PathFault>,
) -> Result<(Path, Path), PathFault>
    ensures { result ≡ least from to }
{
    match (from, to) {
        (Ok(from), Ok(to)) => Ok((from, to)),
        (Ok(_), Err(fault)) => Err(fault),
        (Err(fault), Ok(_)) => Err(fault),
        (Err(PathFault::TooDeep), Err(fault)) => Err(fault),
        (Err(fault), Err(_)) => Err(fault),
    }
}

/// The paths of two words.
fn read_both(alloc: Global, from: &Word, to: &Word) -> Result<(Path, Path), PlanFault>
    ensures { Gives result (read (both_paths (path_of from.now) (path_of to.now))) }
{
    let from = Path::read(alloc, from.as_str());
    let to = Path::read(alloc, to.as_str());
    least(from, to).map_err(fault_of)
}

fn change_for(alloc: Global, table: &Table, request: &Request) -> Result<Option<Change>, PlanFault>
    ensures { Gives result (change_for table.now.tree request.now) }
{
    let none = Bytes::new(Vec::new(alloc));
    match request {
        Request::Mkdir { path } => {
            let path = read(alloc, path)?;
            plan_create(alloc, table, path.names(), Kind::Dir, &none)
        }
        Request::Mkfile { path } => {
            let path = read(alloc, path)?;
            plan_create(alloc, table, path.names(), Kind::File, &none)
        }
        Request::Link { path, target } => {
            let path = read(alloc, path)?;
            plan_create(alloc, table, path.names(), Kind::Link, target)
        }
        Request::Remove { path } => {
            let path = read(alloc, path)?;
            plan_remove(table, path.names())
        }
        Request::Move { from, to } => {
            let (from, to) = read_both(alloc, from, to)?;
            plan_move(alloc, table, from.names(), to.names())
        }
        Request::Write {
            path,
            offset,
            bytes,
        } => {
            let path = read(alloc, path)?;
            plan_write(table, path.names(), *offset, bytes)
        }
        Request::Cut { path, length } => {
            let path = read(alloc, path)?;
            plan_cut(alloc, table, path.names(), *length)
        }
        Request::Exec { path, on } => {
            let path = read(alloc, path)?;
            plan_exec(table, path.names(), *on)
        }
        Request::Touch { path, mtime } => {
            let path = read(alloc, path)?;
            plan_touch(table, path.names(), *mtime)
        }
    }
}

/// What a request comes to on a table: the first refusal that applies, or that all is as asked already, or the
/// operation, with this device, seq and moment.
pub fn plan(
    alloc: Global,
    table: &Table,
    request: &Request,
    device: u16,
    seq: u32,
    moment: Moment,
) -> Result<Planned, PlanFault>
    ensures planned { Gives result (plan_of table.now.tree request.now device seq moment) }
    // Where the id is new, what is made fits the table.
    ensures fits { look table.now.tree (record { device = device; seq = seq; part = 0 }) ≡ None
        → IfOk result (λ planned. FitsIfMade planned table.now.tree) }
{
    table.is_well_formed();
    match change_for(alloc, table, request)? {
        None => Ok(Planned::Same),
        Some(change) => Ok(Planned::Made(Op {
            device,
            seq,
            moment,
            change,
        })),
    }
}
