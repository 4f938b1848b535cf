//! The statements generated for a number are run, and a summary of them is put.
ghost use Rattle.std.specs.Prelude.{◌≡◌, ◌≤◌, [], None, IfOk, OnErr, length, string_bytes};
ghost use Rattle.std.specs.List.{fold};
ghost use Rattle.kb_edge.specs.Causes.{Rose};
ghost use Rattle.kb_script.specs.Fit.{AllFit};
ghost use Rattle.kb_world.specs.Machine.{State, new_state};
ghost use Rattle.kb_folder.specs.Chains.{Names};
ghost use Rattle.kb_world.specs.Standing.{WorldStands, IsStanding, device_count};
ghost use Rattle.kb_top.specs.Outcomes.{Ran, Ended, GenEnd, IsWhole};
ghost use Rattle.kb_top.specs.Summaries.{laptop_rows, names_given, summary_of, revisions_told, rows_told, names_told};

use crate::status::Status;
use kb_edge::{DiskMaker, Failed, Memory, Sink};
use kb_gen::generate;
use kb_lines::Line;
use kb_ops::Show;
use kb_script::Statement;
use kb_world::World;
use std::alloc::Global;

/// Runs the statements generated for a number, 1 to 1,000, on a new world, and puts a summary of the run alone: how long the
/// folder's chain is, how many rows the first device's tree has, and how many names the resolution gave.
pub fn run_gen<K: Sink, M: DiskMaker>(
    alloc: Global,
    number: u32,
    sink: &mut K,
    world: &mut World<M>,
) -> Status
    requires new { (names : Names) → WorldStands names world.old new_state }
    requires number { (1 ≤ number) × (number ≤ 1000) }
    ensures end { GenEnd WorldStands world.new (K.held sink.old) (K.held sink.new) number result }
    ensures complete { IsWhole (K.faults sink.old) (K.faults sink.new) result }
    ensures write { result ≡ Status.WriteFault → Rose (K.faults sink.old) (K.faults sink.new) }
{
    let statements = match generate(alloc, number) {
        Ok(statements) => statements,
        Err(Memory) => return Status::Memory,
    };
    let names = match run_untold(&statements, world) {
        Ok(names) => names,
        Err(Memory) => return Status::Memory,
    };
    let text = match summary(alloc, number, names, world) {
        Ok(text) => text,
        Err(Memory) => return Status::Memory,
    };
    match sink.put(text.as_bytes()) {
        Ok(()) => Status::Done,
        Err(Failed) => Status::WriteFault,
    }
}

// Runs statements and puts nothing. Tells how many names the last merge gave.
fn run_untold<M: DiskMaker>(statements: &[Statement], world: &mut World<M>) -> Result<u64, Memory>
    requires new { (names : Names) → WorldStands names world.old new_state }
    requires fit { AllFit statements.now }
    ensures ran { IfOk result (λ names. (ran : Ran WorldStands world.new None None statements.now (λ state each. [])) × (names ≡ names_given ran.each)) }
    ensures memory { OnErr result (Ended WorldStands world.new None None statements.now (λ first each. [])) }
{
    let mut names = 0;
    for statement in statements {
        let lines = world.step(statement)?;
        names = names_told(&lines, names);
    }
    Ok(names)
}

// The summary of a run that gave so many names, by what `folder` and `tree` tell behind it.
fn summary<M: DiskMaker>(
    alloc: Global,
    number: u32,
    names: u64,
    world: &mut World<M>,
) -> Result<String, Memory>
    requires stands { IsStanding world.old }
    requires declared { 1 ≤ device_count world.old }
    ensures text { IfOk result (λ text. (under : Names) (s : State) → WorldStands under world.old s → string_bytes text ≡ summary_of number (length s.chain) (laptop_rows s) names) }
    ensures stays { (under : Names) (s : State) → WorldStands under world.old s → WorldStands under world.new s }
{
    let revisions = revisions(world)?;
    let rows = laptop_rows(world)?;
    let text = summary_of(alloc, number, revisions, rows, names)?;
    Ok(text)
}

fn summary_of(
    alloc: Global,
    number: u32,
    revisions: u32,
    rows: usize,
    names: u64,
) -> Result<String, Memory>
    ensures { IfOk result (λ text. string_bytes text ≡ summary_of number revisions rows names) }
{
    Ok(format!(in alloc; "gen {number}: revisions {revisions} rows {rows} renamed {names}\n")?)
}

// How many revisions the folder has.
fn revisions<M: DiskMaker>(world: &mut World<M>) -> Result<u32, Memory>
    requires { IsStanding world.old }
    ensures told { IfOk result (λ revisions. (under : Names) (s : State) → WorldStands under world.old s → revisions ≡ length s.chain) }
    ensures stays { (under : Names) (s : State) → WorldStands under world.old s → WorldStands under world.new s }
{
    let lines = world.step(&Statement::Folder)?;
    Ok(revisions_told(&lines))
}

// How many rows the tree of the first device has.
fn laptop_rows<M: DiskMaker>(world: &mut World<M>) -> Result<usize, Memory>
    requires stands { IsStanding world.old }
    requires declared { 1 ≤ device_count world.old }
    ensures told { IfOk result (λ rows. (under : Names) (s : State) → WorldStands under world.old s → rows ≡ laptop_rows s) }
    ensures stays { (under : Names) (s : State) → WorldStands under world.old s → WorldStands under world.new s }
{
    let tree = Statement::Look {
        device: 1,
        show: Show::Tree,
    };
    let lines = world.step(&tree)?;
    Ok(rows_told(&lines))
}

fn revisions_told(lines: &[Line]) -> u32
    ensures { result ≡ revisions_told lines.now }
{
    match lines {
        [Line::Chain { revisions, .. }, ..] => *revisions,
        _ => 0,
    }
}

fn rows_told(lines: &[Line]) -> usize
    ensures { result ≡ rows_told lines.now }
{
    match lines {
        [Line::Tree { rows, .. }, ..] => rows.as_slice().len() + 1,
        _ => 0,
    }
}

// The names that the last merge of these lines gave, or so many where none tells of one.
fn names_told(lines: &[Line], before: u64) -> u64
    ensures { result ≡ fold names_told before lines.now }
{
    lines.iter().fold(before, |names, line| match line {
        Line::Merged { renamed, .. } => *renamed,
        _ => names,
    })
}
