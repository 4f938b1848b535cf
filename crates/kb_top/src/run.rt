//! A script is read and run.
ghost use Rattle.std.specs.Prelude.{◌≡◌, ◌≤◌};
ghost use Rattle.kb_edge.specs.Causes.{Rose};
ghost use Rattle.kb_script.specs.Fit.{AllFit};
ghost use Rattle.kb_world.specs.Machine.{new_state};
ghost use Rattle.kb_folder.specs.Chains.{Names};
ghost use Rattle.kb_world.specs.Standing.{WorldStands};
ghost use Rattle.kb_top.specs.Inputs.{fault_text};
ghost use Rattle.kb_top.specs.Outcomes.{RunsTo, Headline, IsComplete, IsTold};

use crate::input::{ReadEnd, read_all};
use crate::status::Status;
use crate::texts::fault_text;
use kb_edge::{DiskMaker, Failed, Memory, Sink, Source};
use kb_lines::render;
use kb_script::{ScriptFault, Statement, parse};
use kb_world::World;
use std::alloc::Global;

/// Reads a script to its end, at most 1,048,577 bytes, runs its statements on a new world, and puts the lines of each
/// when it is done.
pub fn run_script<S: Source, K: Sink, M: DiskMaker>(
    alloc: Global,
    source: &mut S,
    sink: &mut K,
    world: &mut World<M>,
) -> Status
    requires { (names : Names) → WorldStands names world.old new_state }
    ensures headline { Headline WorldStands world.new (K.held sink.old) (K.held sink.new) (S.left source.old) result }
    ensures complete { IsComplete (S.left source.old) (S.faults source.old) (S.faults source.new) (K.faults sink.old) (K.faults sink.new) result }
    ensures read { result ≡ Status.ReadFault → Rose (S.faults source.old) (S.faults source.new) }
    ensures write { result ≡ Status.WriteFault → Rose (K.faults sink.old) (K.faults sink.new) }
{
    run_source(alloc, source, sink, world)
}

// The same, less that it is complete, which follows.
fn run_source<S: Source, K: Sink, M: DiskMaker>(
    alloc: Global,
    source: &mut S,
    sink: &mut K,
    world: &mut World<M>,
) -> Status
    requires { (names : Names) → WorldStands names world.old new_state }
    ensures headline { Headline WorldStands world.new (K.held sink.old) (K.held sink.new) (S.left source.old) result }
    ensures read { result ≡ Status.ReadFault → Rose (S.faults source.old) (S.faults source.new) }
    ensures write { result ≡ Status.WriteFault → Rose (K.faults sink.old) (K.faults sink.new) }
{
    let bytes = match read_all(alloc, source) {
        Ok(bytes) => bytes,
        Err(ReadEnd::Failed) => return Status::ReadFault,
        Err(ReadEnd::Memory) => return Status::Memory,
    };
    match parse(alloc, &bytes, false) {
        Err(fault) => refuse(alloc, fault, sink),
        Ok(statements) => run_all(alloc, &statements, sink, world),
    }
}

// Puts what is said of bytes that are no script.
fn refuse<K: Sink>(alloc: Global, fault: ScriptFault, sink: &mut K) -> Status
    ensures told { IsTold (K.held sink.old) (K.held sink.new) (fault_text fault) result }
    ensures memory { fault ≡ ScriptFault.Memory → result ≡ Status.Memory }
    ensures write { result ≡ Status.WriteFault → Rose (K.faults sink.old) (K.faults sink.new) }
{
    let text = match fault_text(alloc, fault) {
        Ok(text) => text,
        Err(Memory) => return Status::Memory,
    };
    match sink.put(text.as_bytes()) {
        Ok(()) => Status::Script,
        Err(Failed) => Status::WriteFault,
    }
}

// Runs statements, and puts the lines of each when it is done.
fn run_all<K: Sink, M: DiskMaker>(
    alloc: Global,
    statements: &[Statement],
    sink: &mut K,
    world: &mut World<M>,
) -> Status
    requires new { (names : Names) → WorldStands names world.old new_state }
    requires fit { AllFit statements.now }
    ensures runs { RunsTo WorldStands world.new (K.held sink.old) (K.held sink.new) statements.now result }
    ensures later { K.faults sink.old ≤ K.faults sink.new }
    ensures write { result ≡ Status.WriteFault → Rose (K.faults sink.old) (K.faults sink.new) }
{
    for statement in statements {
        let lines = match world.step(statement) {
            Ok(lines) => lines,
            Err(Memory) => return Status::Memory,
        };
        let text = match render(alloc, &lines) {
            Ok(text) => text,
            Err(Memory) => return Status::Memory,
        };
        match sink.put(&text) {
            Ok(()) => {}
            Err(Failed) => return Status::WriteFault,
        }
    }
    Status::Done
}
