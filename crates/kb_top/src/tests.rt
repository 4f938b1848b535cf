//! Whole runs over ends in memory.
mod apply;
mod audit;
mod branches;
mod chain;
mod conflicts;
mod devices;
mod folder;
mod generated;
mod journal;
mod looks;
mod members;
mod patches;
mod picks;
mod random;
mod ranges;
mod scripts;
mod snap;
mod statements;
mod tree;

use crate::{Status, run_script, run_words};
use kb_edge::{MemSink, MemSource};
use kb_memdisk::Rack;
use kb_world::World;
use std::alloc::Global;
use std::test::Fail;

const FIRST: &str =
    "device laptop 65536\nfound laptop\nopen laptop\nmkdir laptop /a\nmkfile laptop /a/f\nls laptop /\ntree laptop\n";

const FIRST_TEXT: &str =
    "folder: at 1\nlaptop: open at 1 queue 0 last 0\nlaptop: done 1\nlaptop: done 2\nlaptop: ls 1\nd a 0\nlaptop: tree at 1 queue 2 rows 3\nd /a 0\nf /a/f 0 - 0\n";

const USAGE: &str = "usage: kbfolder run | live | gen N\n";

fn source(alloc: Global, text: &str) -> Result<MemSource, Fail> {
    let bytes = text.as_bytes().to_vec(alloc)?;
    Ok(MemSource::new(bytes, 7, Vec::new(alloc)))
}

fn sink(alloc: Global) -> Result<MemSink, Fail> {
    match MemSink::new(alloc, 65_536, Vec::new(alloc)) {
        Ok(sink) => Ok(sink),
        Err(_) => Err(Fail::from("no memory for a sink")),
    }
}

// How a script ends, and whether its text is this.
fn ends(alloc: Global, script: &str, status: Status, text: &str) -> Result<bool, Fail> {
    let mut source = source(alloc, script)?;
    let mut sink = sink(alloc)?;
    let mut world = World::new(alloc, Rack);
    let ended = run_script(alloc, &mut source, &mut sink, &mut world);
    Ok(ended == status && sink.bytes() == text.as_bytes())
}

#[test]
fn a_script_runs(rt: HostRuntime) -> Result<(), Fail> {
    assert!(rt; ends(rt.alloc(), FIRST, Status::Done, FIRST_TEXT)?);
    assert!(rt; ends(rt.alloc(), "", Status::Done, "")?);
    Ok(())
}

#[test]
fn no_script_runs(rt: HostRuntime) -> Result<(), Fail> {
    let count = "device laptop 65536\nfound laptop\nmkdir laptop\n";
    assert!(rt; ends(rt.alloc(), count, Status::Script, "line 3: Count\n")?);
    assert!(rt;
        ends(
            rt.alloc(),
            "# one\n\nseed x",
            Status::Script,
            "line 3: Hex\n"
        )?
    );
    Ok(())
}

#[test]
fn too_much_is_told(rt: HostRuntime) -> Result<(), Fail> {
    let alloc = rt.alloc();
    let bytes = vec![in alloc; b'\n'; 1_048_577]?;
    let mut source = MemSource::new(bytes, 65_536, Vec::new(alloc));
    let mut sink = sink(alloc)?;
    let mut world = World::new(alloc, Rack);
    let ended = run_script(alloc, &mut source, &mut sink, &mut world);
    assert_eq!(rt; ended, Status::Script);
    assert_eq!(rt; sink.bytes(), b"script too long\n".as_slice());
    Ok(())
}

// Whether a run whose source fails at this call, from 1, puts nothing and says so.
fn fails_reading(alloc: Global, call: u32) -> Result<bool, Fail> {
    let bytes = FIRST.as_bytes().to_vec(alloc)?;
    let mut source = MemSource::new(bytes, 7, [call].to_vec(alloc)?);
    let mut sink = sink(alloc)?;
    let mut world = World::new(alloc, Rack);
    let ended = run_script(alloc, &mut source, &mut sink, &mut world);
    Ok(ended.code() == 4 && sink.bytes().is_empty())
}

// Whether a run whose sink fails at this call, from 1, puts a beginning of its text and says so.
fn fails_putting(alloc: Global, call: u32) -> Result<bool, Fail> {
    let mut source = source(alloc, FIRST)?;
    let Ok(mut sink) = MemSink::new(alloc, 65_536, [call].to_vec(alloc)?) else {
        return Err(Fail::from("no memory for a sink"));
    };
    let mut world = World::new(alloc, Rack);
    let ended = run_script(alloc, &mut source, &mut sink, &mut world);
    Ok(ended.code() == 5 && FIRST_TEXT.as_bytes().starts_with(sink.bytes()))
}

#[test]
fn a_source_fails_at_each_call(rt: HostRuntime) -> Result<(), Fail> {
    for call in 1..16u32 {
        assert!(rt; fails_reading(rt.alloc(), call)?);
    }
    Ok(())
}

#[test]
fn a_sink_fails_at_each_call(rt: HostRuntime) -> Result<(), Fail> {
    for call in 1..8u32 {
        assert!(rt; fails_putting(rt.alloc(), call)?);
    }
    Ok(())
}

#[test]
fn words_choose(rt: HostRuntime) -> Result<(), Fail> {
    let alloc = rt.alloc();
    let mut source = source(alloc, FIRST)?;
    let mut sink = sink(alloc)?;
    let mut world = World::new(alloc, Rack);
    let other = vec![in alloc; String::from_str(alloc, "runn")?]?;
    let ended = run_words(alloc, &other, &mut source, &mut sink, &mut world);
    assert_eq!(rt; ended.code(), 2);
    assert_eq!(rt; sink.bytes(), USAGE.as_bytes());
    let mut world = World::new(alloc, Rack);
    let run = vec![in alloc; String::from_str(alloc, "run")?]?;
    let ended = run_words(alloc, &run, &mut source, &mut sink, &mut world);
    assert_eq!(rt; ended.code(), 0);
    assert_eq!(rt; sink.bytes().len(), USAGE.len() + FIRST_TEXT.len());
    Ok(())
}
