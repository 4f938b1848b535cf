//! How many rows a resolution looks at.
use crate::{Status, run_script};
use kb_edge::{MemSink, MemSource};
use kb_memdisk::Rack;
use kb_world::World;
use std::alloc::Global;
use std::test::Fail;

// Two devices, the first with so many files landed and one more, the second with a branch that touched one of them.
fn branch_script(alloc: Global, files: u32) -> Result<String, Fail> {
    let mut script = String::from_str(
        alloc,
        "device laptop 1048576\ndevice phone 65536\nfound laptop\ngrant laptop phone writer\nopen laptop\n",
    )?;
    for i in 1..=files {
        let line = format!(in alloc; "mkfile laptop /f{i}\n")?;
        script.push_str(line.as_str())?;
    }
    script.push_str(
        "drain laptop\nopen phone\nmkfile laptop /x\ndrain laptop\ntouch phone /f1 5\nflush phone\nresolve phone\n",
    )?;
    Ok(script)
}

// How many rows the resolution looks at, where the script ends with this line.
fn looks(alloc: Global, files: u32, line: &str) -> Result<u64, Fail> {
    let script = branch_script(alloc, files)?;
    let bytes = script.as_bytes().to_vec(alloc)?;
    let mut source = MemSource::new(bytes, 65_536, Vec::new(alloc));
    let Ok(mut sink) = MemSink::new(alloc, 131_072, Vec::new(alloc)) else {
        return Err(Fail::from("no memory for a sink"));
    };
    let mut world = World::new(alloc, Rack);
    let ended = run_script(alloc, &mut source, &mut sink, &mut world);
    if ended != Status::Done || !sink.bytes().ends_with(line.as_bytes()) {
        return Err(Fail::from("another end"));
    }
    Ok(world.looked())
}

#[test]
fn world_resolves_by_actions(rt: HostRuntime) -> Result<(), Fail> {
    let many = looks(
        rt.alloc(),
        500,
        "phone: merged 504 copies 0 renamed 0 joined 0\n",
    )?;
    let few = looks(
        rt.alloc(),
        2,
        "phone: merged 6 copies 0 renamed 0 joined 0\n",
    )?;
    assert!(rt; many >= 1);
    assert!(rt; many <= 1_160);
    assert!(rt; many == few);
    Ok(())
}
