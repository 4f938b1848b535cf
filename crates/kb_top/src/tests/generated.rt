//! Runs of generated statements, by the words of a command line.
use crate::tests::{USAGE, sink, source};
use crate::{Status, run_words};
use kb_memdisk::Rack;
use kb_world::World;
use std::alloc::Global;
use std::test::Fail;

// Whether a command line of two words ends so and puts this.
fn ends(
    alloc: Global,
    first: &str,
    second: &str,
    status: Status,
    text: &str,
) -> Result<bool, Fail> {
    let first = String::from_str(alloc, first)?;
    let second = String::from_str(alloc, second)?;
    let words = vec![in alloc; first, second]?;
    let mut source = source(alloc, "")?;
    let mut sink = sink(alloc)?;
    let mut world = World::new(alloc, Rack);
    let ended = run_words(alloc, &words, &mut source, &mut sink, &mut world);
    Ok(ended == status && sink.bytes() == text.as_bytes())
}

fn is_usage(alloc: Global, first: &str, second: &str) -> Result<bool, Fail> {
    ends(alloc, first, second, Status::Usage, USAGE)
}

#[test]
fn a_number_is_summed_up(rt: HostRuntime) -> Result<(), Fail> {
    let text = "gen 2: revisions 8 rows 6 renamed 2\n";
    assert!(rt; ends(rt.alloc(), "gen", "2", Status::Done, text)?);
    Ok(())
}

#[test]
fn other_words_are_usage(rt: HostRuntime) -> Result<(), Fail> {
    let alloc = rt.alloc();
    assert!(rt; is_usage(alloc, "gen", "0")?);
    assert!(rt; is_usage(alloc, "gen", "1001")?);
    assert!(rt; is_usage(alloc, "gen", "07")?);
    assert!(rt; is_usage(alloc, "run", "7")?);
    Ok(())
}
