//! The program: it does what its words ask for, from standard input to standard output.
#![tactic(auto)]

use kb_edge::{StdSink, StdSource};
use kb_memdisk::Rack;
use kb_top::{Status, run_words};
use kb_world::World;
use std::alloc::Global;
use std::process::ExitCode;
use std::rt::Env;
use std::{env, io};

// The words of the command line, without the program's name.
fn words(rt: &(impl Env + AllocGlobal), alloc: Global) -> io::Result<Vec<String>> {
    let mut words = Vec::new(alloc);
    for word in env::args(rt)?.skip(1) {
        words.push(word)?;
    }
    Ok(words)
}

fn main(rt: HostRuntime) -> ExitCode {
    let alloc = rt.alloc();
    let words = match words(&rt, alloc) {
        Ok(words) => words,
        Err(error) => {
            if error.kind() == io::ErrorKind::OutOfMemory {
                return ExitCode::from(Status::Memory.code());
            }
            // A word that is no text is none of the program's.
            Vec::new(alloc)
        }
    };
    let mut source = StdSource::new(rt.reader());
    let mut sink = StdSink::new(io::writer(&rt));
    let mut world = World::new(alloc, Rack);
    let status = run_words(alloc, &words, &mut source, &mut sink, &mut world);
    ExitCode::from(status.code())
}
