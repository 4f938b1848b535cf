//! Adapters of std's ends: the edge where the proofs trust the system.
ghost use Rattle.std.specs.Prelude.{◌≡◌, None};

use crate::faults::{Failed, fail};
use crate::streams::{Sink, Source};
use std::io::{Read, Write};

/// A source over a reader of std. It tells of its bytes what the reader tells, which is nothing for standard input.
#[derive(Drop)]
pub struct StdSource<R: Read + Drop> {
    inner: R,
    faults: u64,
}

impl<R: Read + Drop> StdSource<R> {
    /// A source that has never failed.
    pub fn new(inner: R) -> StdSource<R>
        ensures inner { result.inner ≡ inner }
        ensures faults { result.faults ≡ 0 }
    {
        StdSource { inner, faults: 0 }
    }
}

impl<R: Read + Drop> Source for StdSource<R> {
    ghost left = { λ s. R.remaining s.inner };

    ghost faults = { λ s. s.faults };

    fn read(&mut self, into: &mut [u8]) -> Result<usize, Failed> {
        match self.inner.read(into) {
            Ok(count) => Ok(count),
            Err(_) => Err(fail(&mut self.faults)),
        }
    }
}

/// A sink over a writer of std, which is flushed behind each piece. It tells nothing of the bytes held. A write that
/// takes nothing is a fault.
#[derive(Drop)]
pub struct StdSink<W: Write + Drop> {
    inner: W,
    faults: u64,
}

impl<W: Write + Drop> StdSink<W> {
    /// A sink that has never failed.
    pub fn new(inner: W) -> StdSink<W>
        ensures inner { result.inner ≡ inner }
        ensures faults { result.faults ≡ 0 }
    {
        StdSink { inner, faults: 0 }
    }
}

impl<W: Write + Drop> Sink for StdSink<W> {
    ghost held = { λ _. None };

    ghost faults = { λ s. s.faults };

    fn put(&mut self, piece: &[u8]) -> Result<(), Failed> {
        let mut done = 0;
        while done < piece.len() {
            match self.inner.write(&piece[done..]) {
                Ok(0) | Err(_) => return Err(fail(&mut self.faults)),
                Ok(count) => done += count,
            }
        }
        match self.inner.flush() {
            Ok(()) => Ok(()),
            Err(_) => Err(fail(&mut self.faults)),
        }
    }
}
