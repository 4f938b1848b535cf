//! Ends in memory.
ghost use Rattle.std.specs.Prelude.{◌≡◌, ◌≤◌, ◌<◌, ◌+◌, ◌^◌, ◌-◌, ◌++◌, ◌↔◌, ◌⊎◌, min, ℕ, List, Option, None, Some, [], drop, length, vec_len, vec_capacity, Contains, IfOk, OnErr, IsErr, IsTrue, is_ok, if◌then◌else◌};
ghost use Rattle.std.specs.Io.{ReadsAtMost};
ghost use Rattle.std.specs.Io.KnownBytes.{ReadConsumes};
ghost use Rattle.kb_edge.specs.Causes.{HasCause, Puts, raised};

use crate::faults::{Failed, Memory, fail};
use crate::streams::{Sink, Source};
use std::alloc::Global;
use std::marker::Model;

/// A source in memory: it gives at most `piece` bytes a call, and the calls listed in `failing`, from 1, fail.
#[derive(Drop)]
pub struct MemSource {
    bytes: Vec<u8>,
    at: usize,
    piece: usize,
    failing: Vec<u32>,
    calls: u64,
    faults: u64,
}

impl Model for MemSource {
    ghost use Rattle.std.specs.Prelude.{◌≤◌, ◌<◌, drop, vec_len};
    ghost use Rattle.kb_edge.specs.Ends.{SourceState};

    ghost Value = { SourceState };

    ghost view = { λ s. record { left = drop s.at s.bytes.items; piece = s.piece; failing = s.failing.items; calls = s.calls; faults = s.faults } };

    ghost invariant = { λ s. (0 < s.piece) × (s.at ≤ vec_len s.bytes) };
}

impl MemSource {
    pub fn new(bytes: Vec<u8>, piece: usize, failing: Vec<u32>) -> MemSource
        requires { 0 < piece }
        ensures { result ≡ record { left = bytes.items; piece = piece; failing = failing.items; calls = 0; faults = 0 } }
    {
        MemSource {
            bytes,
            at: 0,
            piece,
            failing,
            calls: 0,
            faults: 0,
        }
    }
}

impl Source for MemSource {
    ghost left = { λ s. Some s.left };

    ghost faults = { λ s. s.faults };

    fn read(&mut self, into: &mut [u8]) -> Result<usize, Failed>
        ensures bound { ReadsAtMost result into.new }
        ensures bytes { ReadConsumes (Some self.old.left) (Some self.new.left) result into.new }
        ensures cause { HasCause self.old.faults self.new.faults result }

        // Exactly the calls listed fail, and a call that doesn't gives all that it may.
        ensures calls { self.new.calls ≡ raised self.old.calls }
        ensures failing { IsErr result ↔ Contains self.old.failing self.new.calls }
        ensures faults { self.new.faults ≡ (if is_ok result then self.old.faults else raised self.old.faults) }
        ensures count { IfOk result (λ n. n ≡ min (min (length self.old.left) self.old.piece) (length into.new)) }
        ensures as_made { (self.new.piece ≡ self.old.piece) × (self.new.failing ≡ self.old.failing) }
    {
        self.calls = self.calls.saturating_add(1);
        if is_listed(&self.failing, self.calls) {
            return Err(fail(&mut self.faults));
        }
        let rest = &self.bytes[self.at..];
        let count = rest.len().min(self.piece).min(into.len());
        into[..count].copy_from_slice(&rest[..count]);
        self.at += count;
        Ok(count)
    }
}

/// A sink in memory with room for so many bytes. The calls listed in `failing`, from 1, fail, and so does a call
/// whose piece no longer fits.
#[derive(Drop)]
pub struct MemSink {
    bytes: Vec<u8>,
    room: usize,
    failing: Vec<u32>,
    calls: u64,
    faults: u64,
}

impl Model for MemSink {
    ghost use Rattle.std.specs.Prelude.{◌≤◌, vec_len, vec_capacity};
    ghost use Rattle.kb_edge.specs.Ends.{SinkState};

    ghost Value = { SinkState };

    ghost view = { λ s. record { held = s.bytes.items; room = s.room; failing = s.failing.items; calls = s.calls; faults = s.faults } };

    ghost invariant = { λ s. (vec_len s.bytes ≤ s.room) × (s.room ≤ vec_capacity s.bytes) };
}

impl MemSink {
    /// Takes its room at once.
    pub fn new(alloc: Global, room: usize, failing: Vec<u32>) -> Result<MemSink, Memory>
        ensures { IfOk result (λ s. s ≡ record { held = []; room = room; failing = failing.items; calls = 0; faults = 0 }) }
    {
        Ok(MemSink {
            bytes: Vec::with_capacity(alloc, room)?,
            room,
            failing,
            calls: 0,
            faults: 0,
        })
    }

    /// The bytes that it holds.
    pub fn bytes(&self) -> &[u8]
        ensures { result.now ≡ self.now.held }
    {
        &self.bytes
    }
}

impl Sink for MemSink {
    ghost held = { λ s. Some s.held };

    ghost faults = { λ s. s.faults };

    fn put(&mut self, piece: &[u8]) -> Result<(), Failed>
        ensures bytes { Puts (Some self.old.held) (Some self.new.held) result piece.now }
        ensures cause { HasCause self.old.faults self.new.faults result }

        // Exactly the calls listed fail, and those whose piece no longer fits.
        ensures calls { self.new.calls ≡ raised self.old.calls }
        ensures failing { IsErr result ↔ (Contains self.old.failing self.new.calls ⊎ (self.old.room < length self.old.held + length piece.now)) }
        ensures faults { self.new.faults ≡ (if is_ok result then self.old.faults else raised self.old.faults) }
        ensures err { OnErr result (self.new.held ≡ self.old.held) }
        ensures as_made { (self.new.room ≡ self.old.room) × (self.new.failing ≡ self.old.failing) }
    {
        self.calls = self.calls.saturating_add(1);
        let listed = is_listed(&self.failing, self.calls);
        if listed || self.room - self.bytes.len() < piece.len() {
            return Err(fail(&mut self.faults));
        }
        match self.bytes.extend_from_slice(piece) {
            Ok(()) => Ok(()),
            // The room was taken when the sink was made.
            Err(_) => unreachable!(),
        }
    }
}

// Whether this call is one of those that fail.
fn is_listed(failing: &[u32], call: u64) -> bool
    ensures { IsTrue result ↔ Contains failing.now call }
{
    failing.iter().any(|listed| u64::from(*listed) == call)
}
