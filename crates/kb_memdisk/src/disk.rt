//! A disk in memory.
ghost use Rattle.std.specs.Prelude.{◌≡◌, ◌+◌, ◌≤◌, ◌<◌, ◌^◌, ◌||◌, ◌&&◌, ◌↔◌, ℕ, false, true, None, Some, length, replicate, slice_index, slice_range, is_ok, IsErr, IfOk, OnOk, OnErr, if◌then◌else◌};
ghost use Rattle.kb_edge.specs.Causes.{HasCause, Rose, raised};
ghost use Rattle.kb_edge.specs.Disk.{within, overlay, MayLeave, FallsBy};
ghost use Rattle.kb_memdisk.specs.Cells.{is_dirty, picked};
ghost use Rattle.kb_memdisk.specs.Memory.{stepped};

use crate::cells::Cells;
use kb_edge::{CrashDisk, Disk, DiskMaker, Memory, Pick, Stopped};
use std::alloc::Global;
use std::marker::Model;

/// A disk in memory, of at most 4,294,967,295 bytes.
///
/// After `arm(n)` exactly n writes and syncs succeed, and each later call fails until the next `arm` or `power`. The
/// first write that fails then still enters. Before any `arm`, and after `power`, no call fails.
#[derive(Drop)]
pub struct MemDisk {
    cells: Cells,
    left: Option<u32>,
    enters: bool,
    faults: u64,
}

impl Model for MemDisk {
    ghost use Rattle.kb_memdisk.specs.Kept.{now_of, stable_of, dirty_of};
    ghost use Rattle.kb_memdisk.specs.Memory.{DiskState};

    ghost Value = { DiskState };

    ghost view = { λ d. record { now = now_of d.cells; stable = stable_of d.cells; dirty = dirty_of d.cells; left = d.left; enters = d.enters; faults = d.faults } };
}

impl MemDisk {
    /// A disk of zeros.
    pub fn new(alloc: Global, size: u32) -> Result<MemDisk, Memory>
        ensures { IfOk result (λ d. d ≡ record { now = replicate size 0; stable = replicate size 0; dirty = replicate size false; left = None; enters = true; faults = 0 }) }
    {
        Ok(MemDisk {
            cells: Cells::new(alloc, size)?,
            left: None,
            enters: true,
            faults: 0,
        })
    }

    /// A disk with these bytes, as after a sync.
    pub fn with_image(alloc: Global, image: Vec<u8>) -> Result<MemDisk, Memory>
        requires { length image.items < 2 ^ 32 }
        ensures { IfOk result (λ d. d ≡ record { now = image.items; stable = image.items; dirty = replicate (length image.items) false; left = None; enters = true; faults = 0 }) }
    {
        Ok(MemDisk {
            cells: Cells::with_image(alloc, &image)?,
            left: None,
            enters: true,
            faults: 0,
        })
    }
}

// Takes one step, or answers false where none is left.
fn step(left: &mut Option<u32>) -> bool
    ensures stepped { left.new ≡ stepped left.old }
    ensures failing { result ≡ false ↔ left.old ≡ Some 0 }
{
    match *left {
        None => true,
        Some(0) => false,
        Some(n) => {
            *left = Some(n - 1);
            true
        }
    }
}

// One fault more, and what is told of it.
fn stop(faults: &mut u64) -> Stopped
    ensures raised { faults.new ≡ raised faults.old }
    ensures later { faults.old ≤ faults.new }
{
    *faults = faults.saturating_add(1);
    Stopped
}

impl Disk for MemDisk {
    ghost content = { λ d. d.now };

    ghost dirty = { λ d. is_dirty d.dirty };

    ghost faults = { λ d. d.faults };

    ghost left = { λ d. d.left };

    fn size(&self) -> u32 {
        self.cells.size()
    }

    fn read(&mut self, at: u32, into: &mut [u8]) -> Result<(), Stopped>
        requires { at + length into.old ≤ length self.old.now }
        ensures got { OnOk result (into.new ≡ slice_range self.old.now at (at + length into.old)) }

        // It fails exactly where no step is left, and changes nothing but the count.
        ensures failing { IsErr result ↔ (self.old.left ≡ Some 0) }
        ensures unchanged { self.new ≡ record self.old { faults = if is_ok result then self.old.faults else raised self.old.faults } }
        ensures content { self.new.now ≡ self.old.now }
        ensures dirty { (place : ℕ) → is_dirty self.new.dirty place ≡ is_dirty self.old.dirty place }
        ensures left { self.new.left ≡ self.old.left }
        ensures cause { HasCause self.old.faults self.new.faults result }
        ensures spent { OnErr result (self.old.left ≡ Some 0) }
    {
        if self.left == Some(0) {
            return Err(stop(&mut self.faults));
        }
        self.cells.read(at as usize, into);
        Ok(())
    }

    fn write(&mut self, at: u32, bytes: &[u8]) -> Result<(), Stopped>
        requires { at + length bytes.now ≤ length self.old.now }
        ensures written { OnOk result (self.new.now ≡ overlay self.old.now at bytes.now) }
        ensures elsewhere { MayLeave self.old.now (within at (length bytes.now)) self.new.now }
        ensures dirty { (place : ℕ) → is_dirty self.new.dirty place ≡ (is_dirty self.old.dirty place || within at (length bytes.now) place) }
        ensures left { FallsBy 1 self.old.left self.new.left }
        ensures cause { HasCause self.old.faults self.new.faults result }
        ensures spent { OnErr result (self.old.left ≡ Some 0) }

        // It fails exactly where no step is left, and a step is taken. The first that fails still enters.
        ensures failing { IsErr result ↔ (self.old.left ≡ Some 0) }
        ensures steps { self.new.left ≡ stepped self.old.left }
        ensures enters { OnErr result (self.new.now ≡ (if self.old.enters then overlay self.old.now at bytes.now else self.old.now)) }
        ensures entered { self.new.enters ≡ (self.old.enters && is_ok result) }
        ensures stable { self.new.stable ≡ self.old.stable }
        ensures faults { self.new.faults ≡ (if is_ok result then self.old.faults else raised self.old.faults) }
    {
        let at = at as usize;
        if step(&mut self.left) {
            self.cells.write(at, bytes);
            return Ok(());
        }
        self.cells.fail_to_write(at, bytes, self.enters);
        self.enters = false;
        Err(stop(&mut self.faults))
    }

    fn sync(&mut self) -> Result<(), Stopped>
        ensures clean { OnOk result ((place : ℕ) → is_dirty self.new.dirty place ≡ false) }
        ensures dirty { OnErr result ((place : ℕ) → is_dirty self.new.dirty place ≡ is_dirty self.old.dirty place) }
        ensures content { self.new.now ≡ self.old.now }
        ensures left { FallsBy 1 self.old.left self.new.left }
        ensures cause { HasCause self.old.faults self.new.faults result }
        ensures spent { OnErr result (self.old.left ≡ Some 0) }

        // It fails exactly where no step is left, and a step is taken.
        ensures failing { IsErr result ↔ (self.old.left ≡ Some 0) }
        ensures steps { self.new.left ≡ stepped self.old.left }
        ensures entered { self.new.enters ≡ self.old.enters }
        ensures stable { self.new.stable ≡ (if is_ok result then self.old.now else self.old.stable) }
        ensures faults { self.new.faults ≡ (if is_ok result then self.old.faults else raised self.old.faults) }
    {
        if step(&mut self.left) {
            self.cells.sync();
            return Ok(());
        }
        Err(stop(&mut self.faults))
    }
}

impl CrashDisk for MemDisk {
    fn arm(&mut self, steps: u32)
        ensures armed { self.new ≡ record self.old { left = Some steps; enters = true } }
        ensures left { self.new.left ≡ Some steps }
        ensures content { self.new.now ≡ self.old.now }
        ensures dirty { (place : ℕ) → is_dirty self.new.dirty place ≡ is_dirty self.old.dirty place }
        ensures faults { self.new.faults ≡ self.old.faults }
    {
        self.left = Some(steps);
        self.enters = true;
    }

    fn power(&mut self, pick: Pick)
        ensures image { MayLeave self.old.now (is_dirty self.old.dirty) self.new.now }
        ensures clean { (place : ℕ) → is_dirty self.new.dirty place ≡ false }
        ensures left { self.new.left ≡ None }
        ensures faults { self.new.faults ≡ self.old.faults }

        // Which bytes stand in the dirty places.
        ensures picked { (place : ℕ) → place < length self.old.now → slice_index self.new.now place
            ≡ picked pick (is_dirty self.old.dirty place) (slice_index self.old.stable place) (slice_index self.old.now place) place }
        ensures stable { self.new.stable ≡ self.new.now }
    {
        self.cells.cut(pick);
        self.left = None;
    }
}

/// Makes disks in memory.
#[derive(Clone, Copy, Debug)]
pub struct Rack;

impl DiskMaker for Rack {
    type D = MemDisk;

    fn make(&mut self, alloc: Global, size: u32) -> Result<MemDisk, Memory> {
        MemDisk::new(alloc, size)
    }
}
