//! Disks, whose power may be cut between a write and the sync behind it.
ghost use Rattle.std.specs.Prelude.{◌≡◌, ◌+◌, ◌≤◌, ◌||◌, false, Bool, List, ℕ, length, replicate, Option, IfOk, OnOk, OnErr, slice_range};
ghost use Rattle.kb_edge.specs.Causes.{HasCause};
ghost use Rattle.kb_edge.specs.Disk.{within, overlay, MayLeave, FallsBy};

use crate::faults::{Memory, Stopped};
use std::alloc::Global;

/// A disk of a fixed size. A write that fails may have left any bytes in its range, and a place that was written is
/// dirty until a sync succeeds: a power cut may leave any byte there.
pub trait Disk {
    /// The bytes that a read gives.
    ghost content: { Self → List ℕ };
    /// Whether a place was written since the last sync that succeeded.
    ghost dirty: { Self → ℕ → Bool };
    /// How often it has failed.
    ghost faults: { Self → ℕ };
    /// How many writes and syncs still succeed for sure, where that is set.
    ghost left: { Self → Option ℕ };

    /// The number of bytes.
    fn size(&self) -> u32
        ensures { result ≡ length (content self.now) };

    /// Fills `into` with the bytes from `at` on.
    fn read(&mut self, at: u32, into: &mut [u8]) -> Result<(), Stopped>
        requires { at + length into.old ≤ length (content self.old) }
        ensures got { OnOk result (into.new ≡ slice_range (content self.old) at (at + length into.old)) }
        ensures content { content self.new ≡ content self.old }
        ensures dirty { (place : ℕ) → dirty self.new place ≡ dirty self.old place }
        ensures left { left self.new ≡ left self.old }
        ensures cause { HasCause (faults self.old) (faults self.new) result }
        ensures spent { OnErr result (left self.old ≡ Some 0) };

    /// Puts these bytes in place of those from `at` on.
    fn write(&mut self, at: u32, bytes: &[u8]) -> Result<(), Stopped>
        requires { at + length bytes.now ≤ length (content self.old) }
        ensures written { OnOk result (content self.new ≡ overlay (content self.old) at bytes.now) }

        // Also where it fails.
        ensures elsewhere { MayLeave (content self.old) (within at (length bytes.now)) (content self.new) }
        ensures dirty { (place : ℕ) → dirty self.new place ≡ (dirty self.old place || within at (length bytes.now) place) }
        ensures left { FallsBy 1 (left self.old) (left self.new) }
        ensures cause { HasCause (faults self.old) (faults self.new) result }
        ensures spent { OnErr result (left self.old ≡ Some 0) };

    /// Makes what was written last.
    fn sync(&mut self) -> Result<(), Stopped>
        ensures clean { OnOk result ((place : ℕ) → dirty self.new place ≡ false) }
        ensures dirty { OnErr result ((place : ℕ) → dirty self.new place ≡ dirty self.old place) }
        ensures content { content self.new ≡ content self.old }
        ensures left { FallsBy 1 (left self.old) (left self.new) }
        ensures cause { HasCause (faults self.old) (faults self.new) result }
        ensures spent { OnErr result (left self.old ≡ Some 0) };
}

/// What a power cut leaves in the dirty places: what was there after the last sync that succeeded, what was written
/// since, or noise.
#[derive(Clone, Copy, Debug, PartialEq, Eq)]
pub enum Pick {
    Old,
    New,
    Noise,
}

/// A disk whose failures and power cuts are called for.
pub trait CrashDisk: Disk {
    /// After so many further writes and syncs each call may fail.
    fn arm(&mut self, steps: u32)
        ensures left { Self.left self.new ≡ Some steps }
        ensures content { Self.content self.new ≡ Self.content self.old }
        ensures dirty { (place : ℕ) → Self.dirty self.new place ≡ Self.dirty self.old place }
        ensures faults { Self.faults self.new ≡ Self.faults self.old };

    /// Cuts the power and puts it on again.
    fn power(&mut self, pick: Pick)
        ensures image { MayLeave (Self.content self.old) (Self.dirty self.old) (Self.content self.new) }
        ensures clean { (place : ℕ) → Self.dirty self.new place ≡ false }
        ensures left { Self.left self.new ≡ None }
        ensures faults { Self.faults self.new ≡ Self.faults self.old };
}

/// Makes disks.
pub trait DiskMaker {
    type D: CrashDisk;

    /// A disk of `size` zeros, which has never failed.
    fn make(&mut self, alloc: Global, size: u32) -> Result<Self::D, Memory>
        ensures content { IfOk result (λ disk. Self.D.content disk ≡ replicate size 0) }
        ensures clean { IfOk result (λ disk. (place : ℕ) → Self.D.dirty disk place ≡ false) }
        ensures faults { IfOk result (λ disk. Self.D.faults disk ≡ 0) }
        ensures left { IfOk result (λ disk. Self.D.left disk ≡ None) };
}
