//! How a call of the outside fails, and want of memory.
ghost use Rattle.std.specs.Prelude.{◌≡◌, ◌≤◌};
ghost use Rattle.kb_edge.specs.Causes.{raised};

use std::alloc::{AllocError, AllocFailed};

/// A read or a write failed.
#[derive(Clone, Copy, Debug, PartialEq, Eq)]
pub struct Failed;

/// A disk has stopped: it takes no further call until its power was cut.
#[derive(Clone, Copy, Debug, PartialEq, Eq)]
pub struct Stopped;

/// A request or a reply got lost on its way.
#[derive(Clone, Copy, Debug, PartialEq, Eq)]
pub struct Lost;

/// Memory ran out.
#[derive(Clone, Copy, Debug, PartialEq, Eq)]
pub struct Memory;

impl From<AllocError> for Memory {
    fn from(_: AllocError) -> Memory {
        Memory
    }
}

impl<T: Drop> From<AllocFailed<T>> for Memory {
    fn from(_: AllocFailed<T>) -> Memory {
        Memory
    }
}

// One fault more, and what is told of it.
pub(crate) fn fail(faults: &mut u64) -> Failed
    ensures raised { faults.new ≡ raised faults.old }
    ensures later { faults.old ≤ faults.new }
{
    *faults = faults.saturating_add(1);
    Failed
}
