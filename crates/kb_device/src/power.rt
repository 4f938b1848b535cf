//! A disk at rest that is armed, or whose power is cut.
ghost use Rattle.kb_device.specs.Serving.{IsArmed, IsCut, Changes};
ghost use Rattle.kb_device.specs.Views.{platter};

use kb_edge::{CrashDisk, Pick};

// Arms the disk.
pub fn arm<D: CrashDisk>(resting: &mut Option<D>, steps: u32)
    ensures { Changes (λ was is. IsArmed steps (platter D.Disk was) (platter D.Disk is)) resting.old resting.new }
{
    if let Some(disk) = resting {
        disk.arm(steps);
    }
}

// Cuts the power of the disk.
pub fn cut<D: CrashDisk>(resting: &mut Option<D>, pick: Pick)
    ensures { Changes (λ was is. IsCut (platter D.Disk was) (platter D.Disk is)) resting.old resting.new }
{
    if let Some(disk) = resting {
        disk.power(pick);
    }
}
