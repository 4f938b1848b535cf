//! A session that ends, and its disk at rest.
ghost use Rattle.std.specs.Prelude.{◌≡◌, not, is_some, None, Some};
ghost use Rattle.kb_device.specs.Noting.{is_stopped};
ghost use Rattle.kb_device.specs.Pulling.{is_stopped as is_stopped_pulling};
ghost use Rattle.kb_device.specs.Devices.{rested};

use crate::answers::{NoteFault, Noted, PullFault};
use crate::session::Session;
use kb_blocks::BlockHash;
use kb_edge::Disk;

// Whether the disk stopped in a note.
pub fn has_stopped(noted: &Result<Noted, NoteFault>) -> bool
    ensures { result ≡ is_stopped noted.now }
{
    matches!(noted, Err(NoteFault::Stopped))
}

// Whether the disk stopped in a pull.
pub fn has_stopped_pulling(pulled: &Result<u32, PullFault>) -> bool
    ensures { result ≡ is_stopped_pulling pulled.now }
{
    matches!(pulled, Err(PullFault::Stopped))
}

// Puts a value in an empty place.
pub fn fill<T>(place: &mut Option<T>, value: T)
    requires { place.old ≡ None }
    ensures { place.new ≡ Some value }
{
    match place.replace(value) {
        None => {}
        Some(_) => unreachable!(),
    }
}

// The session ends, and its disk is at rest.
pub fn rest<D: Disk, H: BlockHash>(session: &mut Option<Session<D, H>>, resting: &mut Option<D>)
    requires { is_some resting.old ≡ not (is_some session.old) }
    ensures ended { session.new ≡ None }
    ensures disk { resting.new ≡ rested session.old resting.old }
{
    if let Some(ended) = session.take() {
        fill(resting, ended.journal.finish());
    }
}
