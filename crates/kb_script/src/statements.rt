use kb_edge::{Pick, Side};
use kb_keys::Role;
use kb_name::{DeviceName, Moment};
use kb_ops::{Request, Show};

/// What a line says. Devices are numbered from 1 in the order in which they are declared.
#[derive(Debug, Drop)]
pub enum Statement {
    /// Sets the seed of all keys.
    Seed { seed: [u8; 32] },
    /// Declares a device with a disk of so many bytes, 4,096 to 16,777,216.
    Device { name: DeviceName, size: u32 },
    /// Makes the folder's first revision.
    Found { device: u16 },
    /// Makes a device a member, in another's name.
    Grant { by: u16, device: u16, role: Role },
    /// Takes a member's role and its keys away, in another's name.
    Revoke { by: u16, device: u16 },
    /// Sets the moment of what follows.
    At { moment: Moment },
    Open { device: u16 },
    /// Makes the request for the first operation that is queued; it waits.
    Pick { device: u16 },
    /// Puts the request that waits; its answer waits.
    Land { device: u16 },
    /// Notes the answer that waits.
    Note { device: u16 },
    /// Picks, lands and notes.
    Flush { device: u16 },
    /// Flushes until a pick, a put or a note is refused.
    Drain { device: u16 },
    /// Makes the folder's last revision the device's own.
    Pull { device: u16 },
    /// Keeps the folder's last revision as what the device's branch is to be merged into.
    Fetch { device: u16 },
    /// Merges the branch into what was fetched, and puts the merge.
    Settle { device: u16 },
    /// Fetches and settles.
    Resolve { device: u16 },
    Status { device: u16 },
    /// Arms the device's disk: after so many further writes and syncs all fails.
    Fuse { device: u16, steps: u32 },
    /// Arms the link between the device and the folder: it loses the next request, or the next reply.
    Lose { device: u16, side: Side },
    /// Cuts the power.
    Power { device: u16, pick: Pick },
    /// Lists the revisions.
    Folder,
    /// Audits the folder.
    Verify,
    File { device: u16, request: Request },
    Look { device: u16, show: Show },
}
