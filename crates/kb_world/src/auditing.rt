//! The audit of the world's folder, which is whole.
ghost use Rattle.std.specs.Prelude.{◌≡◌, ℕ, List, IfOk, map as each, length};
ghost use Rattle.kb_lines.specs.declared.lines.Line.TheVariants as shown;
ghost use Rattle.kb_snap.specs.Chains.{Chain};
ghost use Rattle.kb_folder.specs.Chains.{Names};
ghost use Rattle.kb_folder.specs.Held.{held};
ghost use Rattle.kb_folder.specs.Goes.{HasChain};
ghost use Rattle.kb_world.specs.Listing.{AreNamed};

use crate::declared::Declared;
use kb_audit::{AuditFault, audit, whole_law};
use kb_blocks::BlockHash;
use kb_edge::{Disk, Memory};
use kb_folder::Folder;
use kb_keys::Secrets;
use kb_lines::Line;
use kb_name::DeviceName;
use kb_seal::Sealer;
use std::alloc::Global;

// The names of the devices, in their order.
fn names_of<D: Disk, S: Sealer, H: BlockHash>(
    alloc: Global,
    devices: &[Declared<D, S, H>],
) -> Result<Vec<DeviceName>, Memory>
    ensures { IfOk result (λ names. names.items ≡ each (λ x. x.name) devices.now) }
{
    let mut names = Vec::new(alloc);
    'devices: for declared in devices {
        let name = declared.name.clone()?;
        names.push(name)?;
    }
    Ok(names)
}

/// The line of an audit: a folder that has a chain, with the declared devices registered, is whole.
pub fn whole_line<D: Disk, S: Sealer, H: BlockHash>(
    alloc: Global,
    folder: &Folder<S, H>,
    devices: &[Declared<D, S, H>],
    secrets: &Secrets,
) -> Result<Line, Memory>
    requires { (names : Names) × (c : Chain) × HasChain S.sealed S.signed H.hashed secrets.now names (held folder.now) c × AreNamed names devices.now × ((held folder.now).state.registered ≡ length devices.now) }
    ensures { IfOk result (λ line. (seed : List ℕ) (names : Names) (c : Chain) → HasChain S.sealed S.signed H.hashed seed names (held folder.now) c → line ≡ shown.Whole (length c)) }
{
    whole_law::<S, H>();
    let names = names_of(alloc, devices)?;
    let revisions = folder.revisions();
    let store = folder.store();
    let halves = folder.halves();
    let own = names.as_slice();
    match audit::<S, H>(alloc, revisions, store, halves, own, secrets) {
        Ok(revisions) => Ok(Line::Whole { revisions }),
        Err(AuditFault::Memory) => Err(Memory),
        Err(AuditFault::At { .. }) => unreachable!(),
    }
}
