//! The folder's revisions as lines.
ghost use Rattle.std.specs.Prelude.{◌≡◌, ◌+◌, ◌-◌, ◌<◌, ◌≤◌, ℕ, List, IfOk, Some, length};
ghost use Rattle.kb_lines.specs.declared.lines.Line.TheVariants as shown;
ghost use Rattle.kb_world.specs.Statements.{Lists};
ghost use Rattle.kb_snap.specs.Chains.{Chain};
ghost use Rattle.kb_chain.specs.Revisions.{revision_text, IsRevision};
ghost use Rattle.kb_chain.specs.declared.revisions.Revision as chain;
ghost use Rattle.kb_folder.specs.Chains.{Names};
ghost use Rattle.kb_folder.specs.Held.{held};
ghost use Rattle.kb_folder.specs.Goes.{HasChain};
ghost use Rattle.kb_world.specs.Printed.{printed};
ghost use Rattle.kb_world.specs.Listing.{IsWithin, AreNamed, HasNames, rekey_did, revision_did, IsSpelled, AreDeclaredBy};

use crate::declared::Declared;
use kb_blocks::BlockHash;
use kb_chain::{Revision, RevisionFault, RevisionKind};
use kb_edge::{Disk, Memory};
use kb_folder::Folder;
use kb_keys::Action;
use kb_lines::{Did, Line};
use kb_name::DeviceName;
use kb_seal::Sealer;
use std::alloc::Global;

// The name of the device with this number.
fn name_of<D: Disk, S: Sealer, H: BlockHash>(
    devices: &[Declared<D, S, H>],
    number: u16,
) -> Result<DeviceName, Memory>
    requires { IsWithin (length devices.now) number }
    ensures { IfOk result (λ name. (names : Names) → AreNamed names devices.now → name ≡ names number) }
{
    let name = devices[usize::from(number) - 1].name.clone()?;
    Ok(name)
}

// What a revision that changes the members did.
fn rekey_did(by: DeviceName, device: DeviceName, action: Action) -> Did
    ensures { result ≡ rekey_did by device action }
{
    match action {
        Action::Found | Action::GrantWriter => Did::GrantWriter { by, device },
        Action::GrantReader => Did::GrantReader { by, device },
        Action::Revoke => Did::Revoke { by, device },
    }
}

// What a revision did.
fn did_of<D: Disk, S: Sealer, H: BlockHash>(
    devices: &[Declared<D, S, H>],
    revision: &Revision,
) -> Result<Did, Memory>
    requires { HasNames (length devices.now) revision.now }
    ensures { IfOk result (λ did. (names : Names) → AreNamed names devices.now → did ≡ revision_did names revision.now) }
{
    let by = name_of(devices, revision.writer)?;
    match revision.kind {
        RevisionKind::Found => Ok(Did::Found { device: by }),
        RevisionKind::Step | RevisionKind::Steps => Ok(Did::Step {
            device: by,
            seq: revision.last,
        }),
        RevisionKind::Merge | RevisionKind::Join => Ok(Did::Merge {
            device: by,
            first: revision.first,
            last: revision.last,
        }),
        RevisionKind::Rekey => match &revision.bundle {
            None => unreachable!(),
            Some(bundle) => {
                let device = name_of(devices, bundle.device)?;
                Ok(rekey_did(by, device, bundle.action))
            }
        },
    }
}

// The line of a revision.
fn revision_line<D: Disk, S: Sealer, H: BlockHash>(
    alloc: Global,
    devices: &[Declared<D, S, H>],
    bytes: &[u8],
) -> Result<Line, Memory>
    requires { IsSpelled (length devices.now) bytes.now }
    ensures { IfOk result (λ line. (names : Names) (r : chain.Revision) → AreNamed names devices.now → IsRevision r → bytes.now ≡ revision_text r → line ≡ shown.Revision r.number (revision_did names r)) }
{
    let revision = match Revision::decode(alloc, bytes) {
        Ok(revision) => revision,
        Err(RevisionFault::BadRevision) => unreachable!(),
        Err(RevisionFault::Memory) => return Err(Memory),
    };
    let did = did_of(devices, &revision)?;
    let number = revision.number;
    Ok(Line::Revision { number, did })
}

/// The lines of a folder's chain.
pub fn chain_lines<D: Disk, S: Sealer, H: BlockHash>(
    alloc: Global,
    folder: &Folder<S, H>,
    devices: &[Declared<D, S, H>],
) -> Result<Vec<Line>, Memory>
    requires { (seed : List ℕ) × (names : Names) × (c : Chain) × HasChain S.sealed S.signed H.hashed seed names (held folder.now) c × AreDeclaredBy (length devices.now) c }
    ensures { IfOk result (λ lines. (seed : List ℕ) (names : Names) (c : Chain) → HasChain S.sealed S.signed H.hashed seed names (held folder.now) c → AreNamed names devices.now → lines.items ≡ printed names 0 (Lists c)) }
{
    let mut lines = Vec::new(alloc);
    let generation = folder.policy().generation();
    let revisions = folder.length();
    lines.push(Line::Chain {
        revisions,
        generation,
    })?;
    let all = folder.revisions();
    for bytes in all {
        let line = revision_line(alloc, devices, bytes)?;
        lines.push(line)?;
    }
    Ok(lines)
}
