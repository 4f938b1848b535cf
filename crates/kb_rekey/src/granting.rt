//! Granting.
ghost use Rattle.std.specs.Prelude.{◌≡◌, ◌≤◌, map as each, IfOk};
ghost use Rattle.std.specs.List.{range_with_len};
ghost use Rattle.kb_keys.specs.Secrets.{folder_key};
ghost use Rattle.kb_chain.specs.Checks.{granted};
ghost use Rattle.kb_snap.specs.Rekeys.{grant_of};
ghost use Rattle.kb_folder.specs.Stands.{entries_for};
ghost use Rattle.kb_folder.specs.Held.{held};
ghost use Rattle.kb_rekey.specs.Rekeying.{IsStanding, Rekeys};

use crate::changing::put_rekey;
use crate::rekeying::RekeyFault;
use kb_blocks::BlockHash;
use kb_chain::is_writer;
use kb_edge::Memory;
use kb_folder::Folder;
use kb_keys::{Action, Bundle, Entry, KeyRing, Role, Secrets};
use kb_name::Moment;
use kb_seal::Sealer;
use std::alloc::Global;

fn action_of(role: Role) -> Action
    ensures { result ≡ grant_of role }
{
    match role {
        Role::Writer => Action::GrantWriter,
        Role::Reader => Action::GrantReader,
    }
}

// The folder keys of the first generations.
fn ring_to(alloc: Global, generation: u32, secrets: &Secrets) -> Result<KeyRing, Memory>
    requires { generation ≤ 64 }
    ensures { IfOk result (λ ring. ring ≡ each (λ i. (i, folder_key secrets.now i)) (range_with_len 1 generation)) }
{
    let mut ring = KeyRing::new(alloc);
    'generations: for i in 0..generation {
        ring.add(i + 1, secrets.folder(i + 1))?;
    }
    Ok(ring)
}

// The entries of a device for the first generations.
fn entries_to<S: Sealer>(
    alloc: Global,
    who: u16,
    generation: u32,
    secrets: &Secrets,
) -> Result<Vec<Entry>, Memory>
    requires { generation ≤ 64 }
    ensures { IfOk result (λ es. es.items ≡ entries_for S.sealed secrets.now (granted who generation)) }
{
    let ring = ring_to(alloc, generation, secrets)?;
    let mut bundle = Bundle::new(alloc);
    bundle.add::<S>(alloc, who, &ring, secrets)?;
    let entries = Vec::from_slice(alloc, bundle.entries())?;
    Ok(entries)
}

/// Makes a registered device a writer or a reader, with the keys of all generations. A refusal changes nothing.
pub fn grant<S: Sealer, H: BlockHash>(
    alloc: Global,
    folder: &mut Folder<S, H>,
    secrets: &Secrets,
    by: u16,
    who: u16,
    role: Role,
    moment: Moment,
) -> Result<u32, RekeyFault>
    requires standing { IsStanding S.sealed S.signed H.hashed secrets.now (held folder.old) }
    requires registered { (1 ≤ who) × (who ≤ (held folder.old).state.registered) }
    ensures { Rekeys S.sealed S.signed H.hashed secrets.now by (grant_of role) who moment (held folder.old) (held folder.new) result }
{
    if !is_writer(folder.policy().role(by)) {
        return Err(RekeyFault::NotWriter);
    }
    if folder.policy().role(who).is_some() {
        return Err(RekeyFault::Known);
    }
    let generation = folder.policy().generation();
    let entries = entries_to::<S>(alloc, who, generation, secrets)?;
    put_rekey::<S, H>(
        alloc,
        folder,
        secrets,
        by,
        moment,
        generation,
        action_of(role),
        who,
        entries,
    )
}
