//! The audit.
ghost use Rattle.std.specs.Prelude.{◌≡◌, ◌≤◌, ◌<◌, ◌^◌, [], IfOk, map as each, replicate, None, length};
ghost use Rattle.std.specs.FinMap as map;
ghost use Rattle.kb_ops.specs.Trees.{start};
ghost use Rattle.kb_chain.specs.Revisions.{no_hash};
ghost use Rattle.kb_audit.specs.Audits.{Audits};
ghost use Rattle.kb_audit.specs.Stepping.{name_at};
ghost use Rattle.kb_audit.specs.Taking.{IsNew};

use crate::faults::{AuditFault, AuditWhy, Bad, told};
use crate::halving::halves_meet;
use crate::knowing::Known;
use crate::taking::take_revision;
use kb_blocks::{BlockHash, Store};
use kb_chain::ChainState;
use kb_edge::Memory;
use kb_keys::{Halves, KeyRing, Policy, Secrets};
use kb_name::DeviceName;
use kb_seal::Sealer;
use kb_tree::Table;
use std::alloc::Global;

fn begin(alloc: Global, registered: u16) -> Result<Known, Memory>
    ensures { IfOk result (λ k. IsNew registered k) }
{
    let table = Table::new(alloc)?;
    Ok(Known {
        state: ChainState {
            length: 0,
            head: [0; 32],
            policy: Policy::new(),
            registered,
            last: [0; 33],
        },
        table,
        ring: KeyRing::new(alloc),
        roots: Vec::new(alloc),
    })
}

/// How many revisions there are, where they stand for a chain over the store's blocks and the halves are those of
/// its members. Device d is the d-th of the names, and those are the registered ones. Otherwise the first bad
/// revision is told, with the first reason against it.
pub fn audit<S: Sealer, H: BlockHash>(
    alloc: Global,
    revisions: &[Vec<u8>],
    store: &Store<H>,
    halves: &Halves,
    names: &[DeviceName],
    secrets: &Secrets,
) -> Result<u32, AuditFault>
    requires few { length names.now ≤ 32 }
    requires many { length revisions.now < 2 ^ 32 }
    ensures { Audits S.sealed S.signed H.hashed secrets.now (name_at names.now) (length names.now) (map.get store.now) (each (λ b. b.items) revisions.now) halves.now.0 result }
{
    let mut known = match begin(alloc, names.len() as u16) {
        Ok(known) => known,
        Err(_) => return Err(AuditFault::Memory),
    };
    'revisions: for bytes in revisions {
        let number = known.state.length + 1;
        match take_revision::<S, H>(alloc, &mut known, bytes.as_slice(), store, names, secrets) {
            Ok(()) => {}
            Err(fault) => return Err(told(number, fault)),
        }
    }
    let kept = halves.as_slice();
    if !halves_meet(&known.state.policy, kept, secrets) {
        return Err(AuditFault::At {
            number: known.state.length,
            why: AuditWhy::Halves,
        });
    }
    Ok(known.state.length)
}
