//! Reading a revision.
ghost use Rattle.std.specs.Prelude.{◌≡◌, ◌<◌};
ghost use Rattle.kb_chain.specs.Checks.{entries_of};
ghost use Rattle.kb_audit.specs.Reading.{ReadsRevision};

use crate::faults::{AuditWhy, Bad};
use crate::judging::{are_made, judge};
use kb_chain::{BundlePart, ChainState, Revision, RevisionFault};
use kb_keys::{Entry, Secrets};
use kb_seal::Sealer;
use std::alloc::Global;

fn entries_in(bundle: &Option<BundlePart>) -> &[Entry]
    ensures { result.now ≡ entries_of bundle.now }
{
    match bundle {
        Some(part) => part.entries.as_slice(),
        None => &[],
    }
}

/// The revision that the bytes spell, where nothing is against it that can be told without its private part.
pub(crate) fn read_revision<S: Sealer>(
    alloc: Global,
    state: &ChainState,
    bytes: &[u8],
    secrets: &Secrets,
) -> Result<Revision, Bad>
    requires length { state.now.length < 4294967295 }
    ensures { ReadsRevision S.sealed S.signed secrets.now state.now bytes.now result }
{
    let revision = match Revision::decode(alloc, bytes) {
        Ok(revision) => revision,
        Err(RevisionFault::BadRevision) => return Err(Bad::Is(AuditWhy::Form)),
        Err(RevisionFault::Memory) => return Err(Bad::Memory),
    };
    let secret = secrets.device(revision.writer);
    match judge::<S>(state, &revision, bytes, &secret) {
        Ok(()) => {}
        Err(why) => return Err(Bad::Is(why)),
    }
    match are_made::<S>(alloc, entries_in(&revision.bundle), secrets) {
        Ok(true) => Ok(revision),
        Ok(false) => Err(Bad::Is(AuditWhy::Fit)),
        Err(_) => Err(Bad::Memory),
    }
}
