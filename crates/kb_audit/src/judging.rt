//! What is tested of a revision before its private part is opened.
ghost use Rattle.std.specs.Prelude.{◌≡◌, ◌<◌, ◌↔◌, ◌+◌, ◌≤◌, IfOk, IsTrue, Some};
ghost use Rattle.std.specs.Str.{bytes_eq};
ghost use Rattle.kb_chain.specs.Checks.{goes_on, last_of};
ghost use Rattle.kb_chain.specs.Revisions.{revision_text, AreSeqs, IsRevision};
ghost use Rattle.kb_audit.specs.Judged.{judged, IsMade, AreMade};

use crate::faults::AuditWhy;
use crate::fitting::{fits_members, may_write};
use kb_chain::{ChainState, Revision, RevisionKind, is_signed};
use kb_edge::Memory;
use kb_keys::{Entry, KeyFault, Secrets};
use kb_seal::{Key, Sealer};
use std::alloc::Global;

fn is_hash(a: &[u8; 32], b: &[u8; 32]) -> bool
    ensures { result ≡ bytes_eq a.now b.now }
{
    a == b
}

fn last_of(last: &[u32; 33], device: u16) -> u32
    ensures { result ≡ last_of last.now device }
{
    match last.get(usize::from(device)) {
        Some(seq) => *seq,
        None => 0,
    }
}

fn follows_last(first: u32, last: u32) -> bool
    requires { 1 ≤ first }
    ensures { IsTrue result ↔ (first ≡ last + 1) }
{
    first - 1 == last
}

fn goes_on(state: &ChainState, revision: &Revision) -> bool
    requires { AreSeqs revision.now.kind revision.now.first revision.now.last }
    ensures { result ≡ goes_on state.now revision.now revision.now.kind }
{
    match revision.kind {
        RevisionKind::Found => true,
        RevisionKind::Step => {
            follows_last(revision.first, last_of(&state.last, revision.writer))
        }
        RevisionKind::Steps => {
            follows_last(revision.first, last_of(&state.last, revision.writer))
        }
        RevisionKind::Merge => {
            follows_last(revision.first, last_of(&state.last, revision.writer))
        }
        RevisionKind::Join => {
            follows_last(revision.first, last_of(&state.last, revision.writer))
        }
        RevisionKind::Rekey => true,
    }
}

/// The first of these that isn't so: the number is the next, the hash is that of the bytes before it, its writer may
/// write and signed it, its seqs go on, and the members change as they may.
pub(crate) fn judge<S: Sealer>(
    state: &ChainState,
    revision: &Revision,
    bytes: &[u8],
    secret: &Key,
) -> Result<(), AuditWhy>
    requires is { IsRevision revision.now }
    requires bytes { bytes.now ≡ revision_text revision.now }
    requires length { state.now.length < 4294967295 }
    ensures { result ≡ judged S.signed state.now revision.now secret.now }
{
    if revision.number != state.length + 1 {
        return Err(AuditWhy::Number);
    }
    if !is_hash(&revision.previous, &state.head) {
        return Err(AuditWhy::Previous);
    }
    if !may_write(state, revision.writer) {
        return Err(AuditWhy::Writer);
    }
    if !is_signed::<S>(revision, bytes, Some(secret)) {
        return Err(AuditWhy::Signature);
    }
    if !goes_on(state, revision) {
        return Err(AuditWhy::Seq);
    }
    if !fits_members(state, revision) {
        return Err(AuditWhy::Fit);
    }
    Ok(())
}

fn is_key(a: &Key, b: &Key) -> bool
    ensures { IsTrue result ↔ (a.now ≡ b.now) }
{
    a == b
}

// Whether the entry opens, with its device's secret and half, to the folder key of its generation.
fn is_made<S: Sealer>(alloc: Global, entry: &Entry, secrets: &Secrets) -> Result<bool, Memory>
    ensures { IfOk result (λ b. IsTrue b ↔ IsMade S.sealed secrets.now entry.now) }
{
    let key = secrets.folder(entry.generation);
    let secret = secrets.device(entry.device);
    let half = secrets.half(entry.device, entry.generation);
    match entry.key::<S>(alloc, &secret, &half) {
        Ok(given) => Ok(is_key(&given, &key)),
        Err(KeyFault::NoEntry) => Ok(false),
        Err(KeyFault::NotSealed) => Ok(false),
        Err(KeyFault::Memory) => Err(Memory),
    }
}

/// Whether each entry gives its device the folder key of its generation.
pub(crate) fn are_made<S: Sealer>(
    alloc: Global,
    entries: &[Entry],
    secrets: &Secrets,
) -> Result<bool, Memory>
    ensures { IfOk result (λ b. IsTrue b ↔ AreMade S.sealed secrets.now entries.now) }
{
    match entries {
        [] => Ok(true),
        [entry, rest @ ..] => {
            if !is_made::<S>(alloc, entry, secrets)? {
                return Ok(false);
            }
            are_made::<S>(alloc, rest, secrets)
        }
    }
}
