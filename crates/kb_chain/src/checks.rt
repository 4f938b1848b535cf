//! The checks of the next revision.
ghost use Rattle.std.specs.Prelude.{◌≡◌, ◌+◌, ◌-◌, ◌≤◌, [], length, take, nat_eq};
ghost use Rattle.std.specs.Str.{bytes_eq};
ghost use Rattle.std.specs.Option.{option_copied, option_map};
ghost use Rattle.kb_keys.specs.Bundles.{is_entry};
ghost use Rattle.kb_chain.specs.Revisions.{revision_text, IsRevision};
ghost use Rattle.kb_chain.specs.Checks.{is_writer, may_write, stays, writes_on, has_other_writer, are_at, stripped, granted, remaining, entries_of, are_halves, fits_founding, fits_grant, fits_revocation, fits_action, fits_part, fits_number, fits, is_signed, is_next, last_of, goes_on, checked, AreBelowEnd};

use crate::bundles::BundlePart;
use crate::revisions::{Revision, RevisionKind};
use crate::states::{ChainState, PutRefusal};
use kb_keys::{Action, Entry, Half, Policy, Role};
use kb_seal::{Key, Sealer};

/// Whether the role is a writer's.
pub fn is_writer(role: Option<Role>) -> bool
    ensures { result ≡ is_writer role }
{
    role == Some(Role::Writer)
}

fn may_write(state: &ChainState, device: u16) -> bool
    ensures { result ≡ may_write state.now device }
{
    if state.length == 0 {
        device >= 1 && device <= state.registered
    } else {
        is_writer(state.policy.role(device))
    }
}

/// Whether the device is a member and another one than this.
pub fn stays(policy: &Policy, gone: u16, device: u16) -> bool
    ensures { result ≡ stays policy.now.0 gone device }
{
    device != gone && policy.role(device).is_some()
}

fn writes_on(policy: &Policy, gone: u16, device: u16) -> bool
    ensures { result ≡ writes_on policy.now.0 gone device }
{
    device != gone && is_writer(policy.role(device))
}

/// Whether another device than this one is a writer.
pub fn has_other_writer(policy: &Policy, gone: u16) -> bool
    ensures { result ≡ has_other_writer policy.now.0 gone }
{
    'devices: for device in 1..33u16 {
        if writes_on(policy, gone, device) {
            return true;
        }
    }
    false
}

fn is_entry(entry: &Entry, device: u16, generation: u32) -> bool
    ensures { result ≡ is_entry device generation entry.now }
{
    entry.device == device && entry.generation == generation
}

// What is left behind the first entry, where it is of this device and generation, or all where none is needed.
fn strip_first<'a>(
    entries: &'a [Entry],
    needed: bool,
    device: u16,
    generation: u32,
) -> Option<&'a [Entry]>
    ensures { option_map (λ es. es.now) result ≡ stripped entries.now needed device generation }
{
    if !needed {
        return Some(entries);
    }
    match entries {
        [entry, rest @ ..] if is_entry(entry, device, generation) => Some(rest),
        _ => None,
    }
}

fn is_done(entries: &[Entry]) -> bool
    ensures { result ≡ are_at entries.now [] }
{
    match entries {
        [] => true,
        [_entry, _rest @ ..] => false,
    }
}

fn are_granted(entries: &[Entry], device: u16, generation: u32) -> bool
    ensures { result ≡ are_at entries.now (granted device generation) }
{
    let mut rest = entries;
    'generations: for i in 0..generation {
        match strip_first(rest, true, device, i + 1) {
            Some(more) => rest = more,
            None => return false,
        }
    }
    is_done(rest)
}

fn are_remaining(entries: &[Entry], policy: &Policy, gone: u16, generation: u32) -> bool
    ensures { result ≡ are_at entries.now (remaining policy.now.0 gone generation) }
{
    let mut rest = entries;
    'devices: for device in 1..33u16 {
        match strip_first(rest, stays(policy, gone, device), device, generation) {
            Some(more) => rest = more,
            None => return false,
        }
    }
    is_done(rest)
}

fn are_halves(entries: &[Entry], halves: &[Half]) -> bool
    ensures { result ≡ are_halves entries.now halves.now }
{
    match (entries, halves) {
        ([], []) => true,
        ([entry, entries @ ..], [half, halves @ ..]) => {
            is_entry(entry, half.device, half.generation) && are_halves(entries, halves)
        }
        ([], [_half, _rest @ ..]) => false,
        ([_entry, _rest @ ..], []) => false,
    }
}

fn entries_in(bundle: &Option<BundlePart>) -> &[Entry]
    ensures { result.now ≡ entries_of bundle.now }
{
    match bundle {
        Some(part) => part.entries.as_slice(),
        None => &[],
    }
}

fn fits_founding(revision: &Revision, part: &BundlePart) -> bool
    ensures { result ≡ fits_founding revision.now part.now }
{
    part.device == revision.writer
        && revision.generation == 1
        && are_granted(part.entries.as_slice(), revision.writer, 1)
}

fn fits_grant(state: &ChainState, revision: &Revision, part: &BundlePart) -> bool
    ensures { result ≡ fits_grant state.now revision.now part.now }
{
    revision.generation == state.policy.generation()
        && part.device >= 1
        && part.device <= state.registered
        && state.policy.role(part.device).is_none()
        && are_granted(
            part.entries.as_slice(),
            part.device,
            state.policy.generation(),
        )
}

fn is_one_more(a: u32, b: u32) -> bool
    ensures { result ≡ nat_eq a (b + 1) }
{
    a > 0 && a - 1 == b
}

fn fits_revocation(state: &ChainState, revision: &Revision, part: &BundlePart) -> bool
    ensures { result ≡ fits_revocation state.now revision.now part.now }
{
    is_one_more(revision.generation, state.policy.generation())
        && state.policy.role(part.device).is_some()
        && has_other_writer(&state.policy, part.device)
        && are_remaining(
            part.entries.as_slice(),
            &state.policy,
            part.device,
            revision.generation,
        )
}

fn fits_action(state: &ChainState, revision: &Revision, part: &BundlePart) -> bool
    ensures { result ≡ fits_action state.now revision.now part.now }
{
    match part.action {
        Action::Found => false,
        Action::GrantWriter => fits_grant(state, revision, part),
        Action::GrantReader => fits_grant(state, revision, part),
        Action::Revoke => fits_revocation(state, revision, part),
    }
}

fn fits_part(state: &ChainState, revision: &Revision) -> bool
    ensures { result ≡ fits_part state.now revision.now revision.now.kind revision.now.bundle }
{
    match (revision.kind, &revision.bundle) {
        (RevisionKind::Found, Some(part)) => fits_founding(revision, part),
        (RevisionKind::Found, None) => false,
        (RevisionKind::Step, _) => revision.generation == state.policy.generation(),
        (RevisionKind::Steps, _) => revision.generation == state.policy.generation(),
        (RevisionKind::Merge, _) => revision.generation == state.policy.generation(),
        (RevisionKind::Join, _) => revision.generation == state.policy.generation(),
        (RevisionKind::Rekey, Some(part)) => fits_action(state, revision, part),
        (RevisionKind::Rekey, None) => false,
    }
}

fn fits_number(kind: RevisionKind, number: u32) -> bool
    ensures { result ≡ fits_number kind number }
{
    match kind {
        RevisionKind::Found => number == 1,
        RevisionKind::Step => number != 1,
        RevisionKind::Steps => number != 1,
        RevisionKind::Merge => number != 1,
        RevisionKind::Join => number != 1,
        RevisionKind::Rekey => number != 1,
    }
}

fn fits(state: &ChainState, revision: &Revision, halves: &[Half]) -> bool
    ensures { result ≡ fits state.now revision.now halves.now }
{
    fits_number(revision.kind, revision.number)
        && fits_part(state, revision)
        && are_halves(entries_in(&revision.bundle), halves)
}

// The bytes before the last 32.
fn before_signature(bytes: &[u8]) -> &[u8]
    requires { 32 ≤ length bytes.now }
    ensures { result.now ≡ take (length bytes.now - 32) bytes.now }
{
    &bytes[..bytes.len() - 32]
}

/// Whether the signature is that of this secret over all bytes before it; without a secret it is nobody's.
pub fn is_signed<S: Sealer>(revision: &Revision, bytes: &[u8], secret: Option<&Key>) -> bool
    requires is { IsRevision revision.now }
    requires bytes { bytes.now ≡ revision_text revision.now }
    ensures { result ≡ is_signed S.signed revision.now (option_copied secret.entry) }
{
    match secret {
        Some(secret) => S::verify(secret, before_signature(bytes), &revision.signature),
        None => false,
    }
}

fn is_same(a: &[u8; 32], b: &[u8; 32]) -> bool
    ensures { result ≡ bytes_eq a.now b.now }
{
    a == b
}

fn is_next(state: &ChainState, revision: &Revision) -> bool
    ensures { result ≡ is_next state.now revision.now }
{
    is_one_more(revision.number, state.length) && is_same(&revision.previous, &state.head)
}

fn last_of(last: &[u32; 33], device: u16) -> u32
    ensures { result ≡ last_of last.now device }
{
    match last.get(usize::from(device)) {
        Some(seq) => *seq,
        None => 0,
    }
}

fn goes_on(state: &ChainState, revision: &Revision, expected: u32) -> bool
    requires { expected ≡ last_of state.now.last revision.now.writer + 1 }
    ensures { result ≡ goes_on state.now revision.now revision.now.kind }
{
    match revision.kind {
        RevisionKind::Found => true,
        RevisionKind::Step => revision.first == expected,
        RevisionKind::Steps => revision.first == expected,
        RevisionKind::Merge => revision.first == expected,
        RevisionKind::Join => revision.first == expected,
        RevisionKind::Rekey => true,
    }
}

/// Whether the revision may follow the chain: the first of these that isn't so is told. Its writer may write, the
/// signature is the writer's, it is the next one, its seqs go on, and it fits the members and the keys.
pub fn check_next<S: Sealer>(
    state: &ChainState,
    revision: &Revision,
    bytes: &[u8],
    halves: &[Half],
    secret: Option<&Key>,
) -> Result<(), PutRefusal>
    requires is { IsRevision revision.now }
    requires bytes { bytes.now ≡ revision_text revision.now }
    requires last { AreBelowEnd state.now.last }
    ensures { result ≡ checked S.signed state.now revision.now halves.now (option_copied secret.entry) }
{
    if !may_write(state, revision.writer) {
        return Err(PutRefusal::NotWriter);
    }
    if !is_signed::<S>(revision, bytes, secret) {
        return Err(PutRefusal::BadSignature);
    }
    if !is_next(state, revision) {
        return Err(PutRefusal::Stale {
            len: state.length,
            head: state.head,
        });
    }
    let expected = last_of(&state.last, revision.writer) + 1;
    if !goes_on(state, revision, expected) {
        return Err(PutRefusal::SeqGap { expected });
    }
    if !fits(state, revision, halves) {
        return Err(PutRefusal::BadFit);
    }
    Ok(())
}
