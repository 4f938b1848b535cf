//! Whether a revision fits the members and the keys before it.
ghost use Rattle.std.specs.Prelude.{◌≡◌, ◌+◌, [], nat_eq};
ghost use Rattle.std.specs.Option.{option_map};
ghost use Rattle.kb_keys.specs.Bundles.{is_entry};
ghost use Rattle.kb_chain.specs.Checks.{may_write, are_at, stripped, granted, remaining, fits_founding, fits_grant, fits_revocation, fits_action, fits_part, fits_number};
ghost use Rattle.kb_audit.specs.Judged.{fits_members};

use kb_chain::{
    BundlePart, ChainState, Revision, RevisionKind, has_other_writer, is_writer, stays,
};
use kb_keys::{Action, Entry, Policy};

/// Whether the device may make the next revision: a registered one the first, and a writer each other.
pub(crate) fn may_write(state: &ChainState, device: u16) -> bool
    ensures { result ≡ may_write state.now device }
{
    if state.length == 0 {
        device >= 1 && device <= state.registered
    } else {
        is_writer(state.policy.role(device))
    }
}

fn is_entry(entry: &Entry, device: u16, generation: u32) -> bool
    ensures { result ≡ is_entry device generation entry.now }
{
    entry.device == device && entry.generation == generation
}

// What is left behind the first entry, where it is of this device and generation, or all where none is needed.
fn strip_first<'a>(
    entries: &'a [Entry],
    needed: bool,
    device: u16,
    generation: u32,
) -> Option<&'a [Entry]>
    ensures { option_map (λ es. es.now) result ≡ stripped entries.now needed device generation }
{
    if !needed {
        return Some(entries);
    }
    match entries {
        [entry, rest @ ..] if is_entry(entry, device, generation) => Some(rest),
        _ => None,
    }
}

fn is_done(entries: &[Entry]) -> bool
    ensures { result ≡ are_at entries.now [] }
{
    match entries {
        [] => true,
        [_entry, _rest @ ..] => false,
    }
}

fn are_granted(entries: &[Entry], device: u16, generation: u32) -> bool
    ensures { result ≡ are_at entries.now (granted device generation) }
{
    let mut rest = entries;
    'generations: for i in 0..generation {
        match strip_first(rest, true, device, i + 1) {
            Some(more) => rest = more,
            None => return false,
        }
    }
    is_done(rest)
}

fn are_remaining(entries: &[Entry], policy: &Policy, gone: u16, generation: u32) -> bool
    ensures { result ≡ are_at entries.now (remaining policy.now.0 gone generation) }
{
    let mut rest = entries;
    'devices: for device in 1..33u16 {
        match strip_first(rest, stays(policy, gone, device), device, generation) {
            Some(more) => rest = more,
            None => return false,
        }
    }
    is_done(rest)
}

fn fits_founding(revision: &Revision, part: &BundlePart) -> bool
    ensures { result ≡ fits_founding revision.now part.now }
{
    part.device == revision.writer
        && revision.generation == 1
        && are_granted(part.entries.as_slice(), revision.writer, 1)
}

fn fits_grant(state: &ChainState, revision: &Revision, part: &BundlePart) -> bool
    ensures { result ≡ fits_grant state.now revision.now part.now }
{
    revision.generation == state.policy.generation()
        && part.device >= 1
        && part.device <= state.registered
        && state.policy.role(part.device).is_none()
        && are_granted(
            part.entries.as_slice(),
            part.device,
            state.policy.generation(),
        )
}

fn is_one_more(a: u32, b: u32) -> bool
    ensures { result ≡ nat_eq a (b + 1) }
{
    a > 0 && a - 1 == b
}

fn fits_revocation(state: &ChainState, revision: &Revision, part: &BundlePart) -> bool
    ensures { result ≡ fits_revocation state.now revision.now part.now }
{
    is_one_more(revision.generation, state.policy.generation())
        && state.policy.role(part.device).is_some()
        && has_other_writer(&state.policy, part.device)
        && are_remaining(
            part.entries.as_slice(),
            &state.policy,
            part.device,
            revision.generation,
        )
}

fn fits_action(state: &ChainState, revision: &Revision, part: &BundlePart) -> bool
    ensures { result ≡ fits_action state.now revision.now part.now }
{
    match part.action {
        Action::Found => false,
        Action::GrantWriter => fits_grant(state, revision, part),
        Action::GrantReader => fits_grant(state, revision, part),
        Action::Revoke => fits_revocation(state, revision, part),
    }
}

fn fits_part(state: &ChainState, revision: &Revision) -> bool
    ensures { result ≡ fits_part state.now revision.now revision.now.kind revision.now.bundle }
{
    match (revision.kind, &revision.bundle) {
        (RevisionKind::Found, Some(part)) => fits_founding(revision, part),
        (RevisionKind::Found, None) => false,
        (RevisionKind::Step, _) => revision.generation == state.policy.generation(),
        (RevisionKind::Steps, _) => revision.generation == state.policy.generation(),
        (RevisionKind::Merge, _) => revision.generation == state.policy.generation(),
        (RevisionKind::Join, _) => revision.generation == state.policy.generation(),
        (RevisionKind::Rekey, Some(part)) => fits_action(state, revision, part),
        (RevisionKind::Rekey, None) => false,
    }
}

fn fits_number(kind: RevisionKind, number: u32) -> bool
    ensures { result ≡ fits_number kind number }
{
    match kind {
        RevisionKind::Found => number == 1,
        RevisionKind::Step => number != 1,
        RevisionKind::Steps => number != 1,
        RevisionKind::Merge => number != 1,
        RevisionKind::Join => number != 1,
        RevisionKind::Rekey => number != 1,
    }
}

/// Whether a founding is the first revision and nothing else is, and the members change as they may, with the generation
/// that follows and entries of the right devices and generations.
pub(crate) fn fits_members(state: &ChainState, revision: &Revision) -> bool
    ensures { result ≡ fits_members state.now revision.now }
{
    fits_number(revision.kind, revision.number) && fits_part(state, revision)
}
