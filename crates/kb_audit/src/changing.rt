//! What a revision changes of what is known of the chain.
ghost use Rattle.std.specs.Prelude.{◌≡◌, ◌+◌, ◌<◌, ℕ, slice_index};
ghost use Rattle.kb_folder.specs.Puts.{RolesAfter, CanApply, generation_with, seq_after, StateAfter};

use kb_chain::{BundlePart, ChainState, Revision, RevisionKind, hash_of};
use kb_keys::Policy;

fn apply_bundle(policy: &mut Policy, bundle: &Option<BundlePart>)
    requires { CanApply bundle.now policy.old.1 }
    ensures roles { RolesAfter bundle.now policy.old.0 policy.new.0 }
    ensures generation { policy.new.1 ≡ generation_with bundle.now policy.old.1 }
{
    match bundle {
        Some(part) => policy.apply(part.action, part.device),
        None => {}
    }
}

fn set_last(last: &mut [u32; 33], revision: &Revision)
    requires { revision.now.writer < 33 }
    ensures { (d : ℕ) → slice_index last.new d ≡ seq_after revision.now.kind revision.now d (slice_index last.old d) }
{
    match revision.kind {
        RevisionKind::Found => {}
        RevisionKind::Step => last[usize::from(revision.writer)] = revision.last,
        RevisionKind::Steps => last[usize::from(revision.writer)] = revision.last,
        RevisionKind::Merge => last[usize::from(revision.writer)] = revision.last,
        RevisionKind::Join => last[usize::from(revision.writer)] = revision.last,
        RevisionKind::Rekey => {}
    }
}

/// Goes on to the chain with this revision, whose bytes these are.
pub(crate) fn go_on(state: &mut ChainState, revision: &Revision, bytes: &[u8])
    requires writer { revision.now.writer < 33 }
    requires apply { CanApply revision.now.bundle state.old.policy.1 }
    requires room { state.old.length < 4294967295 }
    ensures { StateAfter revision.now bytes.now state.old state.new }
{
    state.length += 1;
    state.head = hash_of(bytes);
    set_last(&mut state.last, revision);
    apply_bundle(&mut state.policy, &revision.bundle);
}
