//! Opening a revision's private part.
ghost use Rattle.std.specs.Prelude.{◌≡◌, ◌<◌, ◌+◌, ◌^◌, ◌↔◌, IsTrue, length};
ghost use Rattle.kb_snap.specs.Chains.{last_after, moment_of_last};
ghost use Rattle.kb_snap.specs.Lawful.{AreOf, CountsFrom};
ghost use Rattle.kb_chain.specs.Privates.{IsPrivate};
ghost use Rattle.kb_folder.specs.Stands.{HaveSeqs};
ghost use Rattle.kb_audit.specs.Facts.{IsBelow, HasMoment, IsOwn};
ghost use Rattle.kb_audit.specs.Opening.{OpensTo};

use crate::faults::{AuditWhy, Bad};
use kb_chain::{Private, Revision, RevisionFault, RevisionKind, open_private};
use kb_keys::Secrets;
use kb_name::Moment;
use kb_ops::Op;
use kb_seal::Sealer;
use std::alloc::Global;

fn are_of(ops: &[Op], device: u16) -> bool
    ensures { IsTrue result ↔ AreOf device ops.now }
{
    match ops {
        [] => true,
        [op, rest @ ..] => op.device == device && are_of(rest, device),
    }
}

fn counts_from(ops: &[Op], n: u64) -> bool
    requires { n + length ops.now < 2 ^ 64 }
    ensures { IsTrue result ↔ CountsFrom n ops.now }
{
    match ops {
        [] => true,
        [op, rest @ ..] => u64::from(op.seq) == n && counts_from(rest, n + 1),
    }
}

fn have_seqs(first: u32, last: u32, ops: &[Op]) -> bool
    requires { length ops.now < 2 ^ 32 }
    ensures { IsTrue result ↔ HaveSeqs first last ops.now }
{
    match ops {
        [] => first == 0 && last == 0,
        [_op, _rest @ ..] => {
            u64::from(first) + ops.len() as u64 == u64::from(last) + 1
                && counts_from(ops, u64::from(first))
        }
    }
}

fn is_below(base: Option<u32>, number: u32) -> bool
    ensures { IsTrue result ↔ IsBelow base number }
{
    match base {
        None => true,
        Some(base) => base < number,
    }
}

// Whether the last of the operation and those behind it was made at this moment.
fn is_last_at(moment: Moment, op: &Op, rest: &[Op]) -> bool
    ensures { IsTrue result ↔ (moment ≡ (last_after op.now rest.now).moment) }
{
    match rest {
        [] => moment == op.moment,
        [next, more @ ..] => is_last_at(moment, next, more),
    }
}

fn is_moment_of(moment: Moment, ops: &[Op]) -> bool
    ensures { IsTrue result ↔ (moment ≡ moment_of_last ops.now) }
{
    match ops {
        [] => moment == Moment::START,
        [op, rest @ ..] => is_last_at(moment, op, rest),
    }
}

fn has_moment(kind: RevisionKind, moment: Moment, ops: &[Op]) -> bool
    ensures { IsTrue result ↔ HasMoment kind moment ops.now }
{
    match kind {
        RevisionKind::Found => true,
        RevisionKind::Step => is_moment_of(moment, ops),
        RevisionKind::Steps => is_moment_of(moment, ops),
        RevisionKind::Merge => true,
        RevisionKind::Join => true,
        RevisionKind::Rekey => true,
    }
}

fn is_own(revision: &Revision, private: &Private) -> bool
    requires { IsPrivate revision.now.kind private.now }
    ensures { IsTrue result ↔ IsOwn revision.now private.now }
{
    let ops = private.ops.as_slice();
    have_seqs(revision.first, revision.last, ops)
        && are_of(ops, revision.writer)
        && is_below(private.base, revision.number)
        && has_moment(revision.kind, revision.moment, ops)
}

/// The private part, where it opens to one of the revision.
pub(crate) fn read_private<S: Sealer>(
    alloc: Global,
    revision: &Revision,
    secrets: &Secrets,
) -> Result<Private, Bad>
    ensures { OpensTo S.sealed secrets.now revision.now result }
{
    let key = secrets.folder(revision.generation);
    let private = match open_private::<S>(alloc, revision, &key) {
        Ok(private) => private,
        Err(RevisionFault::BadRevision) => return Err(Bad::Is(AuditWhy::Private)),
        Err(RevisionFault::Memory) => return Err(Bad::Memory),
    };
    if !is_own(revision, &private) {
        return Err(Bad::Is(AuditWhy::Private));
    }
    Ok(private)
}
