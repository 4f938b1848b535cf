//! The revision that changes a member.
ghost use Rattle.std.specs.Prelude.{◌≡◌, ◌≢◌, ◌≤◌, ◌<◌, ◌^◌, [], ◌∷◌, true, length, map as each, IfOk, OnOk};
ghost use Rattle.kb_keys.specs.declared.policy.Action.TheVariants as act;
ghost use Rattle.kb_keys.specs.Secrets.{folder_key};
ghost use Rattle.kb_chain.specs.declared.revisions.Revision.{Revision as OneRevision};
ghost use Rattle.kb_chain.specs.declared.revisions.RevisionKind.TheVariants.{Rekey};
ghost use Rattle.kb_chain.specs.declared.privates.Private.{Private as OnePrivate};
ghost use Rattle.kb_chain.specs.Revisions.{revision_text, are_rising, IsRevision};
ghost use Rattle.kb_chain.specs.Privates.{private_text, IsPrivate};
ghost use Rattle.kb_folder.specs.Stands.{Revisions};
ghost use Rattle.kb_folder.specs.Held.{held, is_member};
ghost use Rattle.kb_rekey.specs.Rekeying.{IsStanding, EndsWith, rekey_private, rekey_unsigned, signed_by, halves_of, IsRekeyRequest, IsPlainAnswer, Answers};

use kb_blocks::{BlockHash, Hash, Ptr};
use kb_chain::{
    Blocks, BundlePart, Entries, FolderRequest, Ops, Private, PutRefusal, Revision, RevisionFault,
    RevisionKind, SentHalves, hash_of, open_private,
};
use kb_edge::Memory;
use kb_folder::Folder;
use kb_keys::{Action, Entry, Half, Secrets};
use kb_name::Moment;
use kb_ops::Bytes;
use kb_seal::{Key, Sealer};
use std::alloc::Global;

/// Why the members don't change.
#[derive(Clone, Copy, Debug, PartialEq, Eq)]
pub enum RekeyFault {
    /// The one who changes them isn't a writer.
    NotWriter,
    /// The one to be granted is a member.
    Known,
    /// The one to be revoked isn't a member.
    NotMember,
    /// The one to be revoked is the only writer.
    LastWriter,
    /// There is no further key.
    GenEnd,
    /// The chain is full.
    ChainEnd,
    Memory,
}

impl From<Memory> for RekeyFault {
    ghost use Rattle.std.specs.Prelude.{◌≡◌};
    ghost use Rattle.kb_rekey.specs.declared.rekeying.RekeyFault.TheVariants as faults;

    ghost from_gives = { λ _ e. e ≡ faults.Memory };

    fn from(_: Memory) -> Self {
        RekeyFault::Memory
    }
}

// What the last revision leaves for the next: the hash of its bytes, and the root's mtime and pointer.
#[derive(Clone, Copy)]
pub(crate) struct Last {
    pub(crate) head: Hash,
    pub(crate) mtime: Moment,
    pub(crate) root: Ptr,
}

// The bytes of the last revision, which a member reads.
fn last_text<S: Sealer, H: BlockHash>(folder: &Folder<S, H>, by: u16) -> &[u8]
    requires member { is_member (held folder.now) by ≡ true }
    requires some { 1 ≤ (held folder.now).state.length }
    ensures { (older : Revisions) × ((held folder.now).revisions ≡ result.now ∷ older) }
{
    match folder.fetch(by, folder.length() - 1) {
        Ok([last, _rest @ ..]) => last.as_slice(),
        Ok([]) => unreachable!(),
        Err(_) => unreachable!(),
    }
}

// The revision that the bytes spell.
fn decode_last(alloc: Global, bytes: &[u8]) -> Result<Revision, Memory>
    requires { (r : OneRevision) × IsRevision r × (bytes.now ≡ revision_text r) }
    ensures { IfOk result (λ r. IsRevision r × (bytes.now ≡ revision_text r)) }
{
    match Revision::decode(alloc, bytes) {
        Ok(revision) => Ok(revision),
        Err(RevisionFault::BadRevision) => unreachable!(),
        Err(RevisionFault::Memory) => Err(Memory),
    }
}

// The private part that the revision's opens to.
fn open_last<S: Sealer>(alloc: Global, revision: &Revision, key: &Key) -> Result<Private, Memory>
    requires { (p : OnePrivate) × IsPrivate revision.now.kind p × (revision.now.private ≡ S.sealed key.now (private_text revision.now.kind p)) }
    ensures { IfOk result (λ p. IsPrivate revision.now.kind p × (revision.now.private ≡ S.sealed key.now (private_text revision.now.kind p))) }
{
    match open_private::<S>(alloc, revision, key) {
        Ok(private) => Ok(private),
        Err(RevisionFault::BadRevision) => unreachable!(),
        Err(RevisionFault::Memory) => Err(Memory),
    }
}

// What the last revision leaves.
pub(crate) fn last_of<S: Sealer, H: BlockHash>(
    alloc: Global,
    folder: &Folder<S, H>,
    secrets: &Secrets,
    by: u16,
) -> Result<Last, Memory>
    requires standing { IsStanding S.sealed S.signed H.hashed secrets.now (held folder.now) }
    requires member { is_member (held folder.now) by ≡ true }
    ensures { IfOk result (λ last. EndsWith S.sealed secrets.now (held folder.now).revisions last) }
{
    let text = last_text(folder, by);
    let revision = decode_last(alloc, text)?;
    let key = secrets.folder(revision.generation);
    let private = open_last::<S>(alloc, &revision, &key)?;
    Ok(Last {
        head: hash_of(text),
        mtime: private.mtime,
        root: private.root,
    })
}

// The halves of entries.
fn halves_for(alloc: Global, entries: &[Entry], secrets: &Secrets) -> Result<Vec<Half>, Memory>
    ensures { IfOk result (λ hs. hs.items ≡ halves_of secrets.now entries.now) }
{
    let mut halves = Vec::new(alloc);
    'entries: for entry in entries {
        halves.push(Half {
            device: entry.device,
            generation: entry.generation,
            half: secrets.half(entry.device, entry.generation),
        })?;
    }
    Ok(halves)
}

// The sealed private part of a revision that keeps the tree.
fn seal_rekey<S: Sealer>(alloc: Global, last: &Last, key: &Key) -> Result<Vec<u8>, Memory>
    ensures sealed { IfOk result (λ text. text.items ≡ S.sealed key.now (private_text Rekey (rekey_private last.now.mtime last.now.root))) }
    ensures is { OnOk result (IsPrivate Rekey (rekey_private last.now.mtime last.now.root)) }
{
    let private = Private {
        mtime: last.mtime,
        root: last.root,
        base: None,
        ops: Ops::new(Vec::new(alloc)),
    };
    let text = private.encode(alloc, RevisionKind::Rekey)?;
    let sealed = S::seal(alloc, key, text.as_slice())?;
    Ok(sealed)
}

fn sign_rekey<S: Sealer>(
    alloc: Global,
    number: u32,
    head: &Hash,
    by: u16,
    moment: Moment,
    generation: u32,
    action: Action,
    who: u16,
    entries: Vec<Entry>,
    private: Vec<u8>,
    secret: &Key,
) -> Result<Vec<u8>, Memory>
    requires number { 2 ≤ number }
    requires by { 1 ≤ by }
    requires generation { (1 ≤ generation) × (generation ≤ 64) }
    requires action { action ≢ act.Found }
    requires few { length entries.items < 2 ^ 16 }
    requires rising { are_rising entries.items ≡ true }
    requires private { length private.items < 2 ^ 32 }
    ensures bytes { IfOk result (λ bytes. bytes.items ≡ revision_text (signed_by S.signed secret.now (rekey_unsigned number head.now by moment generation action who entries.items private.items))) }
    ensures is { OnOk result (IsRevision (signed_by S.signed secret.now (rekey_unsigned number head.now by moment generation action who entries.items private.items))) }
{
    let revision = Revision {
        kind: RevisionKind::Rekey,
        number,
        previous: *head,
        writer: by,
        moment,
        generation,
        first: 0,
        last: 0,
        bundle: Some(BundlePart {
            action,
            device: who,
            entries: Entries::new(entries),
        }),
        private: Bytes::new(private),
        signature: [0; 32],
    };
    revision.encode_signed::<S>(alloc, secret)
}

// The request that changes a member, as the revision with this number.
pub(crate) fn rekey_request<S: Sealer>(
    alloc: Global,
    last: &Last,
    secrets: &Secrets,
    number: u32,
    by: u16,
    moment: Moment,
    generation: u32,
    action: Action,
    who: u16,
    entries: Vec<Entry>,
) -> Result<FolderRequest, Memory>
    requires number { 2 ≤ number }
    requires by { 1 ≤ by }
    requires generation { (1 ≤ generation) × (generation ≤ 64) }
    requires action { action ≢ act.Found }
    requires few { length entries.items < 2 ^ 16 }
    requires rising { are_rising entries.items ≡ true }
    ensures { IfOk result (λ request. IsRekeyRequest S.sealed S.signed secrets.now last.now number by moment generation action who entries.items request) }
{
    let halves = halves_for(alloc, entries.as_slice(), secrets)?;
    let key = secrets.folder(generation);
    let private = seal_rekey::<S>(alloc, last, &key)?;
    let secret = secrets.device(by);
    let bytes = sign_rekey::<S>(
        alloc, number, &last.head, by, moment, generation, action, who, entries, private, &secret,
    )?;
    Ok(FolderRequest {
        revision: Bytes::new(bytes),
        blocks: Blocks::new(Vec::new(alloc)),
        halves: SentHalves::new(halves),
    })
}

// The put's answer.
pub(crate) fn answered(answer: Result<u32, PutRefusal>) -> Result<u32, RekeyFault>
    requires { IsPlainAnswer answer }
    ensures { Answers answer result }
{
    match answer {
        Ok(number) => Ok(number),
        Err(PutRefusal::ChainEnd) => Err(RekeyFault::ChainEnd),
        Err(PutRefusal::Memory) => Err(RekeyFault::Memory),
        Err(_) => unreachable!(),
    }
}
