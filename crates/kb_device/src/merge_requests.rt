//! The request that resolves a branch.
ghost use Rattle.std.specs.Prelude.{◌≡◌, ◌≤◌, ◌<◌, ◌+◌, ◌^◌, ℕ, List, IfOk, OnOk, length};
ghost use Rattle.std.specs.List.{AllByRecursion};
ghost use Rattle.kb_ops.specs.Trees.{look};
ghost use Rattle.kb_ops.specs.Grammar.{IsProper};
ghost use Rattle.kb_snap.specs.Builds.{OnceAllStored};
ghost use Rattle.kb_snap.specs.Pointers.{AllHold};
ghost use Rattle.kb_chain.specs.declared.revisions.RevisionKind.TheVariants.{Merge};
ghost use Rattle.kb_chain.specs.Revisions.{revision_text, signed_text, with_signature, IsRevision};
ghost use Rattle.kb_chain.specs.Privates.{private_text, IsPrivate};
ghost use Rattle.kb_folder.specs.Chains.{Names};
ghost use Rattle.kb_device.specs.Left.{PointsAll};
ghost use Rattle.kb_device.specs.Merging.{Branch, merge_private, merge_unsigned, IsMergeRequest, MergesAreFor, branch_of};

use crate::step_requests::{StepMade, root_mtime};
use kb_blocks::{BlockHash, Hash, Ptr};
use kb_chain::{Blocks, FolderRequest, Ops, Private, Revision, RevisionKind, SentHalves};
use kb_edge::Memory;
use kb_name::Moment;
use kb_ops::{Bytes, Op};
use kb_seal::{Key, Sealer};
use kb_snap::{Pointers, build};
use kb_tree::Table;
use std::alloc::Global;

fn seal_merge<S: Sealer>(
    alloc: Global,
    root: Ptr,
    mtime: Moment,
    base: u32,
    ops: Vec<Op>,
    key: &Key,
) -> Result<Vec<u8>, Memory>
    requires base { 1 ≤ base }
    requires few { length ops.items ≤ 4096 }
    requires ops { AllByRecursion IsProper ops.items }
    ensures sealed { IfOk result (λ text. text.items ≡ S.sealed key.now (private_text Merge (merge_private root mtime base ops.items))) }
    ensures is { OnOk result (IsPrivate Merge (merge_private root mtime base ops.items)) }
    ensures small { IfOk result (λ text. length text.items < 2 ^ 32) }
{
    let private = Private {
        mtime,
        root,
        base: Some(base),
        ops: Ops::new(ops),
    };
    let text = private.encode(alloc, RevisionKind::Merge)?;
    let sealed = S::seal(alloc, key, text.as_slice())?;
    Ok(sealed)
}

fn sign_merge<S: Sealer>(
    alloc: Global,
    number: u32,
    head: &Hash,
    device: u16,
    moment: Moment,
    generation: u32,
    first: u32,
    last: u32,
    private: Vec<u8>,
    secret: &Key,
) -> Result<Vec<u8>, Memory>
    requires number { 2 ≤ number }
    requires device { 1 ≤ device }
    requires generation { (1 ≤ generation) × (generation ≤ 64) }
    requires seqs { (1 ≤ first) × (first ≤ last) × (last < first + 4096) }
    requires private { length private.items < 2 ^ 32 }
    ensures bytes { IfOk result (λ bytes. bytes.items ≡ revision_text (with_signature (merge_unsigned number head.now device moment generation first last private.items) (S.signed secret.now (signed_text (merge_unsigned number head.now device moment generation first last private.items))))) }
    ensures is { OnOk result (IsRevision (with_signature (merge_unsigned number head.now device moment generation first last private.items) (S.signed secret.now (signed_text (merge_unsigned number head.now device moment generation first last private.items))))) }
{
    let revision = Revision {
        kind: RevisionKind::Merge,
        number,
        previous: *head,
        writer: device,
        moment,
        generation,
        first,
        last,
        bundle: None,
        private: Bytes::new(private),
        signature: [0; 32],
    };
    revision.encode_signed::<S>(alloc, secret)
}

/// The request that merges a branch as the revision with this number, behind the one with this hash: of the merged tree,
/// pointers that hold rows of it, the operations with their seqs, the revision that they branched from, the device's
/// secret, and the folder's key.
pub fn merge_request<S: Sealer, H: BlockHash>(
    alloc: Global,
    table: &Table,
    left: &Pointers,
    ops: Vec<Op>,
    base: u32,
    first: u32,
    last: u32,
    device: u16,
    moment: Moment,
    number: u32,
    head: &Hash,
    secret: &Key,
    generation: u32,
    key: &Key,
) -> Result<StepMade, Memory>
    requires number { 2 ≤ number }
    requires device { 1 ≤ device }
    requires base { 1 ≤ base }
    requires few { length ops.items ≤ 4096 }
    requires ops { AllByRecursion IsProper ops.items }
    requires seqs { (1 ≤ first) × (first ≤ last) × (last < first + 4096) }
    requires generation { (1 ≤ generation) × (generation ≤ 64) }
    ensures merge { IfOk result (λ made. IsMergeRequest S.sealed S.signed H.hashed secret.now key.now generation number head.now (branch_of device moment base first last ops.items) table.now.tree left.now made.request) }
    ensures pointers { IfOk result (λ made. OnceAllStored H.hashed S.sealed generation key.now made.request.blocks (λ vault. AllHold vault (look table.now.tree) left.now → AllHold vault (look table.now.tree) made.pointers)) }
    ensures all { IfOk result (λ made. PointsAll table.now.tree made.pointers) }
{
    table.is_well_formed();
    let built = build::<S, H>(alloc, table, left, key, generation)?;
    let mtime = root_mtime(table);
    let private = seal_merge::<S>(alloc, built.root, mtime, base, ops, key)?;
    let bytes = sign_merge::<S>(
        alloc, number, head, device, moment, generation, first, last, private, secret,
    )?;
    Ok(StepMade {
        request: FolderRequest {
            revision: Bytes::new(bytes),
            blocks: Blocks::new(built.blocks.into_vec()),
            halves: SentHalves::new(Vec::new(alloc)),
        },
        pointers: built.pointers,
    })
}

/// The request of a branch is for the machine's merge.
pub fn merge_law<S: Sealer, H: BlockHash>()
    ensures { (seed : List ℕ) (names : Names) → MergesAreFor S.sealed S.signed H.hashed seed names }
{}
