//! The request that lands one operation.
ghost use Rattle.std.specs.Prelude.{◌≡◌, ◌≤◌, ◌<◌, ◌^◌, ℕ, List, IfOk, OnOk, Some, length};
ghost use Rattle.kb_name.specs.Nodes.{root as root_id};
ghost use Rattle.kb_ops.specs.declared.rows.Row.{Row};
ghost use Rattle.kb_ops.specs.Trees.{look};
ghost use Rattle.kb_ops.specs.Grammar.{IsProper};
ghost use Rattle.kb_keys.specs.Rings.{key_at};
ghost use Rattle.kb_chain.specs.declared.revisions.RevisionKind.TheVariants.{Step};
ghost use Rattle.kb_chain.specs.Revisions.{revision_text, signed_text, with_signature, IsRevision};
ghost use Rattle.kb_chain.specs.Privates.{private_text, IsPrivate};
ghost use Rattle.kb_folder.specs.Chains.{Names};
ghost use Rattle.kb_device.specs.Left.{AreOf, KeepsBeside, PointsAll};
ghost use Rattle.kb_device.specs.Patching.{KeepsStep, StepMakes};
ghost use Rattle.kb_device.specs.Stepping.{step_private, step_unsigned, IsStepRequest, StepsAreFor};
ghost use Rattle.kb_device.specs.Remembering.{RemembersLonger, RemembersGives, RemembersTaken};

use crate::patching::{OldFile, build_step};
use kb_blocks::{BlockHash, Hash, Ptr, Store};
use kb_chain::{Blocks, FolderRequest, Ops, Private, Revision, RevisionKind, SentHalves};
use kb_edge::Memory;
use kb_keys::KeyRing;
use kb_name::{Moment, NodeId};
use kb_ops::{Bytes, Op};
use kb_seal::{Key, Sealer};
use kb_snap::Pointers;
use kb_tree::Table;
use std::alloc::Global;

/// A request, and the pointers of all rows of the tree after it.
#[derive(Drop)]
pub struct StepMade {
    pub request: FolderRequest,
    pub pointers: Pointers,
}

fn seal_step<S: Sealer>(
    alloc: Global,
    root: Ptr,
    mtime: Moment,
    op: Op,
    key: &Key,
) -> Result<Vec<u8>, Memory>
    requires { IsProper op }
    ensures sealed { IfOk result (λ text. text.items ≡ S.sealed key.now (private_text Step (step_private root mtime op))) }
    ensures is { OnOk result (IsPrivate Step (step_private root mtime op)) }
    ensures small { IfOk result (λ text. length text.items < 2 ^ 32) }
{
    let mut ops = Vec::new(alloc);
    ops.push(op)?;
    let private = Private {
        mtime,
        root,
        base: None,
        ops: Ops::new(ops),
    };
    let text = private.encode(alloc, RevisionKind::Step)?;
    let sealed = S::seal(alloc, key, text.as_slice())?;
    Ok(sealed)
}

fn sign_step<S: Sealer>(
    alloc: Global,
    number: u32,
    head: &Hash,
    device: u16,
    moment: Moment,
    generation: u32,
    seq: u32,
    private: Vec<u8>,
    secret: &Key,
) -> Result<Vec<u8>, Memory>
    requires number { 2 ≤ number }
    requires device { 1 ≤ device }
    requires generation { (1 ≤ generation) × (generation ≤ 64) }
    requires seq { 1 ≤ seq }
    requires private { length private.items < 2 ^ 32 }
    ensures bytes { IfOk result (λ bytes. bytes.items ≡ revision_text (with_signature (step_unsigned number head.now device moment generation seq private.items) (S.signed secret.now (signed_text (step_unsigned number head.now device moment generation seq private.items))))) }
    ensures is { OnOk result (IsRevision (with_signature (step_unsigned number head.now device moment generation seq private.items) (S.signed secret.now (signed_text (step_unsigned number head.now device moment generation seq private.items))))) }
{
    let revision = Revision {
        kind: RevisionKind::Step,
        number,
        previous: *head,
        writer: device,
        moment,
        generation,
        first: seq,
        last: seq,
        bundle: None,
        private: Bytes::new(private),
        signature: [0; 32],
    };
    revision.encode_signed::<S>(alloc, secret)
}

pub(crate) fn root_mtime(table: &Table) -> Moment
    ensures { (r : Row) → look table.now.tree root_id ≡ Some r → r.mtime ≡ result }
{
    match table.get(NodeId::ROOT) {
        Some(row) => row.mtime,
        None => Moment::START,
    }
}

/// The request that lands an operation as the revision with this number, behind the one with this hash: of the tree
/// after the operation, the kept pointers of the rows that it leaves, the file that it wrote as it was, the device's own
/// blocks, its secret, and the folder's keys.
pub fn step_request<S: Sealer, H: BlockHash>(
    alloc: Global,
    table: &Table,
    left: &mut Pointers,
    op: Op,
    old: Option<OldFile>,
    cache: &Option<Store<H>>,
    number: u32,
    head: &Hash,
    secret: &Key,
    generation: u32,
    ring: &KeyRing,
    key: &Key,
) -> Result<StepMade, Memory>
    requires number { 2 ≤ number }
    requires op { IsProper op }
    requires generation { (1 ≤ generation) × (generation ≤ 64) }
    requires keyed { key_at ring.now generation ≡ Some key.now }
    ensures step { IfOk result (λ made. IsStepRequest S.sealed S.signed H.hashed secret.now key.now generation number head.now op table.now.tree left.old cache.now (key_at ring.now) old made.request) }
    ensures pointers { IfOk result (λ made. KeepsStep S.sealed H.hashed cache.now (key_at ring.now) table.now.tree left.old op.change old made.request.blocks made.pointers) }
    ensures few { IfOk result (λ made. StepMakes S.sealed H.hashed cache.now (key_at ring.now) generation table.now.tree left.old op.change old made.request.blocks made.pointers) }
    ensures all { IfOk result (λ made. PointsAll table.now.tree made.pointers) }
    ensures left { AreOf left.new left.old }
    ensures beside { KeepsBeside table.now.tree op.change left.old left.new }
{
    table.is_well_formed();
    let device = op.device;
    let seq = op.seq;
    let moment = op.moment;
    let built = build_step::<S, H>(alloc, table, left, &op, old, cache, ring, generation)?;
    let mtime = root_mtime(table);
    let private = seal_step::<S>(alloc, built.root, mtime, op, key)?;
    let bytes = sign_step::<S>(
        alloc, number, head, device, moment, generation, seq, private, secret,
    )?;
    Ok(StepMade {
        request: FolderRequest {
            revision: Bytes::new(bytes),
            blocks: Blocks::new(built.blocks.into_vec()),
            halves: SentHalves::new(Vec::new(alloc)),
        },
        pointers: built.pointers,
    })
}

/// Where the left pointers hold their rows in blocks of the cache that the folder has too, the request is for the
/// machine's ask.
pub fn step_law<S: Sealer, H: BlockHash>()
    ensures { (seed : List ℕ) (names : Names) → StepsAreFor S.sealed S.signed H.hashed seed names }
{}

/// What a device keeps of its known revision is so while the folder grows, and is enough for a
/// request; once a request was taken, its revision can be known.
pub fn remember_law<S: Sealer, H: BlockHash>()
    ensures longer { (seed : List ℕ) (names : Names) → RemembersLonger S.sealed S.signed H.hashed seed names }
    ensures gives { (seed : List ℕ) (names : Names) → RemembersGives S.sealed S.signed H.hashed seed names }
    ensures taken { (seed : List ℕ) (names : Names) → RemembersTaken S.sealed S.signed H.hashed seed names }
{}
