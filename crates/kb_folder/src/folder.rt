//! The folder.
ghost use Rattle.std.specs.Prelude.{◌≡◌, ◌+◌, ◌≤◌, ◌<◌, true, false, IfOk, IfErr, OnOk, OnErr, Ok, Some, None, map, reverse, drop, slice_index, vec_len};
ghost use Rattle.std.specs.Vec.{vec_capacity};
ghost use Rattle.std.specs.FinMap.{get};
ghost use Rattle.std.specs.Option.{option_copied};
ghost use Rattle.kb_folder.specs.Puts.{Puts, PutCause, Judges, Reads, IsSound, secret_at};

use crate::members::{change_halves, go_on};
use kb_blocks::{BlockHash, Hash, Missing, PutFault, Store};
use kb_chain::{ChainState, FolderRequest, PutRefusal, Revision, RevisionFault, check_next};
use kb_edge::Memory;
use kb_keys::{Halves, Policy};
use kb_seal::{Key, Sealer};
use std::alloc::Global;
use std::marker::PhantomData;

/// The device is no member.
#[derive(Clone, Copy, Debug, PartialEq, Eq)]
pub struct NotMember;

/// Why a half isn't told.
#[derive(Clone, Copy, Debug, PartialEq, Eq)]
pub enum HalfFault {
    NotMember,
    NoHalf,
}

/// A folder: its chain, its blocks, the halves of its members' keys and the secrets of the registered devices.
#[derive(Drop)]
pub struct Folder<S: Sealer, H: BlockHash> {
    state: ChainState,
    limit: u32,
    secrets: Vec<Key>,
    halves: Halves,
    store: Store<H>,
    revisions: Vec<Vec<u8>>,
    alloc: Global,
    sealer: PhantomData<S>,
    pub ghost sound: { IsSound (record { revisions = reverse (map (λ b. b.items) revisions.items); blocks = store; halves = halves.0; secrets = secrets.items; state = state; limit = limit }) },
}

// The secret of a registered device.
fn secret_of(secrets: &[Key], device: u16) -> Option<&Key>
    ensures { option_copied result ≡ secret_at secrets.now device }
{
    if device == 0 {
        return None;
    }
    secrets.get(usize::from(device) - 1)
}

fn decode(alloc: Global, bytes: &[u8]) -> Result<Revision, PutRefusal>
    ensures { Reads bytes.now result }
{
    match Revision::decode(alloc, bytes) {
        Ok(revision) => Ok(revision),
        Err(RevisionFault::BadRevision) => Err(PutRefusal::BadRevision),
        Err(RevisionFault::Memory) => Err(PutRefusal::Memory),
    }
}

impl<S: Sealer, H: BlockHash> Folder<S, H> {
    ghost use Rattle.kb_folder.specs.Held.{held, empty_folder, registered_with, is_member, TellsHalf};

    // The request's revision, where it may follow.
    fn judge(&self, request: &FolderRequest) -> Result<Revision, PutRefusal>
        ensures passes { IfOk result (λ r. Judges S.signed H.hashed (held self.now) request.now r (Ok tt) × (self.now.state.length < self.now.limit)) }
        ensures cause { IfErr result (PutCause S.signed H.hashed (held self.now) request.now) }
    {
        let bytes = request.revision.as_slice();
        let revision = decode(self.alloc, bytes)?;
        let secret = secret_of(&self.secrets, revision.writer);
        check_next::<S>(
            &self.state,
            &revision,
            bytes,
            request.halves.as_slice(),
            secret,
        )?;
        if self.state.length >= self.limit {
            return Err(PutRefusal::ChainEnd);
        }
        Ok(revision)
    }

    // Takes the revision, which was judged.
    fn enter(&mut self, revision: &Revision, request: &FolderRequest) -> Result<u32, PutRefusal>
        requires judged { Judges S.signed H.hashed (held self.old) request.now revision.now (Ok tt) }
        requires room { self.old.state.length < self.old.limit }
        ensures { Puts S.signed H.hashed (held self.old) request.now (held self.new) result }
    {
        let bytes = request.revision.as_slice();
        let sent = request.halves.as_slice();
        let copy = match Vec::from_slice(self.alloc, bytes) {
            Ok(copy) => copy,
            Err(_) => return Err(PutRefusal::Memory),
        };
        match self.revisions.reserve(1) {
            Ok(()) => {}
            Err(_) => return Err(PutRefusal::Memory),
        }
        match self.halves.reserve(sent.len()) {
            Ok(()) => {}
            Err(_) => return Err(PutRefusal::Memory),
        }
        match self.store.put_all(request.blocks.as_slice()) {
            Ok(()) => {}
            Err(PutFault::Collision { id }) => return Err(PutRefusal::Collision { id }),
            Err(PutFault::Memory) => return Err(PutRefusal::Memory),
        }
        self.revisions.push_reserved(copy);
        go_on(&mut self.state, revision, bytes);
        change_halves(&mut self.halves, sent, &revision.bundle);
        Ok(self.state.length)
    }

    /// Puts a revision with its blocks and halves. A refused put changes nothing.
    pub fn put(&mut self, request: &FolderRequest) -> Result<u32, PutRefusal>
        ensures sound { IsSound (held self.new) }
        ensures put { Puts S.signed H.hashed (held self.old) request.now (held self.new) result }
    {
        let revision = self.judge(request)?;
        self.enter(&revision, request)
    }

    /// A folder of no revision, which takes so many.
    pub fn new(alloc: Global, limit: u32) -> Folder<S, H>
        requires { (1 ≤ limit) × (limit ≤ 1000000) }
        ensures { held result ≡ empty_folder limit }
    {
        Folder {
            state: ChainState {
                length: 0,
                head: [0; 32],
                policy: Policy::new(),
                registered: 0,
                last: [0; 33],
            },
            limit,
            secrets: Vec::new(alloc),
            halves: Halves::new(alloc),
            store: Store::new(alloc),
            revisions: Vec::new(alloc),
            alloc,
            sealer: PhantomData,
        }
    }

    /// Registers the next device.
    pub fn register(&mut self, d: u16, secret: Key) -> Result<(), Memory>
        requires { (d ≡ self.old.state.registered + 1) × (d ≤ 32) }
        ensures ok { OnOk result (held self.new ≡ registered_with (held self.old) secret) }
        ensures err { OnErr result (held self.new ≡ held self.old) }
    {
        self.secrets.push(secret)?;
        self.state.registered = d;
        Ok(())
    }

    /// Makes room for one more device.
    pub fn reserve(&mut self) -> Result<(), Memory>
        ensures same { held self.new ≡ held self.old }
        ensures room { OnOk result (vec_len self.new.secrets < vec_capacity self.new.secrets) }
    {
        self.secrets.reserve(1)?;
        Ok(())
    }

    /// Registers the next device, where there is room.
    pub fn register_reserved(&mut self, d: u16, secret: Key)
        requires number { (d ≡ self.old.state.registered + 1) × (d ≤ 32) }
        requires room { vec_len self.old.secrets < vec_capacity self.old.secrets }
        ensures { held self.new ≡ registered_with (held self.old) secret }
    {
        self.secrets.push_reserved(secret);
        self.state.registered = d;
    }

    /// The bytes of the revisions, in order.
    pub fn revisions(&self) -> &[Vec<u8>]
        ensures { map (λ b. b.items) result.now ≡ reverse (held self.now).revisions }
    {
        self.revisions.as_slice()
    }

    /// How many revisions there are.
    pub fn length(&self) -> u32
        ensures { result ≡ self.now.state.length }
    {
        self.state.length
    }

    /// The members after the last revision.
    pub fn policy(&self) -> &Policy
        ensures { result.now ≡ self.now.state.policy }
    {
        &self.state.policy
    }

    /// The last seq of a device in the chain, or 0.
    pub fn last(&self, d: u16) -> u32
        ensures { result ≡ slice_index self.now.state.last d }
    {
        match self.state.last.get(usize::from(d)) {
            Some(last) => *last,
            None => 0,
        }
    }

    /// The halves that are kept.
    pub fn halves(&self) -> &Halves
        ensures { result.now.0 ≡ (held self.now).halves }
    {
        &self.halves
    }

    /// The store of blocks.
    pub fn store(&self) -> &Store<H>
        ensures { result.now ≡ (held self.now).blocks }
    {
        &self.store
    }

    /// The block with the id.
    pub fn block(&self, id: &Hash) -> Result<&[u8], Missing>
        ensures found { IfOk result (λ bytes. get (held self.now).blocks id.now ≡ Some bytes.now) }
        ensures missing { OnErr result (get (held self.now).blocks id.now ≡ None) }
    {
        self.store.find(id).ok_or(Missing)
    }

    /// The half of a member's key of a generation.
    pub fn half(&self, d: u16, g: u32) -> Result<Key, HalfFault>
        ensures { TellsHalf (held self.now) d g result }
    {
        if self.state.policy.role(d).is_none() {
            return Err(HalfFault::NotMember);
        }
        self.halves.get(d, g).ok_or(HalfFault::NoHalf)
    }

    /// The revisions behind the first ones, in order, for a member.
    pub fn fetch(&self, d: u16, from: u32) -> Result<&[Vec<u8>], NotMember>
        ensures lent { IfOk result (λ lent. (is_member (held self.now) d ≡ true) × (map (λ b. b.items) lent.now ≡ drop from (reverse (held self.now).revisions))) }
        ensures none { OnErr result (is_member (held self.now) d ≡ false) }
    {
        if self.state.policy.role(d).is_none() {
            return Err(NotMember);
        }
        Ok(behind(self.revisions.as_slice(), from as usize))
    }
}

// What stands behind the first of these, or nothing where there are fewer.
fn behind(revisions: &[Vec<u8>], from: usize) -> &[Vec<u8>]
    ensures { result.now ≡ drop from revisions.now }
{
    if from >= revisions.len() {
        return &[];
    }
    &revisions[from..]
}
