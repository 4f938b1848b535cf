//! What an opening finds on a disk and in a folder, and what it goes on with.
ghost use Rattle.std.specs.Prelude.{◌≡◌, ◌≤◌, ◌<◌, ◌+◌, ◌-◌, ◌↔◌, ◌⊎◌, ℕ, List, [], IsTrue, IfOk, IfErr, OnOk, IsErrOf, length, map, drop, reverse, slice_index, Option, true, false};
ghost use Rattle.kb_edge.specs.Causes.{Rose};
ghost use Rattle.kb_log.specs.Images.{EachImage};
ghost use Rattle.kb_ops.specs.Trees as trees;
ghost use Rattle.kb_ops.specs.Trees.{fold_ops, Fits, FitAll};
ghost use Rattle.kb_journal.specs.State.{State, HasState};
ghost use Rattle.kb_snap.specs.Lawful.{AreOf};
ghost use Rattle.kb_device.specs.Disks.{hash_at};
ghost use Rattle.sha2.specs.Sha256.{sha256};
ghost use Rattle.kb_device.specs.Noting.{Writes, Stops};
ghost use Rattle.kb_device.specs.Pulling.{headed, IsReadable, is_readable};
ghost use Rattle.kb_device.specs.Views.{platter, read_of};
ghost use Rattle.kb_device.specs.Opening.{meets, taken_by, caught_by, CanTake, fault_of, IsSound, IfStarted, IsTakingOf, IsTakeable, IsStrange, IsApart, Takes, MayTake, Meets, count_of, number_of, target_of, CanStart, StartStands};
ghost use Rattle.kb_device.specs.Fresh.{IdsEndAt};
ghost use Rattle.kb_device.specs.Left.{PointsAll};
ghost use Rattle.kb_device.specs.Past.{IsFirstOwn};
ghost use Rattle.kb_device.specs.declared.past.Own.{Own};
ghost use Rattle.kb_folder.specs.Chains.{Names};
ghost use Rattle.kb_folder.specs.Held.{held, is_member};
ghost use Rattle.kb_keys.specs.Secrets.{device_secret};
ghost use Rattle.kb_snap.specs.Members.{roles_at};
ghost use Rattle.kb_device.specs.Heads.{ReadStands};
ghost use Rattle.kb_folder.specs.Goes.{HasChain};
ghost use Rattle.kb_snap.specs.Chains.{Chain, ops_of, tree_at};
ghost use Rattle.kb_device.specs.Journals as journals;
ghost use Rattle.kb_device.specs.Journals.{last_seq, plain};
ghost use Rattle.kb_device.specs.Foreign.{QueueMeets};

use crate::head::Head;
use crate::past::{Own, find_own, read_at};
use crate::reading::ReadFault;
use kb_apply::{apply, fits, prepare};
use kb_blocks::{BlockHash, Hash};
use kb_chain::hash_of;
use kb_edge::{Disk, Memory};
use kb_folder::Folder;
use kb_journal::{Journal, Note};
use kb_ops::Op;
use kb_seal::{Key, Sealer};
use kb_tree::Table;
use std::alloc::Global;

/// A revision that is taken over: its number and hash, and how many first operations of the queue it holds.
#[derive(Clone, Copy, Debug)]
pub struct Taking {
    pub number: u32,
    pub hash: Hash,
    pub count: u32,
}

// Why a queue isn't done on a tree.
pub enum FoldFault {
    Unfit,
    Memory,
}

// Whether the operations are of this device.
pub fn are_of(d: u16, queue: &[Op]) -> bool
    ensures { IsTrue result ↔ AreOf d queue.now }
{
    for op in queue {
        if op.device != d {
            return false;
        }
    }
    true
}

// Whether this is the hash of the revision with this number, or zeros for none.
pub fn keeps_hash(lent: &[Vec<u8>], known: u32, hash: &Hash) -> bool
    requires { known ≤ length lent.now }
    ensures { IsTrue result ↔ hash.now ≡ hash_at (map sha256 (map (λ b. b.items) lent.now)) known }
{
    if known == 0 {
        return *hash == [0; 32];
    }
    *hash == hash_of(&lent[known as usize - 1])
}

// Whether the chain and a queue meet.
pub fn meets(own: &Option<Own>, last: u32, base: u32, end: u32) -> bool
    ensures { result ≡ meets own.now last base end }
{
    match own {
        None => last == base,
        Some(own) => {
            u64::from(own.first) == u64::from(base) + 1 && (own.last == last && last <= end)
        }
    }
}

// Does an operation that fits.
fn do_op(alloc: Global, table: &mut Table, op: &Op) -> Result<(), Memory>
    requires { Fits op.now table.old.tree }
    ensures { OnOk result (table.new.tree ≡ trees.apply op.now table.old.tree) }
{
    let prepared = prepare(alloc, table, op)?;
    apply(table, prepared);
    Ok(())
}

// Does a queue on a table, where all of it fits.
pub fn fold(alloc: Global, mut table: Table, queue: &[Op]) -> Result<Table, FoldFault>
    ensures folded { IfOk result (λ done. done.tree ≡ fold_ops queue.now table.tree) }
    ensures fit { OnOk result (FitAll queue.now table.tree) }
    ensures unfit { IsErrOf result FoldFault.Unfit → ¬ FitAll queue.now table.tree }
{
    for op in queue {
        if !fits(&table, op) {
            return Err(FoldFault::Unfit);
        }
        match do_op(alloc, &mut table, op) {
            Ok(()) => {}
            Err(Memory) => return Err(FoldFault::Memory),
        }
    }
    Ok(table)
}

// Notes what is taken over. Where the disk stops, it is given back.
pub fn take_over<D: Disk>(mut journal: Journal<D>, taking: &Option<Taking>) -> Result<Journal<D>, D>
    requires opened { journal.is_open ≡ true }
    requires durable { EachImage D.content D.dirty journal.disk (HasState journal.state) }
    requires can { CanTake journal.state taking.now }
    ensures opened { IfOk result (λ now. now.is_open ≡ true) }
    ensures state { IfOk result (λ now. now.state ≡ taken_by journal.state taking.now) }
    ensures writes { IfOk result (λ now. Writes (taken_by journal.state taking.now) (platter D.Disk journal.disk) (platter D.Disk now.disk)) }
    ensures stops { IfErr result (λ disk. Stops journal.state (taken_by journal.state taking.now) (platter D.Disk journal.disk) (platter D.Disk disk)) }
    ensures later { IfOk result (λ now. D.faults journal.disk ≤ D.faults now.disk) }
    ensures rose { IfErr result (λ disk. Rose (D.faults journal.disk) (D.faults disk)) }
{
    let Some(taking) = taking else {
        return Ok(journal);
    };
    let note = Note::Merged {
        number: taking.number,
        hash: taking.hash,
        count: taking.count,
    };
    match journal.note(&note) {
        Ok(()) => Ok(journal),
        Err(_) => Err(journal.finish()),
    }
}

// Notes the head, where it isn't known. Where the disk stops, it is given back.
pub fn catch_up<D: Disk, H: BlockHash>(
    mut journal: Journal<D>,
    head: &Head<H>,
) -> Result<Journal<D>, D>
    requires opened { journal.is_open ≡ true }
    requires durable { EachImage D.content D.dirty journal.disk (HasState journal.state) }
    requires known { journal.state.known ≤ head.now.number }
    requires flushed { journal.state.known < head.now.number → journal.state.queue ≡ [] }
    ensures opened { IfOk result (λ now. now.is_open ≡ true) }
    ensures state { IfOk result (λ now. now.state ≡ caught_by journal.state (read_of head.now)) }
    ensures writes { IfOk result (λ now. Writes (caught_by journal.state (read_of head.now)) (platter D.Disk journal.disk) (platter D.Disk now.disk)) }
    ensures stops { IfErr result (λ disk. Stops journal.state (caught_by journal.state (read_of head.now)) (platter D.Disk journal.disk) (platter D.Disk disk)) }
    ensures later { IfOk result (λ now. D.faults journal.disk ≤ D.faults now.disk) }
    ensures rose { IfErr result (λ disk. Rose (D.faults journal.disk) (D.faults disk)) }
{
    if head.number <= journal.known() {
        return Ok(journal);
    }
    let note = Note::Head {
        number: head.number,
        hash: head.hash,
    };
    match journal.note(&note) {
        Ok(()) => Ok(journal),
        Err(_) => Err(journal.finish()),
    }
}

/// Why an opening doesn't go on.
pub enum StartFault {
    /// The journal isn't this device's, or doesn't meet the chain.
    Foreign,
    /// What was read of this revision isn't as it should be.
    BadFolder { number: u32 },
    Memory,
}

fn fault_of(fault: ReadFault, number: u32) -> StartFault
    ensures { result ≡ fault_of fault number }
{
    match fault {
        ReadFault::BadFolder => StartFault::BadFolder { number },
        ReadFault::Memory => StartFault::Memory,
    }
}

// Whether a revision can be taken over, beyond the known one of so many.
fn may_be_taken(own: &Option<Own>, known: u32, len: usize) -> bool
    ensures { IsTrue result ↔ IsSound known len own.now }
{
    match own {
        None => true,
        Some(own) => { known < own.number && (own.number as usize <= len && own.first <= own.last) }
    }
}

// What stands behind the first of these.
fn behind(revisions: &[Vec<u8>], from: u32) -> &[Vec<u8>]
    ensures { result.now ≡ drop from revisions.now }
{
    if from as usize >= revisions.len() {
        return &[];
    }
    &revisions[from as usize..]
}

// The first own revision beyond the known one. Where the chain and a queue with this base and this last seq don't meet, the
// journal is foreign.
fn find_met<S: Sealer, H: BlockHash>(
    alloc: Global,
    folder: &Folder<S, H>,
    d: u16,
    lent: &[Vec<u8>],
    known: u32,
    base: u32,
    end: u32,
) -> Result<Option<Own>, StartFault>
    requires { known ≤ length lent.now }
    ensures sound { IfOk result (λ own. IsSound known (length lent.now) own) }
    ensures met { IfOk result (λ own. meets own (slice_index folder.now.state.last d) base end ≡ true) }
    ensures finds { (seed : List ℕ) (names : Names) (c : Chain) (j : journals.Journal) → HasChain S.sealed S.signed H.hashed seed names (held folder.now) c → map (λ b. b.items) lent.now ≡ reverse (held folder.now).revisions
        → known ≡ j.known → base ≡ j.base → end ≡ last_seq j → IfStarted result (λ own. IsFirstOwn d j.known (drop j.known c) own × QueueMeets d c j) (¬ QueueMeets d c j) }
{
    let own = match find_own(alloc, folder, d, behind(lent, known)) {
        Ok(own) => own,
        Err(fault) => return Err(fault_of(fault, known)),
    };
    if !may_be_taken(&own, known, lent.len()) {
        return Err(StartFault::BadFolder { number: known });
    }
    if !meets(&own, folder.last(d), base, end) {
        return Err(StartFault::Foreign);
    }
    Ok(own)
}

/// What an opening goes on with: a revision that is taken over, and the one that is known then, whose shown table has what
/// is left of the queue.
#[derive(Drop)]
pub struct Start<H: BlockHash> {
    pub taking: Option<Taking>,
    pub head: Head<H>,
}

// The revision as it is taken over, with its hash.
fn taking_of(lent: &[Vec<u8>], base: u32, own: &Option<Own>) -> Option<Taking>
    requires { IsTakeable (length lent.now) base own.now }
    ensures { IsTakingOf (map sha256 (map (λ b. b.items) lent.now)) base own.now result }
{
    match own {
        None => None,
        Some(own) => Some(Taking {
            number: own.number,
            hash: hash_of(&lent[own.number as usize - 1]),
            count: own.last - base,
        }),
    }
}

// The journal's own causes: a known revision that the folder lacks or that has another hash, a queue without a known revision,
// or an operation of another device.
fn is_strange(d: u16, lent: &[Vec<u8>], known: u32, hash: &Hash, queue: &[Op]) -> bool
    ensures strange { IsTrue result ↔ IsStrange d (map sha256 (map (λ b. b.items) lent.now)) known hash.now queue.now }
    ensures ours { result ≡ false → (hash.now ≡ hash_at (map sha256 (map (λ b. b.items) lent.now)) known) × AreOf d queue.now }
{
    if known as usize > lent.len() {
        return true;
    }
    if !keeps_hash(lent, known, hash) {
        return true;
    }
    if known == 0 && !queue.is_empty() {
        return true;
    }
    !are_of(d, queue)
}

// What is taken over of a journal with this known revision, hash, queue and last seq, of which nothing is foreign but maybe
// what is left of the queue.
fn find_taking<S: Sealer, H: BlockHash>(
    alloc: Global,
    folder: &Folder<S, H>,
    d: u16,
    lent: &[Vec<u8>],
    known: u32,
    hash: &Hash,
    queue: &[Op],
    end: u32,
) -> Result<Option<Taking>, StartFault>
    requires { length queue.now ≤ end }
    ensures can { IfOk result (λ taking. MayTake known (length lent.now) queue.now taking) }
    ensures own { OnOk result (AreOf d queue.now) }
    ensures takes { (seed : List ℕ) (names : Names) (c : Chain) (s : State) → HasChain S.sealed S.signed H.hashed seed names (held folder.now) c → map (λ b. b.items) lent.now ≡ reverse (held folder.now).revisions
        → known ≡ s.known → hash.now ≡ s.hash → queue.now ≡ s.queue → end ≡ last_seq (plain s) → IfStarted result (λ taking. Takes (held folder.now) d c s taking × Meets (held folder.now) d c s) (IsApart (held folder.now) d c s) }
{
    if is_strange(d, lent, known, hash, queue) {
        return Err(StartFault::Foreign);
    }
    let base = end - queue.len() as u32;
    let own = match find_met(alloc, folder, d, lent, known, base, end) {
        Ok(own) => own,
        Err(fault) => return Err(fault),
    };
    Ok(taking_of(lent, base, &own))
}

// What is left of a queue.
fn left_of<'a>(queue: &'a [Op], taking: &Option<Taking>) -> &'a [Op]
    requires { count_of taking.now ≤ length queue.now }
    ensures { result.now ≡ drop (count_of taking.now) queue.now }
{
    match taking {
        None => queue,
        Some(taking) => &queue[taking.count as usize..],
    }
}

// The number of the revision that is known once this is taken over.
fn number_of(known: u32, taking: &Option<Taking>) -> u32
    ensures { result ≡ number_of known taking.now }
{
    match taking {
        None => known,
        Some(taking) => taking.number,
    }
}

// The number of the revision that an opening goes on with, of so many: the last one, where nothing waits.
fn target_of(known: u32, left: &[Op], len: u32) -> u32
    ensures { result ≡ target_of known left.now len }
{
    if left.is_empty() { len } else { known }
}

// Reads the revision that is known then, and does what is left of the queue, which ends with this seq.
fn find_head<S: Sealer, H: BlockHash>(
    alloc: Global,
    folder: &Folder<S, H>,
    d: u16,
    secret: &Key,
    lent: &[Vec<u8>],
    number: u32,
    left: &[Op],
    end: u32,
) -> Result<Head<H>, StartFault>
    requires within { number ≤ length lent.now }
    requires numbered { 1 ≤ d }
    ensures some { OnOk result (1 ≤ number) }
    ensures number { IfOk result (λ head. head.number ≡ number) }
    ensures readable { IfOk result (λ head. is_readable 0 (read_of head) ≡ true) }
    ensures fit { IfOk result (λ head. FitAll left.now head.base.tree) }
    ensures shown { IfOk result (λ head. head.shown.tree ≡ fold_ops left.now head.base.tree) }
    ensures fresh { IfOk result (λ head. IdsEndAt d end head.base.tree) }
    ensures all { IfOk result (λ head. PointsAll head.base.tree head.pointers) }
    ensures stands { (seed : List ℕ) (names : Names) (c : Chain) → HasChain S.sealed S.signed H.hashed seed names (held folder.now) c → secret.now ≡ device_secret seed d → is_member (held folder.now) d ≡ true
        → map (λ b. b.items) lent.now ≡ reverse (held folder.now).revisions → 1 ≤ number → length (ops_of d c) ≤ end
        → IfStarted result (λ head. ReadStands S.sealed H.hashed seed (held folder.now) c (read_of head) × (head.role ≡ roles_at c number d)) (¬ FitAll left.now (tree_at c number)) }
{
    if number == 0 {
        return Err(StartFault::BadFolder { number });
    }
    let head = match read_at(alloc, folder, d, secret, lent, number) {
        Ok(head) => head,
        Err(fault) => return Err(fault_of(fault, number)),
    };
    let Head {
        number,
        hash,
        base,
        shown,
        pointers,
        cache,
        ring,
        generation,
        role,
        last,
    } = head;
    let shown = match fold(alloc, shown, left) {
        Ok(shown) => shown,
        Err(FoldFault::Unfit) => return Err(StartFault::Foreign),
        Err(FoldFault::Memory) => return Err(StartFault::Memory),
    };
    if last > end {
        return Err(StartFault::BadFolder { number });
    }
    Ok(Head {
        number,
        hash,
        base,
        shown,
        pointers,
        cache,
        ring,
        generation,
        role,
        last,
    })
}

/// What an opening goes on with, over a journal with this known revision, hash, queue and last seq.
pub fn find_start<S: Sealer, H: BlockHash>(
    alloc: Global,
    folder: &Folder<S, H>,
    d: u16,
    secret: &Key,
    lent: &[Vec<u8>],
    known: u32,
    hash: &Hash,
    queue: &[Op],
    end: u32,
) -> Result<Start<H>, StartFault>
    requires long { length queue.now ≤ end }
    requires numbered { 1 ≤ d }
    ensures own { OnOk result (AreOf d queue.now) }
    ensures fresh { IfOk result (λ start. IdsEndAt d end start.head.base.tree) }
    ensures all { IfOk result (λ start. PointsAll start.head.base.tree start.head.pointers) }
    ensures can { IfOk result (λ start. CanStart known queue.now start.taking (read_of start.head) start.head.shown.tree) }
    ensures stands { (seed : List ℕ) (names : Names) (c : Chain) (s : State) → HasChain S.sealed S.signed H.hashed seed names (held folder.now) c → secret.now ≡ device_secret seed d → is_member (held folder.now) d ≡ true
        → map (λ b. b.items) lent.now ≡ reverse (held folder.now).revisions → known ≡ s.known → hash.now ≡ s.hash → queue.now ≡ s.queue → end ≡ last_seq (plain s)
        → IfStarted result (λ start. StartStands S.sealed H.hashed seed (held folder.now) d c s start.taking (read_of start.head) start.head.role) (IsApart (held folder.now) d c s) }
{
    let len = folder.length();
    if len as usize != lent.len() {
        return Err(StartFault::BadFolder { number: len });
    }
    let taking = match find_taking(alloc, folder, d, lent, known, hash, queue, end) {
        Ok(taking) => taking,
        Err(fault) => return Err(fault),
    };
    let left = left_of(queue, &taking);
    let number = target_of(number_of(known, &taking), left, len);
    let head = match find_head(alloc, folder, d, secret, lent, number, left, end) {
        Ok(head) => head,
        Err(fault) => return Err(fault),
    };
    Ok(Start { taking, head })
}
