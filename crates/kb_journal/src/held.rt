//! The state of a journal in memory.
ghost use Rattle.std.specs.Prelude.{◌≡◌, ◌+◌, ◌*◌, ◌<◌, ◌≤◌, ◌^◌, ◌++◌, [], ◌∷◌, true, drop, length, map, sum_by, IfOk, IfErr, OnOk, OnErr, IsErrOf, ⊤};
ghost use Rattle.kb_ops.specs.Grammar.{IsProper};
ghost use Rattle.kb_log.specs.LogList.{lists_of};
ghost use Rattle.kb_journal.specs.Entries.{entry_text, IsEntry};
ghost use Rattle.kb_journal.specs.State.{State, Steps, empty, last_seq, allows, done, takes_device, queued_text, use_of, is_whole};

use crate::entries::{Entry, EntryFault, Hash, Note};
use crate::faults::AddFault;
use crate::queue::Queue;
use crate::ranges::op_fits;
use crate::reading::read_entry;
use kb_edge::Memory;
use kb_ops::Op as Operation;
use std::alloc::Global;

/// What is known, what is queued, the payload of each queued operation, and the bytes of the compacted text.
#[derive(Drop)]
pub struct Held {
    pub known: u32,
    pub hash: Hash,
    pub base: u32,
    pub mark: bool,
    pub ops: Queue<Operation>,
    pub texts: Queue<Vec<u8>>,
    pub used: u64,
    pub ghost spelled: { lists_of texts.items ≡ map queued_text ops.items },
    pub ghost few: { length ops.items ≤ 4096 },
    pub ghost last_fits: { base + length ops.items < 2 ^ 32 },
    pub ghost counted: { used ≡ use_of ops.items },
    pub ghost bounded: { used ≤ 48 + 2 ^ 17 * (base + length ops.items) },
}

impl Held {
    ghost use Rattle.kb_journal.specs.Adding.{AddRefuses, Takes};
    ghost use Rattle.kb_journal.specs.Held.{state_of};
    ghost use Rattle.kb_journal.specs.Notes.{entry_of};
    ghost use Rattle.kb_journal.specs.declared.entries.Entry.TheVariants as entries;

    /// The state of a new disk.
    pub fn new(alloc: Global) -> Held
        ensures { state_of result ≡ empty }
    {
        let hash = [0u8; 32];
        Held {
            known: 0,
            hash,
            base: 0,
            mark: false,
            ops: Queue::new(alloc),
            texts: Queue::new(alloc),
            used: 48,
        }
    }

    /// The seq of the last operation.
    pub fn last(&self) -> u32
        ensures { result ≡ last_seq (state_of self.now) }
    {
        self.base + self.ops.len() as u32
    }

    /// Whether the payload may come now.
    pub fn allows(&self, entry: &Entry) -> bool
        ensures { result ≡ allows (state_of self.now) entry.now }
    {
        let queued = self.ops.len();
        match entry {
            Entry::Op(op) => {
                u64::from(op.seq) == u64::from(self.last()) + 1
                    && (queued < 4096 && takes_device(self.ops.as_slice(), op.device))
            }
            Entry::Landed { number, .. } => {
                0 < queued && (!self.mark && u64::from(*number) == u64::from(self.known) + 1)
            }
            Entry::Branched => 0 < queued && !self.mark,
            Entry::Merged { number, count, .. } => {
                0 < *count && (*count as usize <= queued && self.known < *number)
            }
            Entry::Head { number, seq, .. } => {
                queued == 0 && (self.known <= *number && self.last() <= *seq)
            }
        }
    }

    /// Queues an operation.
    pub fn queue(&mut self, op: Operation, text: Vec<u8>) -> Result<(), Memory>
        requires few { length self.old.ops.items < 4096 }
        requires next { last_seq (state_of self.old) + 1 < 2 ^ 32 }
        requires text { text.items ≡ queued_text op }
        requires short { length text.items ≤ 100000 }
        ensures ok { OnOk result (state_of self.new ≡ done (state_of self.old) (entries.Op op)) }
        ensures err { OnErr result (state_of self.new ≡ state_of self.old) }
        ensures texts { OnOk result (self.new.texts.items ≡ self.old.texts.items ++ text ∷ []) }
    {
        self.ops.reserve()?;
        self.texts.reserve()?;
        let added = record_len(&text);
        self.ops.push(op);
        self.texts.push(text);
        self.used += added;
        Ok(())
    }

    /// Queues a copy of an operation.
    pub fn queue_copy(&mut self, op: &Operation, text: Vec<u8>) -> Result<(), Memory>
        requires few { length self.old.ops.items < 4096 }
        requires next { last_seq (state_of self.old) + 1 < 2 ^ 32 }
        requires text { text.items ≡ queued_text op.now }
        requires short { length text.items ≤ 100000 }
        ensures ok { OnOk result (state_of self.new ≡ done (state_of self.old) (entries.Op op.now)) }
        ensures err { OnErr result (state_of self.new ≡ state_of self.old) }
        ensures texts { OnOk result (self.new.texts.items ≡ self.old.texts.items ++ text ∷ []) }
    {
        match op.clone() {
            Ok(copy) => self.queue(copy, text),
            Err(_) => Err(Memory),
        }
    }

    /// The payload of an operation that may be queued, by an area of so many bytes.
    pub fn check(&self, alloc: Global, op: &Operation, area: u32) -> Result<Vec<u8>, AddFault>
        requires proper { IsProper op.now }
        requires whole { use_of self.now.ops.items ≤ area }
        requires small { area < 2 ^ 24 }
        ensures taken { IfOk result (λ text. (text.items ≡ queued_text op.now) × Takes (state_of self.now) area op.now) }
        ensures short { IfOk result (λ text. length text.items ≤ 100000) }
        ensures refused { IfErr result (AddRefuses (state_of self.now) area op.now ⊤) }
        ensures never_stopped { IsErrOf result AddFault.Stopped → ⊥ }
    {
        if self.last() == u32::MAX {
            return Err(AddFault::Spent);
        }
        if self.ops.len() >= 4096 {
            return Err(AddFault::QueueFull);
        }
        let text = match payload_of(alloc, op) {
            Ok(text) => text,
            Err(Memory) => return Err(AddFault::Memory),
        };
        let need = self.used as u32 + record_len(&text) as u32;
        if need > area {
            return Err(AddFault::Full { need, room: area });
        }
        Ok(text)
    }

    // The first of the queue leave.
    fn leave(&mut self, n: usize)
        requires { n ≤ length self.old.ops.items }
        ensures { state_of self.new ≡ record (state_of self.old) { base = self.old.base + n; queue = drop n self.old.ops.items } }
    {
        let gone = records_len(self.texts.as_slice(), n);
        self.ops.leave(n);
        self.texts.leave(n);
        self.base += n as u32;
        self.used -= gone;
    }

    /// The first of the queue landed.
    pub fn land(&mut self, number: u32, hash: Hash)
        requires { allows (state_of self.old) (entries.Landed number hash) ≡ true }
        ensures { state_of self.new ≡ done (state_of self.old) (entries.Landed number hash) }
    {
        self.leave(1);
        self.known = number;
        self.hash = hash;
    }

    /// The queue is a branch.
    pub fn branch(&mut self)
        ensures { state_of self.new ≡ done (state_of self.old) entries.Branched }
    {
        self.mark = true;
    }

    /// The first of the queue were merged.
    pub fn merge(&mut self, number: u32, hash: Hash, count: u32)
        requires { allows (state_of self.old) (entries.Merged number hash count) ≡ true }
        ensures { state_of self.new ≡ done (state_of self.old) (entries.Merged number hash count) }
    {
        self.leave(count as usize);
        self.known = number;
        self.hash = hash;
        self.mark = false;
    }

    /// The head is known, with nothing queued.
    pub fn head(&mut self, number: u32, hash: Hash, seq: u32, mark: bool)
        requires { allows (state_of self.old) (entries.Head number hash seq mark) ≡ true }
        ensures { state_of self.new ≡ done (state_of self.old) (entries.Head number hash seq mark) }
    {
        self.known = number;
        self.hash = hash;
        self.base = seq;
        self.mark = mark;
    }

    /// What a note that may come now leads to.
    pub fn note(&mut self, note: &Note)
        requires { allows (state_of self.old) (entry_of (state_of self.old) note.now) ≡ true }
        ensures { state_of self.new ≡ done (state_of self.old) (entry_of (state_of self.old) note.now) }
    {
        match note {
            Note::Landed { number, hash } => self.land(*number, *hash),
            Note::Branched => self.branch(),
            Note::Merged {
                number,
                hash,
                count,
            } => self.merge(*number, *hash, *count),
            Note::Head { number, hash } => {
                let last = self.last();
                let mark = self.mark;
                self.head(*number, *hash, last, mark);
            }
        }
    }

    /// What a payload that may come now leads to.
    pub fn take(&mut self, entry: Entry, text: Vec<u8>) -> Result<(), Memory>
        requires is { IsEntry entry }
        requires text { text.items ≡ entry_text entry }
        requires allowed { allows (state_of self.old) entry ≡ true }
        ensures ok { OnOk result (state_of self.new ≡ done (state_of self.old) entry) }
    {
        match entry {
            Entry::Op(op) => return self.queue(op, text),
            Entry::Landed { number, hash } => self.land(number, hash),
            Entry::Branched => self.branch(),
            Entry::Merged {
                number,
                hash,
                count,
            } => self.merge(number, hash, count),
            Entry::Head {
                number,
                hash,
                seq,
                mark,
            } => self.head(number, hash, seq, mark),
        }
        Ok(())
    }

    /// Whether the compacted text fits the area, and a set mark has a queue.
    pub fn is_whole(&self, area: u32) -> bool
        ensures { result ≡ is_whole area (state_of self.now) }
    {
        self.used <= u64::from(area) && (!self.mark || 0 < self.ops.len())
    }

    /// What the next payload leads to. It is refused exactly where it is out of the grammar or may not come now.
    pub fn step(&mut self, alloc: Global, payload: Vec<u8>) -> Result<(), EntryFault>
        ensures ok { OnOk result (Steps (state_of self.old) payload.items (state_of self.new)) }
        ensures bad { result ≡ Err EntryFault.BadEntry → (t : State) → Steps (state_of self.old) payload.items t → ⊥ }
    {
        let entry = match read_entry(alloc, &payload) {
            Ok(entry) => entry,
            Err(fault) => return Err(fault),
        };
        if !self.allows(&entry) {
            return Err(EntryFault::BadEntry);
        }
        match self.take(entry, payload) {
            Ok(()) => Ok(()),
            Err(Memory) => Err(EntryFault::Memory),
        }
    }
}

// The payload of an operation.
fn payload_of(alloc: Global, op: &Operation) -> Result<Vec<u8>, Memory>
    requires { IsProper op.now }
    ensures value { IfOk result (λ text. text.items ≡ queued_text op.now) }
    ensures short { IfOk result (λ text. length text.items ≤ 100000) }
{
    op_fits(op);
    let bytes = op.encode(alloc)?;
    let mut text = Vec::with_capacity(alloc, bytes.len() + 1)?;
    text.push(1)?;
    text.extend_from_slice(&bytes)?;
    Ok(text)
}

// The bytes of a payload's record.
fn record_len(text: &Vec<u8>) -> u64
    requires { length text.now.items ≤ 100000 }
    ensures { result ≡ 5 + length text.now.items }
{
    text.len() as u64 + 5
}

// The bytes of the first n records.
fn records_len(texts: &[Vec<u8>], n: usize) -> u64
    requires within { n ≤ length texts.now }
    requires small { sum_by (λ p. 5 + length p) (lists_of texts.now) < 2 ^ 63 }
    ensures { result + sum_by (λ p. 5 + length p) (lists_of (drop n texts.now)) ≡ sum_by (λ p. 5 + length p) (lists_of texts.now) }
{
    let mut bytes = 0;
    for i in 0..n {
        bytes += texts[i].len() as u64 + 5;
    }
    bytes
}

fn takes_device(queue: &[Operation], device: u16) -> bool
    ensures { result ≡ takes_device queue.now device }
{
    match queue {
        [] => true,
        [op, ..] => device == op.device,
    }
}
