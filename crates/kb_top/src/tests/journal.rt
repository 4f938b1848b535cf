//! Journals over disks in memory.
ghost use Rattle.std.specs.Prelude.{◌≡◌, true, IfOk, OnOk};
ghost use Rattle.kb_ops.specs.Grammar.{MeetsRules};

use kb_edge::{Disk, Memory};
use kb_journal::{AddFault, Journal, JournalFault};
use kb_log::Log;
use kb_memdisk::MemDisk;
use kb_name::{Moment, Name, NodeId};
use kb_ops::{Bytes, Change, Kind, Op as Operation};
use std::alloc::Global;
use std::test::Fail;

// A journal of a disk of 4,096 bytes, whose log has these payloads.
fn journal_of(alloc: Global, payloads: &[&[u8]]) -> Result<Journal<MemDisk>, JournalFault>
    ensures { IfOk result (λ journal. journal.is_open ≡ true) }
{
    let disk = match MemDisk::new(alloc, 4096) {
        Ok(disk) => disk,
        Err(Memory) => return Err(JournalFault::Memory),
    };
    let mut log = match Log::open(alloc, disk) {
        Ok(log) => log,
        Err(_) => return Err(JournalFault::Memory),
    };
    for payload in payloads {
        if payload.len() > 4096 {
            return Err(JournalFault::Memory);
        }
        match log.append(payload) {
            Ok(()) => {}
            Err(_) => return Err(JournalFault::Memory),
        }
    }
    match Journal::open(alloc, log.finish()) {
        Ok(journal) => Ok(journal),
        Err((_, fault)) => Err(fault),
    }
}

fn is_bad(found: Result<Journal<MemDisk>, JournalFault>) -> bool {
    matches!(found, Err(JournalFault::BadDisk))
}

// An operation of device 1.
fn operation(seq: u32, change: Change) -> Operation
    ensures change { result.change ≡ change }
    ensures device { result.device ≡ 1 }
    ensures seq { result.seq ≡ seq }
{
    Operation {
        device: 1,
        seq,
        moment: Moment::START,
        change,
    }
}

// A write to a file.
fn write(alloc: Global, n: usize) -> Result<Change, Fail>
    ensures { IfOk result (λ change. MeetsRules change) }
{
    let bytes = vec![in alloc; 7u8; n]?;
    if n == 0 || n > 65536 {
        return Err(Fail::from("size"));
    }
    Ok(Change::Sync {
        node: NodeId::ROOT,
        offset: 0,
        bytes: Bytes::new(bytes),
        length: n as u32,
    })
}

// The payload of an operation.
fn op_payload(alloc: Global, seq: u32, change: Change) -> Result<Vec<u8>, Fail>
    requires { MeetsRules change }
{
    if seq == 0 {
        return Err(Fail::from("seq"));
    }
    let mut payload = [1u8].to_vec(alloc)?;
    payload.extend_from_slice(&operation(seq, change).encode(alloc)?)?;
    Ok(payload)
}

// The payload of a head.
fn head_payload(alloc: Global, number: u32, seq: u32) -> Result<Vec<u8>, Fail> {
    let mut payload = [5u8].to_vec(alloc)?;
    payload.extend_from_slice(&number.to_be_bytes())?;
    payload.extend_from_slice(&[0; 32])?;
    payload.extend_from_slice(&seq.to_be_bytes())?;
    payload.push(0)?;
    Ok(payload)
}

#[test]
fn a_new_disk_is_an_empty_journal(rt: HostRuntime) -> Result<(), Fail> {
    let journal = journal_of(rt.alloc(), &[])?;
    assert_eq!(rt; journal.known(), 0);
    assert_eq!(rt; *journal.known_hash(), [0; 32]);
    assert_eq!(rt; journal.last(), 0);
    assert!(rt; journal.queue().is_empty());
    assert!(rt; !journal.branched());
    let mut image = vec![in rt.alloc(); 0u8; 4096]?;
    image[0] = 1;
    let disk = MemDisk::with_image(rt.alloc(), image)?;
    match Journal::open(rt.alloc(), disk) {
        Ok(_) => return Err(Fail::from("opened")),
        Err((_, fault)) => assert_eq!(rt; fault, JournalFault::BadDisk),
    }
    Ok(())
}

#[test]
fn payloads_have_their_places(rt: HostRuntime) -> Result<(), Fail> {
    let alloc = rt.alloc();
    let mut landed = [2u8, 0, 0, 0, 1].to_vec(alloc)?;
    landed.extend_from_slice(&[0; 32])?;
    assert!(rt; is_bad(journal_of(alloc, &[&landed])));
    let skips = op_payload(alloc, 2, write(alloc, 1)?)?;
    assert!(rt; is_bad(journal_of(alloc, &[&skips])));
    let head = head_payload(alloc, 1, 5)?;
    let back = head_payload(alloc, 1, 4)?;
    assert!(rt; is_bad(journal_of(alloc, &[&head, &back])));
    assert_eq!(rt; journal_of(alloc, &[&back, &head])?.last(), 5);
    let large = op_payload(alloc, 1, write(alloc, 1960)?)?;
    assert!(rt; is_bad(journal_of(alloc, &[&large])));
    let fits = op_payload(alloc, 1, write(alloc, 1951)?)?;
    assert_eq!(rt; journal_of(alloc, &[&fits])?.last(), 1);
    Ok(())
}

// Queues a change as device 1's next operation.
fn add<D: Disk>(alloc: Global, journal: &mut Journal<D>, change: Change) -> Result<(), AddFault>
    requires open { journal.old.is_open ≡ true }
    requires rules { MeetsRules change }
    ensures { OnOk result (journal.new.is_open ≡ true) }
{
    let last = journal.last();
    let is_own = match journal.queue() {
        [] => true,
        [op, ..] => op.device == 1,
    };
    if !is_own {
        return Err(AddFault::Memory);
    }
    let op = operation(last.saturating_add(1), change);
    journal.add_op(alloc, &op)
}

// What is used of a journal's log.
fn used(alloc: Global, journal: Journal<MemDisk>) -> Result<u32, Fail> {
    let disk = journal.finish();
    if disk.size() < 4096 || disk.size() > 16_777_216 {
        return Err(Fail::from("size"));
    }
    match Log::open(alloc, disk) {
        Ok(log) => Ok(log.used()),
        Err((_, fault)) => Err(Fail::from(fault)),
    }
}

#[test]
fn a_small_disk_compacts(rt: HostRuntime) -> Result<(), Fail> {
    let alloc = rt.alloc();
    let create = Change::Create {
        parent: NodeId::ROOT,
        name: Name::new(alloc, b"f")?,
        kind: Kind::File,
        bytes: Bytes::new(Vec::new(alloc)),
    };
    let head = head_payload(alloc, 1, 0)?;
    let first = op_payload(alloc, 1, create)?;
    let second = op_payload(alloc, 2, write(alloc, 1000)?)?;
    let mut landed = [2u8, 0, 0, 0, 2].to_vec(alloc)?;
    landed.extend_from_slice(&[0; 32])?;

    let mut journal = journal_of(alloc, &[&head, &first, &second])?;
    let answer = add(alloc, &mut journal, write(alloc, 875)?);
    assert_eq!(rt;
        answer,
        Err(AddFault::Full {
            need: 2041,
            room: 2040,
        })
    );

    let mut journal = journal_of(alloc, &[&head, &first, &second, &landed])?;
    let answer = add(alloc, &mut journal, write(alloc, 875)?);
    assert_eq!(rt; answer, Ok(()));
    assert_eq!(rt; journal.known(), 2);
    assert_eq!(rt; journal.last(), 3);
    assert_eq!(rt; journal.queue().len(), 2);
    assert_eq!(rt; used(alloc, journal)?, 2005);
    Ok(())
}

#[test]
fn the_last_seq_is_spent(rt: HostRuntime) -> Result<(), Fail> {
    let alloc = rt.alloc();
    let head = head_payload(alloc, 1, u32::MAX)?;
    let mut journal = journal_of(alloc, &[&head])?;
    let answer = add(alloc, &mut journal, write(alloc, 1)?);
    assert_eq!(rt; answer, Err(AddFault::Spent));
    Ok(())
}
