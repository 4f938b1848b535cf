//! Logs over disks in memory.
ghost use Rattle.std.specs.Prelude.{◌≡◌, ◌⊎◌, ◌<◌, ◌++◌, [], ◌∷◌, true, length, IfOk, IfErr};

use crate::{AppendFault, Log, LogFault};
use kb_edge::{CrashDisk, Memory, Pick};
use kb_memdisk::MemDisk;
use std::alloc::Global;
use std::test::Fail;

// A log on a disk of 4,096 bytes, of which those given stand at their places.
fn log_of(alloc: Global, bytes: &[(usize, u8)]) -> Result<Log<MemDisk>, LogFault>
    ensures { IfOk result (λ log. log.is_open ≡ true) }
{
    let mut image = vec![in alloc; 0u8; 4096]?;
    for (place, byte) in bytes {
        if *place < image.len() {
            image[*place] = *byte;
        }
    }
    match MemDisk::with_image(alloc, image) {
        Ok(disk) => match Log::open(alloc, disk) {
            Ok(log) => Ok(log),
            Err((_, fault)) => Err(fault),
        },
        Err(Memory) => Err(LogFault::Memory),
    }
}

#[test]
fn full_comes_where_no_byte_is_left(rt: HostRuntime) -> Result<(), Fail> {
    let payload = vec![in rt.alloc(); 7u8; 2035]?;
    let mut log = log_of(rt.alloc(), &[])?;
    assert_eq!(rt; log.area(), 2040);
    assert_eq!(rt;
        log.append(&payload),
        Err(AppendFault::Full {
            need: 2040,
            free: 2039,
        })
    );
    let mut log = log_of(rt.alloc(), &[])?;
    assert_eq!(rt; log.append(&payload[..2034]), Ok(()));
    Ok(())
}

#[test]
fn an_odd_selector_chooses_the_second_area(rt: HostRuntime) -> Result<(), Fail> {
    let log = log_of(rt.alloc(), &[(8, 3), (2056, 9), (2060, 1), (2061, b'x')])?;
    let list = log.payloads(rt.alloc())?;
    assert_eq!(rt; list.len(), 1);
    assert_eq!(rt; list[0].as_slice(), b"x".as_slice());
    assert_eq!(rt; log.used(), 7);
    Ok(())
}

#[test]
fn a_record_lies_within_its_area(rt: HostRuntime) {
    let open = [(16, 1), (19, 7), (20, 242)];
    let past = [(16, 1), (19, 7), (20, 243)];
    let shut = [(19, 255)];
    let magic = [(7, 1)];
    assert!(rt; log_of(rt.alloc(), &open).is_ok());
    assert!(rt; matches!(log_of(rt.alloc(), &past), Err(LogFault::BadLog)));
    assert!(rt; log_of(rt.alloc(), &shut).is_ok());
    assert!(rt; matches!(log_of(rt.alloc(), &magic), Err(LogFault::BadLog)));
}

// The change of the list that is cut off.
#[derive(Clone, Copy)]
enum Change {
    Append,
    Compact,
}

// A log that is opened again after a call and a power cut has the list before or after the call.
fn again<D: CrashDisk>(
    alloc: Global,
    log: Log<D>,
    payload: &[u8],
    pick: Pick,
) -> Result<Log<D>, (D, LogFault)>
    requires open { log.is_open ≡ true }
    requires short { length payload.now < 1000 }
    ensures opened { IfOk result (λ l. l.is_open ≡ true) }
    ensures either { IfOk result (λ l. (l.payloads ≡ log.payloads) ⊎ (l.payloads ≡ log.payloads ++ payload.now ∷ [])) }
    ensures never_bad { IfErr result (λ e. e.1 ≡ LogFault.BadLog → ⊥) }
{
    let mut log = log;
    let _ = log.append(payload);
    let mut disk = log.finish();
    disk.power(pick);
    Log::open(alloc, disk)
}

// Whether the call was done, and the list that is found after it and a power cut.
fn cut_off(
    alloc: Global,
    change: Change,
    steps: u32,
    pick: Pick,
) -> Result<(bool, Vec<Vec<u8>>), LogFault> {
    let mut log = log_of(alloc, &[])?;
    match log.append(b"one") {
        Ok(()) => {}
        Err(_) => return Err(LogFault::BadLog),
    }
    log.arm(steps);
    let done = match change {
        Change::Append => log.append(b"two").is_ok(),
        Change::Compact => log.compact(b"threefour", &[5, 9]).is_ok(),
    };
    let mut disk = log.finish();
    disk.power(pick);
    match Log::open(alloc, disk) {
        Ok(found) => match found.payloads(alloc) {
            Ok(list) => Ok((done, list)),
            Err(Memory) => Err(LogFault::Memory),
        },
        Err((_, fault)) => Err(fault),
    }
}

#[test]
fn a_cut_leaves_the_list_before_or_after(rt: HostRuntime) -> Result<(), Fail> {
    for change in [Change::Append, Change::Compact] {
        let after: [&[u8]; 2] = match change {
            Change::Append => [b"one", b"two"],
            Change::Compact => [b"three", b"four"],
        };
        for steps in 0..6 {
            for pick in [Pick::Old, Pick::New, Pick::Noise] {
                let (done, list) = cut_off(rt.alloc(), change, steps, pick)?;
                assert_eq!(rt; done, steps >= 4, "after {steps} steps");
                if list.len() == 1 {
                    assert!(rt; !done, "after {steps} steps");
                    assert_eq!(rt; list[0].as_slice(), b"one".as_slice());
                } else {
                    assert_eq!(rt; list.len(), 2);
                    assert_eq!(rt; list[0].as_slice(), after[0]);
                    assert_eq!(rt; list[1].as_slice(), after[1]);
                }
            }
        }
    }
    Ok(())
}

#[test]
fn a_stop_is_survived(rt: HostRuntime) -> Result<(), Fail> {
    let mut log = log_of(rt.alloc(), &[])?;
    log.arm(2);
    match again(rt.alloc(), log, b"one", Pick::Old) {
        Ok(found) => assert_eq!(rt; found.payloads(rt.alloc())?.len(), 0),
        Err((_, fault)) => return Err(Fail::from(fault)),
    }
    Ok(())
}
