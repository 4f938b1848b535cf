//! Steps that succeed and fail, and what each kind of power cut leaves.
use crate::{MemDisk, Rack};
use kb_edge::{CrashDisk, Disk, DiskMaker, Pick, Stopped};
use std::test::Fail;

// The first bytes of a disk.
fn first(disk: &mut impl Disk) -> [u8; 4] {
    let mut into = [b'?'; 4];
    if disk.size() >= 4 && disk.read(0, &mut into).is_err() {
        return *b"stop";
    }
    into
}

// A synced 'ab' at 0, and then 'xy' that is not synced.
fn half_synced(disk: &mut impl CrashDisk) -> Result<(), Stopped> {
    if disk.size() < 4 {
        return Ok(());
    }
    disk.write(0, b"ab")?;
    disk.sync()?;
    disk.write(1, b"xy")
}

#[test]
fn a_cut_picks_the_dirty_bytes(rt: HostRuntime) -> Result<(), Fail> {
    for (pick, left) in [
        (Pick::Old, *b"ab\0\0"),
        (Pick::New, *b"axy\0"),
        (Pick::Noise, [b'a', 48, 85, 0]),
    ] {
        let mut disk = Rack.make(rt.alloc(), 4)?;
        assert_eq!(rt; half_synced(&mut disk), Ok(()));
        disk.power(pick);
        assert_eq!(rt; first(&mut disk), left);
    }
    Ok(())
}

#[test]
fn a_disk_stops_after_its_steps(rt: HostRuntime) -> Result<(), Fail> {
    let mut disk = MemDisk::new(rt.alloc(), 4)?;
    disk.arm(1);
    assert_eq!(rt; half_synced(&mut disk), Err(Stopped));
    assert_eq!(rt; first(&mut disk), *b"stop");
    assert_eq!(rt; half_synced(&mut disk), Err(Stopped));
    disk.power(Pick::New);
    assert_eq!(rt; first(&mut disk), *b"ab\0\0");
    Ok(())
}

#[test]
fn the_first_write_that_fails_enters(rt: HostRuntime) -> Result<(), Fail> {
    let image = b"1234".to_vec(rt.alloc())?;
    let mut disk = MemDisk::with_image(rt.alloc(), image)?;
    assert_eq!(rt; disk.size(), 4);
    disk.arm(0);
    assert_eq!(rt; half_synced(&mut disk), Err(Stopped));
    disk.power(Pick::New);
    assert_eq!(rt; first(&mut disk), *b"ab34");
    disk.arm(0);
    assert_eq!(rt; half_synced(&mut disk), Err(Stopped));
    disk.power(Pick::Noise);
    assert_eq!(rt; first(&mut disk), [11, 48, b'3', b'4']);
    Ok(())
}

// Disks go to other threads.
fn moves<D: CrashDisk + Send + Drop>(_disk: D) {}

#[test]
fn a_disk_may_be_sent(rt: HostRuntime) -> Result<(), Fail> {
    moves(MemDisk::new(rt.alloc(), 4)?);
    Ok(())
}
