//! Fields that are written and read, and reads that are refused.
use crate::{Reader, WireFault, Writer};
use std::test::Fail;

#[test]
fn numbers_are_big_endian(rt: HostRuntime) -> Result<(), Fail> {
    let mut writer = Writer::new(rt.alloc());
    writer.u32(258)?;
    assert_eq!(rt; writer.finish().as_slice(), [0, 0, 1, 2].as_slice());
    Ok(())
}

#[test]
fn a_field_that_was_written_is_read(rt: HostRuntime) -> Result<(), Fail> {
    let mut writer = Writer::with_room(rt.alloc(), 19)?;
    writer.u8(7)?;
    writer.u16(0x0102)?;
    writer.u32(0x0304_0506)?;
    writer.u64(0x0708_090a_0b0c_0d0e)?;
    writer.bytes(b"ab")?;
    writer.bytes("é".as_bytes())?;
    let bytes = writer.finish();
    let mut reader = Reader::new(&bytes);
    assert_eq!(rt; reader.left(), 19);
    assert_eq!(rt; reader.u8(), Ok(7));
    assert_eq!(rt; reader.u16(), Ok(0x0102));
    assert_eq!(rt; reader.u32(), Ok(0x0304_0506));
    assert_eq!(rt; reader.u64(), Ok(0x0708_090a_0b0c_0d0e));
    assert!(rt; matches!(reader.bytes(2), Ok(b"ab")));
    assert!(rt; matches!(reader.text(2), Ok("é")));
    assert_eq!(rt; reader.left(), 0);
    assert_eq!(rt; reader.u8(), Err(WireFault::Short));
    Ok(())
}

#[test]
fn a_refused_read_takes_nothing(rt: HostRuntime) {
    let mut reader = Reader::new(&[0xc3, 0x28, 0x41]);
    assert_eq!(rt; reader.u32(), Err(WireFault::Short));
    assert_eq!(rt; reader.u64(), Err(WireFault::Short));
    assert!(rt; matches!(reader.bytes(4), Err(WireFault::Short)));
    assert!(rt; matches!(reader.text(4), Err(WireFault::Short)));
    assert!(rt; matches!(reader.text(2), Err(WireFault::BadText)));
    assert_eq!(rt; reader.left(), 3);
    assert_eq!(rt; reader.u16(), Ok(0xc328));
    assert!(rt; matches!(reader.text(1), Ok("A")));
    assert!(rt; matches!(reader.bytes(0), Ok(&[])));
    assert_eq!(rt; reader.u16(), Err(WireFault::Short));
}
