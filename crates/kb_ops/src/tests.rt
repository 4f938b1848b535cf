//! Operations as bytes, against bytes that were written out by hand, and the small types.
use super::{Bytes, Change, Kind, Names, Op, OpFault, PlacedRows, Row, Rows, Word};
use kb_name::{Moment, Name, NodeId};
use std::alloc::Global;
use std::test::Fail;

/// The bytes of a first operation of device 1 at moment 0, from its tag on as given.
fn first(alloc: Global, rest: &[u8]) -> Result<Vec<u8>, Fail> {
    let mut text = Vec::from_slice(alloc, &[0, 1, 0, 0, 0, 1, 0, 0, 0, 0, 0, 0, 0, 0])?;
    text.extend_from_slice(rest)?;
    Ok(text)
}

/// Whether these bytes are an operation, which is spelled so.
fn is_read(alloc: Global, rest: &[u8]) -> Result<bool, Fail> {
    let text = first(alloc, rest)?;
    let op = Op::decode(alloc, &text)?;
    let again = op.encode(alloc)?;
    Ok(again.as_slice() == text.as_slice())
}

fn is_refused(alloc: Global, rest: &[u8]) -> Result<bool, Fail> {
    let text = first(alloc, rest)?;
    Ok(is_bad(alloc, &text))
}

fn is_bad(alloc: Global, text: &[u8]) -> bool {
    matches!(Op::decode(alloc, text), Err(OpFault::BadOp))
}

#[test]
fn the_first_directory(rt: HostRuntime) -> Result<(), Fail> {
    let op = Op {
        device: 1,
        seq: 1,
        moment: Moment::START,
        change: Change::Create {
            parent: NodeId::ROOT,
            name: Name::new(rt.alloc(), b"a")?,
            kind: Kind::Dir,
            bytes: Bytes::new(Vec::new(rt.alloc())),
        },
    };
    let text =
        b"\x00\x01\x00\x00\x00\x01\x00\x00\x00\x00\x00\x00\x00\x00\x01\x00\x00\x00\x00\x00\x00\x00\x00\x01a\x00\x00\x00\x00\x00";
    let made = op.encode(rt.alloc())?;
    assert_eq!(rt; made.as_slice(), text.as_slice());
    assert!(rt; Op::decode(rt.alloc(), text)? == op);
    assert!(rt; is_bad(rt.alloc(), &text[..29]));
    assert!(rt;
        is_refused(
            rt.alloc(),
            b"\x01\x00\x00\x00\x00\x00\x00\x00\x00\x01a\x00\x00\x00\x00\x00\x00"
        )?
    );
    Ok(())
}

#[test]
fn one_of_each(rt: HostRuntime) -> Result<(), Fail> {
    let alloc = rt.alloc();
    assert!(rt;
        is_read(
            alloc,
            b"\x01\x00\x01\x00\x00\x00\x02\x00\x03\x02ab\x02\x00\x00\x00\x01x"
        )?
    );
    assert!(rt; is_read(alloc, b"\x02\x00\x01\x00\x00\x00\x02\x00\x03")?);
    assert!(rt;
        is_read(
            alloc,
            b"\x03\x00\x01\x00\x00\x00\x02\x00\x03\x00\x00\x00\x00\x00\x00\x00\x00\x01b\x00"
        )?
    );
    assert!(rt;
        is_read(
            alloc,
            b"\x03\x00\x01\x00\x00\x00\x02\x00\x03\x00\x00\x00\x00\x00\x00\x00\x00\x01b\x01\x00\x01\x00\x00\x00\x02\x00\x04"
        )?
    );
    assert!(rt;
        is_read(
            alloc,
            b"\x04\x00\x01\x00\x00\x00\x02\x00\x03\x00\x00\x00\x05\x00\x00\x00\x02hi\x00\x00\x00\x07"
        )?
    );
    assert!(rt; is_read(alloc, b"\x05\x00\x01\x00\x00\x00\x02\x00\x03\x01")?);
    assert!(rt;
        is_read(
            alloc,
            b"\x06\x00\x01\x00\x00\x00\x02\x00\x03\x00\x00\x00\x3a\xff\xf4\x41\x7f"
        )?
    );
    Ok(())
}

#[test]
fn what_no_create_is(rt: HostRuntime) -> Result<(), Fail> {
    let alloc = rt.alloc();
    // a File with bytes, a kind 3, a name with a slash, no name
    assert!(rt;
        is_refused(
            alloc,
            b"\x01\x00\x01\x00\x00\x00\x02\x00\x03\x01a\x01\x00\x00\x00\x01x"
        )?
    );
    assert!(rt;
        is_refused(
            alloc,
            b"\x01\x00\x01\x00\x00\x00\x02\x00\x03\x01a\x03\x00\x00\x00\x00"
        )?
    );
    assert!(rt;
        is_refused(
            alloc,
            b"\x01\x00\x01\x00\x00\x00\x02\x00\x03\x01/\x01\x00\x00\x00\x00"
        )?
    );
    assert!(rt;
        is_refused(
            alloc,
            b"\x01\x00\x01\x00\x00\x00\x02\x00\x03\x00\x01\x00\x00\x00\x00"
        )?
    );
    // a target of 1,024 bytes, and one of 1,025
    let mut link = Vec::from_slice(
        alloc,
        b"\x01\x00\x01\x00\x00\x00\x02\x00\x03\x01a\x02\x00\x00\x04\x00",
    )?;
    link.extend_from_slice(&[b't'; 1024])?;
    assert!(rt; is_read(alloc, &link)?);
    let mut long = Vec::from_slice(
        alloc,
        b"\x01\x00\x01\x00\x00\x00\x02\x00\x03\x01a\x02\x00\x00\x04\x01",
    )?;
    long.extend_from_slice(&[b't'; 1025])?;
    assert!(rt; is_refused(alloc, &long)?);
    Ok(())
}

#[test]
fn what_no_other_change_is(rt: HostRuntime) -> Result<(), Fail> {
    let alloc = rt.alloc();
    // the root is removed, moved, replaced; a row replaces itself
    assert!(rt; is_refused(alloc, b"\x02\x00\x00\x00\x00\x00\x00\x00\x00")?);
    assert!(rt;
        is_refused(
            alloc,
            b"\x03\x00\x00\x00\x00\x00\x00\x00\x00\x00\x01\x00\x00\x00\x02\x00\x03\x01b\x00"
        )?
    );
    assert!(rt;
        is_refused(
            alloc,
            b"\x03\x00\x01\x00\x00\x00\x02\x00\x03\x00\x00\x00\x00\x00\x00\x00\x00\x01b\x01\x00\x00\x00\x00\x00\x00\x00\x00"
        )?
    );
    assert!(rt;
        is_refused(
            alloc,
            b"\x03\x00\x01\x00\x00\x00\x02\x00\x03\x00\x00\x00\x00\x00\x00\x00\x00\x01b\x01\x00\x01\x00\x00\x00\x02\x00\x03"
        )?
    );
    // a length below the end, a length past 16,777,216, an offset without bytes
    assert!(rt;
        is_refused(
            alloc,
            b"\x04\x00\x01\x00\x00\x00\x02\x00\x03\x00\x00\x00\x05\x00\x00\x00\x02hi\x00\x00\x00\x06"
        )?
    );
    assert!(rt;
        is_refused(
            alloc,
            b"\x04\x00\x01\x00\x00\x00\x02\x00\x03\x00\x00\x00\x00\x00\x00\x00\x00\x01\x00\x00\x01"
        )?
    );
    assert!(rt;
        is_refused(
            alloc,
            b"\x04\x00\x01\x00\x00\x00\x02\x00\x03\x00\x00\x00\x01\x00\x00\x00\x00\x00\x00\x00\x07"
        )?
    );
    // a flag 2, a moment past 9999, a tag 7
    assert!(rt; is_refused(alloc, b"\x05\x00\x01\x00\x00\x00\x02\x00\x03\x02")?);
    assert!(rt;
        is_refused(
            alloc,
            b"\x06\x00\x01\x00\x00\x00\x02\x00\x03\x00\x00\x00\x3a\xff\xf4\x41\x80"
        )?
    );
    assert!(rt; is_refused(alloc, b"\x07\x00\x01\x00\x00\x00\x02\x00\x03")?);
    Ok(())
}

#[test]
fn device_and_seq_begin_at_1(rt: HostRuntime) {
    assert!(rt;
        is_bad(
            rt.alloc(),
            b"\x00\x00\x00\x00\x00\x01\x00\x00\x00\x00\x00\x00\x00\x00\x02\x00\x01\x00\x00\x00\x02\x00\x03"
        )
    );
    assert!(rt;
        is_bad(
            rt.alloc(),
            b"\x00\x01\x00\x00\x00\x00\x00\x00\x00\x00\x00\x00\x00\x00\x02\x00\x01\x00\x00\x00\x02\x00\x03"
        )
    );
    assert!(rt; is_bad(rt.alloc(), b""));
}

#[test]
fn a_write_of_64_kib(rt: HostRuntime) -> Result<(), Fail> {
    let alloc = rt.alloc();
    let mut write = Vec::from_slice(
        alloc,
        b"\x04\x00\x01\x00\x00\x00\x02\x00\x03\x00\x00\x00\x00\x00\x01\x00\x00",
    )?;
    write.resize(65553, 7)?;
    let mut longer = write.clone()?;
    write.extend_from_slice(b"\x00\x01\x00\x00")?;
    assert!(rt; is_read(alloc, &write)?);
    longer.extend_from_slice(b"\x00\x00\xff\xff")?;
    assert!(rt; is_refused(alloc, &longer)?);
    Ok(())
}

#[test]
fn small_types(rt: HostRuntime) -> Result<(), Fail> {
    assert_eq!(rt; Word::new(rt.alloc(), "/a")?.as_str(), "/a");
    let root = Row::root(rt.alloc());
    assert!(rt; root == root.clone()?);
    let rows = Rows::new(vec![in rt.alloc(); root]?);
    assert_eq!(rt; rows.as_slice().len(), 1);
    assert_eq!(rt; rows.into_vec().len(), 1);
    let names = Names::new(Vec::new(rt.alloc()));
    assert_eq!(rt; names.as_slice().len(), 0);
    assert_eq!(rt; names.into_vec().len(), 0);
    let placed = PlacedRows::new(Vec::new(rt.alloc()));
    assert_eq!(rt; placed.as_slice().len(), 0);
    assert_eq!(rt; placed.into_vec().len(), 0);
    let bytes = Bytes::new(Vec::from_slice(rt.alloc(), b"x")?);
    assert!(rt; bytes == bytes.clone()?);
    assert_eq!(rt; bytes.into_vec().as_slice(), b"x".as_slice());
    Ok(())
}
