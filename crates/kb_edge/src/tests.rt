//! Calls that succeed, and what the ends over std's give.
use crate::{
    Failed, Link, Lost, MemLink, MemSink, MemSource, Side, Sink, Source, StdSink, StdSource,
};
use std::test::Fail;

#[test]
fn a_source_gives_its_pieces(rt: HostRuntime) -> Result<(), Fail> {
    let bytes = b"abcde".to_vec(rt.alloc())?;
    let failing = [1, 4].to_vec(rt.alloc())?;
    let mut source = MemSource::new(bytes, 2, failing);
    let mut into = [b'-'; 3];
    assert_eq!(rt; source.read(&mut into), Err(Failed));
    assert_eq!(rt; source.read(&mut into), Ok(2));
    assert_eq!(rt; into, *b"ab-");
    assert_eq!(rt; source.read(&mut into), Ok(2));
    assert_eq!(rt; into, *b"cd-");
    assert_eq!(rt; source.read(&mut into), Err(Failed));
    assert_eq!(rt; source.read(&mut into), Ok(1));
    assert_eq!(rt; into, *b"ed-");
    assert_eq!(rt; source.read(&mut into), Ok(0));
    Ok(())
}

#[test]
fn a_sink_holds_what_has_room(rt: HostRuntime) -> Result<(), Fail> {
    let failing = [2].to_vec(rt.alloc())?;
    let mut sink = MemSink::new(rt.alloc(), 4, failing)?;
    assert_eq!(rt; sink.put(b"ab"), Ok(()));
    assert_eq!(rt; sink.put(b"c"), Err(Failed));
    assert_eq!(rt; sink.put(b"cde"), Err(Failed));
    assert_eq!(rt; sink.put(b"cd"), Ok(()));
    assert_eq!(rt; sink.put(b"e"), Err(Failed));
    assert_eq!(rt; sink.put(b""), Ok(()));
    assert_eq!(rt; sink.bytes(), b"abcd".as_slice());
    Ok(())
}

#[test]
fn a_reader_is_a_source(rt: HostRuntime) {
    let mut source = StdSource::new(b"abc".as_slice());
    let mut into = [b'-'; 2];
    assert_eq!(rt; source.read(&mut into), Ok(2));
    assert_eq!(rt; into, *b"ab");
    assert_eq!(rt; source.read(&mut into), Ok(1));
    assert_eq!(rt; into, *b"cb");
    assert_eq!(rt; source.read(&mut into), Ok(0));
}

#[test]
fn a_writer_is_a_sink(rt: HostRuntime) {
    let mut room = [b'-'; 4];
    {
        let mut sink = StdSink::new(&mut room[..]);
        assert_eq!(rt; sink.put(b"abc"), Ok(()));
        assert_eq!(rt; sink.put(b"de"), Err(Failed));
    }
    assert_eq!(rt; room, *b"abcd");
}

#[test]
fn an_armed_side_loses_one_call(rt: HostRuntime) {
    let mut link = MemLink::new();
    assert_eq!(rt; link.send(), Ok(()));
    link.arm(Side::Request);
    link.arm(Side::Reply);
    assert_eq!(rt; link.send(), Ok(()));
    assert_eq!(rt; link.answer(), Err(Lost));
    assert_eq!(rt; link.answer(), Ok(()));
}
