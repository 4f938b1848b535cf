ghost use Rattle.std.specs.Prelude.{◌≤◌};

use super::{
    DeviceName, Moment, Name, NameFault, NodeId, Path, PathFault, conflicted, escape, parts,
    unescape,
};
use std::alloc::Global;
use std::process::Abort;
use std::test::Fail;

#[test]
fn escapes(rt: HostRuntime) -> Result<(), Fail> {
    let text = escape(rt.alloc(), b" %\x01a~\x7f\xc3\xa9")?;
    assert_eq!(rt; text.as_slice(), b"%20%25%01a~%7F%C3%A9".as_slice());
    let bytes = unescape(rt.alloc(), b"%41%zz%2")?;
    assert_eq!(rt; bytes.as_slice(), b"A%zz%2".as_slice());
    Ok(())
}

#[test]
fn cuts(rt: HostRuntime) -> Result<(), Fail> {
    let found = parts(rt.alloc(), b"a//b", b'/')?;
    assert_eq!(rt; found.len(), 3);
    Ok(())
}

#[test]
fn names(rt: HostRuntime) -> Result<(), Fail> {
    let longest = Vec::from_array(rt.alloc(), [b'n'; 255])?;
    assert_eq!(rt;
        Name::new(rt.alloc(), &longest)?.bytes(),
        longest.as_slice()
    );
    let longer = Vec::from_array(rt.alloc(), [b'n'; 256])?;
    assert!(rt; is_bad(Name::new(rt.alloc(), &longer)));
    assert!(rt; is_bad(Name::new(rt.alloc(), b"")));
    assert!(rt; is_bad(Name::new(rt.alloc(), b".")));
    assert!(rt; is_bad(Name::new(rt.alloc(), b"..")));
    assert!(rt; is_bad(Name::new(rt.alloc(), b"a/b")));
    assert!(rt; is_bad(Name::new(rt.alloc(), b"a\0")));
    assert!(rt; is_bad(Name::new(rt.alloc(), b"\xff")));
    let name = Name::new(rt.alloc(), b"...")?;
    assert!(rt; name == name.clone()?);
    assert_eq!(rt; Name::none(rt.alloc()).bytes().len(), 0);
    Ok(())
}

fn is_bad(made: Result<Name, NameFault>) -> bool {
    matches!(made, Err(NameFault::BadName))
}

#[test]
fn device_names(rt: HostRuntime) -> Result<(), Fail> {
    let longest = b"laptop-0123456789-abcxyz";
    let name = DeviceName::new(rt.alloc(), longest)?;
    assert_eq!(rt; name.bytes(), longest.as_slice());
    assert!(rt; name == name.clone()?);
    assert!(rt; is_bad_device(DeviceName::new(rt.alloc(), b"laptop-0123456789-abcxyz1")));
    assert!(rt; is_bad_device(DeviceName::new(rt.alloc(), b"")));
    assert!(rt; is_bad_device(DeviceName::new(rt.alloc(), b"Laptop")));
    Ok(())
}

fn is_bad_device(made: Result<DeviceName, NameFault>) -> bool {
    matches!(made, Err(NameFault::BadName))
}

#[test]
fn node_ids(rt: HostRuntime) {
    let first = NodeId {
        device: 1,
        seq: 9,
        part: 9,
    };
    let second = NodeId {
        device: 2,
        seq: 1,
        part: 0,
    };
    let third = NodeId {
        device: 2,
        seq: 1,
        part: 1,
    };
    assert!(rt; NodeId::ROOT < first);
    assert!(rt; first < second);
    assert!(rt; second < third);
}

#[test]
fn moments(rt: HostRuntime) {
    assert!(rt; Moment::new(253_402_300_800).is_none());
    match Moment::new(253_402_300_799) {
        Some(last) => assert_eq!(rt; last.seconds(), 253_402_300_799),
        None => assert!(rt; false),
    }
    assert_eq!(rt; Moment::START.seconds(), 0);
}

#[test]
fn paths(rt: HostRuntime) -> Result<(), Fail> {
    assert_eq!(rt; Path::read(rt.alloc(), "/")?.names().len(), 0);
    let path = Path::read(rt.alloc(), "/a/%62%c3%A9/%zz")?;
    assert_eq!(rt; path.names().len(), 3);
    assert_eq!(rt; path.names()[1].bytes(), b"b\xc3\xa9".as_slice());
    assert_eq!(rt; path.names()[2].bytes(), b"%zz".as_slice());
    assert!(rt; is_fault(Path::read(rt.alloc(), ""), PathFault::BadPath));
    assert!(rt; is_fault(Path::read(rt.alloc(), "a"), PathFault::BadPath));
    assert!(rt; is_fault(Path::read(rt.alloc(), "//"), PathFault::BadPath));
    assert!(rt; is_fault(Path::read(rt.alloc(), "/a/"), PathFault::BadPath));
    assert!(rt; is_fault(Path::read(rt.alloc(), "/.."), PathFault::BadPath));
    assert!(rt; is_fault(Path::read(rt.alloc(), "/a%2fb"), PathFault::BadPath));
    assert!(rt; is_fault(Path::read(rt.alloc(), "/%ff"), PathFault::BadPath));
    Ok(())
}

#[test]
fn deep_paths(rt: HostRuntime) -> Result<(), Fail> {
    let word =
        "/0/1/2/3/4/5/6/7/8/9/a/b/c/d/e/f/0/1/2/3/4/5/6/7/8/9/a/b/c/d/e/f/0/1/2/3/4/5/6/7/8/9/a/b/c/d/e/f/0/1/2/3/4/5/6/7/8/9/a/b/c/d/e/f";
    assert_eq!(rt; Path::read(rt.alloc(), word)?.names().len(), 64);
    let deep = format!(in rt.alloc(); "{word}/g")?;
    assert!(rt; is_fault(Path::read(rt.alloc(), &deep), PathFault::TooDeep));
    let bad = format!(in rt.alloc(); "{word}/g/.")?;
    assert!(rt; is_fault(Path::read(rt.alloc(), &bad), PathFault::BadPath));
    Ok(())
}

fn is_fault(made: Result<Path, PathFault>, fault: PathFault) -> bool {
    match made {
        Ok(_) => false,
        Err(given) => given == fault,
    }
}

/// Of a name and the text of its conflicted name by `phone`, on the day of the first of May 2024.
fn conflicts(rt: &impl Abort, alloc: Global, name: &[u8], k: u64, text: &[u8])
    requires { 1 ≤ k }
{
    on_day(rt, alloc, name, k, 1_714_521_600, text);
}

fn on_day(rt: &impl Abort, alloc: Global, name: &[u8], k: u64, second: u64, text: &[u8])
    requires { 1 ≤ k }
{
    let name = Name::new(alloc, name).expect(rt, "a name");
    let device = DeviceName::new(alloc, b"phone").expect(rt, "a device");
    let moment = Moment::new(second).expect(rt, "a moment");
    let made = conflicted(alloc, &name, &device, moment, k).expect(rt, "memory");
    assert!(rt; made.bytes() == text);
}

#[test]
fn conflicted_names(rt: HostRuntime) {
    let alloc = rt.alloc();
    conflicts(
        &rt,
        alloc,
        b"f.txt",
        1,
        b"f.conflicted (phone copy 2024-05-01).txt",
    );
    conflicts(
        &rt,
        alloc,
        b"f.txt",
        2,
        b"f.conflicted (phone copy 2024-05-01 2).txt",
    );
    conflicts(
        &rt,
        alloc,
        b"a.tar.gz",
        10,
        b"a.tar.conflicted (phone copy 2024-05-01 10).gz",
    );
    conflicts(
        &rt,
        alloc,
        b"README",
        1,
        b"README.conflicted (phone copy 2024-05-01)",
    );
    conflicts(
        &rt,
        alloc,
        b".profile",
        1,
        b".profile.conflicted (phone copy 2024-05-01)",
    );
    conflicts(
        &rt,
        alloc,
        b"a.",
        1,
        b"a.conflicted (phone copy 2024-05-01).",
    );
    conflicts(
        &rt,
        alloc,
        b"..x",
        1,
        b"..conflicted (phone copy 2024-05-01).x",
    );
    conflicts(
        &rt,
        alloc,
        b"a.31-bytes-behind-a-dot-are-parts",
        1,
        b"a.conflicted (phone copy 2024-05-01).31-bytes-behind-a-dot-are-parts",
    );
    conflicts(
        &rt,
        alloc,
        b"a.32-bytes-behind-a-dot-are-a-stem",
        1,
        b"a.32-bytes-behind-a-dot-are-a-stem.conflicted (phone copy 2024-05-01)",
    );
}

#[test]
fn days(rt: HostRuntime) {
    let alloc = rt.alloc();
    on_day(
        &rt,
        alloc,
        b"f",
        1,
        0,
        b"f.conflicted (phone copy 1970-01-01)",
    );
    on_day(
        &rt,
        alloc,
        b"f",
        1,
        951_868_799,
        b"f.conflicted (phone copy 2000-02-29)",
    );
    on_day(
        &rt,
        alloc,
        b"f",
        1,
        951_868_800,
        b"f.conflicted (phone copy 2000-03-01)",
    );
    on_day(
        &rt,
        alloc,
        b"f",
        1,
        4_107_542_399,
        b"f.conflicted (phone copy 2100-02-28)",
    );
    on_day(
        &rt,
        alloc,
        b"f",
        1,
        4_107_542_400,
        b"f.conflicted (phone copy 2100-03-01)",
    );
    on_day(
        &rt,
        alloc,
        b"f",
        1,
        253_402_300_799,
        b"f.conflicted (phone copy 9999-12-31)",
    );
}

/// How many bytes the conflicted name of 85 euro signs has.
fn cut_name(rt: &impl Abort, alloc: Global, k: u64) -> usize
    requires { 1 ≤ k }
{
    let mut text = Vec::new(alloc);
    for _ in 0..85 {
        text.extend_from_slice("€".as_bytes()).expect(rt, "memory");
    }
    let name = Name::new(alloc, &text).expect(rt, "a name");
    let device = DeviceName::new(alloc, b"phone").expect(rt, "a device");
    let moment = Moment::new(1_714_521_600).expect(rt, "a moment");
    conflicted(alloc, &name, &device, moment, k)
        .expect(rt, "memory")
        .bytes()
        .len()
}

#[test]
fn long_names(rt: HostRuntime) {
    assert_eq!(rt; cut_name(&rt, rt.alloc(), 1), 254);
    assert_eq!(rt; cut_name(&rt, rt.alloc(), 2), 253);
}
