//! Requests that are planned and done on a table, up to a full one.
use kb_apply::{apply, plan, prepare};
use kb_edge::Memory;
use kb_name::{Moment, NodeId};
use kb_ops::{Bytes, PlanFault, Planned, Request, Word};
use kb_tree::Table;
use std::alloc::Global;
use std::test::Fail;

/// What came of a request that was planned and, where there was something to do, done.
#[derive(Clone, Copy, Debug, PartialEq, Eq)]
pub enum Outcome {
    Done,
    Same,
    Refused(PlanFault),
}

/// Does a request of device 1.
pub fn call(alloc: Global, table: &mut Table, seq: u32, request: &Request) -> Outcome {
    let id = NodeId {
        device: 1,
        seq,
        part: 0,
    };
    if table.get(id).is_some() {
        return Outcome::Refused(PlanFault::Memory);
    }
    match plan(alloc, table, request, 1, seq, Moment::START) {
        Err(fault) => Outcome::Refused(fault),
        Ok(Planned::Same) => Outcome::Same,
        Ok(Planned::Made(op)) => match prepare(alloc, table, &op) {
            Ok(prepared) => {
                apply(table, prepared);
                Outcome::Done
            }
            Err(Memory) => Outcome::Refused(PlanFault::Memory),
        },
    }
}

pub fn mkdir(alloc: Global, table: &mut Table, seq: u32, path: &str) -> Result<Outcome, Memory> {
    let path = Word::new(alloc, path)?;
    Ok(call(alloc, table, seq, &Request::Mkdir { path }))
}

pub fn mkfile(alloc: Global, table: &mut Table, seq: u32, path: &str) -> Result<Outcome, Memory> {
    let path = Word::new(alloc, path)?;
    Ok(call(alloc, table, seq, &Request::Mkfile { path }))
}

pub fn write(
    alloc: Global,
    table: &mut Table,
    seq: u32,
    path: &str,
    bytes: &[u8],
) -> Result<Outcome, Memory> {
    let path = Word::new(alloc, path)?;
    let bytes = Bytes::new(Vec::from_slice(alloc, bytes)?);
    let request = Request::Write {
        path,
        offset: 0,
        bytes,
    };
    Ok(call(alloc, table, seq, &request))
}

pub fn link(
    alloc: Global,
    table: &mut Table,
    seq: u32,
    path: &str,
    target: &[u8],
) -> Result<Outcome, Memory> {
    let path = Word::new(alloc, path)?;
    let target = Bytes::new(Vec::from_slice(alloc, target)?);
    Ok(call(alloc, table, seq, &Request::Link { path, target }))
}

#[test]
fn a_tree_is_full(rt: HostRuntime) -> Result<(), Fail> {
    let alloc = rt.alloc();
    let mut table = Table::new(alloc)?;
    for seq in 1..32_768_u32 {
        let path = format!(in alloc; "/f{seq}")?;
        let made = mkfile(alloc, &mut table, seq, path.as_str())?;
        assert!(rt; made == Outcome::Done);
    }
    let refused = mkfile(alloc, &mut table, 40_000, "/g")?;
    assert!(rt; refused == Outcome::Refused(PlanFault::TreeFull));
    Ok(())
}
