//! What a table shows, and how many rows a view of it counts.
use crate::tests::apply::{mkdir, mkfile};
use kb_actions::Counted;
use kb_name::{Name, NodeId, Path};
use kb_opchains::View;
use kb_ops::{Row, WalkFault};
use kb_tree::Table;
use std::alloc::Global;
use std::test::Fail;

fn id(seq: u32) -> NodeId {
    NodeId {
        device: 1,
        seq,
        part: 0,
    }
}

fn text<'a>(row: Option<&'a Row>) -> Option<&'a [u8]> {
    row.map(|row| row.name.bytes())
}

fn path(alloc: Global, word: &str) -> Result<Path, Fail> {
    let path = Path::read(alloc, word)?;
    Ok(path)
}

/// The root with `/d`, `/f`, and `/d/b` and `/d/a`, made in this order.
fn small(alloc: Global) -> Result<Table, Fail> {
    let mut table = Table::new(alloc)?;
    mkdir(alloc, &mut table, 3, "/d")?;
    mkfile(alloc, &mut table, 4, "/f")?;
    mkfile(alloc, &mut table, 2, "/d/b")?;
    mkdir(alloc, &mut table, 7, "/d/a")?;
    Ok(table)
}

#[test]
fn rows_are_found(rt: HostRuntime) -> Result<(), Fail> {
    let table = small(rt.alloc())?;
    assert_eq!(rt; table.len(), 5);
    assert_eq!(rt; text(table.get(id(7))), Some(b"a".as_slice()));
    assert_eq!(rt;
        table.child(id(3), &Name::new(rt.alloc(), b"b")?),
        Some(id(2))
    );
    assert_eq!(rt;
        table.children(id(3))?.as_slice(),
        [id(7), id(2)].as_slice()
    );
    assert!(rt; table.file(id(2)).is_some());
    Ok(())
}

#[test]
fn walks_go_name_by_name(rt: HostRuntime) -> Result<(), Fail> {
    let table = small(rt.alloc())?;
    assert_eq!(rt; table.walk(&path(rt.alloc(), "/d/a")?), Ok(id(7)));
    assert_eq!(rt;
        table.walk(&path(rt.alloc(), "/f/x")?),
        Err(WalkFault::NotDir)
    );
    Ok(())
}

/// The table of a table's rows.
fn filled(table: &Table) -> Result<Table, Fail> {
    table.is_well_formed();
    let again = Table::from_rows(table.rows()?)?;
    Ok(again)
}

#[test]
fn the_rows_make_the_same_table(rt: HostRuntime) -> Result<(), Fail> {
    let table = small(rt.alloc())?;
    let rows = table.rows()?;
    let again = filled(&table)?;
    assert_eq!(rt; rows.as_slice(), again.rows()?.as_slice());
    let copy = table.copy()?;
    assert_eq!(rt; rows.as_slice(), copy.rows()?.as_slice());
    Ok(())
}

#[test]
fn each_look_counts(rt: HostRuntime) -> Result<(), Fail> {
    let table = small(rt.alloc())?;
    let mut view = Counted::new(&table);
    assert!(rt; view.get(NodeId::ROOT).is_some());
    assert!(rt; view.get(id(9)).is_none());
    assert!(rt; view.count() == 2);
    let name = Name::new(rt.alloc(), b"b")?;
    assert!(rt; view.child(id(3), &name) == Some(id(2)));
    assert!(rt; view.count() == 3);
    let children = view.children(id(3))?;
    assert!(rt; children.len() == 2);
    assert!(rt; view.count() == 6);
    let rows = view.rows()?;
    assert!(rt; rows.len() == 5);
    assert!(rt; view.count() == 12);
    Ok(())
}
