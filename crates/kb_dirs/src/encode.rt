//! Writing a directory's text.
ghost use Rattle.std.specs.Prelude.{◌≡◌, ◌++◌, ◌≤◌, IfOk, OnOk};
ghost use Rattle.std.specs.List.{AllByRecursion};
ghost use Rattle.kb_wire.specs.Fields.{u64_text};
ghost use Rattle.kb_name.specs.Moments.{last_second};
ghost use Rattle.kb_ops.specs.Grammar.{node_text, name_text, kind_text, flag_text, IsNode};
ghost use Rattle.kb_files.specs.Files.{pointer, IsFit};
ghost use Rattle.kb_dirs.specs.Dirs.{entry_text, entries_text, dir_text, IsEntry, IsProper, AreEntries, AreProper};

use crate::entries::Entry;
use kb_blocks::Ptr;
use kb_edge::Memory;
use kb_name::{Moment, Name, NodeId};
use kb_ops::Kind;
use kb_wire::Writer;
use std::alloc::Global;

fn put_node(writer: &mut Writer, node: NodeId) -> Result<(), Memory>
    ensures text { OnOk result (writer.new ≡ writer.old ++ node_text node) }
    ensures room { OnOk result (IsNode node) }
{
    writer.u16(node.device)?;
    writer.u32(node.seq)?;
    writer.u16(node.part)?;
    Ok(())
}

fn put_name(writer: &mut Writer, name: &Name) -> Result<(), Memory>
    ensures { OnOk result (writer.new ≡ writer.old ++ name_text name.now) }
{
    let bytes = name.bytes();
    writer.u8(bytes.len() as u8)?;
    writer.bytes(bytes)?;
    Ok(())
}

fn put_kind(writer: &mut Writer, kind: Kind) -> Result<(), Memory>
    ensures { OnOk result (writer.new ≡ writer.old ++ kind_text kind) }
{
    match kind {
        Kind::Dir => writer.u8(0),
        Kind::File => writer.u8(1),
        Kind::Link => writer.u8(2),
    }
}

fn put_flag(writer: &mut Writer, on: bool) -> Result<(), Memory>
    ensures { OnOk result (writer.new ≡ writer.old ++ flag_text on) }
{
    if on { writer.u8(1) } else { writer.u8(0) }
}

fn put_moment(writer: &mut Writer, moment: Moment) -> Result<(), Memory>
    ensures text { OnOk result (writer.new ≡ writer.old ++ u64_text moment) }
    ensures room { OnOk result (moment ≤ last_second) }
{
    writer.u64(moment.seconds())
}

fn put_ptr(writer: &mut Writer, ptr: Ptr) -> Result<(), Memory>
    ensures text { OnOk result (writer.new ≡ writer.old ++ pointer ptr) }
    ensures room { OnOk result (IsFit ptr) }
{
    writer.bytes(&ptr.id)?;
    writer.u32(ptr.generation)?;
    Ok(())
}

fn put_entry(writer: &mut Writer, entry: &Entry) -> Result<(), Memory>
    requires { IsProper entry.now }
    ensures text { OnOk result (writer.new ≡ writer.old ++ entry_text entry.now) }
    ensures room { OnOk result (IsEntry entry.now) }
{
    put_name(writer, &entry.name)?;
    put_node(writer, entry.id)?;
    put_kind(writer, entry.kind)?;
    put_flag(writer, entry.exec)?;
    put_moment(writer, entry.mtime)?;
    writer.u32(entry.size)?;
    put_ptr(writer, entry.ptr)?;
    Ok(())
}

fn put_entries(writer: &mut Writer, entries: &[Entry]) -> Result<(), Memory>
    requires { AllByRecursion IsProper entries.now }
    ensures text { OnOk result (writer.new ≡ writer.old ++ entries_text entries.now) }
    ensures room { OnOk result (AllByRecursion IsEntry entries.now) }
{
    for entry in entries {
        put_entry(writer, entry)?;
    }
    Ok(())
}

/// The text of a directory's block.
pub(crate) fn encode_dir(alloc: Global, entries: &[Entry]) -> Result<Vec<u8>, Memory>
    requires { AreProper entries.now }
    ensures text { IfOk result (λ text. text.items ≡ dir_text entries.now) }
    ensures room { OnOk result (AreEntries entries.now) }
{
    let mut writer = Writer::new(alloc);
    writer.u8(0x44)?;
    writer.u64(entries.len() as u64)?;
    put_entries(&mut writer, entries)?;
    Ok(writer.finish())
}
