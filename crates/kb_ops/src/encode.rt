//! Writing an operation.
ghost use Rattle.std.specs.Prelude.{◌≡◌, ◌^◌, ◌<◌, ◌≤◌, ◌++◌, OnOk, length, true};
ghost use Rattle.kb_name.specs.Names.{is_kept_name};
ghost use Rattle.kb_name.specs.Moments.{last_second};
ghost use Rattle.kb_wire.specs.Fields.{u64_text};
ghost use Rattle.kb_ops.specs.Grammar.{node_text, name_text, bytes_text, kind_text, flag_text, replaced_text, change_text, op_text, IsNode, MayBeNode, HasRoom, IsNew, IsOp, IsProper, MeetsRules};
ghost use Rattle.kb_ops.specs.Trees.{IsWrite};

use super::rows::{Change, Op};
use super::values::{Bytes, Kind};
use kb_edge::Memory;
use kb_name::{Moment, Name, NodeId};
use kb_wire::Writer;
use std::alloc::Global;

fn put_node(writer: &mut Writer, node: NodeId) -> Result<(), Memory>
    ensures text { OnOk result (writer.new ≡ writer.old ++ node_text node) }
    ensures room { OnOk result (IsNode node) }
{
    writer.u16(node.device)?;
    writer.u32(node.seq)?;
    writer.u16(node.part)?;
    Ok(())
}

fn put_name(writer: &mut Writer, name: &Name) -> Result<(), Memory>
    ensures { OnOk result (writer.new ≡ writer.old ++ name_text name.now) }
{
    let bytes = name.bytes();
    writer.u8(bytes.len() as u8)?;
    writer.bytes(bytes)?;
    Ok(())
}

fn put_bytes(writer: &mut Writer, bytes: &Bytes) -> Result<(), Memory>
    requires { length bytes.now < 2 ^ 32 }
    ensures { OnOk result (writer.new ≡ writer.old ++ bytes_text bytes.now) }
{
    let bytes = bytes.as_slice();
    writer.u32(bytes.len() as u32)?;
    writer.bytes(bytes)?;
    Ok(())
}

fn put_moment(writer: &mut Writer, moment: Moment) -> Result<(), Memory>
    ensures text { OnOk result (writer.new ≡ writer.old ++ u64_text moment) }
    ensures room { OnOk result (moment ≤ last_second) }
{
    writer.u64(moment.seconds())
}

fn put_kind(writer: &mut Writer, kind: Kind) -> Result<(), Memory>
    ensures { OnOk result (writer.new ≡ writer.old ++ kind_text kind) }
{
    match kind {
        Kind::Dir => writer.u8(0),
        Kind::File => writer.u8(1),
        Kind::Link => writer.u8(2),
    }
}

fn put_flag(writer: &mut Writer, on: bool) -> Result<(), Memory>
    ensures { OnOk result (writer.new ≡ writer.old ++ flag_text on) }
{
    if on { writer.u8(1) } else { writer.u8(0) }
}

fn put_replaced(writer: &mut Writer, replaced: Option<NodeId>) -> Result<(), Memory>
    ensures text { OnOk result (writer.new ≡ writer.old ++ replaced_text replaced) }
    ensures room { OnOk result (MayBeNode replaced) }
{
    match replaced {
        None => writer.u8(0),
        Some(gone) => {
            writer.u8(1)?;
            put_node(writer, gone)
        }
    }
}

fn put_create(
    writer: &mut Writer,
    parent: NodeId,
    name: &Name,
    kind: Kind,
    bytes: &Bytes,
) -> Result<(), Memory>
    requires { IsNew kind bytes.now }
    ensures text { OnOk result (writer.new ≡ writer.old ++ change_text (Change.Create parent name.now kind bytes.now)) }
    ensures room { OnOk result (HasRoom (Change.Create parent name.now kind bytes.now)) }
{
    writer.u8(1)?;
    put_node(writer, parent)?;
    put_name(writer, name)?;
    put_kind(writer, kind)?;
    put_bytes(writer, bytes)?;
    Ok(())
}

fn put_remove(writer: &mut Writer, node: NodeId) -> Result<(), Memory>
    ensures text { OnOk result (writer.new ≡ writer.old ++ change_text (Change.Remove node)) }
    ensures room { OnOk result (HasRoom (Change.Remove node)) }
{
    writer.u8(2)?;
    put_node(writer, node)?;
    Ok(())
}

fn put_rename(
    writer: &mut Writer,
    node: NodeId,
    parent: NodeId,
    name: &Name,
    replaced: Option<NodeId>,
) -> Result<(), Memory>
    ensures text { OnOk result (writer.new ≡ writer.old ++ change_text (Change.Rename node parent name.now replaced)) }
    ensures room { OnOk result (HasRoom (Change.Rename node parent name.now replaced)) }
{
    writer.u8(3)?;
    put_node(writer, node)?;
    put_node(writer, parent)?;
    put_name(writer, name)?;
    put_replaced(writer, replaced)?;
    Ok(())
}

fn put_sync(
    writer: &mut Writer,
    node: NodeId,
    offset: u32,
    bytes: &Bytes,
    size: u32,
) -> Result<(), Memory>
    requires { IsWrite offset bytes.now size }
    ensures text { OnOk result (writer.new ≡ writer.old ++ change_text (Change.Sync node offset bytes.now size)) }
    ensures room { OnOk result (HasRoom (Change.Sync node offset bytes.now size)) }
{
    writer.u8(4)?;
    put_node(writer, node)?;
    writer.u32(offset)?;
    put_bytes(writer, bytes)?;
    writer.u32(size)?;
    Ok(())
}

fn put_exec(writer: &mut Writer, node: NodeId, on: bool) -> Result<(), Memory>
    ensures text { OnOk result (writer.new ≡ writer.old ++ change_text (Change.Exec node on)) }
    ensures room { OnOk result (HasRoom (Change.Exec node on)) }
{
    writer.u8(5)?;
    put_node(writer, node)?;
    put_flag(writer, on)?;
    Ok(())
}

fn put_touch(writer: &mut Writer, node: NodeId, mtime: Moment) -> Result<(), Memory>
    ensures text { OnOk result (writer.new ≡ writer.old ++ change_text (Change.Touch node mtime)) }
    ensures room { OnOk result (HasRoom (Change.Touch node mtime)) }
{
    writer.u8(6)?;
    put_node(writer, node)?;
    put_moment(writer, mtime)?;
    Ok(())
}

fn put_change(writer: &mut Writer, change: &Change) -> Result<(), Memory>
    requires { MeetsRules change.now }
    ensures text { OnOk result (writer.new ≡ writer.old ++ change_text change.now) }
    ensures room { OnOk result (HasRoom change.now) }
{
    match change {
        Change::Create {
            parent,
            name,
            kind,
            bytes,
        } => put_create(writer, *parent, name, *kind, bytes),
        Change::Remove { node } => put_remove(writer, *node),
        Change::Rename {
            node,
            parent,
            name,
            replaced,
        } => put_rename(writer, *node, *parent, name, *replaced),
        Change::Sync {
            node,
            offset,
            bytes,
            length,
        } => put_sync(writer, *node, *offset, bytes, *length),
        Change::Exec { node, on } => put_exec(writer, *node, *on),
        Change::Touch { node, mtime } => put_touch(writer, *node, *mtime),
    }
}

pub(crate) fn put_op(writer: &mut Writer, op: &Op) -> Result<(), Memory>
    requires { IsProper op.now }
    ensures text { OnOk result (writer.new ≡ writer.old ++ op_text op.now) }
    ensures room { OnOk result (IsOp op.now) }
{
    writer.u16(op.device)?;
    writer.u32(op.seq)?;
    put_moment(writer, op.moment)?;
    put_change(writer, &op.change)?;
    Ok(())
}

/// Room for the operation's bytes: its longest fields, and what stands round them.
pub(crate) fn room_of(change: &Change) -> usize {
    let longest = match change {
        Change::Create { bytes, .. } => 255 + bytes.as_slice().len().min(1024),
        Change::Rename { .. } => 255,
        Change::Sync { bytes, .. } => bytes.as_slice().len().min(65536),
        _ => 0,
    };
    longest + 64
}
