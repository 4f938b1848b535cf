//! Reading an operation.
ghost use Rattle.std.specs.Prelude.{◌≡◌, ◌^◌, ◌<◌, ◌≤◌, ◌↔◌, IsTrue, length};
ghost use Rattle.kb_wire.specs.Fields.{u16_text, u32_text};
ghost use Rattle.kb_ops.specs.Grammar.{fields_text, change_text, op_text, HasTag, IsChange, IsNew, IsMove, IsOp};
ghost use Rattle.kb_ops.specs.Trees.{IsWrite};
ghost use Rattle.kb_ops.specs.Parses.{Parses, Refused};

use super::faults::OpFault;
use super::fields::{
    take_bytes, take_flag, take_kind, take_moment, take_name, take_node, take_replaced, take_u8,
    take_u16, take_u32,
};
use super::rows::{Change, Op};
use super::values::Kind;
use kb_name::NodeId;
use kb_wire::Reader;
use std::alloc::Global;

fn is_new(kind: Kind, bytes: &[u8]) -> bool
    ensures { IsTrue result ↔ IsNew kind bytes.now }
{
    (kind == Kind::Link || bytes.is_empty()) && bytes.len() <= 1024
}

fn is_write(offset: u32, bytes: &[u8], length: u32) -> bool
    ensures { IsTrue result ↔ IsWrite offset bytes.now length }
{
    bytes.len() <= 65536
        && offset as usize + bytes.len() <= length as usize
        && length <= 16_777_216
        && (offset == 0 || !bytes.is_empty())
}

fn is_move(node: NodeId, replaced: Option<NodeId>) -> bool
    ensures { IsTrue result ↔ IsMove node replaced }
{
    let moves = node != NodeId::ROOT;
    match replaced {
        None => moves,
        Some(gone) => moves && gone != NodeId::ROOT && gone != node,
    }
}

fn read_create(alloc: Global, reader: &mut Reader) -> Result<Change, OpFault>
    ensures { Parses (λ c. c) fields_text (HasTag 1) reader.old reader.new result }
{
    let parent = take_node(reader)?;
    let name = take_name(alloc, reader)?;
    let kind = take_kind(reader)?;
    let bytes = take_bytes(alloc, reader)?;
    if !is_new(kind, bytes.as_slice()) {
        return Err(OpFault::BadOp);
    }
    Ok(Change::Create {
        parent,
        name,
        kind,
        bytes,
    })
}

fn read_remove(reader: &mut Reader) -> Result<Change, OpFault>
    ensures { Parses (λ c. c) fields_text (HasTag 2) reader.old reader.new result }
{
    let node = take_node(reader)?;
    if node == NodeId::ROOT {
        return Err(OpFault::BadOp);
    }
    Ok(Change::Remove { node })
}

fn read_rename(alloc: Global, reader: &mut Reader) -> Result<Change, OpFault>
    ensures { Parses (λ c. c) fields_text (HasTag 3) reader.old reader.new result }
{
    let node = take_node(reader)?;
    let parent = take_node(reader)?;
    let name = take_name(alloc, reader)?;
    let replaced = take_replaced(reader)?;
    if !is_move(node, replaced) {
        return Err(OpFault::BadOp);
    }
    Ok(Change::Rename {
        node,
        parent,
        name,
        replaced,
    })
}

fn read_sync(alloc: Global, reader: &mut Reader) -> Result<Change, OpFault>
    ensures { Parses (λ c. c) fields_text (HasTag 4) reader.old reader.new result }
{
    let node = take_node(reader)?;
    let offset = take_u32(reader)?;
    let bytes = take_bytes(alloc, reader)?;
    let length = take_u32(reader)?;
    if !is_write(offset, bytes.as_slice(), length) {
        return Err(OpFault::BadOp);
    }
    Ok(Change::Sync {
        node,
        offset,
        bytes,
        length,
    })
}

fn read_exec(reader: &mut Reader) -> Result<Change, OpFault>
    ensures { Parses (λ c. c) fields_text (HasTag 5) reader.old reader.new result }
{
    let node = take_node(reader)?;
    let on = take_flag(reader)?;
    Ok(Change::Exec { node, on })
}

fn read_touch(reader: &mut Reader) -> Result<Change, OpFault>
    ensures { Parses (λ c. c) fields_text (HasTag 6) reader.old reader.new result }
{
    let node = take_node(reader)?;
    let mtime = take_moment(reader)?;
    Ok(Change::Touch { node, mtime })
}

fn read_change(alloc: Global, reader: &mut Reader) -> Result<Change, OpFault>
    ensures { Parses (λ c. c) change_text IsChange reader.old reader.new result }
{
    match take_u8(reader)? {
        1 => read_create(alloc, reader),
        2 => read_remove(reader),
        3 => read_rename(alloc, reader),
        4 => read_sync(alloc, reader),
        5 => read_exec(reader),
        6 => read_touch(reader),
        _ => Err(OpFault::BadOp),
    }
}

fn read_device(reader: &mut Reader) -> Result<u16, OpFault>
    ensures { Parses (λ n. n) u16_text (λ n. (1 ≤ n) × (n < 2 ^ 16)) reader.old reader.new result }
{
    match take_u16(reader)? {
        0 => Err(OpFault::BadOp),
        device => Ok(device),
    }
}

fn read_seq(reader: &mut Reader) -> Result<u32, OpFault>
    ensures { Parses (λ n. n) u32_text (λ n. (1 ≤ n) × (n < 2 ^ 32)) reader.old reader.new result }
{
    match take_u32(reader)? {
        0 => Err(OpFault::BadOp),
        seq => Ok(seq),
    }
}

pub(crate) fn read_op(alloc: Global, reader: &mut Reader) -> Result<Op, OpFault>
    ensures { Parses (λ op. op) op_text IsOp reader.old reader.new result }
{
    let device = read_device(reader)?;
    let seq = read_seq(reader)?;
    let moment = take_moment(reader)?;
    let change = read_change(alloc, reader)?;
    Ok(Op {
        device,
        seq,
        moment,
        change,
    })
}
