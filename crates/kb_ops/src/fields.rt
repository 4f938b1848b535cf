//! Reading the fields of an operation.
ghost use Rattle.std.specs.Prelude.{◌≡◌, ◌^◌, ◌<◌, ◌≤◌, true, length, ⊤};
ghost use Rattle.kb_wire.specs.Fields.{u8_text, u16_text, u32_text, u64_text};
ghost use Rattle.kb_name.specs.Names.{is_name};
ghost use Rattle.kb_name.specs.Moments.{last_second};
ghost use Rattle.kb_ops.specs.Grammar.{node_text, name_text, bytes_text, kind_text, flag_text, replaced_text, IsNode, MayBeNode};
ghost use Rattle.kb_ops.specs.Parses.{Parses};

use super::faults::OpFault;
use super::values::{Bytes, Kind};
use kb_name::{Moment, Name, NameFault, NodeId};
use kb_wire::{Reader, WireFault};
use std::alloc::Global;

pub(crate) fn take_u8(reader: &mut Reader) -> Result<u8, OpFault>
    ensures { Parses (λ n. n) u8_text (λ n. n < 2 ^ 8) reader.old reader.new result }
{
    match reader.u8() {
        Ok(n) => Ok(n),
        Err(WireFault::Short) => Err(OpFault::BadOp),
        Err(WireFault::BadText) => Err(OpFault::BadOp),
    }
}

pub(crate) fn take_u16(reader: &mut Reader) -> Result<u16, OpFault>
    ensures { Parses (λ n. n) u16_text (λ n. n < 2 ^ 16) reader.old reader.new result }
{
    match reader.u16() {
        Ok(n) => Ok(n),
        Err(WireFault::Short) => Err(OpFault::BadOp),
        Err(WireFault::BadText) => Err(OpFault::BadOp),
    }
}

pub(crate) fn take_u32(reader: &mut Reader) -> Result<u32, OpFault>
    ensures { Parses (λ n. n) u32_text (λ n. n < 2 ^ 32) reader.old reader.new result }
{
    match reader.u32() {
        Ok(n) => Ok(n),
        Err(WireFault::Short) => Err(OpFault::BadOp),
        Err(WireFault::BadText) => Err(OpFault::BadOp),
    }
}

fn take_u64(reader: &mut Reader) -> Result<u64, OpFault>
    ensures { Parses (λ n. n) u64_text (λ n. n < 2 ^ 64) reader.old reader.new result }
{
    match reader.u64() {
        Ok(n) => Ok(n),
        Err(WireFault::Short) => Err(OpFault::BadOp),
        Err(WireFault::BadText) => Err(OpFault::BadOp),
    }
}

pub(crate) fn take_moment(reader: &mut Reader) -> Result<Moment, OpFault>
    ensures { Parses (λ m. m) u64_text (λ n. n ≤ last_second) reader.old reader.new result }
{
    let seconds = take_u64(reader)?;
    match Moment::new(seconds) {
        Some(moment) => Ok(moment),
        None => Err(OpFault::BadOp),
    }
}

pub(crate) fn take_kind(reader: &mut Reader) -> Result<Kind, OpFault>
    ensures { Parses (λ k. k) kind_text (λ _. ⊤) reader.old reader.new result }
{
    match take_u8(reader)? {
        0 => Ok(Kind::Dir),
        1 => Ok(Kind::File),
        2 => Ok(Kind::Link),
        _ => Err(OpFault::BadOp),
    }
}

pub(crate) fn take_flag(reader: &mut Reader) -> Result<bool, OpFault>
    ensures { Parses (λ b. b) flag_text (λ _. ⊤) reader.old reader.new result }
{
    match take_u8(reader)? {
        0 => Ok(false),
        1 => Ok(true),
        _ => Err(OpFault::BadOp),
    }
}

pub(crate) fn take_node(reader: &mut Reader) -> Result<NodeId, OpFault>
    ensures { Parses (λ n. n) node_text IsNode reader.old reader.new result }
{
    let device = take_u16(reader)?;
    let seq = take_u32(reader)?;
    let part = take_u16(reader)?;
    Ok(NodeId { device, seq, part })
}

pub(crate) fn take_replaced(reader: &mut Reader) -> Result<Option<NodeId>, OpFault>
    ensures { Parses (λ r. r) replaced_text MayBeNode reader.old reader.new result }
{
    match take_u8(reader)? {
        0 => Ok(None),
        1 => {
            let gone = take_node(reader)?;
            Ok(Some(gone))
        }
        _ => Err(OpFault::BadOp),
    }
}

fn take_field<'a>(reader: &mut Reader<'a>, size: usize) -> Result<&'a [u8], OpFault>
    ensures { Parses (λ f. f.now) (λ f. f) (λ f. length f ≡ size) reader.old reader.new result }
{
    match reader.bytes(size) {
        Ok(field) => Ok(field),
        Err(WireFault::Short) => Err(OpFault::BadOp),
        Err(WireFault::BadText) => Err(OpFault::BadOp),
    }
}

pub(crate) fn take_name(alloc: Global, reader: &mut Reader) -> Result<Name, OpFault>
    ensures { Parses (λ n. n) name_text (λ n. is_name n ≡ true) reader.old reader.new result }
{
    let size = take_u8(reader)?;
    let field = take_field(reader, size as usize)?;
    match Name::new(alloc, field) {
        Ok(name) => Ok(name),
        Err(NameFault::BadName) => Err(OpFault::BadOp),
        Err(NameFault::Memory) => Err(OpFault::Memory),
    }
}

pub(crate) fn take_bytes(alloc: Global, reader: &mut Reader) -> Result<Bytes, OpFault>
    ensures { Parses (λ b. b) bytes_text (λ b. length b < 2 ^ 32) reader.old reader.new result }
{
    let size = take_u32(reader)?;
    let field = take_field(reader, size as usize)?;
    let items = Vec::from_slice(alloc, field)?;
    Ok(Bytes::new(items))
}
