//! Reading the fields of an entry.
ghost use Rattle.std.specs.Prelude.{◌≡◌, ◌^◌, ◌<◌, ◌≤◌, true, length, ⊤};
ghost use Rattle.kb_wire.specs.Fields.{u8_text, u16_text, u32_text, u64_text};
ghost use Rattle.kb_name.specs.Names.{is_name};
ghost use Rattle.kb_name.specs.Moments.{last_second};
ghost use Rattle.kb_ops.specs.Grammar.{node_text, name_text, kind_text, flag_text, IsNode};
ghost use Rattle.kb_files.specs.Files.{pointer, IsFit};
ghost use Rattle.kb_dirs.specs.Parses.{Parses};

use crate::faults::DirFault;
use kb_blocks::{Hash, Ptr};
use kb_name::{Moment, Name, NameFault, NodeId};
use kb_ops::Kind;
use kb_wire::{Reader, WireFault};
use std::alloc::Global;

pub(crate) fn take_u8(reader: &mut Reader) -> Result<u8, DirFault>
    ensures { Parses (λ n. n) u8_text (λ n. n < 2 ^ 8) reader.old reader.new result }
{
    match reader.u8() {
        Ok(n) => Ok(n),
        Err(WireFault::Short) => Err(DirFault::BadDir),
        Err(WireFault::BadText) => Err(DirFault::BadDir),
    }
}

fn take_u16(reader: &mut Reader) -> Result<u16, DirFault>
    ensures { Parses (λ n. n) u16_text (λ n. n < 2 ^ 16) reader.old reader.new result }
{
    match reader.u16() {
        Ok(n) => Ok(n),
        Err(WireFault::Short) => Err(DirFault::BadDir),
        Err(WireFault::BadText) => Err(DirFault::BadDir),
    }
}

pub(crate) fn take_u32(reader: &mut Reader) -> Result<u32, DirFault>
    ensures { Parses (λ n. n) u32_text (λ n. n < 2 ^ 32) reader.old reader.new result }
{
    match reader.u32() {
        Ok(n) => Ok(n),
        Err(WireFault::Short) => Err(DirFault::BadDir),
        Err(WireFault::BadText) => Err(DirFault::BadDir),
    }
}

pub(crate) fn take_u64(reader: &mut Reader) -> Result<u64, DirFault>
    ensures { Parses (λ n. n) u64_text (λ n. n < 2 ^ 64) reader.old reader.new result }
{
    match reader.u64() {
        Ok(n) => Ok(n),
        Err(WireFault::Short) => Err(DirFault::BadDir),
        Err(WireFault::BadText) => Err(DirFault::BadDir),
    }
}

pub(crate) fn take_moment(reader: &mut Reader) -> Result<Moment, DirFault>
    ensures { Parses (λ m. m) u64_text (λ n. n ≤ last_second) reader.old reader.new result }
{
    let seconds = take_u64(reader)?;
    match Moment::new(seconds) {
        Some(moment) => Ok(moment),
        None => Err(DirFault::BadDir),
    }
}

pub(crate) fn take_kind(reader: &mut Reader) -> Result<Kind, DirFault>
    ensures { Parses (λ k. k) kind_text (λ _. ⊤) reader.old reader.new result }
{
    match take_u8(reader)? {
        0 => Ok(Kind::Dir),
        1 => Ok(Kind::File),
        2 => Ok(Kind::Link),
        _ => Err(DirFault::BadDir),
    }
}

pub(crate) fn take_flag(reader: &mut Reader) -> Result<bool, DirFault>
    ensures { Parses (λ b. b) flag_text (λ _. ⊤) reader.old reader.new result }
{
    match take_u8(reader)? {
        0 => Ok(false),
        1 => Ok(true),
        _ => Err(DirFault::BadDir),
    }
}

pub(crate) fn take_node(reader: &mut Reader) -> Result<NodeId, DirFault>
    ensures { Parses (λ n. n) node_text IsNode reader.old reader.new result }
{
    let device = take_u16(reader)?;
    let seq = take_u32(reader)?;
    let part = take_u16(reader)?;
    Ok(NodeId { device, seq, part })
}

fn take_field<'a>(reader: &mut Reader<'a>, size: usize) -> Result<&'a [u8], DirFault>
    ensures { Parses (λ f. f.now) (λ f. f) (λ f. length f ≡ size) reader.old reader.new result }
{
    match reader.bytes(size) {
        Ok(field) => Ok(field),
        Err(WireFault::Short) => Err(DirFault::BadDir),
        Err(WireFault::BadText) => Err(DirFault::BadDir),
    }
}

pub(crate) fn take_name(alloc: Global, reader: &mut Reader) -> Result<Name, DirFault>
    ensures { Parses (λ n. n) name_text (λ n. is_name n ≡ true) reader.old reader.new result }
{
    let size = take_u8(reader)?;
    let field = take_field(reader, size as usize)?;
    match Name::new(alloc, field) {
        Ok(name) => Ok(name),
        Err(NameFault::BadName) => Err(DirFault::BadDir),
        Err(NameFault::Memory) => Err(DirFault::Memory),
    }
}

fn take_hash(reader: &mut Reader) -> Result<Hash, DirFault>
    ensures { Parses (λ h. h) (λ h. h) (λ h. length h ≡ 32) reader.old reader.new result }
{
    let field = take_field(reader, 32)?;
    let mut hash = [0u8; 32];
    hash.copy_from_slice(field);
    Ok(hash)
}

pub(crate) fn take_ptr(reader: &mut Reader) -> Result<Ptr, DirFault>
    ensures { Parses (λ p. p) pointer IsFit reader.old reader.new result }
{
    let id = take_hash(reader)?;
    let generation = take_u32(reader)?;
    Ok(Ptr { id, generation })
}
