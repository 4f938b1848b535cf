//! Operations as bytes.
ghost use Rattle.std.specs.Prelude.{◌≡◌, ◌++◌, IfOk, OnOk};
ghost use Rattle.kb_ops.specs.Grammar.{op_text, IsOp, IsNoOp, IsProper, ReadsBack};
ghost use Rattle.kb_ops.specs.Parses.{Parses};

use super::decode::read_op;
use super::encode::{put_op, room_of};
use super::faults::OpFault;
use super::rows::Op;
use kb_edge::Memory;
use kb_wire::{Reader, Writer};
use std::alloc::Global;

impl Op {
    /// The bytes that spell the operation: device, seq, moment, a tag and what is changed.
    pub fn encode(&self, alloc: Global) -> Result<Vec<u8>, Memory>
        requires { IsProper self.now }
        ensures bytes { IfOk result (λ bytes. bytes.items ≡ op_text self.now) }
        ensures op { OnOk result (IsOp self.now) }
    {
        let mut writer = Writer::with_room(alloc, room_of(&self.change))?;
        put_op(&mut writer, self)?;
        Ok(writer.finish())
    }

    /// The operation that the bytes spell, with nothing behind it.
    pub fn decode(alloc: Global, bytes: &[u8]) -> Result<Op, OpFault>
        ensures op { IfOk result (λ op. (bytes.now ≡ op_text op) × IsOp op) }
        ensures bad_op { result ≡ Err OpFault.BadOp → IsNoOp bytes.now }
        ensures again { ReadsBack bytes.now result }
    {
        read_all(alloc, bytes)
    }

    /// Writes the bytes that spell the operation behind what was written.
    pub fn put(&self, writer: &mut Writer) -> Result<(), Memory>
        requires { IsProper self.now }
        ensures text { OnOk result (writer.new ≡ writer.old ++ op_text self.now) }
        ensures op { OnOk result (IsOp self.now) }
    {
        put_op(writer, self)
    }

    /// The operation that the bytes left spell in front. What stands behind it is left.
    pub fn read(alloc: Global, reader: &mut Reader) -> Result<Op, OpFault>
        ensures { Parses (λ op. op) op_text IsOp reader.old reader.new result }
    {
        read_op(alloc, reader)
    }
}

fn read_all(alloc: Global, bytes: &[u8]) -> Result<Op, OpFault>
    ensures op { IfOk result (λ op. (bytes.now ≡ op_text op) × IsOp op) }
    ensures bad_op { result ≡ Err OpFault.BadOp → IsNoOp bytes.now }
{
    let mut reader = Reader::new(bytes);
    let op = read_op(alloc, &mut reader)?;
    if reader.left() > 0 {
        return Err(OpFault::BadOp);
    }
    Ok(op)
}
