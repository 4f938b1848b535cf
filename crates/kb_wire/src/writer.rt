//! Writing fields behind one another.
ghost use Rattle.std.specs.Prelude.{◌≡◌, [], ◌++◌, IfOk, OnOk, OnErr};
ghost use Rattle.kb_wire.specs.Fields.{u8_text, u16_text, u32_text, u64_text};

use kb_edge::Memory;
use std::alloc::Global;
use std::marker::Model;

/// Bytes that are written field by field. A write that lacks memory leaves them as they are.
#[derive(Drop)]
pub struct Writer {
    bytes: Vec<u8>,
}

impl Model for Writer {
    ghost use Rattle.std.specs.Prelude.{List, ℕ};

    ghost Value = { List ℕ };

    ghost view = { λ w. w.bytes.items };
}

impl Writer {
    /// No bytes yet.
    pub fn new(alloc: Global) -> Writer
        ensures { result ≡ [] }
    {
        Writer {
            bytes: Vec::new(alloc),
        }
    }

    /// No bytes yet, and room for so many, so that they are not moved as they are written.
    pub fn with_room(alloc: Global, room: usize) -> Result<Writer, Memory>
        ensures { IfOk result (λ w. w ≡ []) }
    {
        let bytes = Vec::with_capacity(alloc, room)?;
        Ok(Writer { bytes })
    }

    pub fn u8(&mut self, v: u8) -> Result<(), Memory>
        ensures ok { OnOk result (self.new ≡ self.old ++ u8_text v) }
        ensures err { OnErr result (self.new ≡ self.old) }
    {
        self.bytes.push(v)?;
        Ok(())
    }

    pub fn u16(&mut self, v: u16) -> Result<(), Memory>
        ensures ok { OnOk result (self.new ≡ self.old ++ u16_text v) }
        ensures err { OnErr result (self.new ≡ self.old) }
    {
        self.bytes.extend_from_slice(&v.to_be_bytes())?;
        Ok(())
    }

    pub fn u32(&mut self, v: u32) -> Result<(), Memory>
        ensures ok { OnOk result (self.new ≡ self.old ++ u32_text v) }
        ensures err { OnErr result (self.new ≡ self.old) }
    {
        self.bytes.extend_from_slice(&v.to_be_bytes())?;
        Ok(())
    }

    pub fn u64(&mut self, v: u64) -> Result<(), Memory>
        ensures ok { OnOk result (self.new ≡ self.old ++ u64_text v) }
        ensures err { OnErr result (self.new ≡ self.old) }
    {
        self.bytes.extend_from_slice(&v.to_be_bytes())?;
        Ok(())
    }

    /// The bytes alone, without their number.
    pub fn bytes(&mut self, v: &[u8]) -> Result<(), Memory>
        ensures ok { OnOk result (self.new ≡ self.old ++ v.now) }
        ensures err { OnErr result (self.new ≡ self.old) }
    {
        self.bytes.extend_from_slice(v)?;
        Ok(())
    }

    /// All that was written.
    pub fn finish(self) -> Vec<u8>
        ensures { result.items ≡ self }
    {
        self.bytes
    }
}
