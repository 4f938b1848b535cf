//! Reading fields from the front of bytes.
ghost use Rattle.std.specs.Prelude.{◌≡◌, length};
ghost use Rattle.kb_wire.specs.Fields.{u8_text, u16_text, u32_text, u64_text};

use std::marker::Model;

/// Why a field can't be read.
#[derive(Clone, Copy, Debug, PartialEq, Eq)]
pub enum WireFault {
    /// Fewer bytes are left.
    Short,
    /// The bytes aren't UTF-8.
    BadText,
}

/// Bytes that are read field by field. A read that is refused leaves them as they are.
#[derive(Drop)]
pub struct Reader<'a> {
    rest: &'a [u8],
}

impl<'a> Model for Reader<'a> {
    ghost use Rattle.std.specs.Prelude.{List, ℕ};

    ghost Value = { List ℕ };

    ghost view = { λ r. r.rest.now };
}

impl<'a> Reader<'a> {
    ghost use Rattle.kb_wire.specs.Reads.{Reads, ReadsText};

    /// All of the bytes are left.
    pub fn new(bytes: &'a [u8]) -> Reader<'a>
        ensures { result ≡ bytes.now }
    {
        Reader { rest: bytes }
    }

    /// How many bytes are left.
    pub fn left(&self) -> usize
        ensures { result ≡ length self.now }
    {
        self.rest.len()
    }

    pub fn u8(&mut self) -> Result<u8, WireFault>
        ensures { Reads u8_text 1 self.old self.new result }
    {
        match self.rest {
            [byte, rest @ ..] => {
                self.rest = rest;
                Ok(*byte)
            }
            [] => Err(WireFault::Short),
        }
    }

    pub fn u16(&mut self) -> Result<u16, WireFault>
        ensures { Reads u16_text 2 self.old self.new result }
    {
        match self.rest {
            [a, b, rest @ ..] => {
                self.rest = rest;
                Ok(u16::from_be_bytes([*a, *b]))
            }
            _ => Err(WireFault::Short),
        }
    }

    pub fn u32(&mut self) -> Result<u32, WireFault>
        ensures { Reads u32_text 4 self.old self.new result }
    {
        match self.rest {
            [a, b, c, d, rest @ ..] => {
                self.rest = rest;
                Ok(u32::from_be_bytes([*a, *b, *c, *d]))
            }
            _ => Err(WireFault::Short),
        }
    }

    pub fn u64(&mut self) -> Result<u64, WireFault>
        ensures { Reads u64_text 8 self.old self.new result }
    {
        match self.rest {
            [a, b, c, d, e, f, g, h, rest @ ..] => {
                self.rest = rest;
                Ok(u64::from_be_bytes([*a, *b, *c, *d, *e, *f, *g, *h]))
            }
            _ => Err(WireFault::Short),
        }
    }

    /// The next n bytes.
    pub fn bytes(&mut self, n: usize) -> Result<&'a [u8], WireFault>
        ensures { Reads (λ field. field.now) n self.old self.new result }
    {
        if self.rest.len() < n {
            return Err(WireFault::Short);
        }
        let (field, rest) = self.rest.split_at(n);
        self.rest = rest;
        Ok(field)
    }

    /// The next n bytes, which are UTF-8.
    pub fn text(&mut self, n: usize) -> Result<&'a str, WireFault>
        ensures { ReadsText (λ field. field.now) n self.old self.new result }
    {
        if self.rest.len() < n {
            return Err(WireFault::Short);
        }
        let (field, rest) = self.rest.split_at(n);
        match str::from_utf8(field) {
            Ok(text) => {
                self.rest = rest;
                Ok(text)
            }
            Err(_) => Err(WireFault::BadText),
        }
    }
}
