ghost use Rattle.std.specs.Prelude.{◌≡◌, [], true, false, IfOk};
ghost use Rattle.std.specs.Str.{is_utf8};
ghost use Rattle.kb_name.specs.Names.{is_name, is_kept_name, is_plain_text, is_dots, is_device_name, is_device_text};

use std::alloc::{AllocError, Global};
use std::marker::Model;

/// Why a name was refused.
#[derive(Clone, Copy, Debug, PartialEq, Eq)]
pub enum NameFault {
    BadName,
    Memory,
}

impl From<AllocError> for NameFault {
    ghost use Rattle.std.specs.Prelude.{◌≡◌};
    ghost use Rattle.kb_name.specs.declared.names.NameFault.TheVariants.{Memory};

    ghost from_gives = { λ _ e. e ≡ Memory };

    fn from(_: AllocError) -> Self {
        NameFault::Memory
    }
}

/// The name of a row: 1 to 255 bytes of UTF-8 without `/` and byte 0, not `.` and not `..`. The root's row alone has
/// an empty one.
#[derive(Debug, Drop)]
pub struct Name {
    text: Vec<u8>,
}

impl Model for Name {
    ghost use Rattle.std.specs.Prelude.{◌≡◌, true, List, ℕ};
    ghost use Rattle.kb_name.specs.Names.{is_kept_name};

    ghost Value = { List ℕ };

    ghost view = { λ n. n.text.items };

    ghost invariant = { λ n. is_kept_name n.text.items ≡ true };
}

impl Name {
    /// The empty name of the root's row.
    pub fn none(alloc: Global) -> Self
        ensures { result ≡ [] }
    {
        Name {
            text: Vec::new(alloc),
        }
    }

    /// The name of these bytes, if they are one.
    pub fn new(alloc: Global, bytes: &[u8]) -> Result<Self, NameFault>
        ensures name { IfOk result (λ n. (n ≡ bytes.now) × (is_name bytes.now ≡ true)) }
        ensures bad_name { result ≡ Err NameFault.BadName → is_name bytes.now ≡ false }
    {
        if !is_name(bytes) {
            return Err(NameFault::BadName);
        }
        let text = Vec::from_slice(alloc, bytes)?;
        Ok(Name { text })
    }

    /// The name that a text is, if it is one.
    pub(crate) fn from_text(text: Vec<u8>) -> Result<Self, NameFault>
        ensures name { IfOk result (λ n. (n ≡ text.items) × (is_name text.items ≡ true)) }
        ensures bad_name { result ≡ Err NameFault.BadName → is_name text.items ≡ false }
    {
        if !is_name(&text) {
            return Err(NameFault::BadName);
        }
        Ok(Name { text })
    }

    /// The name that a text is.
    pub(crate) fn of_text(text: Vec<u8>) -> Self
        requires { is_name text.items ≡ true }
        ensures { result ≡ text.items }
    {
        Name { text }
    }

    pub fn bytes(&self) -> &[u8]
        ensures value { result.now ≡ self.now }
        ensures name { is_kept_name self.now ≡ true }
    {
        &self.text
    }
}

impl Clone for Name {
    ghost is_clone = { λ a b. b ≡ a };

    fn clone(&self) -> Result<Self, AllocError> {
        let alloc = *self.text.allocator();
        let text = Vec::from_slice(alloc, &self.text)?;
        Ok(Name { text })
    }
}

impl PartialEq for Name {
    ghost use Rattle.std.specs.Str.{bytes_eq};
    ghost use Rattle.std.proofs.Common.{rules};

    ghost eq = { bytes_eq };

    ghost laws = { Prim.search rules };

    fn eq(&self, other: &Name) -> bool {
        self.bytes() == other.bytes()
    }
}

/// The name of a device: 1 to 24 of `a` to `z`, `0` to `9` and `-`.
#[derive(Debug, Drop)]
pub struct DeviceName {
    text: Vec<u8>,
}

impl Model for DeviceName {
    ghost use Rattle.std.specs.Prelude.{◌≡◌, true, List, ℕ};
    ghost use Rattle.kb_name.specs.Names.{is_device_name};

    ghost Value = { List ℕ };

    ghost view = { λ n. n.text.items };

    ghost invariant = { λ n. is_device_name n.text.items ≡ true };
}

impl DeviceName {
    /// The device name of these bytes, if they are one.
    pub fn new(alloc: Global, bytes: &[u8]) -> Result<Self, NameFault>
        ensures name { IfOk result (λ n. (n ≡ bytes.now) × (is_device_name bytes.now ≡ true)) }
        ensures bad_name { result ≡ Err NameFault.BadName → is_device_name bytes.now ≡ false }
    {
        if !is_device_name(bytes) {
            return Err(NameFault::BadName);
        }
        let text = Vec::from_slice(alloc, bytes)?;
        Ok(DeviceName { text })
    }

    pub fn bytes(&self) -> &[u8]
        ensures value { result.now ≡ self.now }
        ensures name { is_device_name self.now ≡ true }
    {
        &self.text
    }
}

impl Clone for DeviceName {
    ghost is_clone = { λ a b. b ≡ a };

    fn clone(&self) -> Result<Self, AllocError> {
        let alloc = *self.text.allocator();
        let text = Vec::from_slice(alloc, &self.text)?;
        Ok(DeviceName { text })
    }
}

impl PartialEq for DeviceName {
    ghost use Rattle.std.specs.Str.{bytes_eq};
    ghost use Rattle.std.proofs.Common.{rules};

    ghost eq = { bytes_eq };

    ghost laws = { Prim.search rules };

    fn eq(&self, other: &DeviceName) -> bool {
        self.bytes() == other.bytes()
    }
}

fn is_name(bytes: &[u8]) -> bool
    ensures { result ≡ is_name bytes.now }
{
    !bytes.is_empty() && bytes.len() <= 255 && is_plain(bytes) && !is_dots(bytes) && is_utf8(bytes)
}

fn is_plain(bytes: &[u8]) -> bool
    ensures { result ≡ is_plain_text bytes.now }
{
    bytes.iter().all(|b| *b != b'/' && *b != 0)
}

fn is_dots(bytes: &[u8]) -> bool
    ensures { result ≡ is_dots bytes.now }
{
    bytes == b".".as_slice() || bytes == b"..".as_slice()
}

fn is_utf8(bytes: &[u8]) -> bool
    ensures { result ≡ is_utf8 bytes.now }
{
    match str::from_utf8(bytes) {
        Ok(_) => true,
        Err(_) => false,
    }
}

fn is_device_name(bytes: &[u8]) -> bool
    ensures { result ≡ is_device_name bytes.now }
{
    !bytes.is_empty() && bytes.len() <= 24 && is_device_text(bytes)
}

fn is_device_text(bytes: &[u8]) -> bool
    ensures { result ≡ is_device_text bytes.now }
{
    bytes
        .iter()
        .all(|b| matches!(*b, b'a'..=b'z' | b'0'..=b'9' | b'-'))
}
