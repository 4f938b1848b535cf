//! The halves that the server keeps.
ghost use Rattle.std.specs.Prelude.{◌≡◌, ◌+◌, ◌<◌, ◌≤◌, [], OnOk, IfSome, length};
ghost use Rattle.std.specs.List.{find, position};
ghost use Rattle.std.specs.Option.{option_copied};
ghost use Rattle.kb_keys.specs.Halves.{is_half, half_at, HasOnly, HasNone};

use kb_edge::Memory;
use kb_seal::Key;
use std::alloc::Global;
use std::marker::Model;

/// The server's half of a device's key of a generation.
#[derive(Clone, Copy, Debug, PartialEq, Eq)]
pub struct Half {
    pub device: u16,
    pub generation: u32,
    pub half: Key,
}

/// Halves, at most one for a device and a generation.
#[derive(Drop)]
pub struct Halves {
    halves: Vec<Half>,
}

impl Model for Halves {
    ghost use Rattle.std.specs.Prelude.{ℕ, List, ◌-◌, vec_len, vec_capacity};
    ghost use Rattle.kb_keys.specs.declared.halves.Half.{Half};

    ghost Value = { List Half × ℕ };

    ghost view = { λ h. (h.halves.items, vec_capacity h.halves - vec_len h.halves) };
}

fn is_half(half: &Half, device: u16, generation: u32) -> bool
    ensures { result ≡ is_half device generation half.now }
{
    half.device == device && half.generation == generation
}

fn find_half(halves: &[Half], device: u16, generation: u32) -> Option<&Half>
    ensures { option_copied result ≡ find (is_half device generation) halves.now }
{
    halves.iter().find(|half| is_half(half, device, generation))
}

fn place_of(halves: &[Half], device: u16, generation: u32) -> Option<usize>
    ensures place { result ≡ position (is_half device generation) halves.now }
    ensures within { IfSome result (λ i. i < length halves.now) }
{
    halves
        .iter()
        .position(|half| is_half(half, device, generation))
}

impl Halves {
    /// No half.
    pub fn new(alloc: Global) -> Halves
        ensures { result ≡ ([], 0) }
    {
        Halves {
            halves: Vec::new(alloc),
        }
    }

    /// All halves that are kept.
    pub fn as_slice(&self) -> &[Half]
        ensures { result.now ≡ self.now.0 }
    {
        self.halves.as_slice()
    }

    /// The half of a device and a generation.
    pub fn get(&self, d: u16, g: u32) -> Option<Key>
        ensures { result ≡ half_at self.now.0 d g }
    {
        match find_half(self.halves.as_slice(), d, g) {
            Some(half) => Some(half.half),
            None => None,
        }
    }

    /// Makes room for so many halves.
    pub fn reserve(&mut self, n: usize) -> Result<(), Memory>
        ensures room { OnOk result (n ≤ self.new.1) }
        ensures kept { self.new.0 ≡ self.old.0 }
        ensures no_less { self.old.1 ≤ self.new.1 }
    {
        self.halves.reserve(n)?;
        Ok(())
    }

    /// Keeps a half, in place of any other of its device and generation.
    pub fn add(&mut self, half: &Half)
        requires { 0 < self.old.1 }
        ensures kept { HasOnly half.now self.old.0 self.new.0 }
        ensures room { self.old.1 ≤ self.new.1 + 1 }
    {
        match place_of(self.halves.as_slice(), half.device, half.generation) {
            Some(i) => {
                self.halves[i] = *half;
            }
            None => {
                self.halves.push_reserved(*half);
            }
        }
    }

    /// Deletes all halves of a device.
    pub fn drop_device(&mut self, d: u16)
        ensures kept { HasNone d self.old.0 self.new.0 }
        ensures room { self.old.1 ≤ self.new.1 }
    {
        self.halves.retain(|half| half.device != d);
    }
}
