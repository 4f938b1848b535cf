//! The folder keys that a reader has.
ghost use Rattle.std.specs.Prelude.{◌≡◌, [], OnOk, OnErr, IfOk};
ghost use Rattle.std.specs.Option.{option_copied};
ghost use Rattle.kb_keys.specs.Rings.{key_at, AddsKey};

use kb_edge::Memory;
use kb_seal::Key;
use std::alloc::Global;
use std::collections::BTreeMap;
use std::marker::Model;

/// Folder keys by their generations.
#[derive(Drop)]
pub struct KeyRing {
    pub(crate) keys: BTreeMap<u32, Key>,
}

impl Model for KeyRing {
    ghost use Rattle.std.specs.Prelude.{List, ℕ};

    ghost Value = { List (ℕ × List ℕ) };

    ghost view = { λ a. a.keys.entries };
}

impl KeyRing {
    /// A ring of no key.
    pub fn new(alloc: Global) -> KeyRing
        ensures { result ≡ [] }
    {
        KeyRing {
            keys: BTreeMap::new(alloc),
        }
    }

    /// The same keys.
    pub fn copy(&self) -> Result<KeyRing, Memory>
        ensures { IfOk result (λ ring. ring ≡ self.now) }
    {
        let keys = self.keys.clone()?;
        Ok(KeyRing { keys })
    }

    /// The key of a generation.
    pub fn key(&self, g: u32) -> Option<&Key>
        ensures { option_copied result ≡ key_at self.now g }
    {
        self.keys.get(&g)
    }

    /// Keeps a key for a generation, in place of any other.
    pub fn add(&mut self, g: u32, key: Key) -> Result<(), Memory>
        ensures ok { OnOk result (AddsKey self.old self.new g key) }
        ensures err { OnErr result (self.new ≡ self.old) }
    {
        self.keys.insert(g, key)?;
        Ok(())
    }
}
