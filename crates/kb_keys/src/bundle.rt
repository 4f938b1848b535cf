//! Bundles: entries that give devices the folder's keys.
ghost use Rattle.std.specs.Prelude.{◌≡◌, ◌++◌, [], ℕ, List, Some, OnOk, OnErr, length, map};
ghost use Rattle.kb_keys.specs.Bundles.{made_entry, sealed_at, Gives, GivesOnly, Rotates};
ghost use Rattle.kb_keys.specs.Secrets.{xored};

use crate::entries::{
    Entry, entries_for_keys, entries_for_members, find_entry, last_generation, xor_of,
};
use crate::ring::KeyRing;
use crate::secrets::Secrets;
use kb_edge::Memory;
use kb_seal::{Key, OpenFault, Sealer};
use std::alloc::Global;
use std::marker::Model;

/// Why an entry gave no key.
#[derive(Clone, Copy, Debug, PartialEq, Eq)]
pub enum KeyFault {
    /// The bundle has no entry of the device at the generation.
    NoEntry,
    /// The entry doesn't open under the secret.
    NotSealed,
    Memory,
}

/// Why a bundle wasn't rotated.
#[derive(Clone, Copy, Debug, PartialEq, Eq)]
pub enum RotateFault {
    /// An entry has the last generation, 64, or a later one.
    GenEnd,
    Memory,
}

/// Entries in the order in which they were added.
#[derive(Drop)]
pub struct Bundle {
    entries: Vec<Entry>,
}

impl Model for Bundle {
    ghost use Rattle.std.specs.Prelude.{List};
    ghost use Rattle.kb_keys.specs.declared.entries.Entry.{Entry};

    ghost Value = { List Entry };

    ghost view = { λ b. b.entries.items };
}

// The key that a sealed text gives.
fn key_from<S: Sealer>(
    alloc: Global,
    sealed: &[u8; 64],
    secret: &Key,
    half: &Key,
) -> Result<Key, KeyFault>
    ensures gives { Gives S.sealed secret.now half.now (Some sealed.now) result }
    ensures one { (key : List ℕ) → length key ≡ 32 → sealed.now ≡ S.sealed secret.now (xored key half.now) → GivesOnly key result }
{
    match S::open(alloc, secret, sealed) {
        Ok(plain) => Ok(xor_of(plain.as_slice(), half)),
        Err(OpenFault::NotSealed) => Err(KeyFault::NotSealed),
        Err(OpenFault::Memory) => Err(KeyFault::Memory),
    }
}

impl Entry {
    /// The key that the entry gives, with the device's secret and the server's half.
    pub fn key<S: Sealer>(&self, alloc: Global, secret: &Key, half: &Key) -> Result<Key, KeyFault>
        ensures gives { Gives S.sealed secret.now half.now (Some self.now.sealed) result }
        ensures one { (key : List ℕ) → length key ≡ 32 → self.now.sealed ≡ S.sealed secret.now (xored key half.now) → GivesOnly key result }
    {
        key_from::<S>(alloc, &self.sealed, secret, half)
    }
}

impl Bundle {
    /// A bundle of no entry.
    pub fn new(alloc: Global) -> Bundle
        ensures { result ≡ [] }
    {
        Bundle {
            entries: Vec::new(alloc),
        }
    }

    /// The entries.
    pub fn entries(&self) -> &[Entry]
        ensures { result.now ≡ self.now }
    {
        self.entries.as_slice()
    }

    /// The key that the device's entry of the generation gives, with the device's secret and the server's half.
    pub fn key_of<S: Sealer>(
        &self,
        alloc: Global,
        d: u16,
        g: u32,
        secret: &Key,
        half: &Key,
    ) -> Result<Key, KeyFault>
        ensures gives { Gives S.sealed secret.now half.now (sealed_at d g self.now) result }
        ensures one { (key : List ℕ) → length key ≡ 32 → sealed_at d g self.now ≡ Some (S.sealed secret.now (xored key half.now)) → GivesOnly key result }
    {
        match find_entry(self.entries.as_slice(), d, g) {
            Some(entry) => key_from::<S>(alloc, &entry.sealed, secret, half),
            None => Err(KeyFault::NoEntry),
        }
    }

    /// Adds the device's entries of all keys in the ring, by their generations.
    pub fn add<S: Sealer>(
        &mut self,
        alloc: Global,
        d: u16,
        keys: &KeyRing,
        secrets: &Secrets,
    ) -> Result<(), Memory>
        ensures ok { OnOk result (self.new ≡ self.old ++ map (λ k. made_entry S.sealed secrets.now d k.0 k.1) keys.now) }
        ensures err { OnErr result (self.new ≡ self.old) }
    {
        let made = entries_for_keys::<S>(alloc, d, &keys.keys, secrets)?;
        self.entries.extend_from_slice(made.as_slice())?;
        Ok(())
    }

    /// Adds an entry of a new folder key for each member, and answers the key's generation.
    pub fn rotate<S: Sealer>(
        &mut self,
        alloc: Global,
        members: &[u16],
        secrets: &Secrets,
    ) -> Result<u32, RotateFault>
        ensures { Rotates S.sealed secrets.now members.now self.old self.new result }
    {
        let last = last_generation(self.entries.as_slice());
        if last >= 64 {
            return Err(RotateFault::GenEnd);
        }
        let generation = last + 1;
        let key = secrets.folder(generation);
        let made = match entries_for_members::<S>(alloc, members, generation, &key, secrets) {
            Ok(made) => made,
            Err(Memory) => return Err(RotateFault::Memory),
        };
        match self.entries.extend_from_slice(made.as_slice()) {
            Ok(()) => Ok(generation),
            Err(_) => Err(RotateFault::Memory),
        }
    }
}
