//! Entries of a bundle.
ghost use Rattle.std.specs.Prelude.{◌≡◌, IfOk, length, map};
ghost use Rattle.std.specs.List.{find};
ghost use Rattle.std.specs.Option.{option_copied};
ghost use Rattle.kb_keys.specs.Secrets.{xored};
ghost use Rattle.kb_keys.specs.Bundles.{made_entry, is_entry, last_generation};

use crate::secrets::Secrets;
use kb_edge::Memory;
use kb_seal::{Key, Sealer};
use std::alloc::Global;
use std::collections::BTreeMap;

/// The key of a generation for a device, under the server's half and sealed under the device's secret.
#[derive(Clone, Copy, Debug, PartialEq, Eq)]
pub struct Entry {
    pub device: u16,
    pub generation: u32,
    pub sealed: [u8; 64],
}

// Two texts of 32 bytes, one laid over the other.
pub(crate) fn xor_of(text: &[u8], mask: &Key) -> Key
    requires { length text.now ≡ 32 }
    ensures { result ≡ xored text.now mask.now }
{
    let mut out = [0u8; 32];
    'bytes: for i in 0..32 {
        out[i] = text[i] ^ mask[i];
    }
    out
}

fn fixed(text: &[u8]) -> [u8; 64]
    requires { length text.now ≡ 64 }
    ensures { result ≡ text.now }
{
    let mut out = [0u8; 64];
    out.copy_from_slice(text);
    out
}

fn entry_for<S: Sealer>(
    alloc: Global,
    device: u16,
    generation: u32,
    key: &Key,
    secrets: &Secrets,
) -> Result<Entry, Memory>
    ensures { IfOk result (λ e. e ≡ made_entry S.sealed secrets.now device generation key.now) }
{
    let plain = xor_of(key, &secrets.half(device, generation));
    let text = S::seal(alloc, &secrets.device(device), &plain)?;
    let sealed = fixed(&text);
    Ok(Entry {
        device,
        generation,
        sealed,
    })
}

// A device's entries for all keys.
pub(crate) fn entries_for_keys<S: Sealer>(
    alloc: Global,
    device: u16,
    keys: &BTreeMap<u32, Key>,
    secrets: &Secrets,
) -> Result<Vec<Entry>, Memory>
    ensures { IfOk result (λ es. es.items ≡ map (λ k. made_entry S.sealed secrets.now device k.0 k.1) keys.now.entries) }
{
    let mut made = Vec::new(alloc);
    'keys: for (generation, key) in keys {
        made.push(entry_for::<S>(alloc, device, *generation, key, secrets)?)?;
    }
    Ok(made)
}

// The members' entries for one key.
pub(crate) fn entries_for_members<S: Sealer>(
    alloc: Global,
    members: &[u16],
    generation: u32,
    key: &Key,
    secrets: &Secrets,
) -> Result<Vec<Entry>, Memory>
    ensures { IfOk result (λ es. es.items ≡ map (λ d. made_entry S.sealed secrets.now d generation key.now) members.now) }
{
    let mut made = Vec::new(alloc);
    'members: for device in members {
        made.push(entry_for::<S>(alloc, *device, generation, key, secrets)?)?;
    }
    Ok(made)
}

fn is_entry(entry: &Entry, device: u16, generation: u32) -> bool
    ensures { result ≡ is_entry device generation entry.now }
{
    entry.device == device && entry.generation == generation
}

pub(crate) fn find_entry(entries: &[Entry], device: u16, generation: u32) -> Option<&Entry>
    ensures { option_copied result ≡ find (is_entry device generation) entries.now }
{
    entries
        .iter()
        .find(|entry| is_entry(entry, device, generation))
}

pub(crate) fn last_generation(entries: &[Entry]) -> u32
    ensures { result ≡ last_generation entries.now }
{
    let mut last = 0;
    'entries: for entry in entries {
        last = entry.generation.max(last);
    }
    last
}
