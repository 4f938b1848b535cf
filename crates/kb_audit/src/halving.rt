//! Whether the halves are those of the members.
ghost use Rattle.std.specs.Prelude.{◌≡◌, ◌↔◌, IsTrue, Some};
ghost use Rattle.std.specs.List.{AllByRecursion, find};
ghost use Rattle.std.specs.Option.{option_copied};
ghost use Rattle.kb_keys.specs.declared.halves.Half.{Half};
ghost use Rattle.kb_keys.specs.Halves.{half_at, is_half};
ghost use Rattle.kb_audit.specs.Halving.{IsDue, HasAll, HasDue, HaveAll, HalvesMeet};

use kb_keys::{Half, Policy, Secrets};
use kb_seal::Key;

fn is_half(half: &Half, device: u16, generation: u32) -> bool
    ensures { result ≡ is_half device generation half.now }
{
    half.device == device && half.generation == generation
}

fn find_half(halves: &[Half], device: u16, generation: u32) -> Option<&Half>
    ensures { option_copied result ≡ find (is_half device generation) halves.now }
{
    halves.iter().find(|half| is_half(half, device, generation))
}

// The half of a device and a generation, the first where there are more.
fn half_of(halves: &[Half], device: u16, generation: u32) -> Option<Key>
    ensures { result ≡ half_at halves.now device generation }
{
    match find_half(halves, device, generation) {
        Some(half) => Some(half.half),
        None => None,
    }
}

fn is_key(half: Option<Key>, key: &Key) -> bool
    ensures { IsTrue result ↔ (half ≡ Some key.now) }
{
    match half {
        Some(half) => half == *key,
        None => false,
    }
}

fn is_due(policy: &Policy, halves: &[Half], secrets: &Secrets, d: u16, g: u32) -> bool
    ensures { IsTrue result ↔ IsDue secrets.now policy.now halves.now d g }
{
    policy.role(d).is_some()
        && g >= 1
        && g <= policy.generation()
        && is_key(half_of(halves, d, g), &secrets.half(d, g))
}

fn are_due(policy: &Policy, halves: &[Half], secrets: &Secrets, list: &[Half]) -> bool
    ensures { IsTrue result ↔ AllByRecursion (λ (h : Half). IsDue secrets.now policy.now halves.now h.device h.generation) list.now }
{
    'list: for half in list {
        if !is_due(policy, halves, secrets, half.device, half.generation) {
            return false;
        }
    }
    true
}

// Whether the device has halves of the generations up to this one.
fn has_all(halves: &[Half], d: u16, g: u32) -> bool
    ensures { IsTrue result ↔ HasAll halves.now d g }
{
    if g == 0 {
        return true;
    }
    half_of(halves, d, g).is_some() && has_all(halves, d, g - 1)
}

fn has_due(policy: &Policy, halves: &[Half], d: u16) -> bool
    ensures { IsTrue result ↔ HasDue policy.now halves.now d }
{
    policy.role(d).is_none() || has_all(halves, d, policy.generation())
}

// Whether each member up to this device has halves of all generations.
fn have_all(policy: &Policy, halves: &[Half], d: u16) -> bool
    ensures { IsTrue result ↔ HaveAll policy.now halves.now d }
{
    if d == 0 {
        return true;
    }
    has_due(policy, halves, d) && have_all(policy, halves, d - 1)
}

/// Whether each half is a member's, and each member has all.
pub(crate) fn halves_meet(policy: &Policy, halves: &[Half], secrets: &Secrets) -> bool
    ensures { IsTrue result ↔ HalvesMeet secrets.now policy.now halves.now }
{
    are_due(policy, halves, secrets, halves) && have_all(policy, halves, 32)
}
