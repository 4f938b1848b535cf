//! Taking one revision more.
ghost use Rattle.std.specs.Prelude.{◌≡◌, ◌<◌, ◌≤◌, ◌+◌, true, List, ℕ, length};
ghost use Rattle.std.specs.List.{AllByRecursion};
ghost use Rattle.std.specs.FinMap as map;
ghost use Rattle.kb_name.specs.Names.{is_device_name};
ghost use Rattle.kb_folder.specs.Chains.{Back};
ghost use Rattle.kb_audit.specs.Stepping.{name_at};
ghost use Rattle.kb_audit.specs.Taking.{KnowsAll, IsKnown, Takes};

use crate::changing::go_on;
use crate::faults::{AuditWhy, Bad};
use crate::holding::holds;
use crate::knowing::{Known, Root};
use crate::opening::read_private;
use crate::reading::read_revision;
use crate::stepping::advance;
use kb_blocks::{BlockHash, Store};
use kb_keys::Secrets;
use kb_name::DeviceName;
use kb_seal::Sealer;
use std::alloc::Global;

/// Each name is that of a device.
pub(crate) fn are_named(names: &[DeviceName])
    ensures { AllByRecursion (λ (n : List ℕ). is_device_name n ≡ true) names.now }
{
    match names {
        [] => {}
        [name, rest @ ..] => {
            let _name = name.bytes();
            are_named(rest)
        }
    }
}

/// Takes the bytes of one revision more, where nothing is against them.
pub(crate) fn take_revision<S: Sealer, H: BlockHash>(
    alloc: Global,
    known: &mut Known,
    bytes: &[u8],
    store: &Store<H>,
    names: &[DeviceName],
    secrets: &Secrets,
) -> Result<(), Bad>
    requires few { length names.now ≤ 32 }
    requires room { known.old.state.length < 4294967295 }
    requires known { IsKnown S.sealed S.signed H.hashed secrets.now (name_at names.now) (length names.now) (map.get store.now) known.old }
    ensures { (bs : List (List ℕ)) (c : Back) → KnowsAll S.sealed S.signed H.hashed secrets.now (name_at names.now) (length names.now) (map.get store.now) bs c known.old
        → Takes S.sealed S.signed H.hashed secrets.now (name_at names.now) (length names.now) (map.get store.now) bs c bytes.now known.new result }
{
    are_named(names);
    let revision = match read_revision::<S>(alloc, &known.state, bytes, secrets) {
        Ok(revision) => revision,
        Err(fault) => return Err(fault),
    };
    let private = match read_private::<S>(alloc, &revision, secrets) {
        Ok(private) => private,
        Err(fault) => return Err(fault),
    };
    let key = secrets.folder(revision.generation);
    match known.ring.add(revision.generation, key) {
        Ok(()) => {}
        Err(_) => return Err(Bad::Memory),
    }
    let before = known.roots.as_slice();
    match advance::<S, H>(
        alloc,
        &mut known.table,
        before,
        &revision,
        &private,
        names,
        &known.ring,
        store,
    ) {
        Ok(()) => {}
        Err(fault) => return Err(fault),
    }
    let root = Root {
        ptr: private.root,
        mtime: private.mtime,
    };
    match holds::<S, H>(
        alloc,
        &known.table,
        root.ptr,
        root.mtime,
        &known.ring,
        store,
    ) {
        Ok(true) => {}
        Ok(false) => return Err(Bad::Is(AuditWhy::Blocks)),
        Err(_) => return Err(Bad::Memory),
    }
    match known.roots.push(root) {
        Ok(()) => {}
        Err(_) => return Err(Bad::Memory),
    }
    go_on(&mut known.state, &revision, bytes);
    Ok(())
}
