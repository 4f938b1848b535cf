//! What an audit tells of a folder's bytes, and where something of them is wrong.
ghost use Rattle.std.specs.Prelude.{◌≡◌, [], IfOk};
ghost use Rattle.kb_folder.specs.Held.{held};
ghost use Rattle.kb_folder.specs.Lands.{FolderStands};
ghost use Rattle.kb_rekey.specs.Founding.{any_names};
ghost use Rattle.kb_rekey.specs.Rekeying.{IsStanding};

use super::scripts::runs;
use kb_audit::{AuditFault, AuditWhy, audit};
use kb_blocks::{BlockHash, Sha256Hash, Store};
use kb_edge::Memory;
use kb_folder::{Folder, beginning_law};
use kb_keys::{Half, Halves, Role, Secrets};
use kb_name::{DeviceName, Moment};
use kb_rekey::{found, grant};
use kb_seal::{HmacSealer, Sealer};
use std::alloc::Global;
use std::test::Fail;

fn secrets() -> Secrets {
    Secrets::new([7; 32])
}

// A folder of three devices.
fn registered<S: Sealer, H: BlockHash>(
    alloc: Global,
    secrets: &Secrets,
) -> Result<Folder<S, H>, Memory>
    ensures standing { IfOk result (λ f. FolderStands S.sealed S.signed H.hashed secrets.now any_names (held f) []) }
    ensures registered { IfOk result (λ f. (held f).state.registered ≡ 3) }
{
    beginning_law::<S, H>();
    let mut folder = Folder::<S, H>::new(alloc, 1000000);
    folder.register(1, secrets.device(1))?;
    folder.register(2, secrets.device(2))?;
    folder.register(3, secrets.device(3))?;
    Ok(folder)
}

// The first one founded it.
fn begun<S: Sealer, H: BlockHash>(alloc: Global, secrets: &Secrets) -> Result<Folder<S, H>, Memory>
    ensures standing { IfOk result (λ f. IsStanding S.sealed S.signed H.hashed secrets.now (held f)) }
    ensures registered { IfOk result (λ f. (held f).state.registered ≡ 3) }
{
    let mut folder = registered::<S, H>(alloc, secrets)?;
    found::<S, H>(alloc, &mut folder, secrets, 1, Moment::START)?;
    Ok(folder)
}

// It granted another.
fn granted<S: Sealer, H: BlockHash>(
    alloc: Global,
    secrets: &Secrets,
) -> Result<Folder<S, H>, Memory> {
    let mut folder = begun::<S, H>(alloc, secrets)?;
    let role = Role::Writer;
    match grant::<S, H>(alloc, &mut folder, secrets, 1, 2, role, Moment::START) {
        Ok(_) => Ok(folder),
        Err(_) => Err(Memory),
    }
}

fn copied(alloc: Global, revisions: &[Vec<u8>]) -> Result<Vec<Vec<u8>>, Memory> {
    let mut copy = Vec::new(alloc);
    for bytes in revisions {
        let bytes = Vec::from_slice(alloc, bytes.as_slice())?;
        copy.push(bytes)?;
    }
    Ok(copy)
}

fn name(alloc: Global, names: &mut Vec<DeviceName>, text: &[u8]) -> Result<(), AuditFault> {
    let Ok(name) = DeviceName::new(alloc, text) else {
        return Err(AuditFault::Memory);
    };
    match names.push(name) {
        Ok(()) => Ok(()),
        Err(_) => Err(AuditFault::Memory),
    }
}

fn told(
    alloc: Global,
    revisions: &[Vec<u8>],
    store: &Store<Sha256Hash>,
    halves: &Halves,
) -> Result<u32, AuditFault> {
    let mut names = Vec::new(alloc);
    name(alloc, &mut names, b"laptop")?;
    name(alloc, &mut names, b"phone")?;
    name(alloc, &mut names, b"tablet")?;
    if names.len() > 3 || revisions.len() > 3 {
        return Err(AuditFault::Memory);
    }
    audit::<HmacSealer, Sha256Hash>(
        alloc,
        revisions,
        store,
        halves,
        names.as_slice(),
        &secrets(),
    )
}

fn at(number: u32, why: AuditWhy) -> Result<u32, AuditFault> {
    Err(AuditFault::At { number, why })
}

// With another last byte of the last revision, which is one of its signature.
fn forge(revisions: &mut Vec<Vec<u8>>) -> Result<(), Memory> {
    if let Some(bytes) = revisions.pop() {
        let mut forged = bytes;
        if let Some(byte) = forged.pop() {
            forged.push(byte ^ 1)?;
        }
        revisions.push(forged)?;
    }
    Ok(())
}

// One half alone.
fn one_half(alloc: Global, device: u16, generation: u32) -> Result<Halves, Memory> {
    let mut halves = Halves::new(alloc);
    halves.reserve(1)?;
    let half = secrets().half(device, generation);
    halves.add(&Half {
        device,
        generation,
        half,
    });
    Ok(halves)
}

#[test]
fn a_folder_is_whole_until_it_is_changed(rt: HostRuntime) -> Result<(), Memory> {
    let alloc = rt.alloc();
    let folder = granted::<HmacSealer, Sha256Hash>(alloc, &secrets())?;
    let (store, halves) = (folder.store(), folder.halves());
    let none = Store::new(alloc);
    let mut revisions = copied(alloc, folder.revisions())?;
    assert!(&rt; told(alloc, revisions.as_slice(), store, halves) == Ok(2));
    assert!(&rt; told(alloc, revisions.as_slice(), &none, halves) == at(1, AuditWhy::Blocks));
    let few = one_half(alloc, 1, 1)?;
    assert!(&rt; told(alloc, revisions.as_slice(), store, &few) == at(2, AuditWhy::Halves));
    forge(&mut revisions)?;
    assert!(&rt; told(alloc, revisions.as_slice(), store, halves) == at(2, AuditWhy::Signature));
    if revisions.len() == 2 {
        revisions.swap(0, 1);
    }
    assert!(&rt; told(alloc, revisions.as_slice(), store, halves) == at(1, AuditWhy::Number));
    Ok(())
}

#[test]
fn no_revision(rt: HostRuntime) -> Result<(), Memory> {
    let alloc = rt.alloc();
    let none = Store::new(alloc);
    assert!(&rt; told(alloc, &[], &none, &Halves::new(alloc)) == Ok(0));
    let one = one_half(alloc, 1, 1)?;
    assert!(&rt; told(alloc, &[], &none, &one) == at(0, AuditWhy::Halves));
    Ok(())
}

#[test]
fn a_resolved_folder(rt: HostRuntime) -> Result<(), Fail> {
    let script =
        "device laptop 65536\ndevice phone 65536\nfound laptop\nverify\ngrant laptop phone writer\nopen laptop\nopen phone\nmkdir laptop /a\nmkdir phone /a\nflush laptop\nflush phone\nresolve phone\nverify\nrevoke laptop phone\nverify\n";
    let text =
        "folder: at 1\nfolder: whole 1\nfolder: at 2\nlaptop: open at 2 queue 0 last 0\nphone: open at 2 queue 0 last 0\nlaptop: done 1\nphone: done 1\nlaptop: picked 1 as 3\nlaptop: landed 3\nlaptop: noted 3\nphone: picked 1 as 3\nphone: refused Stale 3\nphone: branched at 2\nphone: fetched 3\nphone: merged 4 copies 0 renamed 0 joined 1\nfolder: whole 4\nfolder: at 5\nfolder: whole 5\n";
    assert!(rt; runs(rt.alloc(), script, text)?);
    Ok(())
}
