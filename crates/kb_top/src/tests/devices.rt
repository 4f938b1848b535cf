//! Device 1 on a disk in memory, beside a folder that it founded.
ghost use Rattle.std.specs.Prelude.{◌≡◌, IfOk, length};
ghost use Rattle.std.specs.Option.{ForSome};
ghost use Rattle.kb_device.specs.Devices.{Runs};

use kb_blocks::Sha256Hash;
use kb_chain::hash_of;
use kb_device::{Called, Device, Noted, Picked, PutAnswer};
use kb_edge::Memory;
use kb_folder::{Folder, beginning_law};
use kb_keys::Secrets;
use kb_memdisk::MemDisk;
use kb_name::{DeviceName, Moment};
use kb_ops::Request;
use kb_rekey::found;
use kb_seal::HmacSealer;
use std::alloc::Global;
use std::test::Fail;

/// A folder on a server.
pub type Shared = Folder<HmacSealer, Sha256Hash>;

/// A device with a disk in memory.
pub type Laptop = Device<MemDisk, HmacSealer, Sha256Hash>;

const SEED: [u8; 32] = [7; 32];

/// A folder that device 1 founded.
pub fn founded(alloc: Global) -> Result<Shared, Memory> {
    beginning_law::<HmacSealer, Sha256Hash>();
    let secrets = Secrets::new(SEED);
    let mut folder = Folder::new(alloc, 1_000_000);
    folder.register(1, secrets.device(1))?;
    found(alloc, &mut folder, &secrets, 1, Moment::START)?;
    Ok(folder)
}

/// Device 1 over a disk.
pub fn laptop(alloc: Global, disk: MemDisk) -> Result<Laptop, Fail>
    requires { length disk.now ≡ 4096 }
    ensures { IfOk result (λ device. ForSome device.session (Runs device.number)) }
{
    match DeviceName::new(alloc, b"laptop") {
        Ok(name) => Ok(Device::new(1, name, Secrets::new(SEED).device(1), disk)),
        Err(_) => Err(Fail::from("no name")),
    }
}

/// Device 1 with a new disk, opened over a folder.
pub fn opened(alloc: Global, folder: &Shared) -> Result<Laptop, Fail>
    ensures { IfOk result (λ device. ForSome device.session (Runs device.number)) }
{
    let disk = MemDisk::new(alloc, 4096)?;
    let mut laptop = laptop(alloc, disk)?;
    match laptop.open(alloc, folder) {
        Ok(_) => Ok(laptop),
        Err(_) => Err(Fail::from("not opened")),
    }
}

/// A file call that does something.
pub fn make(alloc: Global, laptop: &mut Laptop, request: &Request) -> Result<(), Fail>
    requires { ForSome laptop.old.session (Runs laptop.old.number) }
    ensures { ForSome laptop.new.session (Runs laptop.new.number) }
{
    match laptop.call(alloc, request, Moment::START) {
        Ok(Called::Done { .. }) => Ok(()),
        _ => Err(Fail::from("not done")),
    }
}

/// The request of the first operation.
pub fn picked(alloc: Global, laptop: &mut Laptop) -> Result<Picked, Fail>
    requires { ForSome laptop.old.session (Runs laptop.old.number) }
    ensures { ForSome laptop.new.session (Runs laptop.new.number) }
{
    match laptop.pick(alloc) {
        Ok(picked) => Ok(picked),
        Err(_) => Err(Fail::from("not picked")),
    }
}

/// Lands it.
pub fn land(laptop: &mut Laptop, folder: &mut Shared, picked: &Picked) -> Result<(), Fail>
    requires { ForSome laptop.old.session (Runs laptop.old.number) }
    ensures { ForSome laptop.new.session (Runs laptop.new.number) }
{
    let hash = hash_of(picked.request.revision.as_slice());
    let number = folder.put(&picked.request);
    match laptop.note(&PutAnswer { number, hash }) {
        Ok(Noted::Landed { .. }) => Ok(()),
        _ => Err(Fail::from("not landed")),
    }
}

/// Lands the first operation.
pub fn flush(alloc: Global, laptop: &mut Laptop, folder: &mut Shared) -> Result<(), Fail>
    requires { ForSome laptop.old.session (Runs laptop.old.number) }
    ensures { ForSome laptop.new.session (Runs laptop.new.number) }
{
    let picked = picked(alloc, laptop)?;
    land(laptop, folder, &picked)
}
