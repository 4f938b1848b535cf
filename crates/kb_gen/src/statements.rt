//! Two devices that make the same files apart, and the resolution of the later one's branch.
ghost use Rattle.std.specs.Prelude.{◌≡◌, ◌≤◌, ◌++◌, true, IfOk, OnOk, codes};
ghost use Rattle.kb_name.specs.Names.{is_device_name};
ghost use Rattle.kb_ops.specs.declared.requests.Request.TheVariants as asked;
ghost use Rattle.kb_script.specs.Fit.{AllFit};
ghost use Rattle.kb_script.specs.declared.statements.Statement.TheVariants as said;
ghost use Rattle.kb_gen.specs.Generated.{moment, disk, path_of, text_of, beginning, files, ending, generated};

use kb_edge::Memory;
use kb_keys::Role;
use kb_name::{DeviceName, Moment, NameFault};
use kb_ops::{Bytes, Request, Word};
use kb_script::Statement;
use std::alloc::Global;

// The devices, in the order in which they are declared.
const LAPTOP: u16 = 1;

const PHONE: u16 = 2;

/// The bytes of each device's disk.
const DISK: u32 = 4_194_304;

/// The statements for a number of files, 1 to 1,000. Two devices make so many files each, of the same names, in one
/// directory that both know, and write a text of their own to each; one puts all that it did, and the other's branch is
/// resolved.
pub fn generate(alloc: Global, number: u32) -> Result<Vec<Statement>, Memory>
    requires { (1 ≤ number) × (number ≤ 1000) }
    ensures value { IfOk result (λ statements. statements.items ≡ generated number) }
    ensures fit { IfOk result (λ statements. AllFit statements.items) }
{
    let mut statements = beginning(alloc)?;
    files(alloc, &mut statements, LAPTOP, "l", number)?;
    files(alloc, &mut statements, PHONE, "p", number)?;
    statements.push(Statement::Drain { device: LAPTOP })?;
    statements.push(Statement::Flush { device: PHONE })?;
    statements.push(Statement::Resolve { device: PHONE })?;
    statements.push(Statement::Pull { device: LAPTOP })?;
    Ok(statements)
}

// The two devices are declared, and the folder has one directory, which both know.
fn beginning(alloc: Global) -> Result<Vec<Statement>, Memory>
    ensures { IfOk result (λ statements. statements.items ≡ beginning) }
{
    let mut statements = Vec::new(alloc);
    let moment = moment();
    statements.push(Statement::At { moment })?;
    statements.push(declare(alloc, b"laptop")?)?;
    statements.push(declare(alloc, b"phone")?)?;
    statements.push(Statement::Found { device: LAPTOP })?;
    statements.push(Statement::Grant {
        by: LAPTOP,
        device: PHONE,
        role: Role::Writer,
    })?;
    statements.push(Statement::Open { device: LAPTOP })?;
    statements.push(mkdir(alloc, LAPTOP)?)?;
    statements.push(Statement::Flush { device: LAPTOP })?;
    statements.push(Statement::Open { device: PHONE })?;
    Ok(statements)
}

fn moment() -> Moment
    ensures { result ≡ moment }
{
    match Moment::new(1_700_000_000) {
        Some(moment) => moment,
        None => unreachable!(),
    }
}

// Declares a device with this name.
fn declare(alloc: Global, name: &[u8]) -> Result<Statement, Memory>
    requires { is_device_name name.now ≡ true }
    ensures { IfOk result (λ statement. statement ≡ said.Device name.now disk) }
{
    match DeviceName::new(alloc, name) {
        Ok(name) => Ok(Statement::Device { name, size: DISK }),
        Err(NameFault::Memory) => Err(Memory),
        Err(NameFault::BadName) => unreachable!(),
    }
}

fn mkdir(alloc: Global, device: u16) -> Result<Statement, Memory>
    ensures { IfOk result (λ statement. statement ≡ said.File device (asked.Mkdir (codes "/d"))) }
{
    let path = Word::new(alloc, "/d")?;
    let request = Request::Mkdir { path };
    Ok(Statement::File { device, request })
}

// Adds that a device makes so many files and writes its text to each.
fn files(
    alloc: Global,
    statements: &mut Vec<Statement>,
    device: u16,
    letter: &str,
    number: u32,
) -> Result<(), Memory>
    ensures { OnOk result (statements.new.items ≡ statements.old.items ++ files device letter.now number) }
{
    for before in 0..number {
        let file = before + 1;
        statements.push(mkfile(alloc, device, file)?)?;
        statements.push(write(alloc, device, letter, file)?)?;
    }
    Ok(())
}

// The path of the file with this number.
fn path_of(alloc: Global, file: u32) -> Result<Word, Memory>
    ensures { IfOk result (λ path. path ≡ path_of file) }
{
    let text = format!(in alloc; "/d/f{file}")?;
    let path = Word::new(alloc, text.as_str())?;
    Ok(path)
}

fn mkfile(alloc: Global, device: u16, file: u32) -> Result<Statement, Memory>
    ensures { IfOk result (λ statement. statement ≡ said.File device (asked.Mkfile (path_of file))) }
{
    let path = path_of(alloc, file)?;
    let request = Request::Mkfile { path };
    Ok(Statement::File { device, request })
}

fn write(alloc: Global, device: u16, letter: &str, file: u32) -> Result<Statement, Memory>
    ensures { IfOk result (λ statement. statement ≡ said.File device (asked.Write (path_of file) 0 (text_of letter.now file))) }
{
    let path = path_of(alloc, file)?;
    let text = format!(in alloc; "{letter}{file}")?;
    let request = Request::Write {
        path,
        offset: 0,
        bytes: Bytes::new(text.into_bytes()),
    };
    Ok(Statement::File { device, request })
}
