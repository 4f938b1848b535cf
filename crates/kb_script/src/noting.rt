ghost use Rattle.std.specs.Prelude.{◌≡◌, OnOk};
ghost use Rattle.kb_script.specs.Fit.{IsFit};
ghost use Rattle.kb_script.specs.Seen.{known, count_in, IsNew};
ghost use Rattle.kb_script.specs.Earlier.{start, after};

use super::state::Seen;
use super::statements::Statement;
use indexmap::IndexSet;
use std::alloc::{AllocError, Global};

/// Before the first line.
pub fn start(alloc: Global) -> Seen
    ensures { known result ≡ start }
{
    Seen {
        devices: IndexSet::new(alloc),
        found: false,
        begun: false,
    }
}

/// Takes note of a statement that fits here; a device's name is new.
pub fn note(alloc: Global, seen: &mut Seen, statement: &Statement) -> Result<(), AllocError>
    requires fit { IsFit (count_in seen.old) seen.old.found statement.now }
    requires new { IsNew (known seen.old) statement.now }
    ensures { OnOk result (known seen.new ≡ after (known seen.old) statement.now) }
{
    seen.begun = true;
    match statement {
        Statement::Device { name, .. } => {
            let name = Vec::from_slice(alloc, name.bytes())?;
            seen.devices.insert(name)?;
        }
        Statement::Found { .. } => seen.found = true,
        _ => {}
    }
    Ok(())
}
