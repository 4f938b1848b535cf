//! Making a directory's block.
ghost use Rattle.std.specs.Prelude.{IfOk};
ghost use Rattle.kb_files.specs.Files.{IsFit};
ghost use Rattle.kb_files.specs.Splits.{OnceStored};
ghost use Rattle.kb_dirs.specs.Dirs.{AreProper, HoldsDir, IsDirMade};

use crate::encode::encode_dir;
use crate::entries::Entry;
use kb_blocks::{BlockHash, Ptr};
use kb_edge::Memory;
use kb_seal::{Key, Sealer};
use std::alloc::Global;

/// The pointer to the directory of these entries, and its block.
pub fn build_dir<S: Sealer, H: BlockHash>(
    alloc: Global,
    entries: &[Entry],
    key: &Key,
    generation: u32,
) -> Result<(Ptr, Vec<Vec<u8>>), Memory>
    requires { AreProper entries.now }
    ensures made { IfOk result (λ made. IsDirMade S.sealed H.hashed key.now generation entries.now made.0 made.1.items) }
    ensures holds { IfOk result (λ made. OnceStored H.hashed S.sealed generation key.now made.1.items (λ vault. HoldsDir vault made.0 entries.now)) }
    ensures fit { IfOk result (λ made. IsFit made.0) }
{
    let text = encode_dir(alloc, entries)?;
    let sealed = S::seal(alloc, key, &text)?;
    let id = H::hash(&sealed);
    let mut made = Vec::new(alloc);
    made.push(sealed)?;
    Ok((Ptr { id, generation }, made))
}
