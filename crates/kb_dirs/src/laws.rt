//! Laws of what pointers hold. Each function does nothing: what it ensures is the law.
ghost use Rattle.kb_dirs.specs.Laws.{OneDir};

use kb_blocks::BlockHash;
use kb_seal::Sealer;

/// A pointer holds one directory, so what was built is what is listed.
pub fn one_directory_law<S: Sealer, H: BlockHash>()
    ensures { OneDir S.sealed H.hashed }
{}
