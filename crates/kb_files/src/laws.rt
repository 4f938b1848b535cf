//! Laws of what pointers hold. Each function does nothing: what it ensures is the law.
ghost use Rattle.kb_files.specs.Laws.{OneFile};

use kb_blocks::BlockHash;
use kb_seal::Sealer;

/// A pointer holds one file of a given size, so what was split is what is joined.
pub fn one_file_law<S: Sealer, H: BlockHash>()
    ensures { OneFile S.sealed H.hashed }
{}
