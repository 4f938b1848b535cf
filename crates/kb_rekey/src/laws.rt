//! Laws of changes of members. Each function does nothing: what it ensures is the law.
ghost use Rattle.std.specs.Prelude.{ℕ, List};
ghost use Rattle.kb_folder.specs.Chains.{Names};
ghost use Rattle.kb_rekey.specs.Founding.{FoundsGo};
ghost use Rattle.kb_rekey.specs.Rekeying.{RekeysGo};
ghost use Rattle.kb_rekey.specs.Having.{FoundsGive, GrantsGive, RevokesTake};

use kb_blocks::BlockHash;
use kb_seal::Sealer;

/// A founding leads to the plain machine's chain of the one revision.
pub fn found_law<S: Sealer, H: BlockHash>()
    ensures { (seed : List ℕ) (names : Names) → FoundsGo S.sealed S.signed H.hashed seed names }
{}

/// A grant or a revocation goes as the plain machine's step.
pub fn rekey_law<S: Sealer, H: BlockHash>()
    ensures { (seed : List ℕ) (names : Names) → RekeysGo S.sealed S.signed H.hashed seed names }
{}

/// The device that founds a folder gets its key, a granted one gets all keys, a revoked one loses its halves, and those
/// who remain get the new key.
pub fn members_law<S: Sealer, H: BlockHash>()
    ensures founds { FoundsGive S.sealed S.signed H.hashed }
    ensures grants { GrantsGive S.sealed S.signed H.hashed }
    ensures revokes { RevokesTake S.sealed S.signed H.hashed }
{}
