//! Laws of bundles. Each function does nothing: what it ensures is the law.
ghost use Rattle.kb_keys.specs.Laws.{AddedGive, RotatedGive};

use kb_seal::Sealer;

/// After a rotation each member's entry of the new generation gives that generation's folder key, with the half that
/// the server keeps.
pub fn rotated_law<S: Sealer>()
    ensures { RotatedGive S.sealed }
{}

/// After the entries of a ring were added for a device, its entry of each generation that had none before gives the
/// ring's key, with the half that the server keeps.
pub fn added_law<S: Sealer>()
    ensures { AddedGive S.sealed }
{}
