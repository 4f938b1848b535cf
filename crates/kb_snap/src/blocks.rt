//! Lists of sealed blocks.
ghost use Rattle.std.specs.Prelude.{◌≡◌, map as each};

use std::marker::Model;

/// Sealed blocks.
#[derive(Drop)]
pub struct SealedBlocks {
    items: Vec<Vec<u8>>,
}

impl Model for SealedBlocks {
    ghost use Rattle.std.specs.Prelude.{List, ℕ, map};
    ghost use Rattle.std.specs.Coded.{coded_ℕ, coded_list};

    ghost Value = { List (List ℕ) };

    ghost coded = { coded_list (coded_list coded_ℕ) };

    ghost view = { λ a. map (λ b. b.items) a.items.items };
}

impl SealedBlocks {
    pub fn new(items: Vec<Vec<u8>>) -> Self
        ensures { result ≡ each (λ b. b.items) items.items }
    {
        SealedBlocks { items }
    }

    pub fn as_slice(&self) -> &[Vec<u8>]
        ensures { each (λ b. b.items) result.now ≡ self.now }
    {
        &self.items
    }

    pub fn into_vec(self) -> Vec<Vec<u8>>
        ensures { each (λ b. b.items) result.items ≡ self }
    {
        self.items
    }
}
