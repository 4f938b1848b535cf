//! Making the blocks of a tree.
ghost use Rattle.std.specs.Prelude.{◌≡◌, ◌≤◌, ◌++◌, length, IfOk, OnOk, IsSome};
ghost use Rattle.std.specs.FinMap as map;
ghost use Rattle.kb_name.specs.Nodes.{root as root_id};
ghost use Rattle.kb_ops.specs.Trees.{look};
ghost use Rattle.kb_files.specs.Files.{HoldsFile};
ghost use Rattle.kb_files.specs.Splits.{OnceStored};
ghost use Rattle.kb_snap.specs.Holds.{Holds};
ghost use Rattle.kb_snap.specs.Pointers.{AllHold};
ghost use Rattle.kb_snap.specs.Builds.{ArePointed, IsSealed, AddsRow, OnceAllStored, IsMade, KeepsPointers};

use crate::blocks::SealedBlocks;
use crate::listing::entries_below;
use crate::order::top_down;
use crate::pointers::Pointers;
use kb_blocks::{BlockHash, Ptr};
use kb_dirs::build_dir;
use kb_edge::Memory;
use kb_files::{FileFault, split};
use kb_name::NodeId;
use kb_ops::Kind;
use kb_seal::{Key, Sealer};
use kb_tree::Table;
use std::alloc::Global;

/// The pointer to a tree, the blocks that were made for it, each row's behind those of the rows below it, and the
/// pointers of all its rows.
#[derive(Drop)]
pub struct Built {
    pub root: Ptr,
    pub blocks: SealedBlocks,
    pub pointers: Pointers,
}

fn seal_bytes<S: Sealer, H: BlockHash>(
    alloc: Global,
    bytes: &[u8],
    key: &Key,
    generation: u32,
) -> Result<(Ptr, Vec<Vec<u8>>), Memory>
    requires { length bytes.now ≤ 16777216 }
    ensures { IfOk result (λ made. OnceStored H.hashed S.sealed generation key.now made.1.items (λ vault. HoldsFile vault made.0 bytes.now)) }
{
    match split::<S, H>(alloc, bytes, key, generation) {
        Ok(made) => Ok(made),
        Err(FileFault::TooBig) => unreachable!(),
        Err(FileFault::Memory) => Err(Memory),
    }
}

// The pointer to a row whose children have pointers, and its blocks.
fn seal_row<S: Sealer, H: BlockHash>(
    alloc: Global,
    table: &Table,
    pointers: &Pointers,
    id: NodeId,
    key: &Key,
    generation: u32,
) -> Result<(Ptr, Vec<Vec<u8>>), Memory>
    requires row { IsSome (look table.now.tree id) }
    requires pointed { ArePointed (look table.now.tree) (map.get pointers.now) id }
    ensures { IfOk result (λ made. IsSealed S.sealed H.hashed key.now generation (look table.now.tree) (map.get pointers.now) id made.0 made.1.items) }
{
    table.is_well_formed();
    let Some(row) = table.get(id) else {
        unreachable!()
    };
    match row.kind {
        Kind::Dir => {
            let entries = entries_below(alloc, table, pointers, id)?;
            let made = build_dir::<S, H>(alloc, &entries, key, generation)?;
            Ok(made)
        }
        Kind::File => {
            let made = seal_bytes::<S, H>(alloc, row.bytes.as_slice(), key, generation)?;
            Ok(made)
        }
        Kind::Link => {
            let made = seal_bytes::<S, H>(alloc, row.bytes.as_slice(), key, generation)?;
            Ok(made)
        }
    }
}

// Seals a row, with its blocks behind those that were made.
fn add_row<S: Sealer, H: BlockHash>(
    alloc: Global,
    table: &Table,
    pointers: &Pointers,
    id: NodeId,
    key: &Key,
    generation: u32,
    blocks: &mut Vec<Vec<u8>>,
) -> Result<Ptr, Memory>
    requires row { IsSome (look table.now.tree id) }
    requires pointed { ArePointed (look table.now.tree) (map.get pointers.now) id }
    ensures { IfOk result (λ ptr. AddsRow S.sealed H.hashed key.now generation (look table.now.tree) (map.get pointers.now) id ptr blocks.old.items blocks.new.items) }
{
    let (ptr, mut made) = seal_row::<S, H>(alloc, table, pointers, id, key, generation)?;
    blocks.append(&mut made)?;
    Ok(ptr)
}

/// The tree's root pointer with the blocks of exactly the rows that have no kept pointer. Once these blocks are stored
/// beside those of the kept pointers, the root's pointer holds the tree.
pub fn build<S: Sealer, H: BlockHash>(
    alloc: Global,
    table: &Table,
    old: &Pointers,
    key: &Key,
    generation: u32,
) -> Result<Built, Memory>
    ensures tree { IfOk result (λ built. OnceAllStored H.hashed S.sealed generation key.now built.blocks (λ vault. AllHold vault (look table.now.tree) old.now → Holds vault (look table.now.tree) root_id built.root)) }
    ensures holds { IfOk result (λ built. OnceAllStored H.hashed S.sealed generation key.now built.blocks (λ vault. AllHold vault (look table.now.tree) old.now → AllHold vault (look table.now.tree) built.pointers)) }
    ensures kept { IfOk result (λ built. KeepsPointers table.now.tree old.now built.pointers built.root) }
    ensures made { IfOk result (λ built. IsMade S.sealed H.hashed key.now generation table.now.tree old.now built.pointers built.blocks) }
{
    table.is_well_formed();
    let mut left = top_down(alloc, table)?;
    let mut blocks = Vec::new(alloc);
    let mut pointers = Pointers::new(alloc);
    'rows: while let Some(id) = left.pop() {
        let ptr = match old.get(id) {
            Some(ptr) => ptr,
            None => add_row::<S, H>(alloc, table, &pointers, id, key, generation, &mut blocks)?,
        };
        pointers.set(id, ptr)?;
    }
    let Some(root) = pointers.get(NodeId::ROOT) else {
        unreachable!()
    };
    Ok(Built {
        root,
        blocks: SealedBlocks::new(blocks),
        pointers,
    })
}
