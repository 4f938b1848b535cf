//! The tree after a revision.
ghost use Rattle.std.specs.Prelude.{◌≡◌, ◌≤◌, ◌+◌, IfOk, IsSomeAnd, length};
ghost use Rattle.std.specs.FinMap as map;
ghost use Rattle.kb_keys.specs.Rings.{key_at};
ghost use Rattle.kb_ops.specs.Trees.{Tree};
ghost use Rattle.kb_files.specs.Opens.{Opens};
ghost use Rattle.kb_snap.specs.Holds.{HoldsTree};
ghost use Rattle.kb_chain.specs.Privates.{IsBaseOf};
ghost use Rattle.kb_audit.specs.Facts.{IsBelow};
ghost use Rattle.kb_audit.specs.Stepping.{name_at, LoadsBase, StepsOn, MergesOn, MergesBy, Advances};

use crate::faults::{AuditWhy, Bad};
use crate::folding::fold_all;
use crate::knowing::Root;
use crate::merging::merge_tables;
use kb_blocks::{BlockHash, Store};
use kb_chain::{Private, Revision, RevisionKind};
use kb_edge::Memory;
use kb_files::LoadFault;
use kb_keys::KeyRing;
use kb_name::DeviceName;
use kb_ops::Op;
use kb_resolver::few_are_split;
use kb_rules::Stamp;
use kb_seal::Sealer;
use kb_snap::{load, one_tree_law};
use kb_tree::Table;
use std::alloc::Global;

fn stamp_for(revision: &Revision, names: &[DeviceName], rule: u8) -> Result<Stamp, Memory>
    requires low { 1 ≤ revision.now.writer }
    requires high { revision.now.writer ≤ length names.now }
    ensures { IfOk result (λ s. s ≡ record { device = revision.now.writer; name = name_at names.now revision.now.writer; last = revision.now.last; moment = revision.now.moment; rule = rule }) }
{
    let name = names[usize::from(revision.writer) - 1].clone()?;
    Ok(Stamp {
        device: revision.writer,
        name,
        last: revision.last,
        moment: revision.moment,
        rule,
    })
}

fn step_tree(alloc: Global, table: &mut Table, ops: &[Op]) -> Result<(), Bad>
    ensures { StepsOn ops.now table.old.tree table.new.tree result }
{
    match fold_all(alloc, table, ops) {
        Ok(true) => Ok(()),
        Ok(false) => Err(Bad::Is(AuditWhy::Operation)),
        Err(_) => Err(Bad::Memory),
    }
}

// The tree that the root's pointer holds, which is stored.
fn load_base<S: Sealer, H: BlockHash>(
    alloc: Global,
    root: Root,
    ring: &KeyRing,
    store: &Store<H>,
) -> Result<Table, Memory>
    ensures { LoadsBase (HoldsTree (Opens S.sealed H.hashed (map.get store.now) (key_at ring.now)) root.ptr root.mtime) result }
{
    one_tree_law::<S, H>();
    match load::<S, H>(alloc, root.ptr, root.mtime, ring, store) {
        Ok((table, _pointers)) => Ok(table),
        Err(LoadFault::Missing { .. }) => Err(Memory),
        Err(LoadFault::BadBlock { .. }) => Err(Memory),
        Err(LoadFault::Memory) => Err(Memory),
    }
}

fn merge_tree<S: Sealer, H: BlockHash>(
    alloc: Global,
    table: &mut Table,
    root: Root,
    ops: &[Op],
    stamp: &Stamp,
    ring: &KeyRing,
    store: &Store<H>,
) -> Result<(), Bad>
    requires few { length ops.now ≤ 4096 }
    ensures { (b : Tree) → HoldsTree (Opens S.sealed H.hashed (map.get store.now) (key_at ring.now)) root.ptr root.mtime b → MergesOn b ops.now stamp.now table.old.tree table.new.tree result }
{
    let base = match load_base::<S, H>(alloc, root, ring, store) {
        Ok(base) => base,
        Err(_) => return Err(Bad::Memory),
    };
    let mut ours = match base.copy() {
        Ok(ours) => ours,
        Err(_) => return Err(Bad::Memory),
    };
    match fold_all(alloc, &mut ours, ops) {
        Ok(true) => {}
        Ok(false) => return Err(Bad::Is(AuditWhy::Operation)),
        Err(_) => return Err(Bad::Memory),
    }
    few_are_split();
    match merge_tables(alloc, &base, table, &ours, stamp) {
        Ok(Some(merged)) => {
            *table = merged;
            Ok(())
        }
        Ok(None) => Err(Bad::Is(AuditWhy::Operation)),
        Err(_) => Err(Bad::Memory),
    }
}

// Goes on to the tree after a merge by the rule of this number.
fn merge_revision<S: Sealer, H: BlockHash>(
    alloc: Global,
    table: &mut Table,
    roots: &[Root],
    revision: &Revision,
    private: &Private,
    names: &[DeviceName],
    rule: u8,
    ring: &KeyRing,
    store: &Store<H>,
) -> Result<(), Bad>
    requires low { 1 ≤ revision.now.writer }
    requires high { revision.now.writer ≤ length names.now }
    requires base { IsSomeAnd private.now.base (λ base. 1 ≤ base) }
    requires below { IsBelow private.now.base (length roots.now + 1) }
    requires few { length private.now.ops ≤ 4096 }
    ensures { MergesBy S.sealed H.hashed (map.get store.now) (name_at names.now) ring.now roots.now revision.now private.now rule private.now.base table.old.tree table.new.tree result }
{
    match private.base {
        Some(base) => {
            let stamp = match stamp_for(revision, names, rule) {
                Ok(stamp) => stamp,
                Err(_) => return Err(Bad::Memory),
            };
            let root = roots[base as usize - 1];
            let ops = private.ops.as_slice();
            merge_tree::<S, H>(alloc, table, root, ops, &stamp, ring, store)
        }
        None => unreachable!(),
    }
}

/// Goes on to the tree after the revision, where its operations fit.
pub(crate) fn advance<S: Sealer, H: BlockHash>(
    alloc: Global,
    table: &mut Table,
    roots: &[Root],
    revision: &Revision,
    private: &Private,
    names: &[DeviceName],
    ring: &KeyRing,
    store: &Store<H>,
) -> Result<(), Bad>
    requires low { 1 ≤ revision.now.writer }
    requires high { revision.now.writer ≤ length names.now }
    requires base { IsBaseOf revision.now.kind private.now.base }
    requires below { IsBelow private.now.base (length roots.now + 1) }
    requires few { length private.now.ops ≤ 4096 }
    ensures { Advances S.sealed H.hashed (map.get store.now) (name_at names.now) ring.now roots.now revision.now private.now revision.now.kind private.now.base table.old.tree table.new.tree result }
{
    match revision.kind {
        RevisionKind::Found => Ok(()),
        RevisionKind::Rekey => Ok(()),
        RevisionKind::Step => step_tree(alloc, table, private.ops.as_slice()),
        RevisionKind::Steps => step_tree(alloc, table, private.ops.as_slice()),
        RevisionKind::Merge => {
            merge_revision::<S, H>(
                alloc, table, roots, revision, private, names, 1, ring, store,
            )
        }
        RevisionKind::Join => {
            merge_revision::<S, H>(
                alloc, table, roots, revision, private, names, 2, ring, store,
            )
        }
    }
}
