//! A declared device's branch: what it is to be merged into, and its resolution.
ghost use Rattle.std.specs.Prelude.{◌≡◌, ◌≤◌, ◌+◌, true, length, IfOk};
ghost use Rattle.kb_rules.specs.Meet.{Meet};
ghost use Rattle.kb_rules.specs.Merge.{splits, merge, report};
ghost use Rattle.kb_resolver.specs.Branches.{Lead, LooksFew};

use crate::declared::Declared;
use kb_actions::{Counted, edit_table};
use kb_blocks::BlockHash;
use kb_device::{Branch, FetchFault, SettleFault};
use kb_edge::{Disk, Memory};
use kb_folder::Folder;
use kb_name::Moment;
use kb_resolver::resolve;
use kb_rules::{Report, Stamp};
use kb_seal::Sealer;
use kb_tree::Table;
use std::alloc::Global;

/// The merge of a branch: its table, what it did, and how many rows of the three trees were looked at, at most
/// 18,446,744,073,709,551,615.
#[derive(Drop)]
pub struct Resolution {
    pub table: Table,
    pub report: Report,
    pub looked: u64,
}

// The merge of a branch, whose trees are seen by counted looks alone.
fn resolve_branch(alloc: Global, branch: &Branch, stamp: &Stamp) -> Result<Resolution, Memory>
    requires meet { Meet branch.now.base.now.tree branch.now.merged.now.tree branch.now.ours.now.tree stamp.now }
    requires merged_leads { branch.now.plain ≡ true → Lead branch.now.merged_ops.now branch.now.base.now.tree branch.now.merged.now.tree }
    requires our_leads { Lead branch.now.our_ops.now branch.now.base.now.tree branch.now.ours.now.tree }
    requires rule { stamp.now.rule ≡ 1 }
    requires few { length (splits branch.now.base.now.tree branch.now.merged.now.tree branch.now.ours.now.tree) ≤ 65535 }
    ensures merge { IfOk result (λ made. made.table.tree ≡ merge branch.now.base.now.tree branch.now.merged.now.tree branch.now.ours.now.tree stamp.now) }
    ensures report { IfOk result (λ made. made.report ≡ report branch.now.base.now.tree branch.now.merged.now.tree branch.now.ours.now.tree stamp.now) }
    ensures looks { IfOk result (λ made. branch.now.plain ≡ true → LooksFew (length branch.now.merged_ops.now + length branch.now.our_ops.now) branch.now.base.now.tree branch.now.merged.now.tree branch.now.ours.now.tree stamp.now 0 made.looked) }
{
    let mut base = Counted::new(branch.base);
    let mut merged = Counted::new(branch.merged);
    let mut ours = Counted::new(branch.ours);
    let (edits, report) = resolve(
        alloc,
        &mut base,
        &mut merged,
        branch.merged_ops,
        &mut ours,
        branch.our_ops,
        branch.plain,
        stamp,
    )?;
    let looked = base.count().saturating_add(merged.count());
    let looked = looked.saturating_add(ours.count());
    let table = edit_table(branch.merged, &edits)?;
    Ok(Resolution {
        table,
        report,
        looked,
    })
}

impl<D: Disk, S: Sealer, H: BlockHash> Declared<D, S, H> {
    ghost use Rattle.std.specs.Option.{ForSome};
    ghost use Rattle.kb_folder.specs.Held.{held};
    ghost use Rattle.kb_device.specs.Devices.{Runs, IsView};
    ghost use Rattle.kb_device.specs.Stands.{Member};
    ghost use Rattle.kb_world.specs.Turning.{Turned};
    ghost use Rattle.kb_world.specs.Branching.{FetchTurns, MayMerge, Resolved, SettleTurns};

    /// Fetches what the branch is to be merged into.
    pub fn fetch(&mut self, alloc: Global, folder: &Folder<S, H>) -> Result<u32, FetchFault>
        requires { ForSome self.old.device.session (Runs self.old.device.number) }
        ensures { Turned (held folder.now) self.old self.new (FetchTurns result) }
    {
        self.device.fetch(alloc, folder)
    }

    // The merge of the branch by the device with this number, where something was fetched.
    fn merged(&self, alloc: Global, number: u16, moment: Moment) -> Result<Resolution, SettleFault>
        requires { (v : Member) × IsView self.now.device v × MayMerge number v.inside }
        ensures { (v : Member) → IsView self.now.device v → Resolved number self.now.name moment v.inside result }
    {
        let status = match self.device.status() {
            Ok(status) => status,
            Err(_) => return Err(SettleFault::Closed),
        };
        let Some(branch) = self.device.branch() else {
            return Err(SettleFault::NoPlan);
        };
        let name = match self.name.clone() {
            Ok(name) => name,
            Err(_) => return Err(SettleFault::Memory),
        };
        let stamp = Stamp {
            device: number,
            name,
            last: status.last,
            moment,
            rule: 1,
        };
        match resolve_branch(alloc, &branch, &stamp) {
            Ok(made) => Ok(made),
            Err(_) => Err(SettleFault::Memory),
        }
    }

    /// Merges the branch into what was fetched, and puts the merge over the device's link. How many rows were looked at
    /// stands in `looked` once there is a merge, whatever becomes of the put.
    pub fn settle(
        &mut self,
        alloc: Global,
        folder: &mut Folder<S, H>,
        number: u16,
        moment: Moment,
        looked: &mut u64,
    ) -> Result<(u32, Report), SettleFault>
        requires runs { ForSome self.old.device.session (Runs self.old.device.number) }
        requires numbered { self.old.device.number ≡ number }
        requires merges { (v : Member) × IsView self.old.device v × MayMerge number v.inside }
        ensures { SettleTurns moment (held folder.old) (held folder.new) self.old self.new result }
    {
        let made = match self.merged(alloc, number, moment) {
            Ok(made) => made,
            Err(fault) => return Err(fault),
        };
        *looked = made.looked;
        let report = made.report;
        match self
            .device
            .settle(alloc, &mut self.link, folder, made.table, moment)
        {
            Ok(number) => Ok((number, report)),
            Err(fault) => Err(fault),
        }
    }
}
