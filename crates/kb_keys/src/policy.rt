//! Who writes and who reads.
ghost use Rattle.std.specs.Prelude.{◌≡◌, ◌<◌, ◌≤◌, None, replicate};
ghost use Rattle.kb_keys.specs.Policies.{role_at, role_after, generation_after, Applies};

use std::marker::Model;

/// What a member may do.
#[derive(Clone, Copy, Debug, PartialEq, Eq)]
pub enum Role {
    Writer,
    Reader,
}

/// A change of the members.
#[derive(Clone, Copy, Debug, PartialEq, Eq)]
pub enum Action {
    Found,
    GrantWriter,
    GrantReader,
    Revoke,
}

/// The members, with their roles, and the generation of the folder's key.
#[derive(Drop)]
pub struct Policy {
    // By the device's number, so that the first is of no device.
    roles: [Option<Role>; 33],
    generation: u32,
}

impl Model for Policy {
    ghost use Rattle.std.specs.Prelude.{◌≡◌, ℕ, List, Option, length};
    ghost use Rattle.kb_keys.specs.declared.policy.Role.{Role};

    ghost Value = { List (Option Role) × ℕ };

    ghost view = { λ p. (p.roles, p.generation) };

    ghost invariant = { λ p. length p.roles ≡ 33 };
}

fn role_after(action: Action) -> Option<Role>
    ensures { result ≡ role_after action }
{
    match action {
        Action::Found | Action::GrantWriter => Some(Role::Writer),
        Action::GrantReader => Some(Role::Reader),
        Action::Revoke => None,
    }
}

impl Policy {
    /// No member, at generation 0.
    pub fn new() -> Policy
        ensures { result ≡ (replicate 33 None, 0) }
    {
        Policy {
            roles: [None; 33],
            generation: 0,
        }
    }

    /// The role of a device, if it is a member.
    pub fn role(&self, d: u16) -> Option<Role>
        ensures { result ≡ role_at self.now.0 d }
    {
        let i = usize::from(d);
        if i < 33 { self.roles[i] } else { None }
    }

    /// How many keys the folder has had.
    pub fn generation(&self) -> u32
        ensures { result ≡ self.now.1 }
    {
        self.generation
    }

    /// Changes one device's role. A new folder and a revocation make a new generation.
    pub fn apply(&mut self, action: Action, d: u16)
        requires device { (0 < d) × (d ≤ 32) }
        requires generation { generation_after action self.old.1 ≤ 64 }
        ensures roles { Applies action d self.old.0 self.new.0 }
        ensures generation { self.new.1 ≡ generation_after action self.old.1 }
    {
        self.roles[usize::from(d)] = role_after(action);
        match action {
            Action::Found | Action::Revoke => {
                self.generation += 1;
            }
            Action::GrantWriter | Action::GrantReader => {}
        }
    }
}
