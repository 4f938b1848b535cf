//! Branches of random calls: merged by what operations did they are what they are by lists of rows.
ghost use Rattle.std.specs.Prelude.{◌<◌};

use crate::tests::conflicts::merged;
use std::alloc::Global;
use std::test::Fail;

/// Numbers that look random.
#[derive(Drop)]
struct Random {
    state: u64,
}

impl Random {
    /// A number below a count, which isn't 0.
    fn below(&mut self, count: u64) -> u64
        requires { 0 < count }
    {
        self.state = self
            .state
            .wrapping_mul(6_364_136_223_846_793_005)
            .wrapping_add(1_442_695_040_888_963_407);
        (self.state >> 33) % count
    }

    fn name(&mut self) -> &'static str {
        match self.below(3) {
            0 => "a",
            1 => "b",
            _ => "c",
        }
    }

    fn path(&mut self, alloc: Global) -> Result<String, Fail> {
        let first = self.name();
        let second = self.name();
        match self.below(2) {
            0 => Ok(format!(in alloc; "/{first}")?),
            _ => Ok(format!(in alloc; "/{first}/{second}")?),
        }
    }

    /// A call of a device, which may be refused.
    fn call(&mut self, alloc: Global, device: &str) -> Result<String, Fail> {
        let path = self.path(alloc)?;
        let other = self.path(alloc)?;
        let text = self.name();
        match self.below(8) {
            0 | 1 => Ok(format!(in alloc; "mkdir {device} {path}\n")?),
            2 | 3 => Ok(format!(in alloc; "mkfile {device} {path}\n")?),
            4 | 5 => Ok(format!(in alloc; "write {device} {path} 0 ={text}\n")?),
            6 => Ok(format!(in alloc; "rm {device} {path}\n")?),
            _ => Ok(format!(in alloc; "mv {device} {path} {other}\n")?),
        }
    }

    fn calls(&mut self, alloc: Global, device: &str, count: u32) -> Result<String, Fail> {
        let mut calls = String::new(alloc);
        for _ in 0..count {
            let call = self.call(alloc, device)?;
            calls.push_str(call.as_str())?;
        }
        Ok(calls)
    }
}

/// Merges two random branches both ways, and tells whether there was a conflict.
fn conflicts(alloc: Global, seed: u64) -> Result<bool, Fail> {
    let mut random = Random { state: seed };
    let tree = random.calls(alloc, "laptop", 12)?;
    let laptop = random.calls(alloc, "laptop", 12)?;
    let phone = random.calls(alloc, "phone", 16)?;
    let phone = format!(in alloc; "mkfile phone /p\n{phone}")?;
    let by_actions = merged(alloc, false, &tree, &laptop, &phone, "tree phone\n")?;
    let by_rows = merged(alloc, true, &tree, &laptop, &phone, "tree phone\n")?;
    if by_actions != by_rows {
        return Err(Fail::from("two merges differ"));
    }
    Ok(
        by_rows
            .as_str()
            .find(" copies 0 renamed 0 joined 0\n")
            .is_none(),
    )
}

#[test]
fn random_branches_merge_both_ways(rt: HostRuntime) -> Result<(), Fail> {
    let mut count: u64 = 0;
    for seed in 0..60 {
        if conflicts(rt.alloc(), seed)? {
            count = count.saturating_add(1);
        }
    }
    assert!(rt; count > 20);
    Ok(())
}
