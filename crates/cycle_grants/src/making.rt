//! The ends of a new ring of grants.
ghost use Rattle.std.specs.Prelude.{◌≡◌, ◌<◌, length, IfOk};
ghost use Rattle.disk_ring.specs.Rings.{AllOfRoom};
ghost use Rattle.cycle_grants.specs.Making.{AreNewEnds};

use crate::allowance::Allowance;
use crate::granting::Granting;
use disk_ring::ring;
use run_world::Grant;
use ses_io::NoMemory;
use std::alloc::Global;

// An empty box.
fn husk(alloc: Global) -> Result<Box<Grant>, NoMemory> {
    let none = Grant {
        cycles: 0,
        edition: 0,
    };
    Ok(Box::new(alloc, none)?)
}

// So many of them.
fn husks(alloc: Global, count: u32) -> Result<Vec<Box<Grant>>, NoMemory>
    ensures { IfOk result (λ v. length v.items ≡ count) }
{
    let mut husks = Vec::new(alloc);
    for _made in 0..count {
        husks.push(husk(alloc)?)?;
    }
    Ok(husks)
}

/// The two ends of a new ring of so many grants, control's and the process's.
pub fn new_grants(alloc: Global, depth: u32) -> Result<(Granting, Allowance), NoMemory>
    requires { 0 < depth }
    ensures { IfOk result (λ ends. AreNewEnds depth ends.0 ends.1) }
{
    let (to, from) = ring(alloc, depth, husks(alloc, depth)?)?;
    let granting = Granting::new(to, husk(alloc)?);
    Ok((granting, Allowance::new(from, husk(alloc)?)))
}
