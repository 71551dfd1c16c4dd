// The lists of a cluster in memory.
ghost use Rattle.std.specs.Prelude.{◌≡◌, IfOk, IfSome};
ghost use Rattle.plan_terms.specs.Belongs.{IsAssignment};

use cluster_gate::{Admin, MemoryCluster};
use load_model::Assign;
use plan_terms::{Memory, Replicas};
use std::alloc::Global;

/// A copy of the lists that a cluster in memory has for so many partitions, which are all of its
/// own.
pub fn lists_told(alloc: Global, cluster: &MemoryCluster, parts: usize) -> Result<Assign, Memory>
    requires parts { parts ≡ ⟦<MemoryCluster as Admin>⟧.parts cluster.now }
    requires lists { IfSome (⟦<MemoryCluster as Admin>⟧.told cluster.now) IsAssignment }
    ensures { IfOk result
        (λ a. IfSome (⟦<MemoryCluster as Admin>⟧.told cluster.now) (λ lists. a ≡ lists)) }
{
    let mut lists = Vec::new(alloc);
    for part in 0..parts {
        lists.push(Replicas::of(alloc, cluster.list(part as u32))?)?;
    }
    Ok(Assign::of(lists))
}
