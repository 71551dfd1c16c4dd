// A cluster and a copier in memory. They tell what they did, and never fail of themselves.
ghost use Rattle.std.specs.Prelude.{◌≡◌, ◌≤◌, ◌<◌, [], None, Some, IfOk, IfSome, length};
ghost use Rattle.plan_terms.specs.Cluster.{list_of};
ghost use Rattle.cluster_gate.specs.Held.{AreFew};

use crate::admin::{Admin, InstallFault};
use crate::copier::{ChunkCopy, Copier, CopyFault};
use crate::held::HeldList;
use cc_base::Failed;
use load_model::Assign;
use plan_terms::{Memory, Replicas};
use std::alloc::Global;

/// The lists of a cluster in memory. A call fails only for want of memory.
#[derive(Drop)]
pub struct MemoryCluster {
    lists: Vec<HeldList>,
}

impl MemoryCluster {
    /// A cluster without lists.
    pub fn new(alloc: Global) -> Self
        ensures told { ⟦<Self as Admin>⟧.told result ≡ Some [] }
        ensures parts { ⟦<Self as Admin>⟧.parts result ≡ 0 }
    {
        MemoryCluster {
            lists: Vec::new(alloc),
        }
    }

    /// The list of a partition.
    pub fn list(&self, part: u32) -> &[u32]
        requires { part < ⟦<Self as Admin>⟧.parts self.now }
        ensures { IfSome (⟦<Self as Admin>⟧.told self.now)
            (λ lists. result.now ≡ list_of lists part) }
    {
        self.lists[part as usize].as_slice()
    }
}

// These lists, held in place.
fn held(alloc: Global, lists: &[Replicas]) -> Result<Vec<HeldList>, Memory>
    requires { AreFew lists.now }
    ensures { IfOk result (λ v. v.items ≡ lists.now) }
{
    let mut out = Vec::new(alloc);
    for list in lists {
        out.push(HeldList::of(list.as_slice()))?;
    }
    Ok(out)
}

impl Admin for MemoryCluster {
    ghost faults = { λ _. 0 };

    ghost parts = { λ m. length m.lists.items };

    ghost told = { λ m. Some m.lists.items };

    ghost calls = { λ _. None };

    fn install(&mut self, alloc: Global, lists: &Assign) -> Result<(), InstallFault> {
        self.lists = held(alloc, lists.lists())?;
        Ok(())
    }

    fn begin(&mut self, part: u32, union: &[u32]) -> Result<(), Failed> {
        self.lists[part as usize].set(union);
        Ok(())
    }

    fn commit(&mut self, part: u32, after: &[u32]) -> Result<(), Failed> {
        self.lists[part as usize].set(after);
        Ok(())
    }

    fn cancel(&mut self, part: u32, before: &[u32]) -> Result<(), Failed> {
        self.lists[part as usize].set(before);
        Ok(())
    }
}

/// A copier that only notes the copies. A copy fails only for want of memory.
#[derive(Drop)]
pub struct MemoryCopier {
    copies: Vec<ChunkCopy>,
}

impl MemoryCopier {
    /// A copier that made no copy.
    pub fn new(alloc: Global) -> Self
        ensures { ⟦<Self as Copier>⟧.copies result ≡ Some [] }
    {
        MemoryCopier {
            copies: Vec::new(alloc),
        }
    }

    /// The copies that were made, in order.
    pub fn copies(&self) -> &[ChunkCopy]
        ensures { ⟦<Self as Copier>⟧.copies self.now ≡ Some result.now }
    {
        self.copies.as_slice()
    }
}

impl Copier for MemoryCopier {
    ghost faults = { λ _. 0 };

    ghost copies = { λ m. Some m.copies.items };

    fn copy(&mut self, part: u32, to: u32, chunk: u32) -> Result<(), CopyFault> {
        self.copies.push(ChunkCopy { part, to, chunk })?;
        Ok(())
    }
}
