// Clusters from the texts of their files.
ghost use Rattle.std.specs.Prelude.{IfSome};
ghost use Rattle.cluster_json.specs.Ranges.{IsFile};
ghost use Rattle.plan_terms.specs.Belongs.{Belongs};

use cluster_json::{ClusterFile, read_cluster};
use load_model::{Assign, Case};
use std::alloc::Global;

/// What the text of a cluster file says. `None` where it is refused, or for want of memory.
pub fn cluster(alloc: Global, text: &str) -> Option<ClusterFile>
    ensures { IfSome result IsFile }
{
    read_cluster(alloc, text.as_bytes()).ok()
}

/// These replica lists, one for each partition of the case. `None` where they are no lists of it,
/// or for want of memory.
pub fn assignment(alloc: Global, case: &Case, lists: &[&[u32]]) -> Option<Assign>
    ensures { IfSome result (λ made. Belongs case.now made) }
{
    let mut copies = Vec::new(alloc);
    for list in lists {
        copies.push(list.to_vec(alloc).ok()?).ok()?;
    }
    if copies.len() != case.parts().len() {
        return None;
    }
    Assign::new(alloc, case, copies).ok()
}
